// One mailbox on the tool's line that asks for an answer: its SDO served, of 8 to 120 bytes, and the answer put into a mailbox.
#![tactic(auto)]

ghost use Rattle.std.specs.Prelude.{◌≡◌, ◌+◌, ◌≤◌, Some, length};
ghost use Rattle.mailbox.specs.Mail.{mailbox_size};
ghost use Rattle.sdo.specs.Eight.{heard_of};
ghost use Rattle.line.specs.Serving.{Ready, told};
ghost use Rattle.outbox.specs.Showing.{SdoLong};
ghost use Rattle.inbox.specs.Taking.{long_told, spoken_length};
ghost use Rattle.post.specs.Delivery.{count_by, mail_told};

use line::reply;
use mailbox::Head;
use sdo::{Message, answer};
use state::State;
use table::{Block, Values};

// How many bytes a part brings: of an SDO of eight bytes as many as it says, of a longer one all behind the first.
fn part_count(used: usize, len: usize) -> usize
    requires { (8 ≤ len) × (used ≤ 7) }
    ensures { (result ≡ count_by used len) × (1 + result ≤ len) }
{
    if len <= 8 {
        return used;
    }
    len - 1
}

// The answer's SDO at the head of the room, and all that the message does; gives the SDO's length.
fn speak(
    values: &mut Values,
    block: &mut Block,
    state: &mut State,
    at: usize,
    said: Message,
    s: &[u8],
    room: &mut [u8],
) -> usize
    requires { Ready at room.old × (120 ≤ length room.old) × (8 ≤ length s.now) × (heard_of s.now ≡ Some said) }
    ensures { (told values.new block.new state.new room.new ≡ long_told at s.now values.old block.old state.old room.old) × (result ≡ spoken_length at s.now values.old block.old state.old) × SdoLong result }
{
    match said {
        Message::SendPart(toggle, used, last) => {
            let count = part_count(used, s.len());
            let part = &s[sdo::PART_AT..sdo::PART_AT + count];
            inbox::send_part(values, block, state, at, toggle, part, last, room);
            sdo::SIZE
        }
        Message::OpenWrite(k, opening) => {
            inbox::open_write(values, block, state, at, k, opening, s, room);
            sdo::SIZE
        }
        Message::OpenRead(k) => outbox::open_read(values, state, at, k, room),
        Message::NextPart(toggle) => outbox::next_part(state, at, toggle, room),
        Message::Unknown => {
            reply::ended(state, at, room, answer::no_transfer());
            sdo::SIZE
        }
    }
}

// The SDO s of a mailbox with this head is served, and the answer is a mailbox.
pub fn deliver(
    values: &mut Values,
    block: &mut Block,
    state: &mut State,
    at: usize,
    head: Head,
    said: Message,
    s: &[u8],
    answer: &mut [u8],
)
    requires { Ready at answer.old × (mailbox_size ≤ length answer.old) × (8 ≤ length s.now) × (heard_of s.now ≡ Some said) }
    ensures { told values.new block.new state.new answer.new ≡ mail_told at head s.now values.old block.old state.old answer.old }
{
    let len = speak(
        values,
        block,
        state,
        at,
        said,
        s,
        &mut answer[mailbox::SDO_AT..mailbox::SIZE],
    );
    mailbox::seal(answer, head, len);
}
