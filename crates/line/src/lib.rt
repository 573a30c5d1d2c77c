// One message on one line that asks for an answer, by what it says. Values, block, state, the record's place and the room are parameters of their own: each
// function is lent another choice of them, a reply neither values nor block, a read its values shared, and in one struct each contract would say what stays.
#![tactic(auto)]

pub mod read;
pub mod reply;
pub mod write;

ghost use Rattle.std.specs.Prelude.{◌≡◌, Some, length};
ghost use Rattle.sdo.specs.Eight.{heard_of};
ghost use Rattle.line.specs.Serving.{Ready, told, message_told};

use sdo::{Message, answer};
use state::State;
use table::{Block, Values};

// The answer, and all that the message does.
pub fn speak(
    values: &mut Values,
    block: &mut Block,
    state: &mut State,
    at: usize,
    said: Message,
    m: &[u8],
    room: &mut [u8],
)
    requires { Ready at room.old × (length m.now ≡ 8) × (heard_of m.now ≡ Some said) }
    ensures { told values.new block.new state.new room.new ≡ message_told at m.now values.old block.old state.old room.old }
{
    match said {
        Message::SendPart(toggle, count, last) => {
            let part = &m[sdo::PART_AT..sdo::PART_AT + count];
            write::send_part(values, block, state, at, toggle, part, last, room)
        }
        Message::OpenWrite(k, opening) => {
            write::open_write(values, block, state, at, k, opening, m, room)
        }
        Message::OpenRead(k) => read::open_read(values, state, at, k, room),
        Message::NextPart(toggle) => read::next_part(state, at, toggle, room),
        Message::Unknown => reply::ended(state, at, room, answer::no_transfer()),
    }
}
