// Lines are served: each gets its reply at once.
ghost use Rattle.std.specs.Prelude.{◌≡◌, ◌≤◌, Option, length, take, IfOk, OnErr};
ghost use Rattle.talk.specs.Turns.{turn, taken, OnLines};
ghost use Rattle.talk.specs.Run.{progress, after_line, after_byte, after_bytes, SomeTaken};

use dialogue::hear::Pending;
use dialogue::{Spoken, print};
use std::io;

// What the board is lent.
#[derive(Clone, Copy)]
pub struct Memory {
    pub values: [u8; board::VALUES_SIZE],
    pub block: [u8; board::BLOCK_SIZE],
    pub state: [u8; board::STATE_SIZE],
}

// Puts the reply to a line at the start of the room and gives its length.
fn reply(spoken: Option<Spoken>, memory: &mut Memory, room: &mut [u8]) -> usize
    requires { OnLines spoken × (19 ≤ length room.old) }
    ensures { (result ≤ 19) × (turn (take result room.new) memory.new ≡ taken spoken memory.old) }
{
    let Some(message) = spoken else {
        return print::put_unknown(room);
    };
    let line = message.line;
    let eight = message.eight;
    let mut answer = [0u8; 8];
    let number = board::gauge_message(
        u32::from(line),
        &eight,
        &mut memory.values,
        &mut memory.block,
        &mut memory.state,
        &mut answer,
    );
    let unanswered = number == 5;
    if unanswered {
        return print::put_none(room, line);
    }
    print::put_answer(room, line, &answer)
}

// Prints the reply to the line that has come.
pub fn serve_line(rt: &impl Print, pending: &Pending, memory: &mut Memory) -> io::Result<()>
    ensures { memory.new ≡ after_line pending.now memory.old }
{
    let mut room = [0u8; 19];
    let count = reply(pending.said(), memory, &mut room);
    rt.write_all(&room[..count])
}

// Takes one byte of the input; a line that ends with it is served. Where its reply is not printed, the byte was taken.
fn serve_byte(
    rt: &impl Print,
    pending: &mut Pending,
    byte: u8,
    memory: &mut Memory,
) -> io::Result<()>
    ensures { progress pending.new memory.new ≡ after_byte (progress pending.old memory.old) byte }
{
    pending.push(byte);
    if pending.ended {
        serve_line(rt, pending, memory)?;
    }
    Ok(())
}

// Takes these bytes of the input. Where a reply is not printed, the bytes up to the end of its line were taken.
pub fn serve_bytes(
    rt: &impl Print,
    bytes: &[u8],
    pending: &mut Pending,
    memory: &mut Memory,
) -> io::Result<()>
    ensures kept { pending.old.count ≤ 20 → pending.new.count ≤ 20 }
    ensures ok { IfOk result (λ _. progress pending.new memory.new ≡ after_bytes (progress pending.old memory.old) bytes.now) }
    ensures err { OnErr result (SomeTaken (progress pending.old memory.old) bytes.now memory.new) }
{
    for byte in bytes {
        serve_byte(rt, pending, *byte, memory)?;
    }
    Ok(())
}
