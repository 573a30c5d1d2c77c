// Serves the text lines of standard input as they come (R17.1, R17.2). The board starts on a zero block, from power-up (R17.3).
#![tactic(auto)]

mod serve;

ghost use Rattle.std.specs.Prelude.{◌≤◌, IfOk};

use dialogue::hear::Pending;
use serve::Memory;
use std::io;
use std::io::{Input, Read};

// Reads once and serves the lines that end in what came. May more come?
fn hear_some(
    rt: &impl Print,
    input: &mut impl Read,
    pending: &mut Pending,
    memory: &mut Memory,
) -> io::Result<bool>
    ensures { pending.old.count ≤ 20 → pending.new.count ≤ 20 }
{
    let mut buffer = [0u8; 4096];
    let count = input.read(&mut buffer)?;
    serve::serve_bytes(rt, &buffer[..count], pending, memory)?;
    Ok(0 < count)
}

// A proved loop has to end, and nothing says that the input does. So it counts its reads, up to a number that no run comes to.
fn hear_all(rt: &impl Print, input: &mut impl Read, memory: &mut Memory) -> io::Result<Pending>
    ensures { IfOk result (λ last. last.count ≤ 20) }
{
    let mut pending = Pending::new();
    for _ in 0..u64::MAX {
        if !hear_some(rt, input, &mut pending, memory)? {
            break;
        }
    }
    Ok(pending)
}

fn main(rt: HostRuntime) -> io::Result<()> {
    let mut memory = Memory {
        values: [0u8; board::VALUES_SIZE],
        block: [0u8; board::BLOCK_SIZE],
        state: [0u8; board::STATE_SIZE],
    };
    board::gauge_power_up(
        board::FORM_EIGHT,
        &mut memory.values,
        &memory.block,
        &mut memory.state,
    );
    let last = hear_all(&rt, &mut rt.reader(), &mut memory)?;
    if last.is_left() {
        serve::serve_line(&rt, &last, &mut memory)?;
    }
    Ok(())
}
