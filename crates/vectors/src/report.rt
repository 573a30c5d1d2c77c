// One line for each vector, and the bytes that a vector is made of.
ghost use Rattle.std.specs.Prelude.{◌≡◌, ◌+◌, ◌≤◌, ◌↔◌, IsTrue, length};

use std::io;
use table::Values;

pub fn say(rt: &impl Print, name: &str, right: bool) -> io::Result<()> {
    let word = if right { "ok" } else { "DIFFERS" };
    println!(rt; "{word} {name}")
}

// Do both hold the same bytes?
pub fn same(a: &[u8], b: &[u8]) -> bool
    ensures { IsTrue result ↔ a.now ≡ b.now }
{
    a == b
}

pub fn compare_values(
    rt: &impl Print,
    name: &str,
    got: &Values,
    expected: &Values,
) -> io::Result<()> {
    say(rt, name, same(got, expected))
}

// The last count bytes of run, as they are written, from byte at on.
pub fn put(bytes: &mut [u8], at: usize, count: usize, run: u64)
    requires { at + count ≤ length bytes.old }
{
    let mut left = run;
    for byte in bytes[at..at + count].iter_mut().rev() {
        *byte = (left % 256) as u8;
        left = left / 256;
    }
}

// Four bytes from each place on, where there is room for them: one list lent is cheaper to check than a statement for each.
pub fn put_fours(bytes: &mut [u8], places: &[usize], fours: &[u32]) {
    for (place, four) in places.iter().zip(fours) {
        if let Some(room) = bytes.get_mut(*place..place.saturating_add(4)) {
            room.copy_from_slice(&four.to_be_bytes());
        }
    }
}
