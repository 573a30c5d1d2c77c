// The eight bytes of each answer.
ghost use Rattle.std.specs.Prelude.{true, false, [], ◌≡◌, ◌+◌, ◌-◌, ◌*◌, ◌≤◌, ◌<◌, length, take, drop, get_or};
ghost use Rattle.order.specs.Talk.{opened, part_given, write_opened, part_taken, refused, no_transfer};
ghost use Rattle.wire.specs.Flags.{bit};
ghost use Rattle.sdo.specs.Eight.{answer_of, short};

use crate::{Key, PART};

// The code of a wrong toggle: a number, since it is no entry's (table AbortCode), and this crate has no table.
pub const WRONG_TOGGLE: u32 = 0x05030000;

pub fn abort(k: Key, code: u32) -> [u8; 8]
    ensures { result ≡ answer_of (refused k code) }
{
    let [low, high] = k.index.to_le_bytes();
    let [a, b, c, d] = code.to_le_bytes();
    [0x80, low, high, k.sub, a, b, c, d]
}

pub fn no_transfer() -> [u8; 8]
    ensures { result ≡ answer_of no_transfer }
{
    [0x80, 0, 0, 0, 1, 0, 4, 5]
}

pub fn write_opened(k: Key) -> [u8; 8]
    ensures { result ≡ answer_of (write_opened k) }
{
    let [low, high] = k.index.to_le_bytes();
    [0x60, low, high, k.sub, 0, 0, 0, 0]
}

pub fn part_taken(toggle: bool) -> [u8; 8]
    ensures { result ≡ answer_of (part_taken toggle) }
{
    if toggle {
        return [0x30, 0, 0, 0, 0, 0, 0, 0];
    }
    [0x20, 0, 0, 0, 0, 0, 0, 0]
}

// The opening of a read that is longer than four bytes.
pub fn opened_long(k: Key, len: usize) -> [u8; 8]
    requires { len ≤ 64 }
    ensures { result ≡ answer_of (opened k len [] false) }
{
    let [low, high] = k.index.to_le_bytes();
    [0x41, low, high, k.sub, len as u8, 0, 0, 0]
}

// The byte at i of the first len bytes held, or 0 past them.
fn byte_at(held: &[u8], len: usize, i: usize) -> u8
    requires { len ≤ length held.now }
    ensures { result ≡ get_or (take len held.now) i 0 }
{
    if i < len { held[i] } else { 0 }
}

// Is a value read with the answer that opens the read? Named for what the range means, in two crates.
pub fn is_short(len: usize) -> bool
    ensures { result ≡ short len }
{
    (1..=4).contains(&len)
}

// The opening of a read of up to four bytes, with the value.
pub fn opened_short(k: Key, held: &[u8], len: usize) -> [u8; 8]
    requires { ((1 ≤ len) × (len ≤ 4)) × (len ≤ length held.now) }
    ensures { result ≡ answer_of (opened k len (take len held.now) true) }
{
    let [low, high] = k.index.to_le_bytes();
    [
        (67 + 4 * (4 - len)) as u8,
        low,
        high,
        k.sub,
        byte_at(held, len, 0),
        byte_at(held, len, 1),
        byte_at(held, len, 2),
        byte_at(held, len, 3),
    ]
}

// A part of a read that is not the last: all seven bytes are used.
pub fn part_more(held: &[u8], place: usize, toggle: bool) -> [u8; 8]
    requires { place + 7 < length held.now }
    ensures { result ≡ answer_of (part_given toggle (take 7 (drop place held.now)) false) }
{
    let head: u8 = if toggle { 16 } else { 0 };
    [
        head,
        held[place],
        held[place + 1],
        held[place + 2],
        held[place + 3],
        held[place + 4],
        held[place + 5],
        held[place + 6],
    ]
}

// Byte 0 of the last part of a read: toggle, unused bytes, last mark.
pub fn last_head(toggle: bool, unused: usize) -> u8
    requires { unused ≤ 7 }
    ensures { result ≡ 16 * bit toggle + 2 * unused + 1 }
{
    if toggle {
        return (17 + 2 * unused) as u8;
    }
    (1 + 2 * unused) as u8
}

pub fn part_last(held: &[u8], len: usize, place: usize, toggle: bool) -> [u8; 8]
    requires { ((len ≤ 64) × (place ≤ len) × (len ≤ place + 7)) × (length held.now ≡ 64) }
    ensures { result ≡ answer_of (part_given toggle (take 7 (drop place (take len held.now))) true) }
{
    [
        last_head(toggle, place + PART - len),
        byte_at(held, len, place),
        byte_at(held, len, place + 1),
        byte_at(held, len, place + 2),
        byte_at(held, len, place + 3),
        byte_at(held, len, place + 4),
        byte_at(held, len, place + 5),
        byte_at(held, len, place + 6),
    ]
}
