// What a message says.
ghost use Rattle.std.specs.Prelude.{◌≡◌, ◌≤◌, length};
ghost use Rattle.sdo.specs.Eight.{has, key_of, opening_of, heard_of};

use crate::{Key, Message, Opening};
use wire::Number;

pub fn bit_of(weight: u8, b: u8) -> bool
    requires { 1 ≤ weight }
    ensures { result ≡ has weight b }
{
    b / weight % 2 == 1
}

pub fn key_of(m: &[u8]) -> Key
    requires { 8 ≤ length m.now }
    ensures { result ≡ key_of m.now }
{
    Key {
        index: u16::at(m, 1),
        sub: m[3],
    }
}

// The opening of a write: with the value in it or not, with a length or not.
pub fn opening_of(m: &[u8]) -> Opening
    requires { 8 ≤ length m.now }
    ensures { result ≡ opening_of m.now }
{
    let first = m[0];
    if bit_of(2, first) {
        if bit_of(1, first) {
            return Opening::Value(4 - usize::from(first / 4 % 4));
        }
        return Opening::Own;
    }
    if bit_of(1, first) {
        return Opening::Announced(u32::at(m, 4));
    }
    Opening::Unsaid
}

// None is the client's abort, which has no answer.
pub fn heard_of(m: &[u8]) -> Option<Message>
    requires { 8 ≤ length m.now }
    ensures { result ≡ heard_of m.now }
{
    let first = m[0];
    let specifier = first / 32;
    match specifier {
        0 => Some(Message::SendPart(
            bit_of(16, first),
            7 - usize::from(first / 2 % 8),
            bit_of(1, first),
        )),
        1 => Some(Message::OpenWrite(key_of(m), opening_of(m))),
        2 => Some(Message::OpenRead(key_of(m))),
        3 => Some(Message::NextPart(bit_of(16, first))),
        4 => None,
        5..=7 => Some(Message::Unknown),
        _ => Some(Message::Unknown),
    }
}
