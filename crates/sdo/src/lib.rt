// The eight bytes of a message and of an answer.
#![tactic(auto)]

pub mod answer;
pub mod decode;

// How many bytes every message and answer has, or begins with.
pub const SIZE: usize = 8;

// The bytes of a part and where they begin; the room for a value in an opening and where it begins.
pub const PART: usize = 7;

pub const PART_AT: usize = 1;

pub const VALUE: usize = 4;

pub const VALUE_AT: usize = 4;

// An entry's name: index and subindex.
#[derive(Clone, Copy, PartialEq, Eq)]
pub struct Key {
    pub index: u16,
    pub sub: u8,
}

// How a write is opened. The value stands in the message, of so many bytes or of the entry's own length; or parts follow, their length
// announced or not said.
#[derive(Clone, Copy)]
pub enum Opening {
    Value(usize),
    Own,
    Announced(u32),
    Unsaid,
}

// A message that asks for an answer. The bytes of a write stay in the message; their count stands here.
#[derive(Clone, Copy)]
pub enum Message {
    // toggle, count of bytes, last
    SendPart(bool, usize, bool),
    OpenWrite(Key, Opening),
    OpenRead(Key),
    NextPart(bool),
    Unknown,
}
