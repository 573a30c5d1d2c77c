// Dialogues in text: what a line says, what is printed, and how bytes become lines as they come.
#![tactic(auto)]

pub mod hear;
pub mod print;
pub mod read;

// A message: eight bytes on line 0 or 1.
#[derive(Clone, Copy, PartialEq, Eq)]
pub struct Spoken {
    pub line: u8,
    pub eight: [u8; 8],
}
