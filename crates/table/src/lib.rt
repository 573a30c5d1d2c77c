// The object table: its rows and their rule stand in specs/, and here what the code calls them by name.
#![tactic(auto)]

pub mod access;
pub mod code;
pub mod kind;
pub mod place;
pub mod row;

// The live values and the saved block, of every board.
pub type Values = [u8; 1024];

pub type Block = [u8; 512];
