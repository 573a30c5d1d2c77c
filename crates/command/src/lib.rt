// The command words, and what an exception reset clears.
#![tactic(auto)]

pub mod exception;
pub mod word;
