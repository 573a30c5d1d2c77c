// THE PLAIN GAUGE: whole reads and whole writes of entries, commands, power-up. The lines only cut these into messages.
#![tactic(auto)]

pub mod commit;
pub mod crossing;
pub mod masks;
pub mod places;
pub mod power;
pub mod read;
