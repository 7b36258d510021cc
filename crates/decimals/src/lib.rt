// Numbers in decimal, read from bytes and written to them.
#![tactic(auto)]

pub mod read;
pub mod text;
pub mod write;
