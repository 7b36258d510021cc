// Stored cases: the lines that the programs which replay calls read, and what they count and compare.
#![tactic(auto)]

pub mod areas;
pub mod bytes;
mod filled;
mod hex;
pub mod input;
pub mod lines;
pub mod replay;
pub mod tally;
