// Sheets: what a service laptop hands over, damaged or not. Links first, then nodes, then a trailer
// that points back; every field is 32-bit and little-endian.
#![tactic(auto)]

pub mod accepted;
pub mod field;
pub mod form;
pub mod read;
pub mod reader;
pub mod refusal;
pub mod source;
mod tests;
pub mod tr;
pub mod weight;
pub mod words;
pub mod write;
