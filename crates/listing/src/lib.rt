// The listing program: the list for n of a sheet, as text.
#![tactic(auto)]

pub mod print;
mod text;
