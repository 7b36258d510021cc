// The sheet of rows, filled into the result area.
#![tactic(auto)]

pub mod fill;
