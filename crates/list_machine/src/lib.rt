// The list machine, trimmed and written to the result area.
#![tactic(auto)]

pub mod trim;
