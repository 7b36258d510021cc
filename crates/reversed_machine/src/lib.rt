// The reversed machine (reverse.rs of rustfst), in lent slots.
#![tactic(auto)]

pub mod reverse;
