// The search for the n cheapest readings (n_shortest_path of shortest_path.rs), in lent slots.
#![tactic(auto)]

mod entry;
mod heap;
pub mod n_best;
