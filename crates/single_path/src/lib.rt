// The best reading by parents (single_shortest_path of shortest_path.rs), in lent slots.
#![tactic(auto)]

pub mod single;
