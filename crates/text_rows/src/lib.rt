// What rows of text say: definitions and laws alone.
#![tactic(auto)]
