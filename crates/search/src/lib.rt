// The search for the n cheapest readings, as document 01 writes it: definitions (specs/) and laws (proofs/), no code.
#![tactic(auto)]
