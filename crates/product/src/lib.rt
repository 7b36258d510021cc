// The machine of what two machines both allow: definitions and laws, and keys of its links.
#![tactic(auto)]

pub mod keys;
