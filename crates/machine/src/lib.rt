// Machines: runs of links, readings, distances and parents, as definitions and laws; the tests
// that every call on a machine makes of its sheet, and the count of its final nodes.
#![tactic(auto)]

pub mod climbing;
pub mod counted;
pub mod finals;
pub mod input;
pub mod limits;
