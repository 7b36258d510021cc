// Lists read back from the result area, for any bytes: how many readings a result holds, and the links,
// the cost and the end of each.
#![tactic(auto)]

mod cost;
pub mod count;
pub mod reading;
mod walk;
mod way;
