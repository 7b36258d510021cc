// The fields of a sheet by number, for callers that read it without a machine of their own. Links are
// read by crate sheet.
#![tactic(auto)]

pub mod counts;
pub mod nodes;
pub mod unit;
