// Rows read from a text, one by one, and passes over all of them.
#![tactic(auto)]

pub mod fields;
pub mod finals;
pub mod row;
pub mod rows;
pub mod survey;
pub mod values;
