// The rows of a sheet, as text.
#![tactic(auto)]

pub mod has_rows;
pub mod row_text;
pub mod sheet_text;
