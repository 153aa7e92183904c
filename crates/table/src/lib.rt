// Rows of a read table: the value that stands in a row, its name, and the row after it (docs/LAYOUT.md).
#![tactic(auto)]

pub mod node;
pub mod row;
pub mod string;
