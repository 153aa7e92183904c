// The stages of an entry before evaluation: texts read into their areas, and checked, in 01's order.
#![tactic(auto)]

pub mod check;
pub mod fit;
mod sheet_text;
pub mod text;
