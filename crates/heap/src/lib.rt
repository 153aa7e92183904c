// Values of evaluation by handle: where the bytes, rows or cells of a value lie.
#![tactic(auto)]

pub mod areas;
pub mod cell;
pub mod handle;
pub mod part;
pub mod string;
