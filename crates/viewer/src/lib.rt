// The viewer: what a host sees of a read text, row by row of its table.
#![tactic(auto)]

pub mod part;
pub mod row;
pub mod view;
