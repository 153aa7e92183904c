// The months' lengths; days and dates.
#![tactic(auto)]

pub mod day;
pub mod month;
