// Instants: their range, and the start of a date.
#![tactic(auto)]

pub mod instant;
