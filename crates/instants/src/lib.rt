// What is done with instants: shifts, and an instant's text.
#![tactic(auto)]

pub mod shift;
pub mod text;
