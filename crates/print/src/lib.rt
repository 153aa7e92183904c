// The tokens of a text, into an output: bytes as far as they fit, numbers, strings, instants.
#![tactic(auto)]

pub mod decimal;
pub mod instant;
pub mod put;
pub mod string;
