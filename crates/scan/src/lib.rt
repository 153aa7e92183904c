// The tokens of a text: white space, the decisions by one byte, literals, numbers.
#![tactic(auto)]

use model::refusal::ReadFault;

pub mod number;
pub mod token;

// A text is refused: why, and at which offset.
#[derive(Clone, Copy)]
pub struct Fault {
    pub reason: ReadFault,
    pub at: usize,
}
