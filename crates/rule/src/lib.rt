// The rule in a read table: what its objects have the shape of, the marks of that, and what stands at each row.
#![tactic(auto)]

pub mod mark;
mod operand;
pub mod operation;
pub mod text;
pub mod view;
