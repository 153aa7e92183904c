// A sheet, used where it was read: whether a text is one, the types of a path, and whether a record fits it.
#![tactic(auto)]

pub mod belong;
pub mod check;
pub mod content;
mod entry;
pub mod fit;
pub mod listed;
