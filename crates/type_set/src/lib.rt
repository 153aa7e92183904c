// Sets of types by value, the paper's "words".
#![tactic(auto)]

pub mod set;
