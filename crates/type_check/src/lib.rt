// The kind check: the types found for a rule under a sheet, both as reading left them, or that the rule is not accepted.
#![tactic(auto)]

pub mod check;
mod env;
mod operation;
