// Operations on scalars, by their handles: truth, equality, membership, sums and comparisons.
#![tactic(auto)]

pub mod array;
mod boolean;
pub mod compare;
pub mod equal;
pub mod sum;
pub mod truth;
