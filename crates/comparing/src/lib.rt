// Comparisons and Not, from the loop of eval.rs and the equality of value.rs.
#![tactic(auto)]

pub mod compare;
pub mod family;
pub mod order;
