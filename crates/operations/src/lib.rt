// Arithmetic of the instructions that only compute, from the loop of eval.rs: integers, FDiv, Negate.
#![tactic(auto)]

pub mod float;
pub mod integer;
