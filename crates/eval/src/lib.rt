// The evaluator's entries, from the loop of eval.rs: start, step, run and the host's calls. Each takes any bytes, any tables and any numbers.
#![tactic(auto)]

pub mod after;
pub mod entry;
pub mod host;
pub mod start;
