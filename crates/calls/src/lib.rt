// Call and start, from lir/eval.rs: the callee's fields, room for its frame and slots, and its variables.
#![tactic(auto)]

pub mod begin;
pub mod call;
pub mod fields;
pub mod handing;
pub mod room;
pub mod variables;
