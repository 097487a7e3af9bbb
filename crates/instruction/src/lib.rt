// The instructions, from lir/eval.rs: what each does to registers and tables, by the fields that stand at its place.
#![tactic(auto)]

pub mod back;
pub mod compute;
pub mod field;
pub mod pointer;
pub mod step;
pub mod storage;
pub mod variables;
