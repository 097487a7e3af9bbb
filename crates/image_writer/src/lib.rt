// The image writer: an accepted image through its program back to bytes.
#![tactic(auto)]

pub mod field;
pub mod writer;
