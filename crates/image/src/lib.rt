// The program image: its numbers and fields, on a slice and a place.
#![tactic(auto)]

pub mod field;
pub mod number;
