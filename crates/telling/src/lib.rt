// What the program tells: an entry's answer as its line, the live list, and a start from a line's values.
#![tactic(auto)]

pub mod answer;
pub mod begin;
pub mod bound;
pub mod live;

// "A line may be 262,144 bytes long"
pub const LONGEST: usize = 262144;

// "the context, then up to 64 arguments"
pub const VALUES: usize = 65;
