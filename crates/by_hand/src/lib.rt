// The state by hand: shown as a line of text, and changed with no check at all, on lent tables.
#![tactic(auto)]

pub mod dump;
pub mod poke;
pub mod table;
