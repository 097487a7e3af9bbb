// What a line of the console, or a start line, asks: its command by name, and its parts.
#![tactic(auto)]

pub mod command;
mod part;
mod row;

use crate::command::Command;

// Where reading a line stands.
pub use crate::part::Spot;

// The numbers of a line's parts in order, 0 where it has no such part, and how many bytes or values end the line.
#[derive(Clone, Copy, Debug, PartialEq, Eq)]
pub struct Parts {
    pub first: u64,
    pub second: u64,
    pub third: u64,
    pub fourth: u64,
    pub count: u64,
}

// What a line of the console asks.
#[derive(Clone, Copy, Debug, PartialEq, Eq)]
pub struct Asked {
    pub command: Command,
    pub parts: Parts,
}
