// The functions of `embed` under C's calling convention, each with the same clauses, for the static library that a host in Rust or C links.
#![tactic(auto)]

pub mod entries;
pub mod host;
