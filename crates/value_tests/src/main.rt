// Values against answers that come from elsewhere. `data/floats.txt` is published; `data/kinds.txt` and `data/rounding.txt` have what
// the published Rust answered (oracle/reference/values.py); a wrong line is printed by its number. `data/answers.rs` prints the digests
// by Rust's own operators, and `stdout` holds what it prints.
#![tactic(auto)]

mod arithmetic;
mod bytes;
mod comparison;
mod digest;
mod edges;
mod floats;
mod kinds;
mod line;
mod lists;

use std::io;

fn main(rt: HostRuntime) -> io::Result<()> {
    lists::run(&rt)?;
    arithmetic::run(&rt)?;
    comparison::run(&rt)?;
    bytes::run(&rt)
}
