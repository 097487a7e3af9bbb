// Lines of standard output.
use std::io;

pub fn text(rt: &impl Print, words: &str) -> io::Result<()> {
    print!(rt; "{words}")
}

pub fn number(rt: &impl Print, n: u64) -> io::Result<()> {
    print!(rt; "{n}")
}

// The end of a line: a count.
pub fn count(rt: &impl Print, n: u64) -> io::Result<()> {
    println!(rt; " {n}")
}
