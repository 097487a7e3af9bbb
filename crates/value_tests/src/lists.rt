// The lists of answers, a file each: how many of the lines are right, and which are not.
use crate::line::Line;
use crate::{floats, kinds};
use std::rt::{Env, Files};
use std::{env, fmt, fs, io};

// A list's number is the place of its file among the arguments.
#[derive(Clone, Copy)]
enum List {
    Floats = 1,
    Kinds = 2,
    Rounding = 3,
}

impl fmt::Display for List {
    fn fmt<W: fmt::Write>(&self, f: &mut fmt::Formatter<W>) -> fmt::Result {
        f.write_str(match self {
            List::Floats => "float vectors",
            List::Kinds => "kinds",
            List::Rounding => "rounding",
        })
    }
}

impl List {
    fn agrees(self, line: Line) -> bool {
        match self {
            List::Floats => floats::agrees(line),
            List::Kinds | List::Rounding => kinds::agrees(line),
        }
    }

    // How many of the lines agree; a wrong one is printed by its number.
    fn count(self, rt: &impl Print, text: &[u8]) -> io::Result<()> {
        let mut line = Line::default();
        let mut lines = 0u64;
        let mut right = 0u64;
        for byte in text {
            if *byte != b'\n' {
                line.next(*byte);
                continue;
            }
            lines = lines.wrapping_add(1);
            if self.agrees(line) {
                right = right.wrapping_add(1);
            } else {
                println!(rt; "wrong: line {lines}")?;
            }
            line = Line::default();
        }
        println!(rt; "{self} {right} right of {lines}")
    }

    fn open<R: Env + Files + Alloc + Print>(self, rt: &R) -> io::Result<()> {
        match env::args(rt)?.nth(self as usize) {
            Some(path) => self.count(rt, fs::read(rt, path.as_str())?.as_slice()),
            None => Err(io::Error::from(io::ErrorKind::InvalidInput)),
        }
    }
}

pub fn run<R: Env + Files + Alloc + Print>(rt: &R) -> io::Result<()> {
    List::Floats.open(rt)?;
    List::Kinds.open(rt)?;
    List::Rounding.open(rt)
}
