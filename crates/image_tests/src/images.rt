// The list's images through the loader.
use crate::line::Line;
use crate::say;
use loader::load::load;
use std::rt::{Env, Files};
use std::{env, fs, io};

// A refusal, or 0 and 0.
#[derive(Clone, Copy, Debug, PartialEq, Eq)]
pub struct Answer {
    pub number: u64,
    pub place: u64,
}

fn answered(image: &[u8]) -> Answer {
    match load(image) {
        Ok(_) => Answer {
            number: 0,
            place: 0,
        },
        Err(stop) => Answer {
            number: stop.why.number(),
            place: stop.place as u64,
        },
    }
}

// One answer more with this number.
fn tell(tally: &mut [u64], number: u64) {
    let at = number as usize;
    if at < tally.len() {
        tally[at] = tally[at].wrapping_add(1);
    }
}

fn agrees(line: Line, a: Answer) -> bool {
    let said = Answer {
        number: line.number,
        place: line.place,
    };
    line.is_whole() && said == a
}

// No refusal's number.
const TOO_LONG: u64 = 99;

// The answer to so many bytes of the buffer.
fn part(image: &[u8], length: usize) -> Answer {
    if image.len() < length {
        return Answer {
            number: TOO_LONG,
            place: 0,
        };
    }
    answered(&image[..length])
}

// Whether the line's answer is the loader's, which is counted.
fn tried(line: Line, image: &[u8], tally: &mut [u64]) -> bool {
    let a = part(image, line.length);
    tell(tally, a.number);
    agrees(line, a)
}

// A wrong line is printed by its number.
fn judged(rt: &impl Print, right: bool, number: u64) -> io::Result<u64> {
    if right {
        return Ok(1);
    }
    say::text(rt, "wrong: line ")?;
    say::number(rt, number)?;
    say::text(rt, "\n")?;
    Ok(0)
}

fn print_right(rt: &impl Print, right: u64, lines: u64) -> io::Result<()> {
    say::text(rt, "images ")?;
    say::number(rt, right)?;
    say::text(rt, " right of")?;
    say::count(rt, lines)
}

// The line that is read, how many were, and how many of them agree.
#[derive(Clone, Copy)]
pub struct Progress {
    pub line: Line,
    pub lines: u64,
    pub right: u64,
}

impl Progress {
    fn new() -> Progress {
        Progress {
            line: Line::new(),
            lines: 0,
            right: 0,
        }
    }
}

// One more byte of the list.
fn advance(
    rt: &impl Print,
    p: Progress,
    byte: u8,
    image: &mut [u8],
    tally: &mut [u64],
) -> io::Result<Progress> {
    let mut q = p;
    if byte == b'\n' {
        let good = tried(q.line, image, tally);
        q.lines = q.lines.wrapping_add(1);
        q.right = q.right.wrapping_add(judged(rt, good, q.lines)?);
        q.line = Line::new();
        return Ok(q);
    }
    q.line = q.line.next(byte, image);
    Ok(q)
}

fn compare(rt: &impl Print, s: &[u8], image: &mut [u8], tally: &mut [u64]) -> io::Result<()> {
    let mut p = Progress::new();
    for byte in s {
        p = advance(rt, p, *byte, image, tally)?;
    }
    print_right(rt, p.right, p.lines)
}

fn label(rt: &impl Print, number: u64) -> io::Result<()> {
    if number == 0 {
        return say::text(rt, "taken");
    }
    say::text(rt, "refused ")?;
    say::number(rt, number)?;
    say::text(rt, ":")
}

// How many were taken, and refused by each number.
fn print_tally(rt: &impl Print, tally: &[u64]) -> io::Result<()> {
    for (number, count) in tally.iter().enumerate() {
        label(rt, number as u64)?;
        say::count(rt, *count)?;
    }
    Ok(())
}

fn count(rt: &impl Print, s: &[u8], image: &mut [u8]) -> io::Result<()> {
    let mut tally = [0u64; 7];
    compare(rt, s, image, &mut tally)?;
    print_tally(rt, &tally)
}

fn with_image(rt: &impl Print, s: &[u8], image: &mut [u8; 40000]) -> io::Result<()> {
    count(rt, s, image)
}

fn with_text(rt: &impl Print, text: &[u8]) -> io::Result<()> {
    let mut image = [0u8; 40000];
    with_image(rt, text, &mut image)
}

fn read<R: Files + Alloc>(rt: &R, path: &str) -> io::Result<Vec<u8, R::A>> {
    fs::read(rt, path)
}

// The list is the file that the first argument names.
pub fn run<R: Env + Files + Alloc + Print>(rt: &R) -> io::Result<()> {
    match env::args(rt)?.nth(1) {
        Some(path) => {
            let text = read(rt, path.as_str())?;
            with_text(rt, text.as_slice())
        }
        None => Err(io::Error::from(io::ErrorKind::InvalidInput)),
    }
}
