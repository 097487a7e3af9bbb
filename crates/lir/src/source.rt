// The lines of standard input.
use lines::{Held, end_line, take_line};
use std::io;
use std::io::Read;
use telling::LONGEST;
use telling::bound::within;

// One read of the input is at most so many bytes.
pub const ONE_READ: usize = 4096;

// Room for one byte more than the longest line has, so that a longer one is seen to be.
pub const LINE_ROOM: usize = LONGEST + 1;

// The line that is being read, how many bytes the last read gave, and whether the input has ended.
#[derive(Clone, Copy, Debug, PartialEq, Eq)]
pub struct Source {
    pub held: Held,
    pub end: usize,
    pub ended: bool,
}

impl Source {
    // Nothing is read yet.
    pub fn new() -> Source {
        let held = Held {
            length: 0,
            at: 0,
            whole: false,
        };
        Source {
            held,
            end: 0,
            ended: false,
        }
    }

    // The next line begins.
    pub fn next_line(self) -> Source {
        let held = Held {
            length: 0,
            at: self.held.at,
            whole: false,
        };
        Source { held, ..self }
    }

    // What was read is taken, from `at` on.
    fn take(self, input: &[u8], at: usize, line: &mut [u8]) -> Source {
        Source {
            held: take_line(self.held.length, input, at, line),
            end: input.len(),
            ended: false,
        }
    }

    // The input ends, and the line with it.
    fn finish(self) -> Source {
        Source {
            held: end_line(self.held.length),
            end: 0,
            ended: true,
        }
    }

    // Some more of the line: from the input that was read, or from what is read next.
    pub fn advance(
        self,
        rt: &HostRuntime,
        input: &mut [u8],
        line: &mut [u8],
    ) -> io::Result<Source> {
        let end = within(self.end, input);
        if self.held.at < end {
            return Ok(self.take(&input[..end], self.held.at, line));
        }
        let n = rt.stdin().read(input)?;
        if n == 0 {
            return Ok(self.finish());
        }
        Ok(self.take(&input[..n], 0, line))
    }

    // Whether the first line is there: it is whole, the input ended, or the line is over-long.
    fn is_there(self, line: &[u8]) -> bool {
        self.held.whole || self.ended || line.len() <= self.held.length
    }
}

// Reads the first line of the input: how many of its bytes are kept.
pub fn read_first(rt: &HostRuntime, input: &mut [u8], line: &mut [u8]) -> io::Result<usize> {
    let mut s = Source::new();
    for _ in 0..u64::MAX {
        s = s.advance(rt, input, line)?;
        if s.is_there(line) {
            break;
        }
    }
    Ok(s.held.length)
}
