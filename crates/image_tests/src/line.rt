// A line of the list: an image, and the number and place of its refusal, 0 and 0 where it is taken. The image is `-`, or
// pieces joined by `+`: hex digits, or hex digits, `*` and how often.

// What is read of a line: the field that it is in, and the fields so far. The image's bytes go into a buffer.
#[derive(Clone, Copy, Debug, PartialEq, Eq)]
pub struct Line {
    pub field: u64,
    pub length: usize,
    // where the piece starts
    pub start: usize,
    // the first digit of a byte
    pub high: Option<u64>,
    pub starred: bool,
    pub times: u64,
    pub number: u64,
    pub place: u64,
}

// The worth of what is no digit, in a number.
pub const NONE: u64 = 16;

// The field of a line whose image is malformed: it has no answer after it.
const MALFORMED: u64 = 3;

// A hex digit's worth.
fn digit(byte: u8) -> Option<u64> {
    match byte {
        b'0'..=b'9' => Some(u64::from(byte - b'0')),
        b'a'..=b'f' => Some(u64::from(byte - b'a' + 10)),
        _ => None,
    }
}

fn longer(n: u64, byte: u8) -> u64 {
    (n % 1_000_000) * 10 + digit(byte).unwrap_or(NONE) % 32
}

fn put(image: &mut [u8], at: usize, n: u64) {
    if at < image.len() {
        image[at] = (n % 256) as u8;
    }
}

// The byte at a place becomes the one `size` before it.
fn again(image: &mut [u8], at: usize, size: usize) {
    if size <= at && at < image.len() {
        image[at] = image[at - size];
    }
}

// The place after, as far as it matters.
fn after(at: usize) -> usize {
    if at < 65536 { at + 1 } else { at }
}

// The `size` bytes before a place, once more.
fn copied(image: &mut [u8], first: usize, size: usize) -> usize {
    let mut at = first;
    for _ in 0..size {
        again(image, at, size);
        at = after(at);
    }
    at
}

// The `size` bytes before a place are there once: the place after so many times.
fn repeat(image: &mut [u8], first: usize, size: usize, times: u64) -> usize {
    let mut at = first;
    for _ in 1..times {
        at = copied(image, at, size);
    }
    at
}

impl Line {
    pub fn new() -> Line {
        Line {
            field: 0,
            length: 0,
            start: 0,
            high: None,
            starred: false,
            times: 0,
            number: 0,
            place: 0,
        }
    }

    // The piece's end: it is there as often as it should, and the next piece starts here.
    fn finished(self, image: &mut [u8]) -> Line {
        let length = if self.starred {
            let size = self.length.saturating_sub(self.start);
            repeat(image, self.length, size, self.times)
        } else {
            self.length
        };
        Line {
            length,
            start: length,
            starred: false,
            times: 0,
            ..self
        }
    }

    // One more hex digit.
    fn half(self, byte: u8, image: &mut [u8]) -> Line {
        match (digit(byte), self.high) {
            (None, _) => Line {
                field: MALFORMED,
                ..self
            },
            (high, None) => Line { high, ..self },
            (Some(low), Some(high)) => {
                put(image, self.length, (high % 16) * 16 + low % 16);
                Line {
                    length: after(self.length),
                    high: None,
                    ..self
                }
            }
        }
    }

    // One more byte of the first field.
    fn piece(self, byte: u8, image: &mut [u8]) -> Line {
        match byte {
            b'-' => self,
            b'+' => self.finished(image),
            b'*' => Line {
                starred: true,
                ..self
            },
            _ if self.starred => Line {
                times: longer(self.times, byte),
                ..self
            },
            _ => self.half(byte, image),
        }
    }

    // The field's end.
    fn ended(self, image: &mut [u8]) -> Line {
        Line {
            field: self.field % 8 + 1,
            ..self.finished(image)
        }
    }

    // One more byte of the answer.
    fn refusal(self, byte: u8) -> Line {
        if self.field == 1 {
            Line {
                number: longer(self.number, byte),
                ..self
            }
        } else {
            Line {
                place: longer(self.place, byte),
                ..self
            }
        }
    }

    // One more byte of the line.
    pub fn next(self, byte: u8, image: &mut [u8]) -> Line {
        if byte == b' ' {
            self.ended(image)
        } else if self.field == 0 {
            self.piece(byte, image)
        } else {
            self.refusal(byte)
        }
    }

    // Whether the line had three fields and its image whole bytes.
    pub fn is_whole(self) -> bool {
        self.field == 2 && self.high.is_none()
    }
}
