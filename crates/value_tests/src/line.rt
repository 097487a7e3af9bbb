// A line of a list as it is read: fields with a space between, numbers in hex.

// The field that the line is in, the first one's letters, each one's number, and whether the last byte was no digit.
#[derive(Clone, Copy, Default)]
pub struct Line {
    field: u64,
    pub name: u64,
    pub fields: [u64; 8],
    pub odd: bool,
}

// A hex digit's worth.
fn digit(byte: u8) -> Option<u8> {
    match byte {
        b'0'..=b'9' => Some(byte - b'0'),
        b'a'..=b'f' => Some(byte - b'a' + 10),
        _ => None,
    }
}

impl Line {
    // One more byte of the line; what is no digit counts as 0.
    pub fn next(&mut self, byte: u8) {
        if byte == b' ' {
            self.field = self.field % 8 + 1;
            return;
        }
        if self.field == 0 {
            self.name = (self.name % 0x10_0000) * 256 + byte as u64;
        }
        let worth = digit(byte);
        self.odd = worth.is_none();
        let place = self.field.min(7) as usize;
        self.fields[place] = (self.fields[place] % 0x1000_0000_0000_0000) * 16
            + worth.unwrap_or(0) as u64 % 16;
    }
}
