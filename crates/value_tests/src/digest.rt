// A digest of numbers, one after another: each method gives the digest with what it is called on.
use std::fmt;
use value::IrValue;
use value::refusal::Refusal;

const PRIME: u64 = 4_294_967_291;

#[derive(Clone, Copy)]
pub struct Digest(pub u64);

impl Digest {
    pub const EMPTY: Digest = Digest(0);

    fn mix(self, part: u64) -> Digest {
        Digest(((self.0 % PRIME) * 65_599 + part % 0x1_0000_0000) % PRIME)
    }

    pub fn add(self, n: u64) -> Digest {
        self.mix(n / 0x1_0000_0000).mix(n)
    }

    pub fn value(self, v: IrValue) -> Digest {
        self.add(v.tag()).add(v.bits())
    }

    // A refusal counts as tag 0 and its number.
    pub fn answer(self, c: Result<IrValue, Refusal>) -> Digest {
        match c {
            Ok(v) => self.value(v),
            Err(n) => self.add(0).add(n.number()),
        }
    }

    // What makes no value counts as tag 15.
    pub fn nothing(self) -> Digest {
        self.add(15)
    }
}

impl fmt::Display for Digest {
    fn fmt<W: fmt::Write>(&self, f: &mut fmt::Formatter<W>) -> fmt::Result {
        write!(f, "digest {:08x}", self.0)
    }
}
