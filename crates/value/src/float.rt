// Floats by their bits: patterns in and out. Two types and no generic one: std's `from_bits` and `to_bits` are no trait's, so a trait over
// f32 and f64 would need these same bodies at both.
ghost use Rattle.std.specs.Prelude.{◌≡◌};
ghost use Rattle.value.specs.Floats.{bits32, bits64, single, double};

use crate::{Double, Single};

impl Single {
    // The float of a pattern: a NaN's is kept as it is.
    #[tactic(auto, using(crate::proofs::Patterns::pattern_tests))]
    pub fn from_bits(bits: u32) -> Single
        ensures { result ≡ single bits }
    {
        if bits % 0x8000_0000 > 0x7f80_0000 {
            Single::Nan(bits)
        } else {
            Single::Number(f32::from_bits(bits))
        }
    }

    // The pattern of a float, and the canonical one where the machine's float is a NaN.
    pub fn to_bits(self) -> u32
        ensures { result ≡ bits32 self }
    {
        match self {
            Single::Number(x) if x.is_nan() => 0x7fc0_0000,
            Single::Number(x) => x.to_bits(),
            Single::Nan(bits) => bits,
        }
    }
}

impl Double {
    #[tactic(auto, using(crate::proofs::Patterns::pattern_tests))]
    pub fn from_bits(bits: u64) -> Double
        ensures { result ≡ double bits }
    {
        if bits % 0x8000_0000_0000_0000 > 0x7ff0_0000_0000_0000 {
            Double::Nan(bits)
        } else {
            Double::Number(f64::from_bits(bits))
        }
    }

    pub fn to_bits(self) -> u64
        ensures { result ≡ bits64 self }
    {
        match self {
            Double::Number(x) if x.is_nan() => 0x7ff8_0000_0000_0000,
            Double::Number(x) => x.to_bits(),
            Double::Nan(bits) => bits,
        }
    }
}
