// FDiv and the other sign of a float, by their bits. Each function stands at both widths, as `Single` and `Double` do: std's functions
// on a float's pattern are no trait's, so a generic one would need the same bodies in a trait's two impls.
ghost use Rattle.std.specs.Prelude.{◌≡◌};
ghost use Rattle.std.specs.Float.{binary32, binary64};
ghost use Rattle.value.specs.Divide.{divide_bits};
ghost use Rattle.value.specs.Floats.{bits32, bits64, single, double};
ghost use Rattle.value.specs.Ir.{value_of, computed};
ghost use Rattle.value.specs.Value.{divide_floats, flip};

use std::num::{
    f32_from_bits_with_nan, f32_to_bits_with_nan, f64_from_bits_with_nan, f64_to_bits_with_nan,
};
use value::refusal::Refusal;
use value::{Double, IrValue, Single};

// FDiv: two F32 or two F64, rounded once.
pub fn fdiv(x: IrValue, y: IrValue) -> Result<IrValue, Refusal>
    ensures { result ≡ computed (divide_floats (value_of x) (value_of y)) }
{
    match (x, y) {
        (IrValue::F32(a), IrValue::F32(b)) => Ok(IrValue::F32(divide32(a, b))),
        (IrValue::F64(a), IrValue::F64(b)) => Ok(IrValue::F64(divide64(a, b))),
        _ => Err(Refusal::WrongKinds),
    }
}

fn divide32(a: Single, b: Single) -> Single
    ensures { result ≡ single (divide_bits binary32 (bits32 a) (bits32 b)) }
{
    let quotient = f32_from_bits_with_nan(a.to_bits()) / f32_from_bits_with_nan(b.to_bits());
    Single::from_bits(f32_to_bits_with_nan(quotient))
}

fn divide64(a: Double, b: Double) -> Double
    ensures { result ≡ double (divide_bits binary64 (bits64 a) (bits64 b)) }
{
    let quotient = f64_from_bits_with_nan(a.to_bits()) / f64_from_bits_with_nan(b.to_bits());
    Double::from_bits(f64_to_bits_with_nan(quotient))
}

// The pattern with the other sign: a carry out of the sign bit is dropped.
pub fn flip32(bits: u32) -> u32
    ensures { result ≡ flip 32 bits }
{
    bits.wrapping_add(0x8000_0000)
}

pub fn flip64(bits: u64) -> u64
    ensures { result ≡ flip 64 bits }
{
    bits.wrapping_add(0x8000_0000_0000_0000)
}
