// Integers: sums, differences and products as whole numbers of 128 bits, which are then stored at the operands' width; division,
// remainder and negation at their own.
ghost use Rattle.std.specs.Prelude.{◌≡◌, ◌&&◌, ◌||◌, ◌<◌, ◌^◌, eqb, nat_abs};
ghost use Rattle.value.specs.Answer.{pick};
ghost use Rattle.value.specs.Refusal.{zero_divisor, outside_width};
ghost use Rattle.value.specs.Ir.{value_of, computed};
ghost use Rattle.value.specs.Value.{arithmetic, checked, negated, integer, same, family, is_unsigned, is_signed};
ghost use Rattle.value.specs.Value as Believed;

use crate::float;
use value::refusal::Refusal;
use value::{Double, IrValue, Single};

pub fn add(x: IrValue, y: IrValue) -> Result<IrValue, Refusal>
    ensures { result ≡ computed (arithmetic Believed.add (value_of x) (value_of y)) }
{
    if !alike(x, y) {
        return Err(Refusal::WrongKinds);
    }
    stored(x, number(x) + number(y))
}

pub fn sub(x: IrValue, y: IrValue) -> Result<IrValue, Refusal>
    ensures { result ≡ computed (arithmetic Believed.sub (value_of x) (value_of y)) }
{
    if !alike(x, y) {
        return Err(Refusal::WrongKinds);
    }
    stored(x, number(x) - number(y))
}

pub fn mul(x: IrValue, y: IrValue) -> Result<IrValue, Refusal>
    ensures { result ≡ computed (arithmetic Believed.mul (value_of x) (value_of y)) }
{
    if !alike(x, y) {
        return Err(Refusal::WrongKinds);
    }
    match number(x).checked_mul(number(y)) {
        Some(z) => stored(x, z),
        None => Err(Refusal::OutsideWidth),
    }
}

// The quotient, cut toward zero.
#[tactic(auto, using(crate::proofs::Arithmetic::least_32))]
pub fn div(x: IrValue, y: IrValue) -> Result<IrValue, Refusal>
    ensures { result ≡ computed (arithmetic Believed.div (value_of x) (value_of y)) }
{
    let quotient = match (x, y) {
        (IrValue::U8(a), IrValue::U8(b)) => a.checked_div(b).map(IrValue::U8),
        (IrValue::U16(a), IrValue::U16(b)) => a.checked_div(b).map(IrValue::U16),
        (IrValue::U32(a), IrValue::U32(b)) => a.checked_div(b).map(IrValue::U32),
        (IrValue::U64(a), IrValue::U64(b)) => a.checked_div(b).map(IrValue::U64),
        (IrValue::I8(a), IrValue::I8(b)) => a.checked_div(b).map(IrValue::I8),
        (IrValue::I16(a), IrValue::I16(b)) => a.checked_div(b).map(IrValue::I16),
        (IrValue::I32(a), IrValue::I32(b)) => a.checked_div(b).map(IrValue::I32),
        (IrValue::I64(a), IrValue::I64(b)) => a.checked_div(b).map(IrValue::I64),
        _ => return Err(Refusal::WrongKinds),
    };
    quotient.ok_or_else(|| undivided(y))
}

// The remainder, with the dividend's sign: Mod.
pub fn rem(x: IrValue, y: IrValue) -> Result<IrValue, Refusal>
    ensures { result ≡ computed (arithmetic Believed.mod' (value_of x) (value_of y)) }
{
    let remainder = match (x, y) {
        (IrValue::U8(a), IrValue::U8(b)) => a.checked_rem(b).map(IrValue::U8),
        (IrValue::U16(a), IrValue::U16(b)) => a.checked_rem(b).map(IrValue::U16),
        (IrValue::U32(a), IrValue::U32(b)) => a.checked_rem(b).map(IrValue::U32),
        (IrValue::U64(a), IrValue::U64(b)) => a.checked_rem(b).map(IrValue::U64),
        (IrValue::I8(a), IrValue::I8(b)) => a.checked_rem(b).map(IrValue::I8),
        (IrValue::I16(a), IrValue::I16(b)) => a.checked_rem(b).map(IrValue::I16),
        (IrValue::I32(a), IrValue::I32(b)) => a.checked_rem(b).map(IrValue::I32),
        (IrValue::I64(a), IrValue::I64(b)) => a.checked_rem(b).map(IrValue::I64),
        _ => return Err(Refusal::WrongKinds),
    };
    remainder.ok_or_else(|| undivided(y))
}

// A signed integer or a float with the other sign.
pub fn negate(x: IrValue) -> Result<IrValue, Refusal>
    ensures { result ≡ computed (negated (value_of x)) }
{
    let opposite = match x {
        IrValue::I8(a) => a.checked_neg().map(IrValue::I8),
        IrValue::I16(a) => a.checked_neg().map(IrValue::I16),
        IrValue::I32(a) => a.checked_neg().map(IrValue::I32),
        IrValue::I64(a) => a.checked_neg().map(IrValue::I64),
        IrValue::F32(f) => Some(IrValue::F32(Single::from_bits(float::flip32(f.to_bits())))),
        IrValue::F64(f) => Some(IrValue::F64(Double::from_bits(float::flip64(f.to_bits())))),
        _ => return Err(Refusal::WrongKinds),
    };
    opposite.ok_or(Refusal::OutsideWidth)
}

// Whether these are two integers of one kind.
fn alike(x: IrValue, y: IrValue) -> bool
    ensures { result ≡ (same (value_of x).kind (value_of y).kind && (is_unsigned (family (value_of x).kind) || is_signed (family (value_of x).kind))) }
{
    x.tag() == y.tag() && is_integer(x)
}

#[tactic(auto, unfolding(value::specs::Ir::value_of, value::specs::Value::family))]
fn is_integer(x: IrValue) -> bool
    ensures { result ≡ (is_unsigned (family (value_of x).kind) || is_signed (family (value_of x).kind)) }
{
    matches!(
        x,
        IrValue::U8(_)
            | IrValue::U16(_)
            | IrValue::U32(_)
            | IrValue::U64(_)
            | IrValue::I8(_)
            | IrValue::I16(_)
            | IrValue::I32(_)
            | IrValue::I64(_)
    )
}

// The number that an integer is, or the bits of what is none.
fn number(x: IrValue) -> i128
    ensures is { result ≡ integer (value_of x) }
    ensures small { nat_abs result < 2 ^ 64 }
{
    match x {
        IrValue::I8(a) => a as i128,
        IrValue::I16(a) => a as i128,
        IrValue::I32(a) => a as i128,
        IrValue::I64(a) => a as i128,
        _ => x.bits() as i128,
    }
}

// The number as a value of x's kind, if it lies inside its width.
fn stored(x: IrValue, z: i128) -> Result<IrValue, Refusal>
    ensures { result ≡ computed (checked (value_of x).kind z) }
{
    let value = match x {
        IrValue::U8(_) => u8::try_from(z).map(IrValue::U8),
        IrValue::U16(_) => u16::try_from(z).map(IrValue::U16),
        IrValue::U32(_) => u32::try_from(z).map(IrValue::U32),
        IrValue::U64(_) => u64::try_from(z).map(IrValue::U64),
        IrValue::I8(_) => i8::try_from(z).map(IrValue::I8),
        IrValue::I16(_) => i16::try_from(z).map(IrValue::I16),
        IrValue::I32(_) => i32::try_from(z).map(IrValue::I32),
        IrValue::I64(_) => i64::try_from(z).map(IrValue::I64),
        _ => return Err(Refusal::OutsideWidth),
    };
    value.map_err(|_| Refusal::OutsideWidth)
}

// Why there is no quotient: the divisor is 0, or the least integer is divided by -1.
fn undivided(divisor: IrValue) -> Refusal
    ensures { result ≡ pick (eqb (value_of divisor).bits 0) zero_divisor outside_width }
{
    if divisor.bits() == 0 {
        Refusal::ZeroDivisor
    } else {
        Refusal::OutsideWidth
    }
}
