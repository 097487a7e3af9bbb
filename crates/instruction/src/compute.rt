// What the instructions that only compute make of their operands' values, as tags and bits.
ghost use Rattle.std.specs.Prelude.{◌≡◌, ℕ, Some, Ok};
ghost use Rattle.value.specs.Value.{tag, bool};
ghost use Rattle.value.specs.Tags.{int_cmp_at, float_cmp_at};
ghost use Rattle.value.specs.Ir.{value_of, computed};
ghost use Rattle.value.specs.Answer.{pick};
ghost use Rattle.instruction.specs.Variables.{found};
ghost use Rattle.instruction.specs.declared.variables.Found.{Found};
ghost use Rattle.instruction.specs.Short.{Unsigned, Alike};
ghost use Rattle.instruction.specs.Compute.{found_of, found_as, compared_ints, compared_floats, operated, with_second, binary_of, altered, unary_of};

use crate::variables::Found;
use comparing::compare::{float_cmp, int_cmp, not};
use operations::float::fdiv;
use operations::integer::{add, div, mul, negate, rem, sub};
use value::refusal::Refusal;
use value::{Double, FloatCmp, IntCmp, IrType, IrValue};

// An operation's answer as a tag and bits.
pub fn found(c: Result<IrValue, Refusal>) -> Result<Found, Refusal>
    ensures { result ≡ found_as c }
{
    Ok(Found::from(c?))
}

// IntCmp, by the number of its comparison. Its twin below differs in both types and in the function called: one for both is no shorter.
#[tactic(auto, using(crate::proofs::Computed::ints_compared))]
pub fn int_compare(how: u64, a: IrValue, b: IrValue) -> Result<IrValue, Refusal>
    ensures { result ≡ computed (compared_ints (int_cmp_at how) (value_of a) (value_of b)) }
{
    let cmp = IntCmp::from_number(how).ok_or(Refusal::NoInstruction)?;
    int_cmp(cmp, a, b)
}

// FloatCmp, by the number of its comparison.
#[tactic(auto, using(crate::proofs::Computed::floats_compared))]
pub fn float_compare(how: u64, a: IrValue, b: IrValue) -> Result<IrValue, Refusal>
    ensures { result ≡ computed (compared_floats (float_cmp_at how) (value_of a) (value_of b)) }
{
    let cmp = FloatCmp::from_number(how).ok_or(Refusal::NoInstruction)?;
    float_cmp(cmp, a, b)
}

// Opcodes 6 to 13: a comparison, an integer operation or FDiv. `how` is a comparison's number.
#[tactic(auto, unfolding(crate::specs::Compute::operated, value::specs::Ir::computed))]
pub fn operate(opcode: u64, how: u64, a: IrValue, b: IrValue) -> Result<IrValue, Refusal>
    ensures { result ≡ computed (operated opcode how (value_of a) (value_of b)) }
{
    match opcode {
        6 => int_compare(how, a, b),
        7 => float_compare(how, a, b),
        8 => add(a, b),
        9 => sub(a, b),
        10 => mul(a, b),
        11 => div(a, b),
        12 => rem(a, b),
        13 => fdiv(a, b),
        _ => Err(Refusal::NoInstruction),
    }
}

// The second operand's value, after the first's.
#[tactic(auto, using(crate::proofs::Computed::second))]
pub fn with_second(
    opcode: u64,
    how: u64,
    a: IrValue,
    y: Result<Found, Refusal>,
) -> Result<Found, Refusal>
    ensures { result ≡ found_of (with_second opcode how (value_of a) y) }
{
    let b = IrValue::try_from(y?)?;
    found(operate(opcode, how, a, b))
}

// The greatest number of an unsigned kind, by its tag; none where the kind is another.
fn greatest(tag: u64) -> Option<u64>
    ensures { (top : ℕ) → result ≡ Some top → Unsigned tag top }
{
    match tag {
        IrType::U8_TAG => Some(0xff),
        IrType::U16_TAG => Some(0xffff),
        IrType::U32_TAG => Some(0xffff_ffff),
        IrType::U64_TAG => Some(0xffff_ffff_ffff_ffff),
        _ => None,
    }
}

// A Bool's tag and bits.
#[tactic(auto, unfolding(value::specs::Value::tag))]
fn truth(test: bool) -> Found
    ensures { result ≡ found (tag bool) (pick test 1 0) }
{
    Found {
        tag: IrType::BOOL_TAG,
        bits: test as u64,
    }
}

// The unsigned comparisons, by their numbers; none of the others.
#[tactic(auto, using(crate::proofs::Unsigned::orders))]
fn order(how: u64, a: u64, b: u64) -> Option<Found>
    ensures { (r : Found) → result ≡ Some r → (tag top : ℕ) → Alike tag top a b → Ok r ≡ found_of (binary_of 6 how (Ok (found tag a)) (Ok (found tag b))) }
{
    match how {
        2 => Some(truth(a < b)),
        3 => Some(truth(a <= b)),
        4 => Some(truth(b < a)),
        5 => Some(truth(b <= a)),
        _ => None,
    }
}

// The sum, where it is no more than `top`.
#[tactic(auto, using(crate::proofs::Unsigned::sums))]
fn sum(tag: u64, top: u64, a: u64, b: u64) -> Option<Found>
    requires { Alike tag top a b }
    ensures { (r : Found) → result ≡ Some r → (how : ℕ) → Ok r ≡ found_of (binary_of 8 how (Ok (found tag a)) (Ok (found tag b))) }
{
    if top - a < b {
        return None;
    }
    Some(Found { tag, bits: a + b })
}

// The difference, where it is no less than 0.
#[tactic(auto, using(crate::proofs::Unsigned::differences))]
fn difference(tag: u64, a: u64, b: u64) -> Option<Found>
    ensures { (r : Found) → result ≡ Some r → (how top : ℕ) → Alike tag top a b → Ok r ≡ found_of (binary_of 9 how (Ok (found tag a)) (Ok (found tag b))) }
{
    if a < b {
        return None;
    }
    Some(Found { tag, bits: a - b })
}

// FDiv of two F64, whose kinds need no search; none of other kinds and opcodes.
#[tactic(auto, using(crate::proofs::Computed::quotients, crate::proofs::Computed::ok_is))]
fn quotient(opcode: u64, x: Found, y: Found) -> Option<Found>
    ensures { (r : Found) → result ≡ Some r → (how : ℕ) → Ok r ≡ found_of (binary_of opcode how (Ok x) (Ok y)) }
{
    if opcode != 13 || x.tag != IrType::F64_TAG || y.tag != IrType::F64_TAG {
        return None;
    }
    let a = IrValue::F64(Double::from_bits(x.bits));
    let b = IrValue::F64(Double::from_bits(y.bits));
    found(fdiv(a, b)).ok()
}

// The short way of two unsigned integers of one kind, by their bits alone, or of two F64; none where it does not lead to an answer.
#[tactic(auto, using(crate::proofs::Unsigned::alike_found))]
fn short(opcode: u64, how: u64, x: Found, y: Found) -> Option<Found>
    ensures { (r : Found) → result ≡ Some r → Ok r ≡ found_of (binary_of opcode how (Ok x) (Ok y)) }
{
    let Some(top) = greatest(x.tag) else {
        return quotient(opcode, x, y);
    };
    if x.tag != y.tag || top < x.bits || top < y.bits {
        return None;
    }
    match opcode {
        6 => order(how, x.bits, y.bits),
        8 => sum(x.tag, top, x.bits, y.bits),
        9 => difference(x.tag, x.bits, y.bits),
        _ => None,
    }
}

// Two operands' values, the first's refusal first. The second's counts only after the first is seen to be a value.
#[tactic(auto, using(crate::proofs::Computed::first))]
pub fn binary(
    opcode: u64,
    how: u64,
    x: Result<Found, Refusal>,
    y: Result<Found, Refusal>,
) -> Result<Found, Refusal>
    ensures { result ≡ found_of (binary_of opcode how x y) }
{
    let x = x?;
    if let Ok(v) = y {
        if let Some(quick) = short(opcode, how, x, v) {
            return Ok(quick);
        }
    }
    let a = IrValue::try_from(x)?;
    with_second(opcode, how, a, y)
}

// Opcodes 14 and 15: Not, which leaves its Bool as it is, and Negate.
#[tactic(auto, unfolding(crate::specs::Compute::altered, value::specs::Ir::computed))]
pub fn alter(opcode: u64, a: IrValue) -> Result<IrValue, Refusal>
    ensures { result ≡ computed (altered opcode (value_of a)) }
{
    match opcode {
        14 => not(a),
        15 => negate(a),
        _ => Err(Refusal::NoInstruction),
    }
}

// One operand's value.
#[tactic(auto, using(crate::proofs::Computed::alone))]
pub fn unary(opcode: u64, x: Result<Found, Refusal>) -> Result<Found, Refusal>
    ensures { result ≡ found_of (unary_of opcode x) }
{
    let a = IrValue::try_from(x?)?;
    found(alter(opcode, a))
}
