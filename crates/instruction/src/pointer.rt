// The instructions that hand out a pointer: ConstantAddress and Offset.
ghost use Rattle.std.specs.Prelude.{◌≡◌};
ghost use Rattle.memory.specs.Tables.{both};
ghost use Rattle.instruction.specs.Storage.{as_pointer_of, number_in, pointed, pointed_of, addressed_of, offsetted_of};

use crate::field::{read_field, read_operand};
use crate::step::{Progress, finish};
use crate::variables::{Found, evaluate};
use memory::{Registers, constant_address, offset_by};
use value::refusal::Refusal;
use value::{IrType, IrValue};

// A value where a pointer is asked for.
#[tactic(auto, using(crate::proofs::Handed::asked), unfolding(value::specs::Answer::need, value::specs::Ir::value_of, value::specs::Value::tag))]
pub fn as_pointer(v: Result<Found, Refusal>) -> Result<u64, Refusal>
    ensures { result ≡ number_in (as_pointer_of v) }
{
    let IrValue::Pointer(p) = IrValue::try_from(v?)? else {
        return Err(Refusal::WrongKinds);
    };
    Ok(p)
}

// The pointer that was given out goes to a variable.
#[tactic(auto, unfolding(crate::specs::Code::finished_of, value::specs::Value::tag))]
pub fn point(
    given: Result<(usize, Registers), Refusal>,
    vars: &mut [u64],
    to: u64,
) -> Result<Progress, Refusal>
    ensures { both result vars.new ≡ pointed_of given vars.old to }
{
    let (p, m) = given?;
    let pointer = Found {
        tag: IrType::POINTER_TAG,
        bits: p as u64,
    };
    finish(m, vars, to, Ok(pointer))
}

// ConstantAddress: to, constant.
#[tactic(auto, unfolding(crate::specs::Storage::addressed_of))]
pub fn address(
    m: Registers,
    image: &[u8],
    at: usize,
    pointers: &mut [u64],
    vars: &mut [u64],
) -> Result<Progress, Refusal>
    ensures { pointed result pointers.new vars.new ≡ addressed_of m image.now pointers.old vars.old at }
{
    let to = read_field(image, at);
    let constant = read_field(image, to.next);
    let given = constant_address(m, constant.value, pointers);
    point(given, vars, to.value)
}

// Offset: to, operand, u32.
#[tactic(auto, unfolding(crate::specs::Storage::offsetted_of))]
pub fn offset(
    m: Registers,
    image: &[u8],
    at: usize,
    pointers: &mut [u64],
    vars: &mut [u64],
) -> Result<Progress, Refusal>
    ensures { pointed result pointers.new vars.new ≡ offsetted_of m image.now pointers.old vars.old at }
{
    let to = read_field(image, at);
    let from = read_operand(image, to.next);
    let by = read_field(image, from.next);
    let p = as_pointer(evaluate(vars, from))?;
    let given = offset_by(m, p as usize, by.value, pointers);
    point(given, vars, to.value)
}
