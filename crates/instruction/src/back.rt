// Return: back to the caller, or the end of the run.
ghost use Rattle.std.specs.Prelude.{◌≡◌};
ghost use Rattle.memory.specs.Tables.{both};
ghost use Rattle.instruction.specs.Storage.{back_of, left_of, returned_of};

use crate::field::{read_field, read_operand};
use crate::step::Progress;
use crate::variables::{Found, evaluate, set_variable};
use memory::{Registers, pop_frame};
use value::refusal::Refusal;

// On at the popped frame's return place, with its return variable (+ 1, or 0 for none) set to the value, if there is one.
#[tactic(auto, unfolding(crate::specs::Storage::back_of))]
pub fn resume(
    m: Registers,
    place: u64,
    variable: u64,
    vars: &mut [u64],
    v: Option<Found>,
) -> Result<Progress, Refusal>
    ensures { both result vars.new ≡ back_of m place variable vars.old v }
{
    let n = Registers {
        next: place as usize,
        ..m
    };
    let Some(v) = v else {
        return Ok(Progress::Next(n));
    };
    if variable == 0 {
        return Err(Refusal::NoReturnPlace);
    }
    set_variable(vars, (variable - 1) as usize, v);
    Ok(Progress::Next(n))
}

// Out of the top frame, with a value or none. At the root the run ends, and the next place stays the Return's own.
#[tactic(auto, unfolding(crate::specs::Storage::left_of))]
pub fn leave(
    m: Registers,
    frames: &[u64],
    vars: &mut [u64],
    v: Option<Found>,
) -> Result<Progress, Refusal>
    ensures { both result vars.new ≡ left_of m frames.now vars.old v }
{
    let Some(f) = pop_frame(m, frames)? else {
        let n = Registers { running: 0, ..m };
        return Ok(Progress::Ended(n, v));
    };
    resume(f.registers, f.place, f.variable, vars, v)
}

// Return: optional operand. It is given registers whose next place is its own.
#[tactic(auto, unfolding(crate::specs::Storage::returned_of))]
pub fn return_value(
    m: Registers,
    image: &[u8],
    at: usize,
    frames: &[u64],
    vars: &mut [u64],
) -> Result<Progress, Refusal>
    ensures { both result vars.new ≡ returned_of m image.now frames.now vars.old at }
{
    let mark = read_field(image, at);
    if mark.value == 0 {
        return leave(m, frames, vars, None);
    }
    let v = evaluate(vars, read_operand(image, mark.next))?;
    leave(m, frames, vars, Some(v))
}
