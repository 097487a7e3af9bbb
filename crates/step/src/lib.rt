// One step: the instruction at the next place, decided by its opcode.
#![tactic(auto)]

ghost use Rattle.std.specs.Prelude.{◌≡◌};
ghost use Rattle.memory.specs.Tables.{tables, state};
ghost use Rattle.instruction.specs.Code.{stepped, with_next};
ghost use Rattle.step.specs.Items.{items};
ghost use Rattle.step.specs.Step.{stepped_of};

use calls::call::call;
use instruction::back::return_value;
use instruction::field::read_field;
use instruction::pointer::{address, offset};
use instruction::step::{Progress, assign, change, combine, jump, switch};
use instruction::storage::{copy, initialize, read, write};
use memory::Registers;
use value::refusal::Refusal;

// The registers with this next place. Each instruction makes its own, so that none is kept in memory for the others.
fn with_next(m: Registers, place: usize) -> Registers
    ensures { result ≡ with_next m place }
{
    Registers { next: place, ..m }
}

#[tactic(auto, unfolding(crate::specs::Step::stepped_of, crate::specs::Step::dispatched))]
#[inline(always)]
pub fn step_at(
    m: Registers,
    image: &[u8],
    places: &[usize],
    labels: &[usize],
    functions: &[usize],
    extents: &[u64],
    store: &mut [u8],
    frames: &mut [u64],
    bounds: &mut [u64],
    pointers: &mut [u64],
    vars: &mut [u64],
) -> Result<Progress, Refusal>
    ensures { stepped result store.new frames.new bounds.new pointers.new vars.new ≡ stepped_of (items image.now places.now labels.now functions.now extents.now) (state (tables m store.old frames.old bounds.old pointers.old) vars.old) }
{
    let k = m.next;
    if places.len() <= k {
        return Err(Refusal::NoInstruction);
    }
    let field = read_field(image, places[k]);
    let opcode = field.value;
    let at = field.next;
    let next = k + 1;
    match opcode {
        0 => jump(with_next(m, next), image, at, labels),
        1 => switch(with_next(m, next), image, at, labels, vars),
        2 => assign(with_next(m, next), image, at, vars),
        3 => address(with_next(m, next), image, at, pointers, vars),
        4 => call(
            with_next(m, next),
            image,
            at,
            labels,
            functions,
            store,
            frames,
            bounds,
            pointers,
            vars,
        ),
        5 => return_value(m, image, at, frames, vars),
        6..=13 => combine(with_next(m, next), opcode, image, at, vars),
        14..=15 => change(with_next(m, next), opcode, image, at, vars),
        16 => offset(with_next(m, next), image, at, pointers, vars),
        17 => initialize(
            with_next(m, next),
            image,
            at,
            store,
            frames,
            bounds,
            pointers,
            vars,
        ),
        18 => write(
            with_next(m, next),
            image,
            at,
            store,
            frames,
            bounds,
            pointers,
            vars,
        ),
        19 => read(
            with_next(m, next),
            image,
            at,
            extents,
            store,
            frames,
            bounds,
            pointers,
            vars,
        ),
        20 => copy(
            with_next(m, next),
            image,
            at,
            extents,
            store,
            frames,
            bounds,
            pointers,
            vars,
        ),
        21 => Ok(Progress::Next(with_next(m, next))),
        _ => Err(Refusal::NoInstruction),
    }
}
