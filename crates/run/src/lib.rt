// Steps within a budget, over an image that was loaded.
#![tactic(auto)]

ghost use Rattle.std.specs.Prelude.{◌≡◌, ◌+◌, ◌-◌};
ghost use Rattle.memory.specs.Tables.{tables, state};
ghost use Rattle.step.specs.Items.{items};
ghost use Rattle.run.specs.Run.{running, ran_of};

use instruction::step::Progress;
use instruction::variables::Found;
use memory::Registers;
use step::step_at;
use value::refusal::Refusal;

// What a run answers, with the count of its steps: returned a value or none, paused, or stopped by a refused instruction.
#[derive(Clone, Copy, Debug, PartialEq, Eq)]
pub enum Ran {
    Returned(Registers, Option<Found>, u64),
    Paused(Registers, u64),
    Stopped(Registers, Refusal, u64),
}

// "Before each instruction: if steps done equal the budget, it is paused."
#[tactic(auto, using(crate::proofs::Turns::next_of, crate::proofs::Turns::paused_of))]
pub fn run_steps(
    m: Registers,
    budget: u64,
    image: &[u8],
    places: &[usize],
    labels: &[usize],
    functions: &[usize],
    extents: &[u64],
    store: &mut [u8],
    frames: &mut [u64],
    bounds: &mut [u64],
    pointers: &mut [u64],
    vars: &mut [u64],
) -> Ran
    ensures { running result store.new frames.new bounds.new pointers.new vars.new ≡ ran_of (items image.now places.now labels.now functions.now extents.now) budget 0 (state (tables m store.old frames.old bounds.old pointers.old) vars.old) }
{
    let mut here = m;
    for done in 0..budget {
        let next = step_at(
            here, image, places, labels, functions, extents, store, frames, bounds, pointers, vars,
        );
        match next {
            Ok(Progress::Next(n)) => here = n,
            Ok(Progress::Ended(n, v)) => return Ran::Returned(n, v, done + 1),
            Err(why) => return Ran::Stopped(here, why, done),
        }
    }
    Ran::Paused(here, budget)
}
