// The commands that run the image: `start`, `step` and `run`.
ghost use Rattle.std.specs.Prelude.{◌≡◌};
ghost use Rattle.memory.specs.Tables.{tables, state};
ghost use Rattle.console.specs.Turns.{left, leaving, start_done, step_done, run_done, ran_of};

use crate::{Told, tell};
use commands::command::Command;
use commands::{Asked, Parts};
use eval::after::{after_entered, after_run};
use eval::entry::{run, step};
use memory::Registers;
use telling::answer::{write_ran, write_start, write_step};
use telling::begin::{begin, budget_of};

// `start FUNCTION KIND BITS [KIND BITS]...`
#[tactic(auto, unfolding(crate::specs::Turns::start_done))]
fn perform_start(
    m: Registers,
    parts: Parts,
    tags: &[u64],
    bits: &[u64],
    image: &[u8],
    out: &mut [u8],
    store: &mut [u8],
    frames: &mut [u64],
    bounds: &mut [u64],
    pointers: &mut [u64],
    vars: &mut [u64],
) -> Told
    ensures { left result out.new store.new frames.new bounds.new pointers.new vars.new ≡ leaving out.old (start_done image.now parts tags.now bits.now (state (tables m store.old frames.old bounds.old pointers.old) vars.old)) }
{
    let e = begin(
        m,
        parts.first,
        parts.count,
        tags,
        bits,
        image,
        store,
        frames,
        bounds,
        pointers,
        vars,
    );
    tell(after_entered(e, m), write_start(out, e))
}

// `step`
#[tactic(auto, unfolding(crate::specs::Turns::step_done))]
fn perform_step(
    m: Registers,
    image: &[u8],
    out: &mut [u8],
    store: &mut [u8],
    frames: &mut [u64],
    bounds: &mut [u64],
    pointers: &mut [u64],
    vars: &mut [u64],
) -> Told
    ensures { left result out.new store.new frames.new bounds.new pointers.new vars.new ≡ leaving out.old (step_done image.now (state (tables m store.old frames.old bounds.old pointers.old) vars.old)) }
{
    let e = step(image, m, store, frames, bounds, pointers, vars);
    tell(after_entered(e, m), write_step(out, e))
}

// `run BUDGET`
#[tactic(auto, unfolding(crate::specs::Turns::run_done))]
fn perform_run(
    m: Registers,
    parts: Parts,
    image: &[u8],
    out: &mut [u8],
    store: &mut [u8],
    frames: &mut [u64],
    bounds: &mut [u64],
    pointers: &mut [u64],
    vars: &mut [u64],
) -> Told
    ensures { left result out.new store.new frames.new bounds.new pointers.new vars.new ≡ leaving out.old (run_done image.now parts (state (tables m store.old frames.old bounds.old pointers.old) vars.old)) }
{
    let r = run(
        image,
        budget_of(parts.first),
        m,
        store,
        frames,
        bounds,
        pointers,
        vars,
    );
    tell(after_run(r, m), write_ran(out, r))
}

// The commands that run the image.
pub fn perform_running(
    m: Registers,
    asked: Asked,
    tags: &[u64],
    bits: &[u64],
    image: &[u8],
    out: &mut [u8],
    store: &mut [u8],
    frames: &mut [u64],
    bounds: &mut [u64],
    pointers: &mut [u64],
    vars: &mut [u64],
) -> Told
    ensures { left result out.new store.new frames.new bounds.new pointers.new vars.new ≡ leaving out.old (ran_of image.now asked.command asked.parts tags.now bits.now (state (tables m store.old frames.old bounds.old pointers.old) vars.old)) }
{
    let parts = asked.parts;
    match asked.command {
        Command::Start => perform_start(
            m, parts, tags, bits, image, out, store, frames, bounds, pointers, vars,
        ),
        Command::Step => perform_step(m, image, out, store, frames, bounds, pointers, vars),
        _ => perform_run(m, parts, image, out, store, frames, bounds, pointers, vars),
    }
}
