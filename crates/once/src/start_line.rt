// `lir run`: the answer to a start line, on fresh memory.
ghost use Rattle.std.specs.Prelude.{◌≡◌};
ghost use Rattle.memory.specs.Tables.{tables, state};
ghost use Rattle.run.specs.Run.{running};
ghost use Rattle.once.specs.Runs.{run_from, begun_run, fresh_run, answered, answering, start_answered};

use commands::Parts;
use commands::command::read_start_line;
use eval::entry::EntryError;
use instruction::step::Progress;
use memory::{Registers, fresh};
use run::Ran;
use telling::answer::{write_ran, write_unread};
use telling::begin::{begin, budget_of};
use telling::{LONGEST, VALUES};

// The run that follows a start, or the start's refusal.
fn run_from(
    started: Result<Progress, EntryError>,
    image: &[u8],
    budget: u32,
    store: &mut [u8],
    frames: &mut [u64],
    bounds: &mut [u64],
    pointers: &mut [u64],
    vars: &mut [u64],
) -> Result<Ran, EntryError>
    ensures { running result store.new frames.new bounds.new pointers.new vars.new ≡ run_from image.now budget started store.old frames.old bounds.old pointers.old vars.old }
{
    match started? {
        Progress::Next(m) => {
            eval::entry::run(image, budget, m, store, frames, bounds, pointers, vars)
        }
        Progress::Ended(m, v) => Ok(Ran::Returned(m, v, 0)),
    }
}

// The function that a line asks for starts on this machine, and runs.
#[tactic(auto, unfolding(crate::specs::Runs::begun_run))]
fn run_on(
    m: Registers,
    parts: Parts,
    tags: &[u64],
    bits: &[u64],
    image: &[u8],
    store: &mut [u8],
    frames: &mut [u64],
    bounds: &mut [u64],
    pointers: &mut [u64],
    vars: &mut [u64],
) -> Result<Ran, EntryError>
    ensures { running result store.new frames.new bounds.new pointers.new vars.new ≡ begun_run image.now parts tags.now bits.now (state (tables m store.old frames.old bounds.old pointers.old) vars.old) }
{
    let e = begin(
        m,
        parts.first,
        parts.count,
        tags,
        bits,
        image,
        store,
        frames,
        bounds,
        pointers,
        vars,
    );
    run_from(
        e,
        image,
        budget_of(parts.second),
        store,
        frames,
        bounds,
        pointers,
        vars,
    )
}

// The same on fresh memory.
#[tactic(auto, unfolding(crate::specs::Runs::fresh_run))]
fn run_fresh(
    parts: Parts,
    tags: &[u64],
    bits: &[u64],
    image: &[u8],
    store: &mut [u8],
    frames: &mut [u64],
    bounds: &mut [u64],
    pointers: &mut [u64],
    vars: &mut [u64],
) -> Result<Ran, EntryError>
    ensures { running result store.new frames.new bounds.new pointers.new vars.new ≡ fresh_run image.now parts tags.now bits.now store.old frames.old bounds.old pointers.old vars.old }
{
    let m = fresh(store, frames, bounds, pointers, vars)?;
    run_on(
        m, parts, tags, bits, image, store, frames, bounds, pointers, vars,
    )
}

// Answers a start line.
pub fn answer_start(
    line: &[u8],
    image: &[u8],
    out: &mut [u8],
    store: &mut [u8],
    frames: &mut [u64],
    bounds: &mut [u64],
    pointers: &mut [u64],
    vars: &mut [u64],
) -> Option<usize>
    ensures { answered result out.new store.new frames.new bounds.new pointers.new vars.new ≡ answering out.old (start_answered line.now image.now store.old frames.old bounds.old pointers.old vars.old) }
{
    if LONGEST < line.len() {
        return write_unread(out, 0);
    }
    let mut bytes = [0u8; 1];
    let mut tags = [0u64; VALUES];
    let mut bits = [0u64; VALUES];
    match read_start_line(line, &mut bytes, &mut tags, &mut bits) {
        Ok(parts) => {
            let r = run_fresh(
                parts, &tags, &bits, image, store, frames, bounds, pointers, vars,
            );
            write_ran(out, r)
        }
        Err(bad) => write_unread(out, bad.0),
    }
}
