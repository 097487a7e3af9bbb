// The entries that take an image: it is loaded first, then the state is looked at, and then what was asked is done.
ghost use Rattle.std.specs.Prelude.{◌≡◌, ◌*◌, ◌≤◌, length, take};
ghost use Rattle.memory.specs.Tables.{tables, state};
ghost use Rattle.image.specs.Number.{number};
ghost use Rattle.decode.specs.Extents.{extents_at};
ghost use Rattle.eval.specs.Loaded.{extent_of, items_in};
ghost use Rattle.run.specs.Run.{running};
ghost use Rattle.eval.specs.Entry.{entering, as_entered, read_out, Bounded, run_loaded, read_loaded, step_entered, run_entered, read_entered};
ghost use Rattle.eval.specs.declared.entry.EntryError.TheVariants.{Refused, NotLoaded};

use image::number::{Stop, read_number};
use instruction::step::Progress;
use loader::load::{Loaded, load};
use memory::{Registers, read_bytes};
use run::{Ran, run_steps};
use soundness::sound;
use value::refusal::Refusal;

// Why an entry is refused: by a check of its own, or for its image, by number and place.
#[derive(Clone, Copy, Debug, PartialEq, Eq)]
pub enum EntryError {
    Refused(Refusal),
    NotLoaded(Stop),
}

impl From<Refusal> for EntryError {
    ghost from_gives = { λ n e. e ≡ Refused n };

    fn from(why: Refusal) -> EntryError {
        EntryError::Refused(why)
    }
}

impl From<Stop> for EntryError {
    ghost from_gives = { λ s e. e ≡ NotLoaded s };

    fn from(stop: Stop) -> EntryError {
        EntryError::NotLoaded(stop)
    }
}

// Where a constant's bytes start in the image, and how many they are.
#[derive(Clone, Copy)]
pub struct Extent {
    pub start: usize,
    pub count: u64,
}

// The constant whose length stands at this place.
fn extent_at(image: &[u8], at: usize) -> Extent
    ensures { result ≡ extent_of (number image.now at) }
{
    match read_number(image, at) {
        Ok((count, start)) => Extent { start, count },
        Err(_) => Extent { start: 0, count: 0 },
    }
}

// Of each constant its start and its length.
#[tactic(auto, using(crate::proofs::Constants::extents_none, crate::proofs::Constants::extents_whole))]
fn extents_of(image: &[u8], constants: &[usize]) -> [u64; 128]
    requires { length constants.now ≤ 64 }
    ensures { take (length constants.now * 2) result ≡ extents_at image.now constants.now }
{
    let mut extents = [0u64; 128];
    for k in 0..constants.len() {
        let extent = extent_at(image, constants[k]);
        let at = k * 2;
        extents[at] = extent.start as u64;
        extents[at + 1] = extent.count;
    }
    extents
}

#[tactic(auto, using(crate::proofs::Tabled::words), unfolding(crate::specs::Entry::run_loaded))]
fn run_loaded(
    l: Loaded,
    image: &[u8],
    budget: u32,
    m: Registers,
    store: &mut [u8],
    frames: &mut [u64],
    bounds: &mut [u64],
    pointers: &mut [u64],
    vars: &mut [u64],
) -> Result<Ran, EntryError>
    requires { Bounded l }
    ensures { running result store.new frames.new bounds.new pointers.new vars.new ≡ run_loaded (items_in image.now l) budget (state (tables m store.old frames.old bounds.old pointers.old) vars.old) }
{
    if !sound(m, store, frames, bounds, pointers, vars) {
        return Err(EntryError::Refused(Refusal::NotSound));
    }
    if m.running != 1 {
        return Err(EntryError::Refused(Refusal::Idle));
    }
    let constants = l.counts.constants as usize;
    let extents = extents_of(image, &l.constants[..constants]);
    Ok(run_steps(
        m,
        budget as u64,
        image,
        &l.places[..l.instructions],
        &l.labels[..l.counts.blocks as usize],
        &l.functions[..l.counts.functions as usize],
        &extents[..constants * 2],
        store,
        frames,
        bounds,
        pointers,
        vars,
    ))
}

// Steps until the budget is spent, the run returns, or an instruction is refused.
#[tactic(auto, using(crate::proofs::Tabled::bounded), unfolding(crate::specs::Entry::run_entered))]
pub fn run(
    image: &[u8],
    budget: u32,
    m: Registers,
    store: &mut [u8],
    frames: &mut [u64],
    bounds: &mut [u64],
    pointers: &mut [u64],
    vars: &mut [u64],
) -> Result<Ran, EntryError>
    ensures { running result store.new frames.new bounds.new pointers.new vars.new ≡ run_entered image.now budget (state (tables m store.old frames.old bounds.old pointers.old) vars.old) }
{
    let l = load(image)?;
    run_loaded(l, image, budget, m, store, frames, bounds, pointers, vars)
}

// What a run of one step answers, as a step's answer.
fn one_step(r: Result<Ran, EntryError>) -> Result<Progress, EntryError>
    ensures { result ≡ as_entered r }
{
    match r? {
        Ran::Paused(m, _) => Ok(Progress::Next(m)),
        Ran::Returned(m, v, _) => Ok(Progress::Ended(m, v)),
        Ran::Stopped(_, why, _) => Err(EntryError::Refused(why)),
    }
}

// One step: a run whose budget is one.
pub fn step(
    image: &[u8],
    m: Registers,
    store: &mut [u8],
    frames: &mut [u64],
    bounds: &mut [u64],
    pointers: &mut [u64],
    vars: &mut [u64],
) -> Result<Progress, EntryError>
    ensures { entering result store.new frames.new bounds.new pointers.new vars.new ≡ step_entered image.now (state (tables m store.old frames.old bounds.old pointers.old) vars.old) }
{
    one_step(run(image, 1, m, store, frames, bounds, pointers, vars))
}

#[tactic(auto, using(crate::proofs::Tabled::words), unfolding(crate::specs::Entry::read_loaded))]
fn read_loaded(
    l: Loaded,
    image: &[u8],
    m: Registers,
    p: usize,
    bytes: &mut [u8],
    store: &[u8],
    frames: &[u64],
    bounds: &[u64],
    pointers: &[u64],
    vars: &[u64],
) -> Result<(), EntryError>
    requires { Bounded l }
    ensures { read_out result bytes.new ≡ read_loaded (items_in image.now l) p bytes.old (state (tables m store.now frames.now bounds.now pointers.now) vars.now) }
{
    if !sound(m, store, frames, bounds, pointers, vars) {
        return Err(EntryError::Refused(Refusal::NotSound));
    }
    let constants = l.counts.constants as usize;
    let extents = extents_of(image, &l.constants[..constants]);
    let read = read_bytes(
        m,
        p,
        bytes,
        store,
        frames,
        bounds,
        pointers,
        image,
        &extents[..constants * 2],
    );
    Ok(read?)
}

// As many bytes as the buffer holds, read through a pointer.
#[tactic(auto, using(crate::proofs::Tabled::bounded), unfolding(crate::specs::Entry::read_entered))]
pub fn host_read(
    image: &[u8],
    m: Registers,
    p: usize,
    bytes: &mut [u8],
    store: &[u8],
    frames: &[u64],
    bounds: &[u64],
    pointers: &[u64],
    vars: &[u64],
) -> Result<(), EntryError>
    ensures { read_out result bytes.new ≡ read_entered image.now p bytes.old (state (tables m store.now frames.now bounds.now pointers.now) vars.now) }
{
    let l = load(image)?;
    read_loaded(l, image, m, p, bytes, store, frames, bounds, pointers, vars)
}
