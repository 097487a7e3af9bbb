// Start: the checks of the host's call in their order, and then the function begins.
ghost use Rattle.std.specs.Prelude.{◌≡◌, ◌<◌, length};
ghost use Rattle.memory.specs.Tables.{tables, state, every};
ghost use Rattle.eval.specs.Loaded.{items_in};
ghost use Rattle.eval.specs.Entry.{entering, Bounded};
ghost use Rattle.eval.specs.Start.{value_at, wanted_of, start_refusal, start_loaded, start_entered};

use crate::entry::EntryError;
use calls::begin::begin;
use calls::fields::{Callee, place_in, read_callee};
use instruction::step::Progress;
use instruction::variables::Found;
use loader::load::{Loaded, load};
use memory::Registers;
use soundness::sound;
use value::IrValue;
use value::refusal::Refusal;

// Whether the tag in this place has bits, and both are a value's.
#[tactic(auto, unfolding(crate::specs::Start::value_at))]
fn is_value_at(tags: &[u64], bits: &[u64], k: usize) -> bool
    requires { k < length tags.now }
    ensures { result ≡ value_at tags.now bits.now k }
{
    k < bits.len() && IrValue::fits(tags[k], bits[k])
}

// Whether all tags and bits are values'; bits for each tag.
fn are_values(tags: &[u64], bits: &[u64]) -> bool
    ensures { result ≡ every (length tags.now) (value_at tags.now bits.now) }
{
    (0..tags.len()).all(|k| is_value_at(tags, bits, k))
}

// Whether so many arguments are asked for: one for each parameter, and the return pointer where flagged.
#[tactic(auto, unfolding(crate::specs::Start::wanted_of))]
fn is_wanted(callee: Callee, given: usize) -> bool
    ensures { result ≡ wanted_of callee given }
{
    let count = given as u64;
    if callee.flag == 0 {
        return count == callee.wanted;
    }
    if count == 0 {
        return false;
    }
    count - 1 == callee.wanted
}

// Whether a start is refused, and why: 11, 13, 14, 15.
#[tactic(auto, unfolding(crate::specs::Start::start_refusal))]
fn start_refusal(
    m: Registers,
    image: &[u8],
    functions: &[usize],
    number: u64,
    context: Found,
    tags: &[u64],
    bits: &[u64],
) -> Result<(), Refusal>
    ensures { result ≡ start_refusal m image.now functions.now number context tags.now bits.now }
{
    if m.running == 1 {
        return Err(Refusal::Running);
    }
    if functions.len() as u64 <= number {
        return Err(Refusal::NoFunction);
    }
    let callee = read_callee(image, place_in(functions, number));
    if !is_wanted(callee, tags.len()) {
        return Err(Refusal::WrongArguments);
    }
    if !IrValue::fits(context.tag, context.bits) {
        return Err(Refusal::NotScalar);
    }
    if !are_values(tags, bits) {
        return Err(Refusal::NotScalar);
    }
    Ok(())
}

#[tactic(auto, unfolding(crate::specs::Start::start_loaded))]
fn start_loaded(
    l: Loaded,
    image: &[u8],
    number: u64,
    context: Found,
    tags: &[u64],
    bits: &[u64],
    m: Registers,
    store: &mut [u8],
    frames: &mut [u64],
    bounds: &mut [u64],
    pointers: &mut [u64],
    vars: &mut [u64],
) -> Result<Progress, EntryError>
    requires { Bounded l }
    ensures { entering result store.new frames.new bounds.new pointers.new vars.new ≡ start_loaded (items_in image.now l) number context tags.now bits.now (state (tables m store.old frames.old bounds.old pointers.old) vars.old) }
{
    if !sound(m, store, frames, bounds, pointers, vars) {
        return Err(EntryError::Refused(Refusal::NotSound));
    }
    let functions = &l.functions[..l.counts.functions as usize];
    start_refusal(m, image, functions, number, context, tags, bits)?;
    let begun = begin(
        m,
        image,
        &l.labels[..l.counts.blocks as usize],
        functions,
        number,
        context,
        tags,
        bits,
        store,
        frames,
        bounds,
        pointers,
        vars,
    )?;
    Ok(begun)
}

// The function with this number begins, on an idle machine, with a context and arguments as tags and bits.
#[tactic(auto, using(crate::proofs::Tabled::bounded), unfolding(crate::specs::Start::start_entered))]
pub fn start(
    image: &[u8],
    number: u64,
    context: Found,
    tags: &[u64],
    bits: &[u64],
    m: Registers,
    store: &mut [u8],
    frames: &mut [u64],
    bounds: &mut [u64],
    pointers: &mut [u64],
    vars: &mut [u64],
) -> Result<Progress, EntryError>
    ensures { entering result store.new frames.new bounds.new pointers.new vars.new ≡ start_entered image.now number context tags.now bits.now (state (tables m store.old frames.old bounds.old pointers.old) vars.old) }
{
    let l = load(image)?;
    start_loaded(
        l, image, number, context, tags, bits, m, store, frames, bounds, pointers, vars,
    )
}
