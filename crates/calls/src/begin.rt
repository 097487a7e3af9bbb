// What a start does, once its entry has made the checks that come first: room for all slots, then the variables, then the slots.
ghost use Rattle.std.specs.Prelude.{◌≡◌, ◌+◌, ◌<◌, drop};
ghost use Rattle.memory.specs.Tables.{tables};
ghost use Rattle.instruction.specs.Code.{stepped};
ghost use Rattle.calls.specs.Begin.{values_set, started_set, variables_set, begun_in, begun_of};

use crate::call::make_slots;
use crate::fields::{Callee, entry_place, place_in, read_callee};
use crate::handing::point_slots;
use crate::room::room_in;
use instruction::field::read_field;
use instruction::step::Progress;
use instruction::variables::{Found, set_variable};
use memory::Registers;
use value::refusal::Refusal;

// The parameters are set to the host's values from `first` on, as far as there are both.
#[tactic(auto, using(crate::proofs::Starts::value_set, crate::proofs::Starts::values_done, crate::proofs::Starts::values_tags, crate::proofs::Starts::values_bits))]
pub fn set_values(
    image: &[u8],
    callee: Callee,
    tags: &[u64],
    bits: &[u64],
    first: usize,
    vars: &mut [u64],
)
    ensures { vars.new ≡ values_set image.now callee.wanted callee.parameters (drop first tags.now) (drop first bits.now) vars.old }
{
    let mut at = callee.parameters;
    let mut k = first;
    for _ in 0..callee.wanted {
        if tags.len() <= k || bits.len() <= k {
            return;
        }
        let to = read_field(image, at);
        set_variable(
            vars,
            to.value as usize,
            Found {
                tag: tags[k],
                bits: bits[k],
            },
        );
        at = to.next;
        k += 1;
    }
}

// The first value is the return pointer where flagged, and the others are the parameters'.
#[tactic(auto, using(crate::proofs::Starts::no_first_tag, crate::proofs::Starts::no_first_bits, crate::proofs::Starts::first_value), unfolding(crate::specs::Begin::started_set))]
pub fn set_started(image: &[u8], callee: Callee, tags: &[u64], bits: &[u64], vars: &mut [u64])
    ensures { vars.new ≡ started_set image.now callee tags.now bits.now vars.old }
{
    if callee.flag == 0 {
        set_values(image, callee, tags, bits, 0, vars);
        return;
    }
    if tags.is_empty() || bits.is_empty() {
        return;
    }
    set_variable(
        vars,
        callee.result as usize,
        Found {
            tag: tags[0],
            bits: bits[0],
        },
    );
    set_values(image, callee, tags, bits, 1, vars);
}

// All variables: cleared, then the context, the return pointer, the parameters and the slots, later ones winning.
#[tactic(auto, using(crate::proofs::Sure::all_fit), unfolding(crate::specs::Begin::variables_set))]
fn set_variables(
    image: &[u8],
    callee: Callee,
    context: Found,
    tags: &[u64],
    bits: &[u64],
    first: usize,
    vars: &mut [u64],
)
    requires { first + callee.count < 18446744073709551616 }
    ensures { vars.new ≡ variables_set image.now callee context tags.now bits.now first vars.old }
{
    vars.fill(0);
    set_variable(vars, callee.context as usize, context);
    set_started(image, callee, tags, bits, vars);
    point_slots(image, callee, first, vars);
}

// A start of this function, whose first place is `place`.
#[tactic(auto, using(crate::proofs::Rooms::room_given), unfolding(crate::specs::Begin::begun_in, crate::specs::Begin::ran_at))]
pub fn begin_in(
    m: Registers,
    image: &[u8],
    place: usize,
    callee: Callee,
    context: Found,
    tags: &[u64],
    bits: &[u64],
    store: &mut [u8],
    frames: &mut [u64],
    bounds: &mut [u64],
    pointers: &mut [u64],
    vars: &mut [u64],
) -> Result<Progress, Refusal>
    ensures { stepped result store.new frames.new bounds.new pointers.new vars.new ≡ begun_in (tables m store.old frames.old bounds.old pointers.old) vars.old image.now place callee context tags.now bits.now }
{
    room_in(
        m,
        image,
        callee,
        store.len(),
        frames,
        bounds,
        pointers.len(),
    )?;
    set_variables(image, callee, context, tags, bits, m.pointers, vars);
    let ready = make_slots(m, image, callee, store, frames, bounds, pointers)?;
    Ok(Progress::Next(Registers {
        running: 1,
        next: place,
        ..ready
    }))
}

// A start of the function with this number.
#[tactic(auto, unfolding(crate::specs::Begin::begun_of))]
pub fn begin(
    m: Registers,
    image: &[u8],
    labels: &[usize],
    functions: &[usize],
    number: u64,
    context: Found,
    tags: &[u64],
    bits: &[u64],
    store: &mut [u8],
    frames: &mut [u64],
    bounds: &mut [u64],
    pointers: &mut [u64],
    vars: &mut [u64],
) -> Result<Progress, Refusal>
    ensures { stepped result store.new frames.new bounds.new pointers.new vars.new ≡ begun_of (tables m store.old frames.old bounds.old pointers.old) vars.old image.now labels.now functions.now number context tags.now bits.now }
{
    let callee = read_callee(image, place_in(functions, number));
    let place = entry_place(labels, callee)?;
    begin_in(
        m, image, place, callee, context, tags, bits, store, frames, bounds, pointers, vars,
    )
}
