// Call: 35, 36, the callee's slots, the return pointer, the context, the arguments. All is tested before a table of the memory is
// changed, and a refusal leaves every element as it stood.
ghost use Rattle.std.specs.Prelude.{◌≡◌};
ghost use Rattle.memory.specs.Tables.{tables};
ghost use Rattle.instruction.specs.Code.{stepped};
ghost use Rattle.calls.specs.Code.{entered, slots_made_of, entered_of, called_in, called_of};

use crate::fields::{CallFields, Callee, entry_place, place_in, read_call, read_callee, read_slot};
use crate::handing::set_all;
use crate::room::call_room;
use instruction::step::Progress;
use memory::{Registers, allocate, push_frame};
use value::refusal::Refusal;

// The slots, zero-filled, in order.
#[tactic(auto, using(crate::proofs::Enters::made_on, crate::proofs::Enters::made_stop, crate::proofs::Enters::made_none))]
pub fn make_slots(
    m: Registers,
    image: &[u8],
    callee: Callee,
    store: &mut [u8],
    frames: &mut [u64],
    bounds: &mut [u64],
    pointers: &mut [u64],
) -> Result<Registers, Refusal>
    ensures { entered result store.new frames.new bounds.new pointers.new ≡ slots_made_of image.now callee.count callee.slots (tables m store.old frames.old bounds.old pointers.old) }
{
    let mut n = m;
    let mut at = callee.slots;
    for _ in 0..callee.count {
        let slot = read_slot(image, at);
        let (_, more) = allocate(n, slot.size as usize, store, frames, bounds, pointers)?;
        n = more;
        at = slot.next;
    }
    Ok(n)
}

// The callee's frame and slots. `to` is the variable that takes the result + 1, or 0; the registers' next place is where the frame returns to.
#[tactic(auto, unfolding(crate::specs::Code::entered_of))]
pub fn enter(
    m: Registers,
    image: &[u8],
    to: u64,
    callee: Callee,
    store: &mut [u8],
    frames: &mut [u64],
    bounds: &mut [u64],
    pointers: &mut [u64],
) -> Result<Registers, Refusal>
    ensures { entered result store.new frames.new bounds.new pointers.new ≡ entered_of image.now to callee (tables m store.old frames.old bounds.old pointers.old) }
{
    let n = push_frame(m, m.next as u64, to, frames)?;
    make_slots(n, image, callee, store, frames, bounds, pointers)
}

// A Call whose fields were read, and whose callee's first place is `place`.
#[tactic(auto, using(crate::proofs::Enters::call_made, crate::proofs::Enters::call_full, crate::proofs::Enters::call_stop), unfolding(crate::specs::Code::called_in))]
pub fn call_in(
    m: Registers,
    image: &[u8],
    place: usize,
    fields: CallFields,
    callee: Callee,
    store: &mut [u8],
    frames: &mut [u64],
    bounds: &mut [u64],
    pointers: &mut [u64],
    vars: &mut [u64],
) -> Result<Progress, Refusal>
    ensures { stepped result store.new frames.new bounds.new pointers.new vars.new ≡ called_in (tables m store.old frames.old bounds.old pointers.old) vars.old image.now place fields callee }
{
    call_room(
        m,
        image,
        callee,
        store.len(),
        frames,
        bounds,
        pointers.len(),
    )?;
    set_all(image, fields, callee, m.pointers, vars)?;
    let inside = enter(m, image, fields.to, callee, store, frames, bounds, pointers)?;
    Ok(Progress::Next(Registers {
        next: place,
        ..inside
    }))
}

// Call: optional (to, type), optional context operand, function, count and operands, optional return-pointer variable.
#[tactic(auto, unfolding(crate::specs::Code::called_of))]
pub fn call(
    m: Registers,
    image: &[u8],
    at: usize,
    labels: &[usize],
    functions: &[usize],
    store: &mut [u8],
    frames: &mut [u64],
    bounds: &mut [u64],
    pointers: &mut [u64],
    vars: &mut [u64],
) -> Result<Progress, Refusal>
    ensures { stepped result store.new frames.new bounds.new pointers.new vars.new ≡ called_of (tables m store.old frames.old bounds.old pointers.old) vars.old image.now labels.now functions.now at }
{
    let fields = read_call(image, at);
    if fields.next == 0 {
        return Err(Refusal::NoInstruction);
    }
    let callee = read_callee(image, place_in(functions, fields.callee));
    let place = entry_place(labels, callee)?;
    call_in(
        m, image, place, fields, callee, store, frames, bounds, pointers, vars,
    )
}
