// Room for a frame and for slots, or the refusal. Nothing is changed.
ghost use Rattle.std.specs.Prelude.{◌≡◌};
ghost use Rattle.calls.specs.Room.{frame_room_of, slot_room_of, slots_room_of, room_in_of, call_room_of};

use crate::fields::{Callee, read_slot};
use memory::{MAX_ALLOCATIONS, MAX_COUNTER, MAX_DEPTH, Registers, ready, room};
use value::refusal::Refusal;

// A frame more.
#[tactic(auto, unfolding(crate::specs::Room::frame_room_of))]
pub fn frame_room(m: Registers) -> Result<(), Refusal>
    ensures { result ≡ frame_room_of m.depth m.counter }
{
    if MAX_DEPTH <= m.depth {
        return Err(Refusal::FramesFull);
    }
    if MAX_COUNTER <= m.counter {
        return Err(Refusal::IdsSpent);
    }
    Ok(())
}

// A slot of this size, where so many allocations and bytes live and so many pointers were given out.
#[tactic(auto, unfolding(crate::specs::Room::slot_room_of))]
pub fn slot_room(live: u64, used: u64, given: usize, size: u64) -> Result<(), Refusal>
    ensures { result ≡ slot_room_of live used given size }
{
    if MAX_ALLOCATIONS <= live {
        return Err(Refusal::AllocationsFull);
    }
    room(used, size, given)
}

// Slots one after another, each with those before it counted.
#[tactic(auto, using(crate::proofs::Rooms::room_on, crate::proofs::Rooms::room_stop, crate::proofs::Rooms::room_none, crate::proofs::Rooms::slot_fits))]
pub fn slots_room(
    image: &[u8],
    start: usize,
    count: u64,
    live: u64,
    used: u64,
    given: usize,
) -> Result<(), Refusal>
    ensures { result ≡ slots_room_of image.now count start live used given }
{
    let mut at = start;
    let mut allocations = live;
    let mut bytes = used;
    let mut pointers = given;
    for _ in 0..count {
        let slot = read_slot(image, at);
        slot_room(allocations, bytes, pointers, slot.size)?;
        at = slot.next;
        allocations += 1;
        bytes += slot.size;
        pointers += 1;
    }
    Ok(())
}

// A function's slots, in the tables as they stand; `store` and `pointers` are their lengths.
#[tactic(auto, using(memory::proofs::Laws::ready_of_lem), unfolding(crate::specs::Room::room_in_of))]
pub fn room_in(
    m: Registers,
    image: &[u8],
    callee: Callee,
    store: usize,
    frames: &[u64],
    bounds: &[u64],
    pointers: usize,
) -> Result<(), Refusal>
    ensures { result ≡ room_in_of m image.now callee store frames.now bounds.now pointers }
{
    if !ready(m, store, frames.len(), bounds.len(), pointers) {
        return Err(Refusal::NotSound);
    }
    let at = m.depth * 4 + 3;
    let live = frames[at];
    if MAX_ALLOCATIONS < live {
        return Err(Refusal::NotSound);
    }
    let k = live as usize;
    slots_room(
        image,
        callee.slots,
        callee.count,
        live,
        bounds[k],
        m.pointers,
    )
}

// A frame more, then the callee's slots.
#[tactic(auto, unfolding(crate::specs::Room::call_room_of))]
pub fn call_room(
    m: Registers,
    image: &[u8],
    callee: Callee,
    store: usize,
    frames: &[u64],
    bounds: &[u64],
    pointers: usize,
) -> Result<(), Refusal>
    ensures { result ≡ call_room_of m image.now callee store frames.now bounds.now pointers }
{
    frame_room(m)?;
    room_in(m, image, callee, store, frames, bounds, pointers)
}
