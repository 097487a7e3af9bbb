// The host's calls on the memory: allocate, write, and the live list. Each asks first whether the state is sound.
ghost use Rattle.std.specs.Prelude.{◌≡◌};
ghost use Rattle.memory.specs.Tables.{tables, state, out, both, listing};
ghost use Rattle.eval.specs.Host.{host_allocated, host_written, host_listed};

use live_list::live_list;
use memory::{Registers, allocate, write_bytes};
use soundness::sound;
use value::refusal::Refusal;

// A new allocation in the top frame, and its pointer's number.
#[tactic(auto, unfolding(crate::specs::Host::host_allocated))]
pub fn host_allocate(
    m: Registers,
    size: usize,
    store: &mut [u8],
    frames: &mut [u64],
    bounds: &mut [u64],
    pointers: &mut [u64],
    vars: &[u64],
) -> Result<(usize, Registers), Refusal>
    ensures { out result store.new frames.new bounds.new pointers.new ≡ host_allocated (state (tables m store.old frames.old bounds.old pointers.old) vars.now) size }
{
    if !sound(m, store, frames, bounds, pointers, vars) {
        return Err(Refusal::NotSound);
    }
    allocate(m, size, store, frames, bounds, pointers)
}

// Bytes written through a pointer.
#[tactic(auto, unfolding(crate::specs::Host::host_written))]
pub fn host_write(
    m: Registers,
    p: usize,
    bytes: &[u8],
    store: &mut [u8],
    frames: &[u64],
    bounds: &[u64],
    pointers: &[u64],
    vars: &[u64],
) -> Result<(), Refusal>
    ensures { both result store.new ≡ host_written (state (tables m store.old frames.now bounds.now pointers.now) vars.now) p bytes.now }
{
    if !sound(m, store, frames, bounds, pointers, vars) {
        return Err(Refusal::NotSound);
    }
    write_bytes(m, p, bytes, store, frames, bounds, pointers)
}

// The live list, in four slices.
#[tactic(auto, unfolding(crate::specs::Host::host_listed))]
pub fn host_list(
    m: Registers,
    store: &[u8],
    frames: &[u64],
    bounds: &[u64],
    pointers: &[u64],
    vars: &[u64],
    live: &mut [u64],
    frame: &mut [u64],
    allocation: &mut [u64],
    offset: &mut [u64],
) -> Result<(), Refusal>
    ensures { listing result live.new frame.new allocation.new offset.new ≡ host_listed (state (tables m store.now frames.now bounds.now pointers.now) vars.now) live.old frame.old allocation.old offset.old }
{
    if !sound(m, store, frames, bounds, pointers, vars) {
        return Err(Refusal::NotSound);
    }
    live_list(
        m, store, frames, bounds, pointers, live, frame, allocation, offset,
    )
}
