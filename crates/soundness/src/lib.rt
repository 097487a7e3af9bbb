// The list of "A sound state" and the rules of encoding, tested on the tables.
#![tactic(auto)]

ghost use Rattle.std.specs.Prelude.{◌≡◌, ◌<◌, ◌≤◌, length};
ghost use Rattle.memory.specs.Tables.{tables, state, pointer_at, every, id_above, frame_ok, bound_ok, pointer_ok, pointers_ok, stored_ok, variable_ok, registers_ok, ends_ok, allocations_ok, memory_ok, sound_of};

use memory::{
    CONSTANT, LOCAL, MAX_ALLOCATIONS, MAX_BYTES, MAX_COUNTER, MAX_PLACE, MAX_VARIABLES,
    PointerRecord, Registers, VARIABLES_LENGTH, ready,
};
use value::IrValue;

// The id that a frame's lies below: that of the frame above, and above the top the counter.
#[tactic(auto, unfolding(memory::specs::Tables::id_above))]
fn id_above(i: usize, d: usize, counter: u64, frames: &[u64]) -> u64
    requires { (i < d) × (d ≤ 64) × (length frames.now ≡ 260) }
    ensures { result ≡ id_above frames.now d counter i }
{
    if i + 1 < d {
        return frames[i * 4 + 4];
    }
    counter
}

#[tactic(auto, unfolding(memory::specs::Tables::frame_ok))]
fn frame_sound(i: usize, d: usize, counter: u64, frames: &[u64]) -> bool
    requires { (i < d) × (d ≤ 64) × (length frames.now ≡ 260) }
    ensures { result ≡ frame_ok frames.now d counter i }
{
    let next = id_above(i, d, counter, frames);
    if next <= frames[i * 4] {
        return false;
    }
    if MAX_PLACE < frames[i * 4 + 1] {
        return false;
    }
    if MAX_VARIABLES < frames[i * 4 + 2] {
        return false;
    }
    frames[i * 4 + 3] <= frames[i * 4 + 7]
}

fn frames_sound(d: usize, counter: u64, frames: &[u64]) -> bool
    requires { (d ≤ 64) × (length frames.now ≡ 260) }
    ensures { result ≡ every d (frame_ok frames.now d counter) }
{
    (0..d).all(|i| frame_sound(i, d, counter, frames))
}

fn bounds_sound(n: usize, bounds: &[u64]) -> bool
    requires { (n ≤ 512) × (length bounds.now ≡ 513) }
    ensures { result ≡ every n (bound_ok bounds.now) }
{
    (0..n).all(|k| bounds[k] <= bounds[k + 1])
}

// A pointer is local or constant, a word other than these two is refused, and a constant's id, allocation and offset are 0. The index is free.
#[tactic(auto, unfolding(memory::specs::Tables::pointer_ok))]
fn pointer_sound(q: PointerRecord) -> bool
    ensures { result ≡ pointer_ok q }
{
    if q.kind == LOCAL {
        return true;
    }
    if q.kind != CONSTANT {
        return false;
    }
    if q.id != 0 {
        return false;
    }
    if q.allocation != 0 {
        return false;
    }
    q.offset == 0
}

// The record of pointer p. The memory's own asks for its table's length too, and a public function asks nothing: so it stands here again.
#[tactic(auto, unfolding(memory::specs::Tables::pointer_at))]
fn pointer_at(pointers: &[u64], p: usize) -> PointerRecord
    requires { (length pointers.now ≡ 20480) × (p < 4096) }
    ensures { result ≡ pointer_at pointers.now p }
{
    let at = p * 5;
    PointerRecord {
        kind: pointers[at],
        index: pointers[at + 1],
        id: pointers[at + 2],
        allocation: pointers[at + 3],
        offset: pointers[at + 4],
    }
}

fn pointers_sound(n: usize, pointers: &[u64]) -> bool
    requires { (n ≤ 4096) × (length pointers.now ≡ 20480) }
    ensures { result ≡ every n (pointers_ok pointers.now) }
{
    (0..n).all(|p| pointer_sound(pointer_at(pointers, p)))
}

// A value's tag and bits, or unset.
#[tactic(auto, unfolding(memory::specs::Tables::stored_ok))]
fn variable_sound(tag: u64, bits: u64) -> bool
    ensures { result ≡ stored_ok tag bits }
{
    if tag == 0 {
        return bits == 0;
    }
    IrValue::fits(tag, bits)
}

fn variables_sound(variables: &[u64]) -> bool
    requires { length variables.now ≡ 512 }
    ensures { result ≡ every 256 (variable_ok variables.now) }
{
    (0..256).all(|x| variable_sound(variables[x * 2], variables[x * 2 + 1]))
}

// Running or idle, a word other than 1 and 0 is refused; the next place; and idle only at depth 1.
#[tactic(auto, unfolding(memory::specs::Tables::registers_ok))]
fn registers_sound(running: u64, next: usize, depth: usize) -> bool
    ensures { result ≡ registers_ok running next depth }
{
    if MAX_PLACE < next as u64 {
        return false;
    }
    if running == 1 {
        return true;
    }
    if running != 0 {
        return false;
    }
    depth == 1
}

// Frame 0 has id 0 and no allocation below it, and allocation 0 starts at the store's start.
#[tactic(auto, unfolding(memory::specs::Tables::ends_ok))]
fn ends_sound(id: u64, first: u64, start: u64) -> bool
    ensures { result ≡ ends_ok id first start }
{
    if id != 0 {
        return false;
    }
    if first != 0 {
        return false;
    }
    start == 0
}

// The live allocations: at most 512, from start to start, and at most 32,768 bytes.
#[tactic(auto, unfolding(memory::specs::Tables::allocations_ok))]
fn allocations_sound(live: u64, bounds: &[u64]) -> bool
    requires { length bounds.now ≡ 513 }
    ensures { result ≡ allocations_ok live bounds.now }
{
    if MAX_ALLOCATIONS < live {
        return false;
    }
    let n = live as usize;
    if !bounds_sound(n, bounds) {
        return false;
    }
    bounds[n] <= MAX_BYTES
}

// The memory's part of a sound state.
#[tactic(auto, using(memory::proofs::Laws::ready_of_lem), unfolding(memory::specs::Tables::memory_ok))]
fn memory_sound(
    m: Registers,
    store: &[u8],
    frames: &[u64],
    bounds: &[u64],
    pointers: &[u64],
) -> bool
    ensures { result ≡ memory_ok (tables m store.now frames.now bounds.now pointers.now) }
{
    let d = m.depth;
    if !ready(m, store.len(), frames.len(), bounds.len(), pointers.len()) {
        return false;
    }
    if d == 0 {
        return false;
    }
    if MAX_COUNTER < m.counter {
        return false;
    }
    if !ends_sound(frames[0], frames[3], bounds[0]) {
        return false;
    }
    if !frames_sound(d, m.counter, frames) {
        return false;
    }
    if !allocations_sound(frames[d * 4 + 3], bounds) {
        return false;
    }
    pointers_sound(m.pointers, pointers)
}

// The tables are those of a sound state. Each is walked once.
#[tactic(auto, unfolding(memory::specs::Tables::sound_of))]
pub fn sound(
    m: Registers,
    store: &[u8],
    frames: &[u64],
    bounds: &[u64],
    pointers: &[u64],
    variables: &[u64],
) -> bool
    ensures { result ≡ sound_of (state (tables m store.now frames.now bounds.now pointers.now) variables.now) }
{
    if !memory_sound(m, store, frames, bounds, pointers) {
        return false;
    }
    if variables.len() != VARIABLES_LENGTH {
        return false;
    }
    if !registers_sound(m.running, m.next, m.depth) {
        return false;
    }
    variables_sound(variables)
}
