// The memory of the evaluator: registers by value and lent flat tables, all of numbers.
//
// store      32,768 bytes: the live allocations end to end from the start, frame by frame upward, in the order made
// frames     65 records of 4 words: id, return place, return variable + 1 or 0 for none, number of allocations in the frames below.
//            The record above the top frame has the number of all live allocations there
// bounds     513 words: word k is where allocation k starts; the word after the last is how many bytes are live
// pointers   4,096 records of 5 words: kind, index, id, allocation, offset. Kind 0 is local, its index that of the frame;
//            kind 1 is constant, its index that of the constant and the rest 0
// variables  256 records of 2 words: tag and bits of a value, or 0 and 0 for unset
//
// What lies above the depth and the counts is stale: it means nothing, and is left as it stood.
#![tactic(auto)]

ghost use Rattle.std.specs.Prelude.{◌≡◌, ◌+◌, ◌<◌, ◌≤◌, true, length, take, drop};
ghost use Rattle.std.proofs.Math.Seq.{paste};
ghost use Rattle.memory.specs.Tables.{tables, ready, ready_of, live, top_first, bound, both, all, out, pointer_at, pointer_set, fresh_of, pushed_of, popped_of, room_of, made, allocated_of, aligned_of, within_of, ranked_of, standing_of, stands_of, local_of, read_access_of, write_access_of, written_of, constant_access_of, constant_of, read_of, offset_of, address_of};

use value::refusal::Refusal;

// The greatest depth, id counter, numbers of allocations, bytes and pointers, place, and number of variables.
pub const MAX_DEPTH: usize = 64;

pub const MAX_COUNTER: u64 = 4294967295;

pub const MAX_ALLOCATIONS: u64 = 512;

pub const MAX_BYTES: u64 = 32768;

pub const MAX_POINTERS: usize = 4096;

pub const MAX_PLACE: u64 = 4096;

pub const MAX_VARIABLES: u64 = 256;

// How long the tables are.
pub const STORE_LENGTH: usize = 32768;

pub const FRAMES_LENGTH: usize = 260;

pub const BOUNDS_LENGTH: usize = 513;

pub const POINTERS_LENGTH: usize = 20480;

pub const VARIABLES_LENGTH: usize = 512;

// Kinds of a pointer record: numbers, since they are words of a table that C lends, which may hold any other.
pub const LOCAL: u64 = 0;

pub const CONSTANT: u64 = 1;

// running is 1 or, where idle, 0, a word that C lends and that may be any number; next is the next place, counter the id of the next frame, pointers how many were given out.
#[derive(Clone, Copy, Debug, PartialEq, Eq)]
pub struct Registers {
    pub running: u64,
    pub next: usize,
    pub counter: u64,
    pub depth: usize,
    pub pointers: usize,
}

// A record of the pointers: each field is a word of the table that C lends, kind too.
#[derive(Clone, Copy, Debug, PartialEq, Eq)]
pub struct PointerRecord {
    pub kind: u64,
    pub index: u64,
    pub id: u64,
    pub allocation: u64,
    pub offset: u64,
}

// A record of the live list: its fields are words of the four slices that C reads, live too, 1 or 0.
#[derive(Clone, Copy, Debug, PartialEq, Eq)]
pub struct LiveRecord {
    pub live: u64,
    pub frame: u64,
    pub allocation: u64,
    pub offset: u64,
}

// A popped frame's return place, its return variable + 1 or 0, and the registers after it.
#[derive(Clone, Copy, Debug, PartialEq, Eq)]
pub struct Popped {
    pub place: u64,
    pub variable: u64,
    pub registers: Registers,
}

// Where a read takes its bytes: from a place of the store, or from a constant.
#[derive(Clone, Copy, Debug, PartialEq, Eq)]
pub enum Source {
    Local(usize),
    Constant(u64),
}

// The tables of the memory have their lengths, and depth and pointers lie in them.
#[tactic(auto, unfolding(crate::specs::Tables::ready_of))]
pub fn ready(m: Registers, store: usize, frames: usize, bounds: usize, pointers: usize) -> bool
    ensures { result ≡ ready_of m.depth m.pointers store frames bounds pointers }
{
    if store != STORE_LENGTH {
        return false;
    }
    if frames != FRAMES_LENGTH {
        return false;
    }
    if bounds != BOUNDS_LENGTH {
        return false;
    }
    if pointers != POINTERS_LENGTH {
        return false;
    }
    if MAX_DEPTH < m.depth {
        return false;
    }
    m.pointers <= MAX_POINTERS
}

// Fresh memory: idle, a root frame with no allocation, counter 1, no pointer, no variable set. Every element is 0.
#[tactic(auto, using(crate::proofs::Laws::ready_of_lem), unfolding(crate::specs::Tables::fresh_of))]
pub fn fresh(
    store: &mut [u8],
    frames: &mut [u64],
    bounds: &mut [u64],
    pointers: &mut [u64],
    variables: &mut [u64],
) -> Result<Registers, Refusal>
    ensures { all result store.new frames.new bounds.new pointers.new variables.new ≡ fresh_of store.old frames.old bounds.old pointers.old variables.old }
{
    let m = Registers {
        running: 0,
        next: 0,
        counter: 1,
        depth: 1,
        pointers: 0,
    };
    if !ready(m, store.len(), frames.len(), bounds.len(), pointers.len()) {
        return Err(Refusal::NotSound);
    }
    if variables.len() != VARIABLES_LENGTH {
        return Err(Refusal::NotSound);
    }
    store.fill(0);
    frames.fill(0);
    bounds.fill(0);
    pointers.fill(0);
    variables.fill(0);
    Ok(m)
}

// A frame more: its id is the counter, which rises by one. `variable` is the return variable + 1, or 0 for none.
#[tactic(auto, unfolding(crate::specs::Tables::pushed_of))]
pub fn push_frame(
    m: Registers,
    place: u64,
    variable: u64,
    frames: &mut [u64],
) -> Result<Registers, Refusal>
    ensures { both result frames.new ≡ pushed_of m place variable frames.old }
{
    let d = m.depth;
    let id = m.counter;
    if frames.len() != FRAMES_LENGTH {
        return Err(Refusal::NotSound);
    }
    if MAX_DEPTH <= d {
        return Err(Refusal::FramesFull);
    }
    if MAX_COUNTER <= id {
        return Err(Refusal::IdsSpent);
    }
    let at = d * 4;
    let live = frames[at + 3];
    frames[at] = id;
    frames[at + 1] = place;
    frames[at + 2] = variable;
    frames[at + 7] = live;
    Ok(Registers {
        depth: d + 1,
        counter: id + 1,
        ..m
    })
}

// The frame's allocations and bytes are free again: only the depth falls, and with it the counts. The root is kept.
#[tactic(auto, unfolding(crate::specs::Tables::popped_of))]
pub fn pop_frame(m: Registers, frames: &[u64]) -> Result<Option<Popped>, Refusal>
    ensures { result ≡ popped_of m frames.now }
{
    let d = m.depth;
    if frames.len() != FRAMES_LENGTH {
        return Err(Refusal::NotSound);
    }
    if MAX_DEPTH < d {
        return Err(Refusal::NotSound);
    }
    if d <= 1 {
        return Ok(None);
    }
    let at = d * 4;
    Ok(Some(Popped {
        place: frames[at - 3],
        variable: frames[at - 2],
        registers: Registers { depth: d - 1, ..m },
    }))
}

// The record of pointer p.
#[tactic(auto, unfolding(crate::specs::Tables::pointer_at))]
fn pointer_at(pointers: &[u64], p: usize) -> PointerRecord
    requires { (length pointers.now ≡ 20480) × (p < 4096) }
    ensures { result ≡ pointer_at pointers.now p }
{
    let at = p * 5;
    PointerRecord {
        kind: pointers[at],
        index: pointers[at + 1],
        id: pointers[at + 2],
        allocation: pointers[at + 3],
        offset: pointers[at + 4],
    }
}

fn put_pointer(pointers: &mut [u64], p: usize, v: PointerRecord)
    requires { (length pointers.old ≡ 20480) × (p < 4096) }
    ensures { pointers.new ≡ pointer_set pointers.old p v }
{
    let at = p * 5;
    pointers[at] = v.kind;
    pointers[at + 1] = v.index;
    pointers[at + 2] = v.id;
    pointers[at + 3] = v.allocation;
    pointers[at + 4] = v.offset;
}

// Whether there is room for `size` bytes more past `used`, and for a pointer more past `given`.
#[tactic(auto, unfolding(crate::specs::Tables::room_of))]
pub fn room(used: u64, size: u64, given: usize) -> Result<(), Refusal>
    ensures { result ≡ room_of used size given }
{
    if MAX_BYTES < used {
        return Err(Refusal::BytesFull);
    }
    if MAX_BYTES - used < size {
        return Err(Refusal::BytesFull);
    }
    if MAX_POINTERS <= given {
        return Err(Refusal::PointersFull);
    }
    Ok(())
}

// The allocation that nothing refuses: `size` bytes more in the top frame, all 0, and a pointer to them.
#[tactic(auto, using(crate::proofs::Laws::ready_of_lem))]
fn grant(
    m: Registers,
    size: usize,
    store: &mut [u8],
    frames: &mut [u64],
    bounds: &mut [u64],
    pointers: &mut [u64],
) -> Result<(usize, Registers), Refusal>
    requires { let t = tables m store.old frames.old bounds.old pointers.old in (ready t ≡ true) × (0 < m.depth) × (top_first t ≤ live t) × (live t < 512) × (bound t (live t) + size ≤ 32768) × (m.pointers < 4096) }
    ensures { out result store.new frames.new bounds.new pointers.new ≡ made (tables m store.old frames.old bounds.old pointers.old) size }
{
    let p = m.pointers;
    let e = m.depth * 4;
    let live = frames[e + 3];
    let first = frames[e - 1];
    let id = frames[e - 4];
    let k = live as usize;
    let used = bounds[k];
    frames[e + 3] = live + 1;
    bounds[k + 1] = used + size as u64;
    let start = used as usize;
    store[start..start + size].fill(0);
    put_pointer(
        pointers,
        p,
        PointerRecord {
            kind: LOCAL,
            index: (m.depth - 1) as u64,
            id,
            allocation: live - first,
            offset: 0,
        },
    );
    Ok((
        p,
        Registers {
            pointers: p + 1,
            ..m
        },
    ))
}

// `size` bytes more in the top frame, all 0, and a pointer to them.
#[tactic(auto, using(crate::proofs::Laws::room_made), unfolding(crate::specs::Tables::allocated_of))]
pub fn allocate(
    m: Registers,
    size: usize,
    store: &mut [u8],
    frames: &mut [u64],
    bounds: &mut [u64],
    pointers: &mut [u64],
) -> Result<(usize, Registers), Refusal>
    ensures { out result store.new frames.new bounds.new pointers.new ≡ allocated_of (tables m store.old frames.old bounds.old pointers.old) size }
{
    if !ready(m, store.len(), frames.len(), bounds.len(), pointers.len()) {
        return Err(Refusal::NotSound);
    }
    if m.depth == 0 {
        return Err(Refusal::NotSound);
    }
    let e = m.depth * 4;
    let live = frames[e + 3];
    if live < frames[e - 1] {
        return Err(Refusal::NotSound);
    }
    if MAX_ALLOCATIONS <= live {
        return Err(Refusal::AllocationsFull);
    }
    let k = live as usize;
    room(bounds[k], size as u64, m.pointers)?;
    grant(m, size, store, frames, bounds, pointers)
}

// Size 0 divides only 0.
#[tactic(auto, unfolding(crate::specs::Tables::aligned_of))]
fn aligned(offset: u64, size: u64) -> bool
    ensures { result ≡ aligned_of offset size }
{
    if size == 0 {
        return offset == 0;
    }
    offset % size == 0
}

// `size` bytes at `offset` in an allocation that starts and stops there, by 29 and 30.
#[tactic(auto, unfolding(crate::specs::Tables::within_of))]
fn within(start: u64, stop: u64, offset: u64, size: u64) -> Result<usize, Refusal>
    ensures { result ≡ within_of start stop offset size }
{
    if MAX_BYTES < stop {
        return Err(Refusal::BeyondLength);
    }
    if stop < start {
        return Err(Refusal::BeyondLength);
    }
    if stop - start < size {
        return Err(Refusal::BeyondLength);
    }
    if stop - start - size < offset {
        return Err(Refusal::BeyondLength);
    }
    if !aligned(offset, size) {
        return Err(Refusal::Misaligned);
    }
    Ok((start + offset) as usize)
}

// The rank of frame f's allocation a among all, by 28.
#[tactic(auto, unfolding(crate::specs::Tables::ranked_of))]
fn ranked(f: usize, a: u64, frames: &[u64]) -> Result<usize, Refusal>
    requires { (f < 64) × (length frames.now ≡ 260) }
    ensures { result ≡ ranked_of frames.now f a }
{
    let first = frames[f * 4 + 3];
    let end = frames[f * 4 + 7];
    if MAX_ALLOCATIONS < end {
        return Err(Refusal::NoAllocation);
    }
    if end < first {
        return Err(Refusal::NoAllocation);
    }
    if end - first <= a {
        return Err(Refusal::NoAllocation);
    }
    Ok((first + a) as usize)
}

// The rank of a local pointer's allocation, by 27 and 28.
#[tactic(auto, unfolding(crate::specs::Tables::standing_of))]
fn standing(d: usize, q: PointerRecord, frames: &[u64]) -> Result<usize, Refusal>
    requires { (d ≤ 64) × (length frames.now ≡ 260) }
    ensures { result ≡ standing_of d frames.now q }
{
    let f = q.index as usize;
    if d <= f {
        return Err(Refusal::FrameGone);
    }
    if frames[f * 4] != q.id {
        return Err(Refusal::FrameGone);
    }
    ranked(f, q.allocation, frames)
}

// The same for any depth and any frames: 10 first.
#[tactic(auto, unfolding(crate::specs::Tables::stands_of))]
pub fn stands(d: usize, q: PointerRecord, frames: &[u64]) -> Result<usize, Refusal>
    ensures { result ≡ stands_of d frames.now q }
{
    if frames.len() != FRAMES_LENGTH {
        return Err(Refusal::NotSound);
    }
    if MAX_DEPTH < d {
        return Err(Refusal::NotSound);
    }
    standing(d, q, frames)
}

// A local access: 27, 28, 29, 30.
#[tactic(auto, using(crate::proofs::Laws::standing_few), unfolding(crate::specs::Tables::local_of))]
#[inline(always)]
fn local(
    d: usize,
    q: PointerRecord,
    size: u64,
    frames: &[u64],
    bounds: &[u64],
) -> Result<Source, Refusal>
    requires { (d ≤ 64) × (length frames.now ≡ 260) × (length bounds.now ≡ 513) }
    ensures { result ≡ local_of d frames.now bounds.now q size }
{
    let k = standing(d, q, frames)?;
    let at = within(bounds[k], bounds[k + 1], q.offset, size)?;
    Ok(Source::Local(at))
}

// What a read of `size` bytes through pointer p takes: 25, then a constant, or a local access.
#[tactic(auto, using(crate::proofs::Laws::ready_of_lem), unfolding(crate::specs::Tables::read_access_of))]
#[inline(always)]
pub fn read_access(
    m: Registers,
    p: usize,
    size: usize,
    store: &[u8],
    frames: &[u64],
    bounds: &[u64],
    pointers: &[u64],
) -> Result<Source, Refusal>
    ensures { result ≡ read_access_of (tables m store.now frames.now bounds.now pointers.now) p size }
{
    if !ready(m, store.len(), frames.len(), bounds.len(), pointers.len()) {
        return Err(Refusal::NotSound);
    }
    if m.pointers <= p {
        return Err(Refusal::NotGivenOut);
    }
    let q = pointer_at(pointers, p);
    if q.kind != LOCAL {
        return Ok(Source::Constant(q.index));
    }
    local(m.depth, q, size as u64, frames, bounds)
}

// Where in the store a write of `size` bytes through pointer p goes: 25, 26, then a local access.
#[tactic(auto, unfolding(crate::specs::Tables::write_access_of))]
#[inline(always)]
pub fn write_access(
    m: Registers,
    p: usize,
    size: usize,
    store: &[u8],
    frames: &[u64],
    bounds: &[u64],
    pointers: &[u64],
) -> Result<usize, Refusal>
    ensures { result ≡ write_access_of (tables m store.now frames.now bounds.now pointers.now) p size }
{
    match read_access(m, p, size, store, frames, bounds, pointers)? {
        Source::Local(at) => Ok(at),
        Source::Constant(_) => Err(Refusal::ThroughConstant),
    }
}

// `s` is copied into `d` from `at` on. A byte a turn, so that the library for C asks for no `memmove`.
fn copy_in(d: &mut [u8], at: usize, s: &[u8])
    requires { at + length s.now ≤ length d.old }
    ensures { d.new ≡ paste d.old at s.now (length s.now) }
{
    for i in 0..s.len() {
        d[at + i] = s[i];
    }
}

// `d` is filled from `s`, from `at` on.
fn copy_out(s: &[u8], at: usize, d: &mut [u8])
    requires { at + length d.old ≤ length s.now }
    ensures { d.new ≡ take (length d.old) (drop at s.now) }
{
    for i in 0..d.len() {
        d[i] = s[at + i];
    }
}

// The bytes are written through pointer p.
#[tactic(auto, using(crate::proofs::Laws::fits), unfolding(crate::specs::Tables::written_of))]
pub fn write_bytes(
    m: Registers,
    p: usize,
    bytes: &[u8],
    store: &mut [u8],
    frames: &[u64],
    bounds: &[u64],
    pointers: &[u64],
) -> Result<(), Refusal>
    ensures { both result store.new ≡ written_of (tables m store.old frames.now bounds.now pointers.now) p bytes.now }
{
    let at = write_access(m, p, bytes.len(), store, frames, bounds, pointers)?;
    copy_in(store, at, bytes);
    Ok(())
}

// Where the first `size` bytes of constant k stand in `raw`, whose start and length there are its record of `extents`: 40, 29.
#[tactic(auto, unfolding(crate::specs::Tables::constant_access_of))]
pub fn constant_access(k: u64, size: u64, raw: &[u8], extents: &[u64]) -> Result<usize, Refusal>
    ensures { result ≡ constant_access_of k size raw.now extents.now }
{
    if (extents.len() / 2) as u64 <= k {
        return Err(Refusal::NoConstant);
    }
    let at = k as usize * 2;
    let start = extents[at];
    let length = extents[at + 1];
    if (raw.len() as u64) < start {
        return Err(Refusal::NoConstant);
    }
    if (raw.len() as u64) - start < length {
        return Err(Refusal::NoConstant);
    }
    if length < size {
        return Err(Refusal::BeyondLength);
    }
    Ok(start as usize)
}

// The first bytes of constant k.
#[tactic(auto, using(crate::proofs::Laws::fits), unfolding(crate::specs::Tables::constant_of))]
pub fn read_constant(k: u64, bytes: &mut [u8], raw: &[u8], extents: &[u64]) -> Result<(), Refusal>
    ensures { both result bytes.new ≡ constant_of k bytes.old raw.now extents.now }
{
    let start = constant_access(k, bytes.len() as u64, raw, extents)?;
    copy_out(raw, start, bytes);
    Ok(())
}

// The bytes are filled by what pointer p leads to.
#[tactic(auto, using(crate::proofs::Laws::fits), unfolding(crate::specs::Tables::read_of))]
pub fn read_bytes(
    m: Registers,
    p: usize,
    bytes: &mut [u8],
    store: &[u8],
    frames: &[u64],
    bounds: &[u64],
    pointers: &[u64],
    raw: &[u8],
    extents: &[u64],
) -> Result<(), Refusal>
    ensures { both result bytes.new ≡ read_of (tables m store.now frames.now bounds.now pointers.now) p bytes.old raw.now extents.now }
{
    match read_access(m, p, bytes.len(), store, frames, bounds, pointers)? {
        Source::Local(at) => {
            copy_out(store, at, bytes);
            Ok(())
        }
        Source::Constant(k) => read_constant(k, bytes, raw, extents),
    }
}

// A pointer more, `by` bytes past where pointer p leads: 25, 26, 33, 39.
#[tactic(auto, unfolding(crate::specs::Tables::offset_of))]
pub fn offset_by(
    m: Registers,
    p: usize,
    by: u64,
    pointers: &mut [u64],
) -> Result<(usize, Registers), Refusal>
    ensures { both result pointers.new ≡ offset_of m p by pointers.old }
{
    let n = m.pointers;
    if pointers.len() != POINTERS_LENGTH {
        return Err(Refusal::NotSound);
    }
    if MAX_POINTERS < n {
        return Err(Refusal::NotSound);
    }
    if n <= p {
        return Err(Refusal::NotGivenOut);
    }
    let q = pointer_at(pointers, p);
    if q.kind != LOCAL {
        return Err(Refusal::ThroughConstant);
    }
    let offset = q.offset.checked_add(by).ok_or(Refusal::OffsetTooLarge)?;
    if MAX_POINTERS <= n {
        return Err(Refusal::PointersFull);
    }
    put_pointer(
        pointers,
        n,
        PointerRecord {
            kind: LOCAL,
            index: q.index,
            id: q.id,
            allocation: q.allocation,
            offset,
        },
    );
    Ok((
        n,
        Registers {
            pointers: n + 1,
            ..m
        },
    ))
}

// A pointer more, to constant k: 39.
#[tactic(auto, unfolding(crate::specs::Tables::address_of))]
pub fn constant_address(
    m: Registers,
    k: u64,
    pointers: &mut [u64],
) -> Result<(usize, Registers), Refusal>
    ensures { both result pointers.new ≡ address_of m k pointers.old }
{
    let n = m.pointers;
    if pointers.len() != POINTERS_LENGTH {
        return Err(Refusal::NotSound);
    }
    if MAX_POINTERS <= n {
        return Err(Refusal::PointersFull);
    }
    put_pointer(
        pointers,
        n,
        PointerRecord {
            kind: CONSTANT,
            index: k,
            id: 0,
            allocation: 0,
            offset: 0,
        },
    );
    Ok((
        n,
        Registers {
            pointers: n + 1,
            ..m
        },
    ))
}
