// The live list: a lent table of records, one for each pointer number, as four slices.
#![tactic(auto)]

ghost use Rattle.std.specs.Prelude.{◌≡◌, ◌<◌, ◌≤◌, length};
ghost use Rattle.memory.specs.Tables.{tables, pointer_at, live_record, record_of, columns, filled_of, roomy_of, listing, listed_of};
ghost use Rattle.live_list.specs.Record.{in_tables, record_in};

use memory::{
    FRAMES_LENGTH, LOCAL, LiveRecord, MAX_DEPTH, MAX_POINTERS, POINTERS_LENGTH, PointerRecord,
    Registers, ready, stands,
};
use value::refusal::Refusal;

// Not live, and the other fields are 0.
fn no_record() -> LiveRecord
    ensures { result ≡ live_record 0 0 0 0 }
{
    LiveRecord {
        live: 0,
        frame: 0,
        allocation: 0,
        offset: 0,
    }
}

// The record of pointer p. The memory's own asks for its table's length too, and a public function asks nothing: so it stands here again.
#[tactic(auto, unfolding(memory::specs::Tables::pointer_at))]
fn pointer_at(pointers: &[u64], p: usize) -> PointerRecord
    requires { (length pointers.now ≡ 20480) × (p < 4096) }
    ensures { result ≡ pointer_at pointers.now p }
{
    let at = p * 5;
    PointerRecord {
        kind: pointers[at],
        index: pointers[at + 1],
        id: pointers[at + 2],
        allocation: pointers[at + 3],
        offset: pointers[at + 4],
    }
}

// One record of the live list, for pointer p: a constant is not live, and the other fields are 0.
#[tactic(auto, unfolding(memory::specs::Tables::record_of, memory::specs::Tables::stands_of))]
fn live_record(d: usize, p: usize, frames: &[u64], pointers: &[u64]) -> LiveRecord
    requires { (d ≤ 64) × (p < 4096) × (length frames.now ≡ 260) × (length pointers.now ≡ 20480) }
    ensures { result ≡ record_of d frames.now (pointer_at pointers.now p) }
{
    let q = pointer_at(pointers, p);
    if q.kind != LOCAL {
        return no_record();
    }
    LiveRecord {
        live: u64::from(stands(d, q, frames).is_ok()),
        frame: q.index,
        allocation: q.allocation,
        offset: q.offset,
    }
}

// The tables have their lengths, and p is a pointer's number.
#[tactic(auto, unfolding(crate::specs::Record::in_tables))]
fn in_tables(d: usize, p: usize, frames: usize, pointers: usize) -> bool
    ensures { result ≡ in_tables d p frames pointers }
{
    if frames != FRAMES_LENGTH {
        return false;
    }
    if pointers != POINTERS_LENGTH {
        return false;
    }
    if MAX_DEPTH < d {
        return false;
    }
    p < MAX_POINTERS
}

// The record of any pointer in any tables: not live and 0 where they have none.
#[tactic(auto, unfolding(crate::specs::Record::record_in, crate::specs::Record::in_tables))]
pub fn record_at(d: usize, p: usize, frames: &[u64], pointers: &[u64]) -> LiveRecord
    ensures { result ≡ record_in d frames.now pointers.now p }
{
    if !in_tables(d, p, frames.len(), pointers.len()) {
        return no_record();
    }
    live_record(d, p, frames, pointers)
}

// The first `n` records, one in each slice.
fn fill_list(
    d: usize,
    n: usize,
    frames: &[u64],
    pointers: &[u64],
    live: &mut [u64],
    frame: &mut [u64],
    allocation: &mut [u64],
    offset: &mut [u64],
)
    requires { (d ≤ 64) × (n ≤ 4096) × (length frames.now ≡ 260) × (length pointers.now ≡ 20480) × (n ≤ length live.old) × (n ≤ length frame.old) × (n ≤ length allocation.old) × (n ≤ length offset.old) }
    ensures { columns live.new frame.new allocation.new offset.new ≡ filled_of d n frames.now pointers.now live.old frame.old allocation.old offset.old }
{
    for i in 0..n {
        let r = live_record(d, i, frames, pointers);
        live[i] = r.live;
        frame[i] = r.frame;
        allocation[i] = r.allocation;
        offset[i] = r.offset;
    }
}

// The four slices have a place for each of n pointers.
#[tactic(auto, unfolding(memory::specs::Tables::roomy_of))]
fn roomy(n: usize, live: usize, frame: usize, allocation: usize, offset: usize) -> bool
    ensures { result ≡ roomy_of n live frame allocation offset }
{
    if live < n {
        return false;
    }
    if frame < n {
        return false;
    }
    if allocation < n {
        return false;
    }
    n <= offset
}

// The live list: for each pointer number, rising, whether it is live, its frame's index, its allocation and its offset.
#[tactic(auto, using(memory::proofs::Laws::ready_of_lem, memory::proofs::Last::roomy_of_lem), unfolding(memory::specs::Tables::listed_of))]
pub fn live_list(
    m: Registers,
    store: &[u8],
    frames: &[u64],
    bounds: &[u64],
    pointers: &[u64],
    live: &mut [u64],
    frame: &mut [u64],
    allocation: &mut [u64],
    offset: &mut [u64],
) -> Result<(), Refusal>
    ensures { listing result live.new frame.new allocation.new offset.new ≡ listed_of (tables m store.now frames.now bounds.now pointers.now) live.old frame.old allocation.old offset.old }
{
    let d = m.depth;
    let n = m.pointers;
    if !ready(m, store.len(), frames.len(), bounds.len(), pointers.len()) {
        return Err(Refusal::NotSound);
    }
    if !roomy(n, live.len(), frame.len(), allocation.len(), offset.len()) {
        return Err(Refusal::ShortTable);
    }
    fill_list(d, n, frames, pointers, live, frame, allocation, offset);
    Ok(())
}
