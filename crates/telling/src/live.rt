// The live list of the console: a record of the memory's list for each pointer.
ghost use Rattle.std.specs.Prelude.{◌≡◌, Some};
ghost use Rattle.words.specs.Text.{text, puts};
ghost use Rattle.by_hand.specs.State.{each};
ghost use Rattle.memory.specs.Tables.{tables, state, columns};
ghost use Rattle.eval.specs.Host.{host_listed};
ghost use Rattle.telling.specs.Told.{line};
ghost use Rattle.telling.specs.Listed.{record_at, columns_line, listed_line, listing_line, live_line_of};

use crate::bound::words_within;
use answers::line::{write_labelled, write_live as write_record, write_refusal};
use by_hand::table::word_at;
use eval::host::host_list;
use memory::Registers;
use value::refusal::Refusal;
use words::text::write_bytes;

#[tactic(auto, unfolding(crate::specs::Listed::record_at))]
fn write_record_at(
    out: &mut [u8],
    at: usize,
    p: usize,
    live: &[u64],
    frame: &[u64],
    allocation: &[u64],
    offset: &[u64],
) -> Option<usize>
    ensures { text result out.new ≡ puts (record_at live.now frame.now allocation.now offset.now p) (text (Some at) out.old) }
{
    write_record(
        out,
        at,
        word_at(live, p),
        word_at(frame, p),
        word_at(allocation, p),
        word_at(offset, p),
    )
}

// The records of so many pointers.
fn write_records(
    out: &mut [u8],
    at: usize,
    count: usize,
    live: &[u64],
    frame: &[u64],
    allocation: &[u64],
    offset: &[u64],
) -> Option<usize>
    ensures { text result out.new ≡ puts (each count 0 (record_at live.now frame.now allocation.now offset.now)) (text (Some at) out.old) }
{
    let mut at = at;
    for p in 0..count {
        at = write_record_at(out, at, p, live, frame, allocation, offset)?;
    }
    Some(at)
}

// `live COUNT` and the records.
fn write_list(
    out: &mut [u8],
    count: usize,
    live: &[u64],
    frame: &[u64],
    allocation: &[u64],
    offset: &[u64],
) -> Option<usize>
    ensures { text result out.new ≡ line (columns_line count (columns live.now frame.now allocation.now offset.now)) out.old }
{
    let at = write_labelled(out, 0, b"live ", count as u64)?;
    let at = write_records(out, at, count, live, frame, allocation, offset)?;
    write_bytes(out, at, b"\n")
}

fn write_listed(
    out: &mut [u8],
    o: Result<(), Refusal>,
    count: usize,
    live: &[u64],
    frame: &[u64],
    allocation: &[u64],
    offset: &[u64],
) -> Option<usize>
    ensures { text result out.new ≡ line (listed_line o count (columns live.now frame.now allocation.now offset.now)) out.old }
{
    match o {
        Ok(()) => write_list(out, count, live, frame, allocation, offset),
        Err(why) => write_refusal(out, 0, why.number()),
    }
}

// The list in these columns.
fn write_columns(
    out: &mut [u8],
    m: Registers,
    store: &[u8],
    frames: &[u64],
    bounds: &[u64],
    pointers: &[u64],
    vars: &[u64],
    live: &mut [u64],
    frame: &mut [u64],
    allocation: &mut [u64],
    offset: &mut [u64],
) -> Option<usize>
    ensures { text result out.new ≡ line (listing_line m.pointers (host_listed (state (tables m store.now frames.now bounds.now pointers.now) vars.now) live.old frame.old allocation.old offset.old)) out.old }
{
    let o = host_list(
        m, store, frames, bounds, pointers, vars, live, frame, allocation, offset,
    );
    write_listed(out, o, m.pointers, live, frame, allocation, offset)
}

// The live list in a table with so much room.
pub fn write_live(
    out: &mut [u8],
    room: u64,
    m: Registers,
    store: &[u8],
    frames: &[u64],
    bounds: &[u64],
    pointers: &[u64],
    vars: &[u64],
) -> Option<usize>
    ensures { text result out.new ≡ line (live_line_of room (state (tables m store.now frames.now bounds.now pointers.now) vars.now)) out.old }
{
    let mut live = [0u64; 4096];
    let mut frame = [0u64; 4096];
    let mut allocation = [0u64; 4096];
    let mut offset = [0u64; 4096];
    let n = words_within(room as usize, &live);
    write_columns(
        out,
        m,
        store,
        frames,
        bounds,
        pointers,
        vars,
        &mut live[..n],
        &mut frame[..n],
        &mut allocation[..n],
        &mut offset[..n],
    )
}
