// The live list as a lent table of records: each record is the one that `live_list` makes of the flat tables.
#![tactic(auto)]

ghost use Rattle.std.specs.Prelude.{◌≡◌};
ghost use Rattle.memory.specs.Tables.{tables, state};
ghost use Rattle.live_list.specs.Record.{record_in};
ghost use Rattle.live_table.specs.Table.{shown, tabled, tabled_of, as_told, told_of};

use live_list::record_at;
use memory::{LiveRecord, Registers};
use soundness::sound;
use value::refusal::Refusal;

// Whether the pointer is live, its frame's index, its allocation and its offset.
#[derive(Clone, Copy, Debug, PartialEq, Eq)]
pub struct PointerRecord {
    pub live: bool,
    pub frame: u64,
    pub allocation: u64,
    pub offset: u64,
}

impl From<LiveRecord> for PointerRecord {
    ghost from_gives = { λ r x. x ≡ shown r };

    fn from(r: LiveRecord) -> PointerRecord {
        PointerRecord {
            live: r.live == 1,
            frame: r.frame,
            allocation: r.allocation,
            offset: r.offset,
        }
    }
}

// How many records go to a table with this room: one for each pointer, or 10, then 41.
#[tactic(auto, unfolding(crate::specs::Table::told_of))]
fn tell(
    m: Registers,
    store: &[u8],
    frames: &[u64],
    bounds: &[u64],
    pointers: &[u64],
    vars: &[u64],
    room: usize,
) -> Result<usize, Refusal>
    ensures { as_told result ≡ told_of (state (tables m store.now frames.now bounds.now pointers.now) vars.now) room }
{
    if !sound(m, store, frames, bounds, pointers, vars) {
        return Err(Refusal::NotSound);
    }
    if room < m.pointers {
        return Err(Refusal::ShortTable);
    }
    Ok(m.pointers)
}

// One record for each pointer number, rising: 10 where the state is not sound, 41 where the table is shorter than the pointers.
#[tactic(auto, using(crate::proofs::Filled::filled_none))]
pub fn live_table<'a, 't>(
    m: Registers,
    store: &'a [u8],
    frames: &'a [u64],
    bounds: &'a [u64],
    pointers: &'a [u64],
    vars: &'a [u64],
    table: &'t mut [PointerRecord],
) -> Result<(), Refusal>
    ensures { tabled result table.new ≡ tabled_of (state (tables m store.now frames.now bounds.now pointers.now) vars.now) table.old }
{
    let n = tell(m, store, frames, bounds, pointers, vars, table.len())?;
    for k in 0..n {
        table[k] = PointerRecord::from(record_at(m.depth, k, frames, pointers));
    }
    Ok(())
}
