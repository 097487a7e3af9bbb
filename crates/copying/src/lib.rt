// Bytes copied from one pointer's place to another's, as they were before the copy.
#![tactic(auto)]

ghost use Rattle.std.specs.Prelude.{◌≡◌, ◌+◌, ◌≤◌, length, take, drop, replicate};
ghost use Rattle.memory.specs.Tables.{tables, both, written_of, constant_of, written_after, copied_of};

use memory::{Registers, Source, constant_access, read_access, write_access, write_bytes};
use value::refusal::Refusal;

// The store's own bytes from `from` on are written through pointer `to`.
#[tactic(auto, using(crate::proofs::Copies::local), unfolding(memory::specs::Tables::written_of))]
#[inline(always)]
fn copy_local(
    m: Registers,
    to: usize,
    from: usize,
    count: usize,
    store: &mut [u8],
    frames: &[u64],
    bounds: &[u64],
    pointers: &[u64],
) -> Result<(), Refusal>
    requires { from + count ≤ length store.old }
    ensures { both result store.new ≡ written_of (tables m store.old frames.now bounds.now pointers.now) to (take count (drop from store.old)) }
{
    let at = write_access(m, to, count, store, frames, bounds, pointers)?;
    store.copy_within(from..from + count, at);
    Ok(())
}

// The first bytes of constant k are written through pointer `to`.
#[tactic(auto, using(crate::proofs::Copies::copied), unfolding(memory::specs::Tables::constant_of))]
fn copy_constant(
    m: Registers,
    to: usize,
    k: u64,
    count: usize,
    store: &mut [u8],
    frames: &[u64],
    bounds: &[u64],
    pointers: &[u64],
    raw: &[u8],
    extents: &[u64],
) -> Result<(), Refusal>
    ensures { both result store.new ≡ written_after (tables m store.old frames.now bounds.now pointers.now) to (constant_of k (replicate count 0) raw.now extents.now) }
{
    let start = constant_access(k, count as u64, raw, extents)?;
    let bytes = &raw[start..start + count];
    write_bytes(m, to, bytes, store, frames, bounds, pointers)
}

// `count` bytes go from where pointer `from` leads to where pointer `to` does: the read's checks in full, then the write's.
#[tactic(auto, using(crate::proofs::Copies::copied), unfolding(memory::specs::Tables::copied_of, memory::specs::Tables::read_of))]
#[inline(always)]
pub fn copy_bytes(
    m: Registers,
    to: usize,
    from: usize,
    count: usize,
    store: &mut [u8],
    frames: &[u64],
    bounds: &[u64],
    pointers: &[u64],
    raw: &[u8],
    extents: &[u64],
) -> Result<(), Refusal>
    ensures { both result store.new ≡ copied_of (tables m store.old frames.now bounds.now pointers.now) to from count raw.now extents.now }
{
    match read_access(m, from, count, store, frames, bounds, pointers)? {
        Source::Local(at) => copy_local(m, to, at, count, store, frames, bounds, pointers),
        Source::Constant(k) => copy_constant(
            m, to, k, count, store, frames, bounds, pointers, raw, extents,
        ),
    }
}
