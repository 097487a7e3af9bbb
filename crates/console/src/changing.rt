// The commands that change the memory by the host's hand: `fresh`, `allocate`, `write` and the pokes.
ghost use Rattle.std.specs.Prelude.{◌≡◌};
ghost use Rattle.memory.specs.Tables.{tables, state};
ghost use Rattle.console.specs.Turns.{left, leaving, fresh_done, allocate_done, write_done, poke_done, changed_of};

use crate::{Told, tell};
use answers::line::write_ok;
use by_hand::poke::poke;
use commands::command::{Command, Poke};
use commands::{Asked, Parts};
use eval::after::{after_given, after_moved};
use eval::host::{host_allocate, host_write};
use memory::{Registers, fresh};
use telling::answer::{write_given, write_moved, write_outcome};
use telling::bound::within;

// `fresh`
#[tactic(auto, unfolding(crate::specs::Turns::fresh_done))]
fn perform_fresh(
    m: Registers,
    out: &mut [u8],
    store: &mut [u8],
    frames: &mut [u64],
    bounds: &mut [u64],
    pointers: &mut [u64],
    vars: &mut [u64],
) -> Told
    ensures { left result out.new store.new frames.new bounds.new pointers.new vars.new ≡ leaving out.old (fresh_done (state (tables m store.old frames.old bounds.old pointers.old) vars.old)) }
{
    let r = fresh(store, frames, bounds, pointers, vars);
    tell(after_moved(r, m), write_moved(out, r))
}

// `allocate SIZE`
#[tactic(auto, unfolding(crate::specs::Turns::allocate_done))]
fn perform_allocate(
    m: Registers,
    parts: Parts,
    out: &mut [u8],
    store: &mut [u8],
    frames: &mut [u64],
    bounds: &mut [u64],
    pointers: &mut [u64],
    vars: &[u64],
) -> Told
    ensures { left result out.new store.new frames.new bounds.new pointers.new vars.now ≡ leaving out.old (allocate_done parts (state (tables m store.old frames.old bounds.old pointers.old) vars.now)) }
{
    let size = parts.first as usize;
    let g = host_allocate(m, size, store, frames, bounds, pointers, vars);
    tell(after_given(g, m), write_given(out, g))
}

// `write P HEX`
fn perform_write(
    m: Registers,
    parts: Parts,
    bytes: &[u8],
    out: &mut [u8],
    store: &mut [u8],
    frames: &[u64],
    bounds: &[u64],
    pointers: &[u64],
    vars: &[u64],
) -> Told
    ensures { left result out.new store.new frames.now bounds.now pointers.now vars.now ≡ leaving out.old (write_done parts bytes.now (state (tables m store.old frames.now bounds.now pointers.now) vars.now)) }
{
    let size = within(parts.count as usize, bytes);
    let p = parts.first as usize;
    let o = host_write(m, p, &bytes[..size], store, frames, bounds, pointers, vars);
    tell(m, write_outcome(out, o))
}

// `poke WHAT ..`
#[tactic(auto, unfolding(crate::specs::Turns::poke_done))]
fn perform_poke(
    m: Registers,
    what: Poke,
    parts: Parts,
    out: &mut [u8],
    store: &[u8],
    frames: &mut [u64],
    bounds: &[u64],
    pointers: &mut [u64],
    vars: &mut [u64],
) -> Told
    ensures { left result out.new store.now frames.new bounds.now pointers.new vars.new ≡ leaving out.old (poke_done what parts (state (tables m store.now frames.old bounds.now pointers.old) vars.old)) }
{
    let after = poke(m, what, parts, frames, pointers, vars);
    tell(after, write_ok(out, 0))
}

// The commands that change the memory by the host's hand.
pub fn change(
    m: Registers,
    asked: Asked,
    bytes: &[u8],
    out: &mut [u8],
    store: &mut [u8],
    frames: &mut [u64],
    bounds: &mut [u64],
    pointers: &mut [u64],
    vars: &mut [u64],
) -> Told
    ensures { left result out.new store.new frames.new bounds.new pointers.new vars.new ≡ leaving out.old (changed_of asked.command asked.parts bytes.now (state (tables m store.old frames.old bounds.old pointers.old) vars.old)) }
{
    let parts = asked.parts;
    match asked.command {
        Command::Fresh => perform_fresh(m, out, store, frames, bounds, pointers, vars),
        Command::Allocate => {
            perform_allocate(m, parts, out, store, frames, bounds, pointers, vars)
        }
        Command::Poke(what) => perform_poke(
            m, what, parts, out, store, frames, bounds, pointers, vars,
        ),
        _ => perform_write(m, parts, bytes, out, store, frames, bounds, pointers, vars),
    }
}
