// Changes of the state by hand, with no check at all.
ghost use Rattle.std.specs.Prelude.{◌≡◌, ◌-◌, ◌<◌, min};
ghost use Rattle.memory.specs.Tables.{pointer, with_pointers};
ghost use Rattle.by_hand.specs.Changes.{more, variable_put, frame_put, word_put, pointer_put, constants_put, with_depth, poked, poked_of};

use crate::table::{put, word_at};
use commands::Parts;
use commands::command::Poke;
use memory::{CONSTANT, LOCAL, MAX_DEPTH, MAX_POINTERS, PointerRecord, Registers};

// The variable's tag and bits: both 0 where it is unset.
fn poke_variable(place: u64, tag: u64, bits: u64, vars: &mut [u64])
    ensures { vars.new ≡ variable_put vars.old place tag bits }
{
    if place < 256 {
        let at = place as usize * 2;
        put(vars, at, tag);
        put(vars, at + 1, bits);
    }
}

// One frame more, with no allocation. `variable` is the return variable and one, or 0 for none.
fn push(d: usize, id: u64, place: u64, variable: u64, frames: &mut [u64])
    ensures { frames.new ≡ frame_put frames.old d id place variable }
{
    if d < MAX_DEPTH {
        let at = d * 4;
        let live = word_at(frames, at + 3);
        put(frames, at, id);
        put(frames, at + 1, place);
        put(frames, at + 2, variable);
        put(frames, at + 7, live);
    }
}

fn poke_frame(m: Registers, id: u64, place: u64, variable: u64, frames: &mut [u64]) -> Registers
    ensures { (result ≡ with_depth m (more m.depth 1)) × (frames.new ≡ frame_put frames.old m.depth id place variable) }
{
    push(m.depth, id, place, variable, frames);
    Registers {
        depth: m.depth.saturating_add(1),
        ..m
    }
}

// A word of a frame's record: 0 its id, 1 its return place, 2 its return variable.
fn poke_word(frame: u64, word: usize, v: u64, frames: &mut [u64])
    requires { word < 4 }
    ensures { frames.new ≡ word_put frames.old frame word v }
{
    if frame < 64 {
        put(frames, frame as usize * 4 + word, v);
    }
}

// A record of the pointers' table.
fn put_pointer(pointers: &mut [u64], p: usize, q: PointerRecord)
    ensures { pointers.new ≡ pointer_put pointers.old p q }
{
    if p < MAX_POINTERS {
        let at = p * 5;
        put(pointers, at, q.kind);
        put(pointers, at + 1, q.index);
        put(pointers, at + 2, q.id);
        put(pointers, at + 3, q.allocation);
        put(pointers, at + 4, q.offset);
    }
}

// One local pointer more.
fn poke_local(
    m: Registers,
    frame: u64,
    id: u64,
    allocation: u64,
    offset: u64,
    pointers: &mut [u64],
) -> Registers
    ensures { (result ≡ with_pointers m (more m.pointers 1)) × (pointers.new ≡ pointer_put pointers.old m.pointers (pointer 0 frame id allocation offset)) }
{
    let q = PointerRecord {
        kind: LOCAL,
        index: frame,
        id,
        allocation,
        offset,
    };
    put_pointer(pointers, m.pointers, q);
    Registers {
        pointers: m.pointers.saturating_add(1),
        ..m
    }
}

// Pointers to a constant from one number to another.
fn put_constants(pointers: &mut [u64], from: usize, to: usize, constant: u64)
    ensures { pointers.new ≡ constants_put (to - from) pointers.old from constant }
{
    let q = PointerRecord {
        kind: CONSTANT,
        index: constant,
        id: 0,
        allocation: 0,
        offset: 0,
    };
    for p in from..to {
        put_pointer(pointers, p, q);
    }
}

// So many pointers more to a constant.
fn poke_constants(m: Registers, constant: u64, count: u64, pointers: &mut [u64]) -> Registers
    ensures { (result ≡ with_pointers m (more m.pointers count)) × (pointers.new ≡ constants_put (min (more m.pointers count) 4096 - m.pointers) pointers.old m.pointers constant) }
{
    let end = m.pointers.saturating_add(count as usize);
    put_constants(pointers, m.pointers, end.min(MAX_POINTERS), constant);
    Registers { pointers: end, ..m }
}

// The change of these parts.
pub fn poke(
    m: Registers,
    what: Poke,
    parts: Parts,
    frames: &mut [u64],
    pointers: &mut [u64],
    vars: &mut [u64],
) -> Registers
    ensures { poked result frames.new pointers.new vars.new ≡ poked_of m what parts frames.old pointers.old vars.old }
{
    let a = parts.first;
    let b = parts.second;
    let c = parts.third;
    match what {
        Poke::Frame => return poke_frame(m, a, b, c, frames),
        Poke::Local => return poke_local(m, a, b, c, parts.fourth, pointers),
        Poke::Const => return poke_constants(m, a, b, pointers),
        Poke::Counter => return Registers { counter: a, ..m },
        Poke::Next => {
            return Registers {
                next: a as usize,
                ..m
            };
        }
        Poke::Running => return Registers { running: a, ..m },
        Poke::Var => poke_variable(a, b, c, vars),
        Poke::Unset => poke_variable(a, 0, 0, vars),
        Poke::Id => poke_word(a, 0, b, frames),
        Poke::Place => poke_word(a, 1, b, frames),
        Poke::Rvar => poke_word(a, 2, b, frames),
    }
    m
}
