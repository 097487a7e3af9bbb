// Fills every table of the memory to its last record and one past, empties frames and uses their bytes again, and prints
// what the calls answered: a line for each row of SCRIPT, with how many calls were granted and the last refusal, 0 for none.
#![tactic(auto)]

use memory::{Popped, Registers};
use std::{fmt, io};
use value::refusal::Refusal;

// What a row does.
#[derive(Clone, Copy)]
enum What {
    Fresh,
    Push,
    Pop,
    Allocate,
    Offset,
    Address,
    Write,
    Read,
    Sound,
    ListShort,
    ListLong,
}

impl fmt::Display for What {
    fn fmt<W: fmt::Write>(&self, f: &mut fmt::Formatter<W>) -> fmt::Result {
        f.write_str(match self {
            What::Fresh => "fresh",
            What::Push => "push",
            What::Pop => "pop",
            What::Allocate => "allocate",
            What::Offset => "offset",
            What::Address => "address",
            What::Write => "write",
            What::Read => "read",
            What::Sound => "sound",
            What::ListShort | What::ListLong => "list",
        })
    }
}

// What, how often, and its two arguments: Push counter at least; Allocate size; Offset pointer, by; Address constant;
// Write and Read pointer, size; Sound running.
const SCRIPT: [(What, u64, u64, u64); 54] = [
    // 64 frames, root included, and one more; then down to the root and one more
    (What::Fresh, 1, 0, 0),
    (What::Sound, 1, 0, 0),
    (What::Push, 63, 0, 0),
    (What::Sound, 1, 0, 0),
    (What::Sound, 1, 1, 0),
    (What::Push, 1, 0, 0),
    (What::Pop, 63, 0, 0),
    (What::Pop, 1, 0, 0),
    // all ids spent
    (What::Push, 1, 4294967294, 0),
    (What::Push, 1, 4294967295, 0),
    // 512 allocations that fill the store, and one more of no bytes
    (What::Fresh, 1, 0, 0),
    (What::Allocate, 512, 64, 0),
    (What::Sound, 1, 0, 0),
    (What::Allocate, 1, 0, 0),
    (What::Write, 1, 511, 64),
    (What::Read, 1, 511, 64),
    (What::Read, 1, 510, 64),
    // 32,768 bytes at once, and one byte more; none more is granted
    (What::Fresh, 1, 0, 0),
    (What::Allocate, 1, 32769, 0),
    (What::Allocate, 1, 32768, 0),
    (What::Allocate, 1, 1, 0),
    (What::Allocate, 1, 0, 0),
    // 4,096 pointers, and one more by each way
    (What::Fresh, 1, 0, 0),
    (What::Allocate, 1, 8, 0),
    (What::Offset, 4095, 0, 4),
    (What::Sound, 1, 0, 0),
    (What::Offset, 1, 0, 4),
    (What::Address, 1, 3, 0),
    (What::Allocate, 1, 0, 0),
    (What::Read, 1, 4095, 4),
    (What::Read, 1, 4096, 4),
    // a frame's bytes are used again by the next one, all 0, and the old pointer is refused
    (What::Fresh, 1, 0, 0),
    (What::Push, 1, 0, 0),
    (What::Allocate, 1, 32, 0),
    (What::Write, 1, 0, 32),
    (What::Read, 1, 0, 32),
    (What::Pop, 1, 0, 0),
    (What::Read, 1, 0, 32),
    (What::Push, 1, 0, 0),
    (What::Allocate, 1, 32, 0),
    (What::Read, 1, 1, 32),
    (What::Write, 1, 0, 32),
    (What::ListShort, 1, 0, 0),
    (What::ListLong, 1, 0, 0),
    // 4 bytes and none at offsets of 8 bytes; a constant's pointer; an offset past all numbers
    (What::Fresh, 1, 0, 0),
    (What::Allocate, 1, 8, 0),
    (What::Offset, 1, 0, 6),
    (What::Offset, 1, 0, 8),
    (What::Write, 1, 1, 4),
    (What::Write, 1, 2, 0),
    (What::Address, 1, 0, 0),
    (What::Write, 1, 3, 4),
    (What::Offset, 1, 3, 1),
    (What::Offset, 1, 1, 18446744073709551615),
];

// How many calls were granted, the last refusal, and the registers after them.
#[derive(Clone, Copy)]
struct Tally {
    granted: u64,
    refusal: Option<Refusal>,
    registers: Registers,
}

fn begun(registers: Registers) -> Tally {
    Tally {
        granted: 0,
        refusal: None,
        registers,
    }
}

fn moved(t: Tally, r: Result<Registers, Refusal>) -> Tally {
    match r {
        Ok(registers) => Tally {
            granted: t.granted.saturating_add(1),
            registers,
            ..t
        },
        Err(why) => Tally {
            refusal: Some(why),
            ..t
        },
    }
}

fn given(t: Tally, r: Result<(usize, Registers), Refusal>) -> Tally {
    moved(t, r.map(|(_, m)| m))
}

fn popped(t: Tally, r: Result<Option<Popped>, Refusal>) -> Tally {
    match r {
        Ok(Some(p)) => moved(t, Ok(p.registers)),
        Ok(None) => t,
        Err(why) => moved(t, Err(why)),
    }
}

fn outcome(m: Registers, r: Result<(), Refusal>) -> Tally {
    moved(begun(m), r.map(|()| m))
}

// The counter is at least so much.
fn pushes(m: Registers, n: u64, least: u64, frames: &mut [u64]) -> Tally {
    let mut t = begun(Registers {
        counter: m.counter.max(least),
        ..m
    });
    for _ in 0..n {
        t = moved(t, memory::push_frame(t.registers, 7, 3, frames));
    }
    t
}

fn pops(m: Registers, n: u64, frames: &[u64]) -> Tally {
    let mut t = begun(m);
    for _ in 0..n {
        t = popped(t, memory::pop_frame(t.registers, frames));
    }
    t
}

fn allocates(
    m: Registers,
    n: u64,
    size: u64,
    store: &mut [u8],
    frames: &mut [u64],
    bounds: &mut [u64],
    pointers: &mut [u64],
) -> Tally {
    let mut t = begun(m);
    for _ in 0..n {
        t = given(
            t,
            memory::allocate(t.registers, size as usize, store, frames, bounds, pointers),
        );
    }
    t
}

fn offsets(m: Registers, n: u64, p: u64, by: u64, pointers: &mut [u64]) -> Tally {
    let mut t = begun(m);
    for _ in 0..n {
        t = given(t, memory::offset_by(t.registers, p as usize, by, pointers));
    }
    t
}

// A read into these bytes, and the first of them afterwards, or 0 where there is none.
fn read_into(
    rt: &impl Print,
    m: Registers,
    p: u64,
    bytes: &mut [u8],
    store: &[u8],
    frames: &[u64],
    bounds: &[u64],
    pointers: &[u64],
) -> io::Result<Tally> {
    let r = memory::read_bytes(
        m, p as usize, bytes, store, frames, bounds, pointers, store, frames,
    );
    let first = bytes.first().copied().unwrap_or(0);
    print!(rt; " {first}")?;
    Ok(outcome(m, r))
}

fn reads(
    rt: &impl Print,
    m: Registers,
    p: u64,
    size: u64,
    space: &mut [u8],
    store: &[u8],
    frames: &[u64],
    bounds: &[u64],
    pointers: &[u64],
) -> io::Result<Tally> {
    let n = size as usize;
    if space.len() < n {
        return Ok(begun(m));
    }
    read_into(rt, m, p, &mut space[..n], store, frames, bounds, pointers)
}

fn writes(
    m: Registers,
    p: u64,
    size: u64,
    bytes: &[u8],
    store: &mut [u8],
    frames: &[u64],
    bounds: &[u64],
    pointers: &[u64],
) -> Tally {
    let n = size as usize;
    if bytes.len() < n {
        return begun(m);
    }
    let r = memory::write_bytes(m, p as usize, &bytes[..n], store, frames, bounds, pointers);
    outcome(m, r)
}

// Granted where the state is sound, with this word in `running`.
fn sounds(
    m: Registers,
    running: u64,
    store: &[u8],
    frames: &[u64],
    bounds: &[u64],
    pointers: &[u64],
    variables: &[u64],
) -> Tally {
    if soundness::sound(
        Registers { running, ..m },
        store,
        frames,
        bounds,
        pointers,
        variables,
    ) {
        return outcome(m, Ok(()));
    }
    begun(m)
}

// The live list with room for four records but for their offsets: whether each lives, their frames, and the answer.
fn listed(
    m: Registers,
    store: &[u8],
    frames: &[u64],
    bounds: &[u64],
    pointers: &[u64],
    offset: &mut [u64],
) -> ([u64; 4], [u64; 4], Result<(), Refusal>) {
    let mut live = [9u64; 4];
    let mut frame = [9u64; 4];
    let mut allocation = [9u64; 4];
    let r = live_list::live_list(
        m,
        store,
        frames,
        bounds,
        pointers,
        &mut live,
        &mut frame,
        &mut allocation,
        offset,
    );
    (live, frame, r)
}

// Room for one record alone.
fn list_short(
    rt: &impl Print,
    m: Registers,
    store: &[u8],
    frames: &[u64],
    bounds: &[u64],
    pointers: &[u64],
) -> io::Result<Tally> {
    let (live, _, r) = listed(m, store, frames, bounds, pointers, &mut [9u64; 1]);
    print!(rt; " {}", live[0])?;
    Ok(outcome(m, r))
}

// Room for four: whether the first three live, and the frame of the first.
fn list_long(
    rt: &impl Print,
    m: Registers,
    store: &[u8],
    frames: &[u64],
    bounds: &[u64],
    pointers: &[u64],
) -> io::Result<Tally> {
    let (live, frame, r) = listed(m, store, frames, bounds, pointers, &mut [9u64; 4]);
    print!(rt; " {} {} {} {}", live[0], live[1], live[2], frame[0])?;
    Ok(outcome(m, r))
}

fn act(
    rt: &impl Print,
    what: What,
    n: u64,
    a: u64,
    b: u64,
    m: Registers,
    full: &[u8],
    space: &mut [u8],
    store: &mut [u8],
    frames: &mut [u64],
    bounds: &mut [u64],
    pointers: &mut [u64],
    variables: &mut [u64],
) -> io::Result<Tally> {
    Ok(match what {
        What::Fresh => moved(
            begun(m),
            memory::fresh(store, frames, bounds, pointers, variables),
        ),
        What::Push => pushes(m, n, a, frames),
        What::Pop => pops(m, n, frames),
        What::Allocate => allocates(m, n, a, store, frames, bounds, pointers),
        What::Offset => offsets(m, n, a, b, pointers),
        What::Address => given(begun(m), memory::constant_address(m, a, pointers)),
        What::Write => writes(m, a, b, full, store, frames, bounds, pointers),
        What::Read => reads(rt, m, a, b, space, store, frames, bounds, pointers)?,
        What::Sound => sounds(m, a, store, frames, bounds, pointers, variables),
        What::ListShort => list_short(rt, m, store, frames, bounds, pointers)?,
        What::ListLong => list_long(rt, m, store, frames, bounds, pointers)?,
    })
}

// Each row of the script in turn.
fn run(
    rt: &impl Print,
    m: Registers,
    full: &[u8],
    space: &mut [u8],
    store: &mut [u8],
    frames: &mut [u64],
    bounds: &mut [u64],
    pointers: &mut [u64],
    variables: &mut [u64],
) -> io::Result<()> {
    let mut s = m;
    for &(what, n, a, b) in SCRIPT.iter() {
        print!(rt; "{what} {n} {a} {b}")?;
        let t = act(
            rt, what, n, a, b, s, full, space, store, frames, bounds, pointers, variables,
        )?;
        let refusal = t.refusal.map_or(0, |why| why.number());
        println!(rt; ": {} granted, {refusal}", t.granted)?;
        s = t.registers;
    }
    Ok(())
}

fn main(rt: HostRuntime) -> io::Result<()> {
    let mut store = [171u8; 32768];
    let mut frames = [171u64; 260];
    let mut bounds = [171u64; 513];
    let mut pointers = [171u64; 20480];
    let mut variables = [171u64; 512];
    let m = Registers {
        running: 171,
        next: 171,
        counter: 171,
        depth: 171,
        pointers: 171,
    };
    let full = [255u8; 64];
    let mut space = [1u8; 64];
    run(
        &rt,
        m,
        &full,
        &mut space,
        &mut store,
        &mut frames,
        &mut bounds,
        &mut pointers,
        &mut variables,
    )
}
