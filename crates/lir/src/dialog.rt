// `lir console`: the host's calls by hand, a command a line, one answer line each.
use crate::say;
use crate::source::{LINE_ROOM, ONE_READ, Source};
use console::session::answer;
use memory::{
    BOUNDS_LENGTH, FRAMES_LENGTH, POINTERS_LENGTH, Registers, STORE_LENGTH, VARIABLES_LENGTH, fresh,
};
use std::io;
use telling::bound::within;

// More bytes than a line can say.
const HEX_ROOM: usize = 131072;

// No answer is longer: of a dump of full tables 64 frames with 512 lengths each are at most 692,224 bytes, and 4,096 pointers 348,183.
const ANSWER_ROOM: usize = 1114488;

// The machine's registers, how long the image is, and the line that is being read.
#[derive(Clone, Copy, Debug, PartialEq, Eq)]
pub struct Talk {
    pub m: Registers,
    pub image: usize,
    pub source: Source,
}

// Answers the line, where it is whole.
fn respond(
    rt: &HostRuntime,
    t: Talk,
    line: &[u8],
    image: &mut [u8],
    bytes: &mut [u8],
    out: &mut [u8],
    store: &mut [u8],
    frames: &mut [u64],
    bounds: &mut [u64],
    pointers: &mut [u64],
    vars: &mut [u64],
) -> Talk {
    let held = t.source.held;
    if !held.whole {
        return t;
    }
    let end = within(held.length, line);
    let r = answer(
        t.m,
        t.image,
        &line[..end],
        image,
        bytes,
        out,
        store,
        frames,
        bounds,
        pointers,
        vars,
    );
    say::answer(rt, out, r.text);
    Talk {
        m: r.m,
        image: r.image,
        source: t.source.next_line(),
    }
}

// Line by line, to the end of the input. A proved loop has to end, and nothing says that the input does: its turns are more than any run has.
fn converse(
    rt: &HostRuntime,
    start: Talk,
    input: &mut [u8],
    line: &mut [u8],
    image: &mut [u8],
    bytes: &mut [u8],
    out: &mut [u8],
    store: &mut [u8],
    frames: &mut [u64],
    bounds: &mut [u64],
    pointers: &mut [u64],
    vars: &mut [u64],
) -> io::Result<()> {
    let mut t = start;
    for _ in 0..u64::MAX {
        let source = t.source.advance(rt, input, line)?;
        t = respond(
            rt,
            Talk { source, ..t },
            line,
            image,
            bytes,
            out,
            store,
            frames,
            bounds,
            pointers,
            vars,
        );
        if t.source.ended {
            break;
        }
    }
    Ok(())
}

// The first line of a session on fresh memory, with no image.
fn first(m: Registers) -> Talk {
    Talk {
        m,
        image: 0,
        source: Source::new(),
    }
}

fn open(rt: &HostRuntime, line: &mut [u8], image: &mut [u8], bytes: &mut [u8], out: &mut [u8]) {
    let mut input = [0u8; ONE_READ];
    let mut store = [0u8; STORE_LENGTH];
    let mut frames = [0u64; FRAMES_LENGTH];
    let mut bounds = [0u64; BOUNDS_LENGTH];
    let mut pointers = [0u64; POINTERS_LENGTH];
    let mut vars = [0u64; VARIABLES_LENGTH];
    let Ok(m) = fresh(
        &mut store,
        &mut frames,
        &mut bounds,
        &mut pointers,
        &mut vars,
    ) else {
        return;
    };
    let talked = converse(
        rt,
        first(m),
        &mut input,
        line,
        image,
        bytes,
        out,
        &mut store,
        &mut frames,
        &mut bounds,
        &mut pointers,
        &mut vars,
    );
    if let Err(e) = talked {
        say::input_failed(rt, e);
    }
}

// The large arrays go by references that have their lengths in their types, so that the check never spells them out.
fn open_with(
    rt: &HostRuntime,
    line: &mut [u8; LINE_ROOM],
    image: &mut [u8; HEX_ROOM],
    bytes: &mut [u8; HEX_ROOM],
    out: &mut [u8; ANSWER_ROOM],
) {
    open(rt, line, image, bytes, out);
}

pub fn run(rt: &HostRuntime) {
    let mut line = [0u8; LINE_ROOM];
    let mut image = [0u8; HEX_ROOM];
    let mut bytes = [0u8; HEX_ROOM];
    let mut out = [0u8; ANSWER_ROOM];
    open_with(rt, &mut line, &mut image, &mut bytes, &mut out);
}
