// The state as one line, as its tables hold it.
ghost use Rattle.std.specs.Prelude.{◌≡◌, ◌<◌, ◌≤◌, Some};
ghost use Rattle.words.specs.Text.{text, puts};
ghost use Rattle.by_hand.specs.State.{var_of, lengths_of, frame_at, frames_text, pointer_at, each, pointers_text, variable_at, none_set, variables_text, live_bytes, dump_line};

use crate::table::word_at;
use answers::dump::{
    write_constant_pointer, write_frame, write_local_pointer, write_state, write_store,
    write_variable,
};
use answers::line::write_labelled;
use memory::{LOCAL, MAX_DEPTH, MAX_POINTERS, Registers};
use words::text::write_bytes;

// A frame's return variable.
fn var_of(word: u64) -> Option<u64>
    ensures { result ≡ var_of word }
{
    word.checked_sub(1)
}

// The length of every allocation that the table has room for: from its start to the next one's.
fn lengths_of(bounds: &[u64]) -> [u64; 512]
    ensures { result ≡ lengths_of bounds.now }
{
    let mut lengths = [0; 512];
    for k in 0..512 {
        lengths[k] = word_at(bounds, k + 1).saturating_sub(word_at(bounds, k));
    }
    lengths
}

// The frame's id, place and variable, and the lengths of its allocations, those from its first to the next frame's.
fn write_frame_at(
    out: &mut [u8],
    at: usize,
    i: usize,
    frames: &[u64],
    lengths: &[u64],
) -> Option<usize>
    requires { i < 64 }
    ensures { text result out.new ≡ puts (frame_at frames.now lengths.now i) (text (Some at) out.old) }
{
    let word = i * 4;
    let to = (word_at(frames, word + 7) as usize).min(lengths.len());
    let from = (word_at(frames, word + 3) as usize).min(to);
    let var = var_of(word_at(frames, word + 2));
    let id = word_at(frames, word);
    let place = word_at(frames, word + 1);
    write_frame(out, at, id, place, var, &lengths[from..to])
}

// The frames that the table holds.
fn write_frames(
    out: &mut [u8],
    at: usize,
    depth: usize,
    frames: &[u64],
    lengths: &[u64],
) -> Option<usize>
    ensures { text result out.new ≡ puts (frames_text depth frames.now lengths.now) (text (Some at) out.old) }
{
    let mut at = at;
    for i in 0..depth.min(MAX_DEPTH) {
        at = write_frame_at(out, at, i, frames, lengths)?;
    }
    Some(at)
}

fn write_pointer_at(out: &mut [u8], at: usize, p: usize, pointers: &[u64]) -> Option<usize>
    requires { p < 4096 }
    ensures { text result out.new ≡ puts (pointer_at pointers.now p) (text (Some at) out.old) }
{
    let word = p * 5;
    let index = word_at(pointers, word + 1);
    if word_at(pointers, word) != LOCAL {
        return write_constant_pointer(out, at, index);
    }
    let id = word_at(pointers, word + 2);
    let allocation = word_at(pointers, word + 3);
    let offset = word_at(pointers, word + 4);
    write_local_pointer(out, at, index, id, allocation, offset)
}

// So many pointers.
fn write_pointer_list(out: &mut [u8], at: usize, count: usize, pointers: &[u64]) -> Option<usize>
    requires { count ≤ 4096 }
    ensures { text result out.new ≡ puts (each count 0 (pointer_at pointers.now)) (text (Some at) out.old) }
{
    let mut at = at;
    for p in 0..count {
        at = write_pointer_at(out, at, p, pointers)?;
    }
    Some(at)
}

// ` | COUNT` and the pointers that the table holds.
fn write_pointers(out: &mut [u8], at: usize, count: usize, pointers: &[u64]) -> Option<usize>
    ensures { text result out.new ≡ puts (pointers_text count pointers.now) (text (Some at) out.old) }
{
    let at = write_labelled(out, at, b" | ", count as u64)?;
    if count == 0 {
        return write_bytes(out, at, b" -");
    }
    write_pointer_list(out, at, count.min(MAX_POINTERS), pointers)
}

// Whether no variable is set.
fn none_set(vars: &[u64]) -> bool
    ensures { result ≡ none_set 256 vars.now 0 }
{
    (0..256).all(|i| word_at(vars, i * 2) == 0)
}

fn write_variable_at(out: &mut [u8], at: usize, i: usize, vars: &[u64]) -> Option<usize>
    requires { i < 256 }
    ensures { text result out.new ≡ puts (variable_at vars.now i) (text (Some at) out.old) }
{
    let tag = word_at(vars, i * 2);
    if tag == 0 {
        return Some(at);
    }
    write_variable(out, at, i as u64, tag, word_at(vars, i * 2 + 1))
}

// The variables that are set, rising.
fn write_variable_list(out: &mut [u8], at: usize, vars: &[u64]) -> Option<usize>
    ensures { text result out.new ≡ puts (each 256 0 (variable_at vars.now)) (text (Some at) out.old) }
{
    let mut at = at;
    for i in 0..256 {
        at = write_variable_at(out, at, i, vars)?;
    }
    Some(at)
}

// ` |` and the variables.
fn write_variables(out: &mut [u8], at: usize, vars: &[u64]) -> Option<usize>
    ensures { text result out.new ≡ puts (variables_text vars.now) (text (Some at) out.old) }
{
    let at = write_bytes(out, at, b" |")?;
    if none_set(vars) {
        return write_bytes(out, at, b" -");
    }
    write_variable_list(out, at, vars)
}

// How many bytes are live: the bound after the last allocation, whose number the record above the top frame has.
fn live_bytes(depth: usize, frames: &[u64], bounds: &[u64]) -> u64
    ensures { result ≡ live_bytes depth frames.now bounds.now }
{
    let top = depth.min(MAX_DEPTH) * 4;
    let live = (word_at(frames, top + 3) as usize).min(512);
    word_at(bounds, live)
}

// `state RUNNING NEXT COUNTER | F F.. | COUNT P P.. | I=KIND:BITS .. | COUNT HEX`
pub fn write_dump(
    out: &mut [u8],
    at: usize,
    m: Registers,
    store: &[u8],
    frames: &[u64],
    bounds: &[u64],
    pointers: &[u64],
    vars: &[u64],
) -> Option<usize>
    ensures { text result out.new ≡ puts (dump_line m store.now frames.now bounds.now pointers.now vars.now) (text (Some at) out.old) }
{
    let lengths = lengths_of(bounds);
    let at = write_state(out, at, m.running, m.next as u64, m.counter)?;
    let at = write_frames(out, at, m.depth, frames, &lengths)?;
    let at = write_pointers(out, at, m.pointers, pointers)?;
    let at = write_variables(out, at, vars)?;
    let used = (live_bytes(m.depth, frames, bounds) as usize).min(store.len());
    write_store(out, at, &store[..used])
}
