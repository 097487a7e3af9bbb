// The pieces of a dump line.
ghost use Rattle.std.specs.Prelude.{◌≡◌, Some};
ghost use Rattle.words.specs.Text.{text, puts};
ghost use Rattle.answers.specs.Dump.{state_text, var_text, more_lengths, lengths_text, frame_head, frame_text, constant_text, local_text, variable_text, store_text};

use crate::line::write_labelled;
use words::hex::write_hex;
use words::kind::write_kind;
use words::number::write_number;
use words::text::write_bytes;

// `state RUNNING NEXT COUNTER |`
pub fn write_state(
    out: &mut [u8],
    at: usize,
    running: u64,
    next: u64,
    counter: u64,
) -> Option<usize>
    ensures { text result out.new ≡ puts (state_text running next counter) (text (Some at) out.old) }
{
    let at = write_labelled(out, at, b"state ", running)?;
    let at = write_labelled(out, at, b" ", next)?;
    let at = write_labelled(out, at, b" ", counter)?;
    write_bytes(out, at, b" |")
}

// A variable's number, or `-` for none.
fn write_var(out: &mut [u8], at: usize, var: Option<u64>) -> Option<usize>
    ensures { text result out.new ≡ puts (var_text var) (text (Some at) out.old) }
{
    match var {
        Some(n) => write_number(out, at, n),
        None => write_bytes(out, at, b"-"),
    }
}

// The lengths, a comma before each.
fn write_more(out: &mut [u8], at: usize, lengths: &[u64]) -> Option<usize>
    ensures { text result out.new ≡ puts (more_lengths lengths.now) (text (Some at) out.old) }
{
    let mut at = at;
    for length in lengths {
        at = write_labelled(out, at, b",", *length)?;
    }
    Some(at)
}

// The lengths of a frame's allocations, parted by commas, or `-` where it has none.
fn write_lengths(out: &mut [u8], at: usize, lengths: &[u64]) -> Option<usize>
    ensures { text result out.new ≡ puts (lengths_text lengths.now) (text (Some at) out.old) }
{
    match lengths {
        [] => write_bytes(out, at, b"-"),
        [first, more @ ..] => {
            let at = write_number(out, at, *first)?;
            write_more(out, at, more)
        }
    }
}

// ` ID:PLACE:VAR:`
fn write_frame_head(
    out: &mut [u8],
    at: usize,
    id: u64,
    place: u64,
    var: Option<u64>,
) -> Option<usize>
    ensures { text result out.new ≡ puts (frame_head id place var) (text (Some at) out.old) }
{
    let at = write_labelled(out, at, b" ", id)?;
    let at = write_labelled(out, at, b":", place)?;
    let at = write_bytes(out, at, b":")?;
    let at = write_var(out, at, var)?;
    write_bytes(out, at, b":")
}

// ` ID:PLACE:VAR:LENGTHS`
pub fn write_frame(
    out: &mut [u8],
    at: usize,
    id: u64,
    place: u64,
    var: Option<u64>,
    lengths: &[u64],
) -> Option<usize>
    ensures { text result out.new ≡ puts (frame_text id place var lengths.now) (text (Some at) out.old) }
{
    let at = write_frame_head(out, at, id, place, var)?;
    write_lengths(out, at, lengths)
}

// ` cK`
pub fn write_constant_pointer(out: &mut [u8], at: usize, constant: u64) -> Option<usize>
    ensures { text result out.new ≡ puts (constant_text constant) (text (Some at) out.old) }
{
    write_labelled(out, at, b" c", constant)
}

// ` lFRAME:ID:ALLOCATION:OFFSET`
pub fn write_local_pointer(
    out: &mut [u8],
    at: usize,
    frame: u64,
    id: u64,
    allocation: u64,
    offset: u64,
) -> Option<usize>
    ensures { text result out.new ≡ puts (local_text frame id allocation offset) (text (Some at) out.old) }
{
    let at = write_labelled(out, at, b" l", frame)?;
    let at = write_labelled(out, at, b":", id)?;
    let at = write_labelled(out, at, b":", allocation)?;
    write_labelled(out, at, b":", offset)
}

// ` I=KIND:BITS`
pub fn write_variable(out: &mut [u8], at: usize, place: u64, tag: u64, bits: u64) -> Option<usize>
    ensures { text result out.new ≡ puts (variable_text place tag bits) (text (Some at) out.old) }
{
    let at = write_labelled(out, at, b" ", place)?;
    let at = write_bytes(out, at, b"=")?;
    let at = write_kind(out, at, tag)?;
    write_labelled(out, at, b":", bits)
}

// ` | COUNT HEX`, and the line's end.
pub fn write_store(out: &mut [u8], at: usize, bytes: &[u8]) -> Option<usize>
    ensures { text result out.new ≡ puts (store_text bytes.now) (text (Some at) out.old) }
{
    let at = write_labelled(out, at, b" | ", bytes.len() as u64)?;
    let at = write_bytes(out, at, b" ")?;
    let at = write_hex(out, at, bytes)?;
    write_bytes(out, at, b"\n")
}
