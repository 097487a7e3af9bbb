// The answer lines of the program, each written piece by piece.
ghost use Rattle.std.specs.Prelude.{◌≡◌, Some};
ghost use Rattle.words.specs.Text.{text, puts};
ghost use Rattle.answers.specs.Lines.{labelled, returned_value, returned_line, returned_none_line, paused_line, refused_line, image_refused_line, cannot_read_line, pointer_line, bytes_line, image_line, counts_one, taken_line, live_record, ok_line, stepped_line, refusal_line, value_line, no_value_line};

use words::hex::write_hex;
use words::kind::write_kind;
use words::number::write_number;
use words::text::write_bytes;

// A label and a number.
pub fn write_labelled(out: &mut [u8], at: usize, label: &[u8], n: u64) -> Option<usize>
    ensures { text result out.new ≡ puts (labelled label.now n) (text (Some at) out.old) }
{
    let at = write_bytes(out, at, label)?;
    write_number(out, at, n)
}

// `returned KIND BITS`
fn write_value(out: &mut [u8], at: usize, tag: u64, bits: u64) -> Option<usize>
    ensures { text result out.new ≡ puts (returned_value tag bits) (text (Some at) out.old) }
{
    let at = write_bytes(out, at, b"returned ")?;
    let at = write_kind(out, at, tag)?;
    write_labelled(out, at, b" ", bits)
}

// `returned KIND BITS steps N`
pub fn write_returned(out: &mut [u8], at: usize, tag: u64, bits: u64, steps: u64) -> Option<usize>
    ensures { text result out.new ≡ puts (returned_line tag bits steps) (text (Some at) out.old) }
{
    let at = write_value(out, at, tag, bits)?;
    let at = write_labelled(out, at, b" steps ", steps)?;
    write_bytes(out, at, b"\n")
}

// `returned none steps N`
pub fn write_returned_none(out: &mut [u8], at: usize, steps: u64) -> Option<usize>
    ensures { text result out.new ≡ puts (returned_none_line steps) (text (Some at) out.old) }
{
    let at = write_labelled(out, at, b"returned none steps ", steps)?;
    write_bytes(out, at, b"\n")
}

// `paused steps N`
pub fn write_paused(out: &mut [u8], at: usize, steps: u64) -> Option<usize>
    ensures { text result out.new ≡ puts (paused_line steps) (text (Some at) out.old) }
{
    let at = write_labelled(out, at, b"paused steps ", steps)?;
    write_bytes(out, at, b"\n")
}

// `refused NUMBER steps N`
pub fn write_refused(out: &mut [u8], at: usize, number: u64, steps: u64) -> Option<usize>
    ensures { text result out.new ≡ puts (refused_line number steps) (text (Some at) out.old) }
{
    let at = write_labelled(out, at, b"refused ", number)?;
    let at = write_labelled(out, at, b" steps ", steps)?;
    write_bytes(out, at, b"\n")
}

// `image refused NUMBER at PLACE`
pub fn write_image_refused(out: &mut [u8], at: usize, number: u64, place: u64) -> Option<usize>
    ensures { text result out.new ≡ puts (image_refused_line number place) (text (Some at) out.old) }
{
    let at = write_labelled(out, at, b"image refused ", number)?;
    let at = write_labelled(out, at, b" at ", place)?;
    write_bytes(out, at, b"\n")
}

// `cannot read: word N`
pub fn write_cannot_read(out: &mut [u8], at: usize, word: u64) -> Option<usize>
    ensures { text result out.new ≡ puts (cannot_read_line word) (text (Some at) out.old) }
{
    let at = write_labelled(out, at, b"cannot read: word ", word)?;
    write_bytes(out, at, b"\n")
}

// `pointer N`
pub fn write_pointer(out: &mut [u8], at: usize, pointer: u64) -> Option<usize>
    ensures { text result out.new ≡ puts (pointer_line pointer) (text (Some at) out.old) }
{
    let at = write_labelled(out, at, b"pointer ", pointer)?;
    write_bytes(out, at, b"\n")
}

// `image N bytes`
pub fn write_image_taken(out: &mut [u8], at: usize, count: u64) -> Option<usize>
    ensures { text result out.new ≡ puts (image_line count) (text (Some at) out.old) }
{
    let at = write_labelled(out, at, b"image ", count)?;
    write_bytes(out, at, b" bytes\n")
}

// `bytes HEX`
pub fn write_read_bytes(out: &mut [u8], at: usize, bytes: &[u8]) -> Option<usize>
    ensures { text result out.new ≡ puts (bytes_line bytes.now) (text (Some at) out.old) }
{
    let at = write_bytes(out, at, b"bytes ")?;
    let at = write_hex(out, at, bytes)?;
    write_bytes(out, at, b"\n")
}

// The first three counts of `write_taken`.
fn write_counts(
    out: &mut [u8],
    at: usize,
    variables: u64,
    constants: u64,
    functions: u64,
) -> Option<usize>
    ensures { text result out.new ≡ puts (counts_one variables constants functions) (text (Some at) out.old) }
{
    let at = write_labelled(out, at, b"taken variables ", variables)?;
    let at = write_labelled(out, at, b" constants ", constants)?;
    write_labelled(out, at, b" functions ", functions)
}

// `taken variables V constants C functions F blocks B instructions I`
pub fn write_taken(
    out: &mut [u8],
    at: usize,
    variables: u64,
    constants: u64,
    functions: u64,
    blocks: u64,
    instructions: u64,
) -> Option<usize>
    ensures { text result out.new ≡ puts (taken_line variables constants functions blocks instructions) (text (Some at) out.old) }
{
    let at = write_counts(out, at, variables, constants, functions)?;
    let at = write_labelled(out, at, b" blocks ", blocks)?;
    let at = write_labelled(out, at, b" instructions ", instructions)?;
    write_bytes(out, at, b"\n")
}

// One record of the live list, ` L FRAME ALLOCATION OFFSET`.
pub fn write_live(
    out: &mut [u8],
    at: usize,
    live: u64,
    frame: u64,
    allocation: u64,
    offset: u64,
) -> Option<usize>
    ensures { text result out.new ≡ puts (live_record live frame allocation offset) (text (Some at) out.old) }
{
    let at = write_labelled(out, at, b" ", live)?;
    let at = write_labelled(out, at, b" ", frame)?;
    let at = write_labelled(out, at, b" ", allocation)?;
    write_labelled(out, at, b" ", offset)
}

// `ok`
pub fn write_ok(out: &mut [u8], at: usize) -> Option<usize>
    ensures { text result out.new ≡ puts ok_line (text (Some at) out.old) }
{
    write_bytes(out, at, b"ok\n")
}

// `stepped`
pub fn write_stepped(out: &mut [u8], at: usize) -> Option<usize>
    ensures { text result out.new ≡ puts stepped_line (text (Some at) out.old) }
{
    write_bytes(out, at, b"stepped\n")
}

// `refused N`
pub fn write_refusal(out: &mut [u8], at: usize, number: u64) -> Option<usize>
    ensures { text result out.new ≡ puts (refusal_line number) (text (Some at) out.old) }
{
    let at = write_labelled(out, at, b"refused ", number)?;
    write_bytes(out, at, b"\n")
}

// `returned KIND BITS`, as a step answers
pub fn write_value_line(out: &mut [u8], at: usize, tag: u64, bits: u64) -> Option<usize>
    ensures { text result out.new ≡ puts (value_line tag bits) (text (Some at) out.old) }
{
    let at = write_value(out, at, tag, bits)?;
    write_bytes(out, at, b"\n")
}

// `returned none`, as a step answers
pub fn write_no_value(out: &mut [u8], at: usize) -> Option<usize>
    ensures { text result out.new ≡ puts no_value_line (text (Some at) out.old) }
{
    write_bytes(out, at, b"returned none\n")
}
