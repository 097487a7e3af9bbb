// From an accepted image through its program back to bytes: each field is read, and written from its value.
ghost use Rattle.std.specs.Prelude.{ℕ, ◌≡◌, List};
ghost use Rattle.image_writer.specs.declared.writer.WriteError.TheVariants.{NotLoaded};
ghost use Rattle.image_writer.specs.Answer.{Passed, Passes, Rewrote, got_pair};
ghost use Rattle.image_writer.specs.Past.{times, number_at, pair, past_number, past_pair, past_raw, past_optional, past_list, past_bytes, past_switch, past_call, past_chosen, past_three, past_typed, past_two, past_initialize, past_write, past_copy, past_fields, past_instruction, past_function, past_parts, past_whole};

use crate::field::{write_bytes, write_pair};
use image::field::raw_after;
use image::number::{Stop, read_number, write_number};
use loader::load::load;
use value::refusal::Refusal;

// Where reading stands in the image and writing in the buffer, and the last number that was read. The walk has no refusal to hand
// on by `?`: the image was loaded and has room, so `write_image` cannot fail in it, and what cannot be read is passed by.
#[derive(Clone, Copy)]
pub struct Pass {
    pub value: u64,
    pub from: usize,
    pub to: usize,
}

// A number.
fn pass_number(image: &[u8], out: &mut [u8], c: Pass) -> Pass
    ensures passed { Passed image.now (past_number image.now) c out.old result out.new }
    ensures number { result.value ≡ number_at image.now c.from }
{
    match read_number(image, c.from) {
        Ok((value, from)) => {
            let to = write_number(value, out, c.to).unwrap_or(c.to);
            Pass { value, from, to }
        }
        Err(_) => Pass { value: 0, ..c },
    }
}

// The two numbers at a place, and the place after them.
#[tactic(auto, unfolding(crate::specs::Past::pair, image::specs::Parse::and_then))]
fn read_pair(image: &[u8], at: usize) -> Result<(u64, u64, usize), Stop>
    ensures { got_pair result ≡ pair image.now at }
{
    let (first, next) = read_number(image, at)?;
    let (second, end) = read_number(image, next)?;
    Ok((first, second, end))
}

// Two numbers: an operand's tag and bits, a slot, a branch, a declaration.
fn pass_pair(image: &[u8], out: &mut [u8], c: Pass) -> Pass
    ensures { Passed image.now (past_pair image.now) c out.old result out.new }
{
    match read_pair(image, c.from) {
        Ok((first, value, from)) => {
            let to = write_pair(first, value, out, c.to).unwrap_or(c.to);
            Pass { value, from, to }
        }
        Err(_) => Pass { value: 0, ..c },
    }
}

// Raw bytes.
fn pass_raw(image: &[u8], out: &mut [u8], c: Pass, count: usize) -> Pass
    ensures { Passed image.now (past_raw image.now count) c out.old result out.new }
{
    match raw_after(image, c.from, count) {
        Ok(end) => {
            let to = write_bytes(&image[c.from..end], out, c.to).unwrap_or(c.to);
            Pass {
                value: 0,
                from: end,
                to,
            }
        }
        Err(_) => Pass { value: 0, ..c },
    }
}

// So many parts, one after another.
fn pass_times<F: Fn(&mut [u8], Pass) -> Pass>(
    out: &mut [u8],
    start: Pass,
    count: u64,
    part: F,
) -> Pass
    requires { F.IsAlwaysCallable part }
    ensures { (s : List ℕ) (past : ℕ → ℕ) → Passes s past (F.post part) → Passed s (times count past) start out.old result out.new }
{
    let mut c = start;
    for _ in 0..count {
        c = part(out, c);
    }
    c
}

// A count, and as many parts.
fn pass_list<F: Fn(&mut [u8], Pass) -> Pass>(image: &[u8], out: &mut [u8], c: Pass, part: F) -> Pass
    requires { F.IsAlwaysCallable part }
    ensures { (past : ℕ → ℕ) → Passes image.now past (F.post part) → Passed image.now (past_list image.now past) c out.old result out.new }
{
    let count = pass_number(image, out, c);
    pass_times(out, count, count.value, part)
}

// A mark, and the part where the mark is 1.
fn pass_optional<F: Fn(&mut [u8], Pass) -> Pass>(
    image: &[u8],
    out: &mut [u8],
    c: Pass,
    part: F,
) -> Pass
    requires { F.IsAlwaysCallable part }
    ensures { (past : ℕ → ℕ) → Passes image.now past (F.post part) → Passed image.now (past_optional image.now past) c out.old result out.new }
{
    let mark = pass_number(image, out, c);
    if mark.value == 0 {
        return mark;
    }
    part(out, mark)
}

// So many variables.
fn pass_numbers(image: &[u8], out: &mut [u8], c: Pass, count: u64) -> Pass
    ensures { Passed image.now (times count (past_number image.now)) c out.old result out.new }
{
    pass_times(out, c, count, |out, c| pass_number(image, out, c))
}

// An optional operand or declaration.
fn pass_optional_pair(image: &[u8], out: &mut [u8], c: Pass) -> Pass
    ensures { Passed image.now (past_optional image.now (past_pair image.now)) c out.old result out.new }
{
    pass_optional(image, out, c, |out, c| pass_pair(image, out, c))
}

// Arguments, slots or branches.
fn pass_pair_list(image: &[u8], out: &mut [u8], c: Pass) -> Pass
    ensures { Passed image.now (past_list image.now (past_pair image.now)) c out.old result out.new }
{
    pass_list(image, out, c, |out, c| pass_pair(image, out, c))
}

// A length, and raw bytes.
fn pass_bytes(image: &[u8], out: &mut [u8], c: Pass) -> Pass
    ensures { Passed image.now (past_bytes image.now) c out.old result out.new }
{
    let count = pass_number(image, out, c);
    pass_raw(image, out, count, count.value as usize)
}

// Switch: operand, branches, default label.
fn pass_switch(image: &[u8], out: &mut [u8], c: Pass) -> Pass
    ensures { Passed image.now (past_switch image.now) c out.old result out.new }
{
    let examinee = pass_pair(image, out, c);
    let branches = pass_pair_list(image, out, examinee);
    pass_number(image, out, branches)
}

// Call: optional (to, type), optional context, function, arguments, optional return-pointer variable.
fn pass_call(image: &[u8], out: &mut [u8], c: Pass) -> Pass
    ensures { Passed image.now (past_call image.now) c out.old result out.new }
{
    let to = pass_optional_pair(image, out, c);
    let context = pass_optional_pair(image, out, to);
    let function = pass_number(image, out, context);
    let arguments = pass_pair_list(image, out, function);
    pass_optional(image, out, arguments, |out, c| pass_number(image, out, c))
}

// IntCmp, FloatCmp, Div, Mod: to, comparison or flag, two operands.
fn pass_chosen(image: &[u8], out: &mut [u8], c: Pass) -> Pass
    ensures { Passed image.now (past_chosen image.now) c out.old result out.new }
{
    let to = pass_number(image, out, c);
    let choice = pass_number(image, out, to);
    let left = pass_pair(image, out, choice);
    pass_pair(image, out, left)
}

// Add, Sub, Mul, FDiv: to, two operands.
fn pass_three(image: &[u8], out: &mut [u8], c: Pass) -> Pass
    ensures { Passed image.now (past_three image.now) c out.old result out.new }
{
    let to = pass_number(image, out, c);
    let left = pass_pair(image, out, to);
    pass_pair(image, out, left)
}

// Assign, Read, Offset: to, operand, type or number.
fn pass_typed(image: &[u8], out: &mut [u8], c: Pass) -> Pass
    ensures { Passed image.now (past_typed image.now) c out.old result out.new }
{
    let to = pass_number(image, out, c);
    let from = pass_pair(image, out, to);
    pass_number(image, out, from)
}

// Not, Negate: to, operand.
fn pass_two(image: &[u8], out: &mut [u8], c: Pass) -> Pass
    ensures { Passed image.now (past_two image.now) c out.old result out.new }
{
    let to = pass_number(image, out, c);
    pass_pair(image, out, to)
}

// Initialize: to, size, bytes.
fn pass_initialize(image: &[u8], out: &mut [u8], c: Pass) -> Pass
    ensures { Passed image.now (past_initialize image.now) c out.old result out.new }
{
    let to = pass_number(image, out, c);
    let size = pass_number(image, out, to);
    pass_bytes(image, out, size)
}

// Write: where, what.
fn pass_write(image: &[u8], out: &mut [u8], c: Pass) -> Pass
    ensures { Passed image.now (past_write image.now) c out.old result out.new }
{
    let place = pass_pair(image, out, c);
    pass_pair(image, out, place)
}

// Copy: to, from, size.
fn pass_copy(image: &[u8], out: &mut [u8], c: Pass) -> Pass
    ensures { Passed image.now (past_copy image.now) c out.old result out.new }
{
    let to = pass_pair(image, out, c);
    let from = pass_pair(image, out, to);
    pass_number(image, out, from)
}

// The fields that an opcode has. Neighbours that share a shape stand in two arms, since an arm of neighbours would be a range.
fn pass_fields(image: &[u8], out: &mut [u8], c: Pass, opcode: u64) -> Pass
    ensures { Passed image.now (past_fields image.now opcode) c out.old result out.new }
{
    match opcode {
        0 => pass_number(image, out, c),
        1 => pass_switch(image, out, c),
        2 | 16 | 19 => pass_typed(image, out, c),
        3 | 21 => pass_pair(image, out, c),
        4 => pass_call(image, out, c),
        5 => pass_optional_pair(image, out, c),
        6 | 11 => pass_chosen(image, out, c),
        7 | 12 => pass_chosen(image, out, c),
        8 | 10 | 13 => pass_three(image, out, c),
        9 => pass_three(image, out, c),
        14 => pass_two(image, out, c),
        15 => pass_two(image, out, c),
        17 => pass_initialize(image, out, c),
        18 => pass_write(image, out, c),
        20 => pass_copy(image, out, c),
        _ => c,
    }
}

// An instruction: its opcode, and its fields.
fn pass_instruction(image: &[u8], out: &mut [u8], c: Pass) -> Pass
    ensures { Passed image.now (past_instruction image.now) c out.old result out.new }
{
    let opcode = pass_number(image, out, c);
    pass_fields(image, out, opcode, opcode.value)
}

// A block: instruction count, instructions.
fn pass_block(image: &[u8], out: &mut [u8], c: Pass) -> Pass
    ensures { Passed image.now (past_list image.now (past_instruction image.now)) c out.old result out.new }
{
    pass_list(image, out, c, |out, c| pass_instruction(image, out, c))
}

// A function: kind, entry, return variable, context variable, flag, parameters, slots.
fn pass_function(image: &[u8], out: &mut [u8], c: Pass) -> Pass
    ensures { Passed image.now (past_function image.now) c out.old result out.new }
{
    let flag = pass_numbers(image, out, c, 5);
    let parameters = pass_list(image, out, flag, |out, c| pass_number(image, out, c));
    pass_pair_list(image, out, parameters)
}

// Constants, functions and blocks, so many of each.
fn pass_parts(
    image: &[u8],
    out: &mut [u8],
    c: Pass,
    constants: u64,
    functions: u64,
    blocks: u64,
) -> Pass
    ensures { Passed image.now (past_parts image.now constants functions blocks) c out.old result out.new }
{
    let raw = pass_times(out, c, constants, |out, c| pass_bytes(image, out, c));
    let code = pass_times(out, raw, functions, |out, c| pass_function(image, out, c));
    pass_times(out, code, blocks, |out, c| pass_block(image, out, c))
}

// The whole image: version and variables, the other counts, and what they count.
fn pass_whole(image: &[u8], out: &mut [u8], c: Pass) -> Pass
    ensures { Passed image.now (past_whole image.now) c out.old result out.new }
{
    let variables = pass_numbers(image, out, c, 2);
    let constants = pass_number(image, out, variables);
    let functions = pass_number(image, out, constants);
    let blocks = pass_number(image, out, functions);
    pass_parts(
        image,
        out,
        blocks,
        constants.value,
        functions.value,
        blocks.value,
    )
}

// Why nothing was written: the loader's refusal, or that of a buffer with no room for the image.
#[derive(Clone, Copy, Debug, PartialEq, Eq)]
pub enum WriteError {
    NotLoaded(Stop),
    Short(Refusal),
}

impl From<Stop> for WriteError {
    ghost from_gives = { λ stop e. e ≡ NotLoaded stop };

    fn from(stop: Stop) -> WriteError {
        WriteError::NotLoaded(stop)
    }
}

// An image through its program back to bytes, into `out`: how many were written.
pub fn write_image(image: &[u8], out: &mut [u8]) -> Result<usize, WriteError>
    ensures { Rewrote image.now out.old result out.new }
{
    let loaded = load(image)?;
    if out.len() < loaded.end {
        return Err(WriteError::Short(Refusal::ShortBuffer));
    }
    let start = Pass {
        value: 0,
        from: 0,
        to: 0,
    };
    Ok(pass_whole(image, out, start).to)
}
