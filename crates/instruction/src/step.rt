// One instruction: its fields are read again at its place, and its parts done in order. The registers that an instruction
// is given have the next place already; a refusal leaves every table as it stood.
ghost use Rattle.std.specs.Prelude.{◌≡◌, ℕ, ◌+◌, ◌%◌, ◌≤◌, ◌<◌, length, get_or, Some};
ghost use Rattle.memory.specs.Tables.{both};
ghost use Rattle.instruction.specs.Decode.{field_at};
ghost use Rattle.instruction.specs.Short.{First};
ghost use Rattle.instruction.specs.Code.{finished_of, assigned_of, went_of, jumped_of, key_of, branch_of, switched_of, middle_of, combined_of, changed_of};

use crate::compute::{binary, unary};
use crate::field::{Field, read_field, read_operand};
use crate::variables::{Found, evaluate, set_variable};
use memory::Registers;
use value::IrType;
use value::refusal::Refusal;

// The registers after a step; or after the last Return, with its value, if it has one.
#[derive(Clone, Copy, Debug, PartialEq, Eq)]
pub enum Progress {
    Next(Registers),
    Ended(Registers, Option<Found>),
}

// What a look over the bytes of many branches finds.
#[derive(Clone, Copy, Debug, PartialEq, Eq)]
struct Seen {
    greatest: u8,
    first: u8,
}

// A result goes to a variable, or is refused.
#[tactic(auto, unfolding(crate::specs::Code::finished_of))]
pub fn finish(
    m: Registers,
    vars: &mut [u64],
    to: u64,
    r: Result<Found, Refusal>,
) -> Result<Progress, Refusal>
    ensures { both result vars.new ≡ finished_of m vars.old to r }
{
    set_variable(vars, to as usize, r?);
    Ok(Progress::Next(m))
}

// Assign: to, operand, type; the declared kind is ignored.
#[tactic(auto, unfolding(crate::specs::Code::assigned_of))]
pub fn assign(m: Registers, image: &[u8], at: usize, vars: &mut [u64]) -> Result<Progress, Refusal>
    ensures { both result vars.new ≡ assigned_of m image.now vars.old at }
{
    let to = read_field(image, at);
    let from = read_operand(image, to.next);
    let v = evaluate(vars, from);
    finish(m, vars, to.value, v)
}

// On to a label's place.
#[tactic(auto, unfolding(crate::specs::Code::went_of))]
pub fn go(m: Registers, labels: &[usize], label: Field) -> Result<Progress, Refusal>
    ensures { result ≡ went_of m labels.now label }
{
    if label.next == 0 {
        return Err(Refusal::NoInstruction);
    }
    let Some(place) = labels.get(label.value as usize) else {
        return Err(Refusal::NoInstruction);
    };
    Ok(Progress::Next(Registers { next: *place, ..m }))
}

// Jump: label.
#[tactic(auto, unfolding(crate::specs::Code::jumped_of))]
pub fn jump(m: Registers, image: &[u8], at: usize, labels: &[usize]) -> Result<Progress, Refusal>
    ensures { result ≡ jumped_of m image.now labels.now at }
{
    go(m, labels, read_field(image, at))
}

// What Switch takes: Bool, U8, U16, U32.
#[tactic(auto, unfolding(crate::specs::Code::key_of, value::specs::Value::tag))]
pub fn key(v: Result<Found, Refusal>) -> Result<Found, Refusal>
    ensures { result ≡ key_of v }
{
    let v = v?;
    if IrType::U32_TAG < v.tag {
        return Err(Refusal::WrongKinds);
    }
    Ok(v)
}

// Place k, if it is even and its byte is the number; else 255.
fn chosen(byte: u8, number: u8, k: u8) -> u8
    ensures { (k % 2 ≡ 0 → byte ≡ number → result ≡ k) × ((result ≡ 255 → ⊥) → (result ≡ k) × (k % 2 ≡ 0) × (byte ≡ number)) }
{
    if k % 2 != 0 {
        return 255;
    }
    if byte != number {
        return 255;
    }
    k
}

// The greatest of the bytes, and the first even place among them with this number, or 255. No byte ends the search, so that many are looked at together.
fn look(image: &[u8], start: usize, size: usize, number: u8) -> Seen
    requires { (start + size ≤ length image.now) × (size ≤ 128) }
    ensures { ((i : ℕ) → start ≤ i → i < start + size → get_or image.now i 0 ≤ result.greatest) × First image.now start size number result.first }
{
    let mut greatest = 0u8;
    let mut first = 255u8;
    for k in 0..size {
        let byte = image[start + k];
        greatest = greatest.max(byte);
        first = first.min(chosen(byte, number, k as u8));
    }
    Seen { greatest, first }
}

// Where the label of the first branch with this number stands, or the default, if the branches are many, and each a number and a
// label of one byte; else none.
#[tactic(auto, using(crate::proofs::Short::pairs))]
fn label_place(image: &[u8], start: usize, count: u64, bits: u64) -> Option<usize>
    ensures { (place : ℕ) → result ≡ Some place → field_at image.now place ≡ branch_of image.now count bits start }
{
    if start == 0 || count < 8 || 64 < count || 127 < bits {
        return None;
    }
    if image.len() < start || (((image.len() - start) / 2) as u64) < count {
        return None;
    }
    let size = count as usize * 2;
    let seen = look(image, start, size, bits as u8);
    if 127 < seen.greatest {
        return None;
    }
    if seen.first == 255 {
        return Some(start + size);
    }
    Some(start + seen.first as usize + 1)
}

// The label of the first of `count` branches with this number, or the default.
#[tactic(auto, using(crate::proofs::Laws::branches))]
pub fn branch(image: &[u8], start: usize, count: u64, bits: u64) -> Field
    ensures { result ≡ branch_of image.now count bits start }
{
    if let Some(place) = label_place(image, start, count, bits) {
        return read_field(image, place);
    }
    let mut at = start;
    for _ in 0..count {
        let number = read_field(image, at);
        let label = read_field(image, number.next);
        if number.value == bits {
            return label;
        }
        at = label.next;
    }
    read_field(image, at)
}

// Switch: operand, count, pairs of number and label, default label.
#[tactic(auto, unfolding(crate::specs::Code::switched_of))]
pub fn switch(
    m: Registers,
    image: &[u8],
    at: usize,
    labels: &[usize],
    vars: &[u64],
) -> Result<Progress, Refusal>
    ensures { result ≡ switched_of m image.now labels.now vars.now at }
{
    let examinee = read_operand(image, at);
    let count = read_field(image, examinee.next);
    let v = key(evaluate(vars, examinee))?;
    go(m, labels, branch(image, count.next, count.value, v.bits))
}

// The field between `to` and the operands of opcodes 6 to 13: a comparison's number, or a signed flag, where there is one.
#[tactic(auto, unfolding(crate::specs::Code::middle_of))]
pub fn middle(opcode: u64, image: &[u8], at: usize) -> Field
    ensures { result ≡ middle_of opcode image.now at }
{
    match opcode {
        ..8 | 11..=12 => read_field(image, at),
        _ => Field { value: 0, next: at },
    }
}

// Opcodes 6 to 13: to, two operands; the signed flag of Div and Mod is ignored.
#[tactic(auto, unfolding(crate::specs::Code::combined_of))]
pub fn combine(
    m: Registers,
    opcode: u64,
    image: &[u8],
    at: usize,
    vars: &mut [u64],
) -> Result<Progress, Refusal>
    ensures { both result vars.new ≡ combined_of m opcode image.now vars.old at }
{
    let to = read_field(image, at);
    let how = middle(opcode, image, to.next);
    let left = read_operand(image, how.next);
    let right = read_operand(image, left.next);
    let x = evaluate(vars, left);
    let y = evaluate(vars, right);
    let r = binary(opcode, how.value, x, y);
    finish(m, vars, to.value, r)
}

// Opcodes 14 and 15: to, operand.
#[tactic(auto, unfolding(crate::specs::Code::changed_of))]
pub fn change(
    m: Registers,
    opcode: u64,
    image: &[u8],
    at: usize,
    vars: &mut [u64],
) -> Result<Progress, Refusal>
    ensures { both result vars.new ≡ changed_of m opcode image.now vars.old at }
{
    let to = read_field(image, at);
    let from = read_operand(image, to.next);
    let x = evaluate(vars, from);
    let r = unary(opcode, x);
    finish(m, vars, to.value, r)
}
