// The lists that the published Rust answered: a line is an opcode, a comparison's number, the operands' kinds and bits, and the
// answer's, kind 0 for a refusal by its number.
use crate::line::Line;
use instruction::compute::{binary, unary};
use instruction::step::key;
use instruction::variables::Found;
use value::refusal::Refusal;

// An operand of kind 0 is a refusal. This one, which no operation has of its own, stands for it.
fn operand(v: Found, refusal: Refusal) -> Result<Found, Refusal> {
    if v.tag == 0 { Err(refusal) } else { Ok(v) }
}

fn compute(
    opcode: u64,
    how: u64,
    x: Result<Found, Refusal>,
    y: Result<Found, Refusal>,
) -> Result<Found, Refusal> {
    match opcode {
        1 => key(x),
        14 | 15 => unary(opcode, x),
        _ => binary(opcode, how, x, y),
    }
}

// The answer's kind and bits. Where an operand's refusal comes out, its bits are the number.
fn answer(opcode: u64, how: u64, x: Found, y: Found) -> (u64, u64) {
    let first = operand(x, Refusal::Running);
    let second = operand(y, Refusal::Idle);
    match compute(opcode, how, first, second) {
        Ok(v) => (v.tag, v.bits),
        Err(Refusal::Running) => (0, x.bits),
        Err(Refusal::Idle) => (0, y.bits),
        Err(n) => (0, n.number()),
    }
}

// Whether the line's answer is ours.
pub fn agrees(line: Line) -> bool {
    let [opcode, how, left, x, right, y, tag, bits] = line.fields;
    let x = Found { tag: left, bits: x };
    let y = Found {
        tag: right,
        bits: y,
    };
    answer(opcode, how, x, y) == (tag, bits)
}
