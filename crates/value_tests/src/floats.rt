// The published float vectors: a line is an operation, a width, the operands and the answer; `nan` is the canonical NaN.
use crate::line::Line;
use comparing::compare::float_cmp;
use operations::float::fdiv;
use operations::integer::negate;
use value::refusal::Refusal;
use value::{FloatCmp, IrType, IrValue};

// An operation by its name, as the line's letters make it a number.
#[derive(Clone, Copy)]
enum Operation {
    Divide,
    Negate,
    Compare(FloatCmp),
}

impl Operation {
    fn from_name(name: u64) -> Option<Operation> {
        match name {
            0x64_6976 => Some(Operation::Divide),
            0x6e_6567 => Some(Operation::Negate),
            0x6571 => Some(Operation::Compare(FloatCmp::Eq)),
            0x6e65 => Some(Operation::Compare(FloatCmp::Ne)),
            0x6c74 => Some(Operation::Compare(FloatCmp::Lt)),
            0x6c65 => Some(Operation::Compare(FloatCmp::Le)),
            0x6774 => Some(Operation::Compare(FloatCmp::Gt)),
            0x6765 => Some(Operation::Compare(FloatCmp::Ge)),
            _ => None,
        }
    }

    fn compute(self, x: IrValue, y: IrValue) -> Result<IrValue, Refusal> {
        match self {
            Operation::Divide => fdiv(x, y),
            Operation::Negate => negate(x),
            Operation::Compare(cmp) => float_cmp(cmp, x, y),
        }
    }
}

fn tag(width: u64) -> u64 {
    match width {
        0x32 => IrType::F32_TAG,
        0x64 => IrType::F64_TAG,
        _ => 0,
    }
}

// The tag and bits that the line gives as the answer: of a negation they follow its one operand.
fn expected(operation: Operation, line: Line) -> (u64, u64) {
    let [_, width, _, second, third, _, _, _] = line.fields;
    let answer = match (line.odd, width) {
        (true, 0x32) => 0x7fc0_0000,
        (true, _) => 0x7ff8_0000_0000_0000,
        (false, _) => third,
    };
    match operation {
        Operation::Divide => (tag(width), answer),
        Operation::Negate => (tag(width), second),
        Operation::Compare(_) => (IrType::BOOL_TAG, answer),
    }
}

fn answered(operation: Operation, line: Line) -> Option<IrValue> {
    let [_, width, first, second, _, _, _, _] = line.fields;
    let x = IrValue::from_bits(tag(width), first)?;
    let y = IrValue::from_bits(tag(width), second)?;
    operation.compute(x, y).ok()
}

// Whether the line's answer is ours.
pub fn agrees(line: Line) -> bool {
    let Some(operation) = Operation::from_name(line.name) else {
        return false;
    };
    match answered(operation, line) {
        Some(v) => (v.tag(), v.bits()) == expected(operation, line),
        None => false,
    }
}
