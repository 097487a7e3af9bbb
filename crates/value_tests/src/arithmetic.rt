// Add, Sub, Mul, Div, Mod and Negate: 8 bits whole, and the ends of each width.
use crate::digest::Digest;
use crate::edges;
use operations::integer::{add, div, mul, negate, rem, sub};
use std::{fmt, io};
use value::refusal::Refusal;
use value::{IrType, IrValue};

// A line has the operation by its number.
#[derive(Clone, Copy)]
enum Operation {
    Add,
    Sub,
    Mul,
    Div,
    Rem,
    Negate,
}

const OPERATIONS: [Operation; 6] = [
    Operation::Add,
    Operation::Sub,
    Operation::Mul,
    Operation::Div,
    Operation::Rem,
    Operation::Negate,
];

impl Operation {
    fn compute(self, x: IrValue, y: IrValue) -> Result<IrValue, Refusal> {
        match self {
            Operation::Add => add(x, y),
            Operation::Sub => sub(x, y),
            Operation::Mul => mul(x, y),
            Operation::Div => div(x, y),
            Operation::Rem => rem(x, y),
            Operation::Negate => negate(x),
        }
    }
}

impl fmt::Display for Operation {
    fn fmt<W: fmt::Write>(&self, f: &mut fmt::Formatter<W>) -> fmt::Result {
        write!(f, "operation {}", *self as u64)
    }
}

fn answer(h: Digest, operation: Operation, tag: u64, a: u64, b: u64) -> Digest {
    match (IrValue::from_bits(tag, a), IrValue::from_bits(tag, b)) {
        (Some(x), Some(y)) => h.answer(operation.compute(x, y)),
        _ => h.nothing(),
    }
}

// All pairs of 8 bits.
fn whole(operation: Operation, tag: u64) -> Digest {
    (0..0x1_0000u64).fold(Digest::EMPTY, |h, n| {
        answer(h, operation, tag, n / 256, n % 256)
    })
}

// All pairs of a kind's edges.
fn ends(operation: Operation, tag: u64) -> Digest {
    let edges = edges::of_kind(tag);
    edges.iter().fold(Digest::EMPTY, |h, a| {
        edges
            .iter()
            .fold(h, |h, b| answer(h, operation, tag, *a, *b))
    })
}

fn print_whole(rt: &impl Print, operation: Operation) -> io::Result<()> {
    for tag in [IrType::U8_TAG, IrType::I8_TAG] {
        println!(rt;
            "8 bits whole: tag {tag} {operation} {}",
            whole(operation, tag)
        )?;
    }
    Ok(())
}

fn print_ends(rt: &impl Print, tag: u64) -> io::Result<()> {
    for operation in OPERATIONS {
        println!(rt; "ends: tag {tag} {operation} {}", ends(operation, tag))?;
    }
    Ok(())
}

fn print_all_ends(rt: &impl Print) -> io::Result<()> {
    for tag in IrType::U8_TAG..=IrType::I64_TAG {
        print_ends(rt, tag)?;
    }
    Ok(())
}

pub fn run(rt: &impl Print) -> io::Result<()> {
    for operation in OPERATIONS {
        print_whole(rt, operation)?;
    }
    print_all_ends(rt)
}
