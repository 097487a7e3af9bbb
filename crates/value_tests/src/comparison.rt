// The ten comparisons of integers, over the edges of every pair of kinds, and a number that is none.
use crate::digest::Digest;
use crate::edges;
use comparing::compare::int_cmp;
use std::io;
use value::{IntCmp, IrType, IrValue};

fn answer(h: Digest, number: u64, x: Option<IrValue>, y: Option<IrValue>) -> Digest {
    match (IntCmp::from_number(number), x, y) {
        (Some(cmp), Some(v), Some(w)) => h.answer(int_cmp(cmp, v, w)),
        _ => h.nothing(),
    }
}

// All pairs of edges of two kinds.
fn pairs(h: Digest, number: u64, left: u64, right: u64) -> Digest {
    let edges = edges::of_kind(right);
    edges::of_kind(left).iter().fold(h, |h, a| {
        let x = IrValue::from_bits(left, *a);
        edges.iter().fold(
            h,
            |h, b| answer(h, number, x, IrValue::from_bits(right, *b)),
        )
    })
}

// All pairs of kinds.
fn kinds(number: u64) -> Digest {
    let tags = IrType::BOOL_TAG..=IrType::POINTER_TAG;
    tags.fold(Digest::EMPTY, |h, left| {
        let tags = IrType::BOOL_TAG..=IrType::POINTER_TAG;
        tags.fold(h, |h, right| pairs(h, number, left, right))
    })
}

pub fn run(rt: &impl Print) -> io::Result<()> {
    for number in 0..=10 {
        println!(rt; "comparison {number} {}", kinds(number))?;
    }
    Ok(())
}
