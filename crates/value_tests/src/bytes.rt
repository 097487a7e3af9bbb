// Every kind's edges to bytes and back.
use crate::digest::Digest;
use crate::edges;
use std::io;
use value::{IrType, IrValue};

fn all(h: Digest, s: &[u8]) -> Digest {
    s.iter().fold(h, |h, byte| h.add(*byte as u64))
}

// The value of a type at the front of these bytes: as a made one, or a refusal.
fn back(h: Digest, tag: u64, s: &[u8]) -> Digest {
    let Some(ty) = IrType::from_tag(tag) else {
        return h.add(16);
    };
    match IrValue::read(ty, s) {
        Some(read) => h.answer(read),
        None => h.add(17),
    }
}

// A value's bytes go into the room, of which the rest stays; then they are read as the type with its tag.
fn trip(h: Digest, v: IrValue, room: &mut [u8]) -> Digest {
    let written = v.write(room);
    back(all(h.add(written as u64), room), v.tag(), room)
}

// Three bytes are too few for most kinds.
fn edge(h: Digest, tag: u64, bits: u64) -> Digest {
    match IrValue::from_bits(tag, bits) {
        Some(v) => trip(trip(h, v, &mut [0xaa; 12]), v, &mut [0xaa; 3]),
        None => h.nothing(),
    }
}

fn kind(tag: u64) -> Digest {
    edges::of_kind(tag)
        .iter()
        .fold(Digest::EMPTY, |h, bits| edge(h, tag, *bits))
}

// A Bool from each byte.
fn truths() -> Digest {
    (0..=u8::MAX).fold(Digest::EMPTY, |h, byte| {
        h.add(back(Digest::EMPTY, IrType::BOOL_TAG, &[byte]).0)
    })
}

pub fn run(rt: &impl Print) -> io::Result<()> {
    for tag in IrType::BOOL_TAG..=IrType::POINTER_TAG {
        println!(rt; "bytes of tag {tag} {}", kind(tag))?;
    }
    println!(rt; "Bool from each byte {}", truths())
}
