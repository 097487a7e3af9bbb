// Edge values: of each kind the bits near its ends and its middle, and every class of NaN.
use value::{IrType, IrValue};

// Zeros, the least and the largest numbers, infinities, and NaNs: quiet and signalling, with the least and the largest digits.
const SINGLES: [u64; 16] = [
    0,
    0x0000_0001,
    0x007f_ffff,
    0x0080_0000,
    0x3f80_0000,
    0x7f7f_ffff,
    0x7f80_0000,
    0x7f80_0001,
    0x7fbf_ffff,
    0x7fc0_0000,
    0x7fff_ffff,
    0x8000_0000,
    0xff80_0000,
    0xff80_0001,
    0xffc0_0000,
    0xffff_ffff,
];

const DOUBLES: [u64; 16] = [
    0,
    0x0000_0000_0000_0001,
    0x000f_ffff_ffff_ffff,
    0x0010_0000_0000_0000,
    0x3ff0_0000_0000_0000,
    0x7fef_ffff_ffff_ffff,
    0x7ff0_0000_0000_0000,
    0x7ff0_0000_0000_0001,
    0x7ff7_ffff_ffff_ffff,
    0x7ff8_0000_0000_0000,
    0x7fff_ffff_ffff_ffff,
    0x8000_0000_0000_0000,
    0xfff0_0000_0000_0000,
    0xfff0_0000_0000_0001,
    0xfff8_0000_0000_0000,
    0xffff_ffff_ffff_ffff,
];

// The ends of the scalar values, and what lies between and beyond.
const SCALARS: [u64; 16] = [
    0,
    0x7f,
    0xd7ff,
    0xd800,
    0xdbff,
    0xdfff,
    0xe000,
    0xffff,
    0x1_0000,
    0x10_ffff,
    0x11_0000,
    0xffff_ffff,
    0xffff_ffff,
    0xffff_ffff,
    0xffff_ffff,
    0xffff_ffff,
];

const TRUTHS: [u64; 16] = [0, 1, 2, 3, 4, 5, 6, 7, 8, 9, 10, 11, 12, 13, 14, 15];

// Of a width's largest bits and a power of 2 whose square the width does not hold.
fn integers(top: u64, root: u64) -> [u64; 16] {
    let half = top / 2;
    [
        0,
        1,
        2,
        3,
        7,
        root.wrapping_sub(1),
        root,
        root.wrapping_add(1),
        half.wrapping_sub(1),
        half,
        half + 1,
        half + 2,
        top.wrapping_sub(root),
        top.wrapping_sub(2),
        top.wrapping_sub(1),
        top,
    ]
}

// Sixteen for the kind with this tag.
pub fn of_kind(tag: u64) -> [u64; 16] {
    match tag {
        IrType::BOOL_TAG => TRUTHS,
        IrType::F32_TAG => SINGLES,
        IrType::F64_TAG => DOUBLES,
        IrValue::CHAR_TAG => SCALARS,
        IrType::U8_TAG | IrType::I8_TAG => integers(0xff, 0x10),
        IrType::U16_TAG | IrType::I16_TAG => integers(0xffff, 0x100),
        IrType::U32_TAG | IrType::I32_TAG | IrValue::ASN_TAG => integers(0xffff_ffff, 0x1_0000),
        _ => integers(0xffff_ffff_ffff_ffff, 0x1_0000_0000),
    }
}
