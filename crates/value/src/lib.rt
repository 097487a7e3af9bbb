// Values and types of the IR, from lir/value.rs: fourteen kinds of value, twelve types, their tags, bits and bytes.
#![tactic(auto)]

mod bits;
mod bytes;
mod compare;
mod float;
mod kind;
pub mod refusal;

// A Roto value. A `Single` or a `Double` stands where the Rust has an f32 or an f64, so that every NaN keeps its bits.
#[derive(Clone, Copy, Debug)]
pub enum IrValue {
    Bool(bool),
    U8(u8),
    U16(u16),
    U32(u32),
    U64(u64),
    I8(i8),
    I16(i16),
    I32(i32),
    I64(i64),
    F32(Single),
    F64(Double),
    Char(u32),
    Asn(u32),
    Pointer(u64),
}

#[derive(Clone, Copy, Debug)]
pub enum Single {
    Number(f32),
    Nan(u32),
}

#[derive(Clone, Copy, Debug)]
pub enum Double {
    Number(f64),
    Nan(u64),
}

// The types for `IrValue`s.
#[derive(Clone, Copy, Debug, PartialEq, Eq)]
pub enum IrType {
    Bool = 1,
    U8 = 2,
    U16 = 3,
    U32 = 4,
    U64 = 5,
    I8 = 6,
    I16 = 7,
    I32 = 8,
    I64 = 9,
    F32 = 10,
    F64 = 11,
    Pointer = 14,
}

// The comparisons of IntCmp and of FloatCmp, in the order of their numbers.
#[derive(Clone, Copy, Debug, PartialEq, Eq)]
pub enum IntCmp {
    Eq,
    Ne,
    ULt,
    ULe,
    UGt,
    UGe,
    SLt,
    SLe,
    SGt,
    SGe,
}

#[derive(Clone, Copy, Debug, PartialEq, Eq)]
pub enum FloatCmp {
    Eq,
    Ne,
    Lt,
    Le,
    Gt,
    Ge,
}
