// The instructions that reach through pointers: Initialize, Write, Read and Copy.
ghost use Rattle.std.specs.Prelude.{◌≡◌};
ghost use Rattle.memory.specs.Tables.{tables, both, out, written_of};
ghost use Rattle.instruction.specs.Compute.{found_of};
ghost use Rattle.value.specs.Value.{size, bytes_of};
ghost use Rattle.value.specs.Ir.{type_of, value_of};
ghost use Rattle.value.specs.Ir.{loaded as Ir·loaded};
ghost use Rattle.instruction.specs.Short.{Word};
ghost use Rattle.instruction.specs.Code.{stepped};
ghost use Rattle.instruction.specs.Storage.{stored_of, write_of, loaded_as, read_as, reading_of, made_of, initialized_of, copying_of};

use crate::compute::found;
use crate::field::{read_field, read_operand};
use crate::pointer::{as_pointer, point};
use crate::step::{Progress, finish};
use crate::variables::{Found, evaluate};
use copying::copy_bytes;
use memory::{Registers, Source, allocate, constant_access, read_access, write_bytes};
use value::refusal::Refusal;
use value::{Double, IrType, IrValue};

// The value of a tag and bits, where it is one of eight bytes: made by its own case, without a search for its kind.
fn word(tag: u64, bits: u64) -> Option<IrValue>
    ensures { Word tag bits result }
{
    match tag {
        IrType::U64_TAG => Some(IrValue::U64(bits)),
        IrType::I64_TAG => IrValue::from_bits(IrType::I64_TAG, bits),
        IrType::F64_TAG => Some(IrValue::F64(Double::from_bits(bits))),
        IrType::POINTER_TAG => Some(IrValue::Pointer(bits)),
        _ => None,
    }
}

// The bytes of a value that takes eight are written through pointer p.
#[tactic(auto, using(crate::proofs::Through::bytes_alone), unfolding(memory::specs::Tables::written_of))]
fn write_word(
    m: Registers,
    p: usize,
    value: IrValue,
    store: &mut [u8],
    frames: &[u64],
    bounds: &[u64],
    pointers: &[u64],
) -> Result<(), Refusal>
    requires { size (value_of value).kind ≡ 8 }
    ensures { both result store.new ≡ written_of (tables m store.old frames.now bounds.now pointers.now) p (bytes_of (value_of value)) }
{
    let mut bytes = [0u8; 8];
    value.write(&mut bytes);
    write_bytes(m, p, &bytes, store, frames, bounds, pointers)
}

// The value's bytes are written through pointer p.
#[tactic(auto, using(crate::proofs::Through::stores))]
pub fn write_value(
    m: Registers,
    p: usize,
    v: Result<Found, Refusal>,
    store: &mut [u8],
    frames: &[u64],
    bounds: &[u64],
    pointers: &[u64],
) -> Result<(), Refusal>
    ensures { both result store.new ≡ stored_of (tables m store.old frames.now bounds.now pointers.now) p v }
{
    let v = v?;
    if let Some(value) = word(v.tag, v.bits) {
        return write_word(m, p, value, store, frames, bounds, pointers);
    }
    let value = IrValue::try_from(v)?;
    let mut bytes = [0u8; 8];
    value.write(&mut bytes);
    let size = value.size();
    write_bytes(m, p, &bytes[0..size], store, frames, bounds, pointers)
}

// Write: two operands, where and what. The first is tested before the second is evaluated.
#[tactic(auto, unfolding(crate::specs::Storage::write_of))]
pub fn write(
    m: Registers,
    image: &[u8],
    at: usize,
    store: &mut [u8],
    frames: &[u64],
    bounds: &[u64],
    pointers: &[u64],
    vars: &[u64],
) -> Result<Progress, Refusal>
    ensures { both result store.new ≡ write_of (tables m store.old frames.now bounds.now pointers.now) image.now vars.now at }
{
    let to = read_operand(image, at);
    let what = read_operand(image, to.next);
    let p = as_pointer(evaluate(vars, to))?;
    let v = evaluate(vars, what);
    write_value(m, p as usize, v, store, frames, bounds, pointers)?;
    Ok(Progress::Next(m))
}

// What bytes are, as a tag and bits.
pub fn loaded(r: Option<Result<IrValue, Refusal>>) -> Result<Found, Refusal>
    ensures { result ≡ loaded_as r }
{
    found(r.ok_or(Refusal::BeyondLength)?)
}

// The value of the type at the front of `from`. A type of eight bytes is named, so that its read is compiled for it alone.
fn value_in(ty: IrType, from: &[u8]) -> Result<Found, Refusal>
    ensures { result ≡ loaded_as (Ir·loaded (type_of ty) from.now) }
{
    match ty {
        IrType::U64 => loaded(IrValue::read(IrType::U64, from)),
        IrType::I64 => loaded(IrValue::read(IrType::I64, from)),
        IrType::F64 => loaded(IrValue::read(IrType::F64, from)),
        IrType::Pointer => loaded(IrValue::read(IrType::Pointer, from)),
        _ => loaded(IrValue::read(ty, from)),
    }
}

// A value of the type, through pointer p.
#[tactic(auto, using(memory::proofs::Laws::fits, crate::proofs::Through::reads))]
pub fn read_typed(
    m: Registers,
    p: usize,
    ty: IrType,
    store: &[u8],
    frames: &[u64],
    bounds: &[u64],
    pointers: &[u64],
    image: &[u8],
    extents: &[u64],
) -> Result<Found, Refusal>
    ensures { result ≡ found_of (read_as (tables m store.now frames.now bounds.now pointers.now) p (type_of ty) image.now extents.now) }
{
    let size = ty.size();
    match read_access(m, p, size, store, frames, bounds, pointers)? {
        Source::Local(at) => {
            let end = at + size;
            value_in(ty, &store[at..end])
        }
        Source::Constant(k) => {
            let at = constant_access(k, size as u64, image, extents)?;
            let end = at + size;
            loaded(IrValue::read(ty, &image[at..end]))
        }
    }
}

// Read: to, operand, type.
#[tactic(auto, using(crate::proofs::Through::typed), unfolding(crate::specs::Storage::reading_of, crate::specs::Code::finished_of))]
pub fn read(
    m: Registers,
    image: &[u8],
    at: usize,
    extents: &[u64],
    store: &[u8],
    frames: &[u64],
    bounds: &[u64],
    pointers: &[u64],
    vars: &mut [u64],
) -> Result<Progress, Refusal>
    ensures { both result vars.new ≡ reading_of (tables m store.now frames.now bounds.now pointers.now) image.now extents.now vars.old at }
{
    let to = read_field(image, at);
    let from = read_operand(image, to.next);
    let tag = read_field(image, from.next);
    let p = as_pointer(evaluate(vars, from))?;
    let Some(ty) = IrType::from_tag(tag.value) else {
        return Err(Refusal::NoInstruction);
    };
    let v = read_typed(
        m, p as usize, ty, store, frames, bounds, pointers, image, extents,
    );
    finish(m, vars, to.value, v)
}

// `size` bytes more, with these at their start, and a pointer to them.
#[tactic(auto, unfolding(crate::specs::Storage::made_of))]
pub fn make(
    m: Registers,
    size: usize,
    bytes: &[u8],
    store: &mut [u8],
    frames: &mut [u64],
    bounds: &mut [u64],
    pointers: &mut [u64],
) -> Result<(usize, Registers), Refusal>
    ensures { out result store.new frames.new bounds.new pointers.new ≡ made_of (tables m store.old frames.old bounds.old pointers.old) size bytes.now }
{
    let (p, n) = allocate(m, size, store, frames, bounds, pointers)?;
    write_bytes(n, p, bytes, store, frames, bounds, pointers)?;
    Ok((p, n))
}

// Initialize: to, size, count, raw bytes.
#[tactic(auto, unfolding(crate::specs::Storage::initialized_of))]
pub fn initialize(
    m: Registers,
    image: &[u8],
    at: usize,
    store: &mut [u8],
    frames: &mut [u64],
    bounds: &mut [u64],
    pointers: &mut [u64],
    vars: &mut [u64],
) -> Result<Progress, Refusal>
    ensures { stepped result store.new frames.new bounds.new pointers.new vars.new ≡ initialized_of (tables m store.old frames.old bounds.old pointers.old) image.now vars.old at }
{
    let to = read_field(image, at);
    let size = read_field(image, to.next);
    let count = read_field(image, size.next);
    if size.value < count.value {
        return Err(Refusal::BytesExceedSize);
    }
    let Some(rest) = image.get(count.next..) else {
        return Err(Refusal::NoInstruction);
    };
    let Some(bytes) = rest.get(..count.value as usize) else {
        return Err(Refusal::NoInstruction);
    };
    let given = make(
        m,
        size.value as usize,
        bytes,
        store,
        frames,
        bounds,
        pointers,
    );
    point(given, vars, to.value)
}

// Copy: operands to and from, u32. Both are pointers before either is followed.
#[tactic(auto, unfolding(crate::specs::Storage::copying_of))]
pub fn copy(
    m: Registers,
    image: &[u8],
    at: usize,
    extents: &[u64],
    store: &mut [u8],
    frames: &[u64],
    bounds: &[u64],
    pointers: &[u64],
    vars: &[u64],
) -> Result<Progress, Refusal>
    ensures { both result store.new ≡ copying_of (tables m store.old frames.now bounds.now pointers.now) image.now extents.now vars.now at }
{
    let to = read_operand(image, at);
    let from = read_operand(image, to.next);
    let count = read_field(image, from.next);
    let p = as_pointer(evaluate(vars, to))?;
    let q = as_pointer(evaluate(vars, from))?;
    copy_bytes(
        m,
        p as usize,
        q as usize,
        count.value as usize,
        store,
        frames,
        bounds,
        pointers,
        image,
        extents,
    )?;
    Ok(Progress::Next(m))
}
