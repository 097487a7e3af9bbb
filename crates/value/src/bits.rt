// A value's tag, size and bits, and the value of a tag and bits.
ghost use Rattle.std.specs.Prelude.{◌≡◌, true};
ghost use Rattle.value.specs.Value.{tag, size, is_scalar};
ghost use Rattle.value.specs.Tags.{kind_at, held};
ghost use Rattle.value.specs.Ir.{value_of, made};

use crate::{Double, IrType, IrValue, Single};

impl IrValue {
    // The tags of the two kinds that are no types.
    pub const CHAR_TAG: u64 = 12;

    pub const ASN_TAG: u64 = 13;

    #[tactic(auto, unfolding(crate::specs::Ir::value_of, crate::specs::Value::tag))]
    pub fn tag(self) -> u64
        ensures { result ≡ tag (value_of self).kind }
    {
        match self {
            IrValue::Bool(_) => IrType::BOOL_TAG,
            IrValue::U8(_) => IrType::U8_TAG,
            IrValue::U16(_) => IrType::U16_TAG,
            IrValue::U32(_) => IrType::U32_TAG,
            IrValue::U64(_) => IrType::U64_TAG,
            IrValue::I8(_) => IrType::I8_TAG,
            IrValue::I16(_) => IrType::I16_TAG,
            IrValue::I32(_) => IrType::I32_TAG,
            IrValue::I64(_) => IrType::I64_TAG,
            IrValue::F32(_) => IrType::F32_TAG,
            IrValue::F64(_) => IrType::F64_TAG,
            IrValue::Char(_) => IrValue::CHAR_TAG,
            IrValue::Asn(_) => IrValue::ASN_TAG,
            IrValue::Pointer(_) => IrType::POINTER_TAG,
        }
    }

    // How many bytes the value takes.
    #[tactic(auto, unfolding(crate::specs::Ir::value_of, crate::specs::Value::size))]
    pub fn size(self) -> usize
        ensures { result ≡ size (value_of self).kind }
    {
        match self {
            IrValue::Bool(_) | IrValue::U8(_) | IrValue::I8(_) => 1,
            IrValue::U16(_) | IrValue::I16(_) => 2,
            IrValue::U32(_)
            | IrValue::I32(_)
            | IrValue::F32(_)
            | IrValue::Char(_)
            | IrValue::Asn(_) => 4,
            IrValue::U64(_) | IrValue::I64(_) | IrValue::F64(_) | IrValue::Pointer(_) => 8,
        }
    }

    // The bits as an unsigned number: two's complement, or a float's pattern.
    #[tactic(auto, unfolding(crate::specs::Ir::value_of))]
    pub fn bits(self) -> u64
        ensures { result ≡ (value_of self).bits }
    {
        match self {
            IrValue::Bool(b) => b as u64,
            IrValue::U8(n) => n as u64,
            IrValue::U16(n) => n as u64,
            IrValue::U32(n) | IrValue::Char(n) | IrValue::Asn(n) => n as u64,
            IrValue::U64(n) | IrValue::Pointer(n) => n,
            IrValue::I8(z) => z.cast_unsigned() as u64,
            IrValue::I16(z) => z.cast_unsigned() as u64,
            IrValue::I32(z) => z.cast_unsigned() as u64,
            IrValue::I64(z) => z.cast_unsigned(),
            IrValue::F32(x) => x.to_bits() as u64,
            IrValue::F64(x) => x.to_bits(),
        }
    }

    // Whether these are the bits of a value with this tag.
    #[tactic(auto, unfolding(crate::specs::Value::tag, crate::specs::Tags::named, crate::specs::Tags::kind_at, crate::specs::Tags::holds, crate::specs::Tags::held))]
    pub fn fits(number: u64, bits: u64) -> bool
        ensures { result ≡ held (kind_at number) bits }
    {
        match number {
            IrType::BOOL_TAG => bits < 2,
            IrType::U8_TAG | IrType::I8_TAG => bits < 0x100,
            IrType::U16_TAG | IrType::I16_TAG => bits < 0x1_0000,
            IrType::U32_TAG | IrType::I32_TAG | IrType::F32_TAG | IrValue::ASN_TAG => bits
                < 0x1_0000_0000,
            IrType::U64_TAG | IrType::I64_TAG | IrType::F64_TAG | IrType::POINTER_TAG => true,
            IrValue::CHAR_TAG => is_scalar(bits),
            _ => false,
        }
    }

    // The value of a tag and bits, where there is one.
    #[tactic(auto, unfolding(crate::specs::Value::tag, crate::specs::Tags::named, crate::specs::Tags::kind_at, crate::specs::Tags::holds, crate::specs::Tags::held, crate::specs::Ir::made, crate::specs::Ir::ir_of))]
    pub fn from_bits(number: u64, bits: u64) -> Option<IrValue>
        ensures { result ≡ made (kind_at number) bits }
    {
        if !IrValue::fits(number, bits) {
            return None;
        }
        match number {
            IrType::BOOL_TAG => Some(IrValue::Bool(bits != 0)),
            IrType::U8_TAG => Some(IrValue::U8(bits as u8)),
            IrType::U16_TAG => Some(IrValue::U16(bits as u16)),
            IrType::U32_TAG => Some(IrValue::U32(bits as u32)),
            IrType::U64_TAG => Some(IrValue::U64(bits)),
            IrType::I8_TAG => Some(IrValue::I8((bits as u8).cast_signed())),
            IrType::I16_TAG => Some(IrValue::I16((bits as u16).cast_signed())),
            IrType::I32_TAG => Some(IrValue::I32((bits as u32).cast_signed())),
            IrType::I64_TAG => Some(IrValue::I64(bits.cast_signed())),
            IrType::F32_TAG => Some(IrValue::F32(Single::from_bits(bits as u32))),
            IrType::F64_TAG => Some(IrValue::F64(Double::from_bits(bits))),
            IrValue::CHAR_TAG => Some(IrValue::Char(bits as u32)),
            IrValue::ASN_TAG => Some(IrValue::Asn(bits as u32)),
            IrType::POINTER_TAG => Some(IrValue::Pointer(bits)),
            _ => None,
        }
    }
}

// A Char is 0 to D7FF or E000 to 10FFFF.
#[tactic(auto, using(std::proofs::lemmas::Bool::Decides::nat_tests), unfolding(crate::specs::Value::is_scalar))]
fn is_scalar(bits: u64) -> bool
    ensures { result ≡ is_scalar bits }
{
    matches!(bits, 0..=0xd7ff | 0xe000..=0x10_ffff)
}
