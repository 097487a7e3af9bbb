// Tags and sizes of types.
ghost use Rattle.std.specs.Prelude.{◌≡◌};
ghost use Rattle.value.specs.Value.{kind_of, tag, size};
ghost use Rattle.value.specs.Tags.{type_at};
ghost use Rattle.value.specs.Ir.{type_of, tagged};

use crate::IrType;

impl IrType {
    pub const BOOL_TAG: u64 = IrType::Bool as u64;

    pub const U8_TAG: u64 = IrType::U8 as u64;

    pub const U16_TAG: u64 = IrType::U16 as u64;

    pub const U32_TAG: u64 = IrType::U32 as u64;

    pub const U64_TAG: u64 = IrType::U64 as u64;

    pub const I8_TAG: u64 = IrType::I8 as u64;

    pub const I16_TAG: u64 = IrType::I16 as u64;

    pub const I32_TAG: u64 = IrType::I32 as u64;

    pub const I64_TAG: u64 = IrType::I64 as u64;

    pub const F32_TAG: u64 = IrType::F32 as u64;

    pub const F64_TAG: u64 = IrType::F64 as u64;

    pub const POINTER_TAG: u64 = IrType::Pointer as u64;

    // The type that a tag names: an associated function, as document 01 asks, and so no `TryFrom`.
    #[tactic(auto, unfolding(crate::specs::Value::tag, crate::specs::Tags::named, crate::specs::Tags::kind_at, crate::specs::Tags::type_of_kind, crate::specs::Tags::typed, crate::specs::Ir::ir_type, crate::specs::Ir::tagged))]
    pub fn from_tag(number: u64) -> Option<IrType>
        ensures { result ≡ tagged (type_at number) }
    {
        match number {
            IrType::BOOL_TAG => Some(IrType::Bool),
            IrType::U8_TAG => Some(IrType::U8),
            IrType::U16_TAG => Some(IrType::U16),
            IrType::U32_TAG => Some(IrType::U32),
            IrType::U64_TAG => Some(IrType::U64),
            IrType::I8_TAG => Some(IrType::I8),
            IrType::I16_TAG => Some(IrType::I16),
            IrType::I32_TAG => Some(IrType::I32),
            IrType::I64_TAG => Some(IrType::I64),
            IrType::F32_TAG => Some(IrType::F32),
            IrType::F64_TAG => Some(IrType::F64),
            IrType::POINTER_TAG => Some(IrType::Pointer),
            _ => None,
        }
    }

    #[tactic(auto, unfolding(crate::specs::Ir::type_of, crate::specs::Value::kind_of, crate::specs::Value::tag))]
    pub fn tag(self) -> u64
        ensures { result ≡ tag (kind_of (type_of self)) }
    {
        self as u64
    }

    // How many bytes a value of the type takes.
    #[tactic(auto, unfolding(crate::specs::Ir::type_of, crate::specs::Value::kind_of, crate::specs::Value::size))]
    pub fn size(self) -> usize
        ensures { result ≡ size (kind_of (type_of self)) }
    {
        match self {
            IrType::Bool | IrType::U8 | IrType::I8 => 1,
            IrType::U16 | IrType::I16 => 2,
            IrType::U32 | IrType::I32 | IrType::F32 => 4,
            IrType::U64 | IrType::I64 | IrType::F64 | IrType::Pointer => 8,
        }
    }
}
