// The comparisons by their numbers. No `TryFrom`: a caller refuses under a name of its own, so an error here would say nothing.
ghost use Rattle.std.specs.Prelude.{◌≡◌};
ghost use Rattle.value.specs.Tags.{int_cmp_at, float_cmp_at};
ghost use Rattle.value.specs.Compare.{int_comparison, float_comparison};

use crate::{FloatCmp, IntCmp};

impl IntCmp {
    #[tactic(auto, unfolding(crate::specs::Tags::int_cmp_at, crate::specs::Compare::ir_int_cmp, crate::specs::Compare::int_comparison))]
    pub fn from_number(number: u64) -> Option<IntCmp>
        ensures { result ≡ int_comparison (int_cmp_at number) }
    {
        match number {
            0 => Some(IntCmp::Eq),
            1 => Some(IntCmp::Ne),
            2 => Some(IntCmp::ULt),
            3 => Some(IntCmp::ULe),
            4 => Some(IntCmp::UGt),
            5 => Some(IntCmp::UGe),
            6 => Some(IntCmp::SLt),
            7 => Some(IntCmp::SLe),
            8 => Some(IntCmp::SGt),
            9 => Some(IntCmp::SGe),
            _ => None,
        }
    }
}

impl FloatCmp {
    #[tactic(auto, unfolding(crate::specs::Tags::float_cmp_at, crate::specs::Compare::ir_float_cmp, crate::specs::Compare::float_comparison))]
    pub fn from_number(number: u64) -> Option<FloatCmp>
        ensures { result ≡ float_comparison (float_cmp_at number) }
    {
        match number {
            0 => Some(FloatCmp::Eq),
            1 => Some(FloatCmp::Ne),
            2 => Some(FloatCmp::Lt),
            3 => Some(FloatCmp::Le),
            4 => Some(FloatCmp::Gt),
            5 => Some(FloatCmp::Ge),
            _ => None,
        }
    }
}
