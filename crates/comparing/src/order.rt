// The order of two floats.
ghost use Rattle.std.specs.Prelude.{◌≡◌};
ghost use Rattle.comparing.specs.Orders.{wide_of, floating, ordered};
ghost use Rattle.value.specs.Ir.{value_of};
ghost use Rattle.value.specs.Value.{reals};

use std::cmp::Ordering;
use std::num::{f32_from_bits_with_nan, f32_to_f64_with_nan, f64_from_bits_with_nan};
use value::IrValue;

// A float at the wider format, which holds both; a NaN for a value of another kind.
#[tactic(auto, unfolding(crate::specs::Orders::wide_of, value::specs::Ir::value_of, value::specs::Value::family, value::specs::Value::tag))]
fn wide(v: IrValue) -> f64
    ensures { result ≡ wide_of (value_of v) }
{
    match v {
        IrValue::F32(x) => f32_to_f64_with_nan(f32_from_bits_with_nan(x.to_bits())),
        IrValue::F64(x) => f64_from_bits_with_nan(x.to_bits()),
        _ => f64::NAN,
    }
}

// What one float is to another, both widened exactly. What is no float has no order.
pub fn order(x: IrValue, y: IrValue) -> Option<Ordering>
    ensures { result ≡ ordered (reals (floating (value_of x)) (floating (value_of y))) }
{
    wide(x).partial_cmp(&wide(y))
}
