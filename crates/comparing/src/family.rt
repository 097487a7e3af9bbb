// Which tests an order passes, which values have one, and the numbers that are ordered.
ghost use Rattle.std.specs.Prelude.{◌≡◌};
ghost use Rattle.value.specs.Value.{has_equality, family, is_float};
ghost use Rattle.value.specs.Value as Believed;
ghost use Rattle.value.specs.Ir.{value_of};
ghost use Rattle.comparing.specs.Compare.{order_of, test_of, as_unsigned, as_signed};

use std::cmp::Ordering;
use value::IrValue;

// A test of an order.
#[derive(Clone, Copy, Debug, PartialEq, Eq)]
pub enum Test {
    Eq,
    Ne,
    Lt,
    Le,
    Gt,
    Ge,
}

// Whether the order passes the test; where there is none, only Ne does.
#[tactic(auto, unfolding(crate::specs::Compare::order_of, crate::specs::Compare::test_of, value::specs::Value::passes))]
pub fn passes(test: Test, order: Option<Ordering>) -> bool
    ensures { result ≡ Believed.passes (test_of test) (order_of order) }
{
    match order {
        Some(Ordering::Less) => matches!(test, Test::Ne | Test::Lt | Test::Le),
        Some(Ordering::Equal) => matches!(test, Test::Eq | Test::Le | Test::Ge),
        Some(Ordering::Greater) => matches!(test, Test::Ne | Test::Gt | Test::Ge),
        None => matches!(test, Test::Ne),
    }
}

// The number of a value of the unsigned family.
#[tactic(auto, unfolding(crate::specs::Compare::as_unsigned, value::specs::Ir::value_of, value::specs::Value::family))]
pub fn as_u64(v: IrValue) -> Option<u64>
    ensures { result ≡ as_unsigned (value_of v) }
{
    match v {
        IrValue::U8(n) => Some(n as u64),
        IrValue::U16(n) => Some(n as u64),
        IrValue::U32(n) => Some(n as u64),
        IrValue::U64(n) => Some(n),
        _ => None,
    }
}

// The number of a value of the signed family.
#[tactic(auto, unfolding(crate::specs::Compare::as_signed, value::specs::Ir::value_of, value::specs::Value::family))]
pub fn as_i64(v: IrValue) -> Option<i64>
    ensures { result ≡ as_signed (value_of v) }
{
    match v {
        IrValue::I8(z) => Some(z as i64),
        IrValue::I16(z) => Some(z as i64),
        IrValue::I32(z) => Some(z as i64),
        IrValue::I64(z) => Some(z),
        _ => None,
    }
}

#[tactic(auto, unfolding(value::specs::Ir::value_of, value::specs::Value::family))]
pub fn is_float(v: IrValue) -> bool
    ensures { result ≡ is_float (family (value_of v).kind) }
{
    matches!(v, IrValue::F32(_) | IrValue::F64(_))
}

// The kinds that have an equality: all but U64, I64 and Char.
#[tactic(auto, unfolding(value::specs::Ir::value_of, value::specs::Value::has_equality))]
pub fn has_equality(v: IrValue) -> bool
    ensures { result ≡ has_equality (value_of v).kind }
{
    !matches!(v, IrValue::U64(_) | IrValue::I64(_) | IrValue::Char(_))
}
