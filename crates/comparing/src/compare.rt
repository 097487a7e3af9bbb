// Comparisons and Not.
ghost use Rattle.std.specs.Prelude.{◌≡◌};
ghost use Rattle.value.specs.Value.{equality, unsigned_order, signed_order, float_order, compare_ints, compare_floats, notted};
ghost use Rattle.value.specs.Ir.{value_of, computed};
ghost use Rattle.value.specs.Compare.{int_cmp_of, float_cmp_of};
ghost use Rattle.comparing.specs.Compare.{test_of};

use crate::family::Test;
use crate::{family, order};
use value::refusal::Refusal;
use value::{FloatCmp, IntCmp, IrValue};

#[tactic(auto, unfolding(crate::specs::Compare::test_of, value::specs::Compare::int_cmp_of, value::specs::Value::compare_ints))]
pub fn int_cmp(cmp: IntCmp, x: IrValue, y: IrValue) -> Result<IrValue, Refusal>
    ensures { result ≡ computed (compare_ints (int_cmp_of cmp) (value_of x) (value_of y)) }
{
    match cmp {
        IntCmp::Eq => equal(Test::Eq, x, y),
        IntCmp::Ne => equal(Test::Ne, x, y),
        IntCmp::ULt => unsigned_order(Test::Lt, x, y),
        IntCmp::ULe => unsigned_order(Test::Le, x, y),
        IntCmp::UGt => unsigned_order(Test::Gt, x, y),
        IntCmp::UGe => unsigned_order(Test::Ge, x, y),
        IntCmp::SLt => signed_order(Test::Lt, x, y),
        IntCmp::SLe => signed_order(Test::Le, x, y),
        IntCmp::SGt => signed_order(Test::Gt, x, y),
        IntCmp::SGe => signed_order(Test::Ge, x, y),
    }
}

#[tactic(auto, unfolding(crate::specs::Compare::test_of, value::specs::Compare::float_cmp_of, value::specs::Value::compare_floats))]
pub fn float_cmp(cmp: FloatCmp, x: IrValue, y: IrValue) -> Result<IrValue, Refusal>
    ensures { result ≡ computed (compare_floats (float_cmp_of cmp) (value_of x) (value_of y)) }
{
    match cmp {
        FloatCmp::Eq => equal(Test::Eq, x, y),
        FloatCmp::Ne => equal(Test::Ne, x, y),
        FloatCmp::Lt => float_order(Test::Lt, x, y),
        FloatCmp::Le => float_order(Test::Le, x, y),
        FloatCmp::Gt => float_order(Test::Gt, x, y),
        FloatCmp::Ge => float_order(Test::Ge, x, y),
    }
}

// The Bool unchanged, as in the Rust.
#[tactic(auto, using(crate::proofs::Comparing::not_is))]
pub fn not(x: IrValue) -> Result<IrValue, Refusal>
    ensures { result ≡ computed (notted (value_of x)) }
{
    match x {
        IrValue::Bool(_) => Ok(x),
        _ => Err(Refusal::WrongKinds),
    }
}

fn equal(test: Test, x: IrValue, y: IrValue) -> Result<IrValue, Refusal>
    ensures { result ≡ computed (equality (test_of test) (value_of x) (value_of y)) }
{
    if x.tag() != y.tag() || !family::has_equality(x) {
        return Err(Refusal::WrongKinds);
    }
    let found = if family::is_float(x) {
        order::order(x, y)
    } else {
        Some(x.bits().cmp(&y.bits()))
    };
    Ok(IrValue::Bool(family::passes(test, found)))
}

fn unsigned_order(test: Test, x: IrValue, y: IrValue) -> Result<IrValue, Refusal>
    ensures { result ≡ computed (unsigned_order (test_of test) (value_of x) (value_of y)) }
{
    match (family::as_u64(x), family::as_u64(y)) {
        (Some(a), Some(b)) => Ok(IrValue::Bool(family::passes(test, Some(a.cmp(&b))))),
        _ => Err(Refusal::WrongKinds),
    }
}

fn signed_order(test: Test, x: IrValue, y: IrValue) -> Result<IrValue, Refusal>
    ensures { result ≡ computed (signed_order (test_of test) (value_of x) (value_of y)) }
{
    match (family::as_i64(x), family::as_i64(y)) {
        (Some(a), Some(b)) => Ok(IrValue::Bool(family::passes(test, Some(a.cmp(&b))))),
        _ => Err(Refusal::WrongKinds),
    }
}

fn float_order(test: Test, x: IrValue, y: IrValue) -> Result<IrValue, Refusal>
    ensures { result ≡ computed (float_order (test_of test) (value_of x) (value_of y)) }
{
    if !family::is_float(x) || !family::is_float(y) {
        return Err(Refusal::WrongKinds);
    }
    Ok(IrValue::Bool(family::passes(test, order::order(x, y))))
}
