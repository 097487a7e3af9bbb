// The variables, lent as one table: of each the tag of its kind, 0 where it is unset, and its bits.
ghost use Rattle.std.specs.Prelude.{◌≡◌, Ok};
ghost use Rattle.value.specs.Value.{tag};
ghost use Rattle.value.specs.Ir.{value_of, computed};
ghost use Rattle.instruction.specs.Compute.{answer_of};
ghost use Rattle.instruction.specs.Variables.{found, read_variable, set_variable, evaluated};

use crate::field::Operand;
use value::IrValue;
use value::refusal::Refusal;

// A value's tag and bits.
#[derive(Clone, Copy, Debug, PartialEq, Eq)]
pub struct Found {
    pub tag: u64,
    pub bits: u64,
}

impl From<IrValue> for Found {
    ghost from_gives = { λ v r. r ≡ found (tag (value_of v).kind) (value_of v).bits };

    fn from(v: IrValue) -> Found {
        Found {
            tag: v.tag(),
            bits: v.bits(),
        }
    }
}

// The value that a tag and bits are, if they are one.
impl TryFrom<Found> for IrValue {
    type Error = Refusal;

    ghost try_from_gives = { λ v r. r ≡ computed (answer_of (Ok v)) };

    #[tactic(auto, using(crate::proofs::Computed::as_value), unfolding(crate::specs::Compute::answer_of))]
    fn try_from(v: Found) -> Result<IrValue, Refusal> {
        IrValue::from_bits(v.tag, v.bits).ok_or(Refusal::NotSound)
    }
}

// A variable's value, or the refusal of one that was never set.
#[tactic(auto, unfolding(crate::specs::Variables::read_variable))]
pub fn read_variable(vars: &[u64], x: usize) -> Result<Found, Refusal>
    ensures { result ≡ read_variable vars.now x }
{
    if x < vars.len() / 2 {
        let at = x * 2;
        let tag = vars[at];
        if tag != 0 {
            return Ok(Found {
                tag,
                bits: vars[at + 1],
            });
        }
    }
    Err(Refusal::NeverSet)
}

// The variable is set; beyond the last there is none.
#[tactic(auto, unfolding(crate::specs::Variables::set_variable))]
pub fn set_variable(vars: &mut [u64], x: usize, v: Found)
    ensures { vars.new ≡ set_variable vars.old x v }
{
    if x < vars.len() / 2 {
        let at = x * 2;
        vars[at] = v.tag;
        vars[at + 1] = v.bits;
    }
}

// An operand's value: its variable's, or its own. An accepted instruction's operand is always read.
#[tactic(auto, unfolding(crate::specs::Variables::evaluated))]
pub fn evaluate(vars: &[u64], o: Operand) -> Result<Found, Refusal>
    ensures { result ≡ evaluated vars.now o }
{
    if o.next == 0 {
        return Err(Refusal::NoInstruction);
    }
    if o.tag == 0 {
        return read_variable(vars, o.bits as usize);
    }
    Ok(Found {
        tag: o.tag,
        bits: o.bits,
    })
}
