// Operands: a variable, or a value's tag and its bits.
ghost use Rattle.std.specs.Prelude.{◌≡◌};
ghost use Rattle.image.specs.Parse.{many};
ghost use Rattle.image.specs.Fields.{optional, list_of};
ghost use Rattle.image.specs.Image.{operand};
ghost use Rattle.image.specs.Answer.{shape};
ghost use Rattle.loader.specs.Fields.{field_of};

use crate::fields::Fields;
use crate::many;
use image::number::{Stop, read_number};
use value::IrType;
use value::refusal::Refusal;

impl<'a> Fields<'a> {
    #[tactic(auto, using(crate::proofs::Rows::variable_form, crate::proofs::Rows::literal_form, crate::proofs::Rows::no_form, crate::proofs::Rows::operand_refused))]
    pub fn operand(self, at: usize) -> Result<usize, Stop>
        ensures { result ≡ shape (field_of self.entry operand at) }
    {
        let (tag, next) = read_number(self.image, at)?;
        match tag {
            0 => self.variable(next),
            IrType::BOOL_TAG..=IrType::POINTER_TAG => self.bits(next, tag),
            _ => Err(Stop {
                why: Refusal::Unknown,
                place: at,
            }),
        }
    }

    pub fn optional_operand(self, at: usize) -> Result<usize, Stop>
        ensures { result ≡ shape (optional self.entry.image.now (field_of self.entry operand) at) }
    {
        self.optional(at, |at| self.operand(at))
    }

    // `count` operands, one after another.
    pub fn operands(self, at: usize, count: u64) -> Result<usize, Stop>
        ensures { result ≡ shape (many count (field_of self.entry operand) at) }
    {
        many(count, at, |at| self.operand(at))
    }

    // A Call's arguments.
    pub fn arguments(self, at: usize) -> Result<usize, Stop>
        ensures { result ≡ shape (list_of self.entry.image.now 16 (field_of self.entry operand) at) }
    {
        self.list(at, 16, |at| self.operand(at))
    }
}
