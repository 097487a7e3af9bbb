// Functions, with their lists of parameters and slots.
ghost use Rattle.std.specs.Prelude.{◌≡◌};
ghost use Rattle.image.specs.Fields.{listed, known, list_of};
ghost use Rattle.image.specs.Image.{var, slot, function, flags_of, most_parameters};
ghost use Rattle.image.specs.Answer.{shape};
ghost use Rattle.loader.specs.Counts.{item_of};
ghost use Rattle.loader.specs.Fields.{field_of};

use crate::fields::Fields;
use image::field::{below_after, only_after};
use image::number::Stop;
use value::refusal::Refusal;

// How many parameters a kind may have: a constant item has none.
#[tactic(auto, using(crate::proofs::Functions::item_function, crate::proofs::Functions::item_constant))]
fn most_parameters(kind: u64) -> u64
    ensures { result ≡ most_parameters (item_of kind) }
{
    if kind == 1 { 0 } else { 16 }
}

impl<'a> Fields<'a> {
    #[tactic(auto, using(crate::proofs::Rows::slot_walk))]
    fn slot(self, at: usize) -> Result<usize, Stop>
        ensures { result ≡ shape (field_of self.entry slot at) }
    {
        self.size(self.variable(at)?)
    }

    // The return-pointer flag: a constant item's is 1.
    #[tactic(auto, using(crate::proofs::Functions::flag_function, crate::proofs::Functions::flag_constant))]
    fn flag(self, at: usize, kind: u64) -> Result<usize, Stop>
        ensures { result ≡ shape (known self.entry.image.now (listed (flags_of (item_of kind))) at) }
    {
        let (_, end) = if kind == 1 {
            only_after(self.image, at, 1)?
        } else {
            below_after(self.image, at, 2, Refusal::Unknown)?
        };
        Ok(end)
    }

    fn parameters(self, at: usize, kind: u64) -> Result<usize, Stop>
        ensures { result ≡ shape (list_of self.entry.image.now (most_parameters (item_of kind)) (field_of self.entry var) at) }
    {
        self.list(at, most_parameters(kind), |at| self.variable(at))
    }

    fn slots(self, at: usize) -> Result<usize, Stop>
        ensures { result ≡ shape (list_of self.entry.image.now 16 (field_of self.entry slot) at) }
    {
        self.list(at, 16, |at| self.slot(at))
    }

    // Kind, entry, return variable, context variable, return-pointer flag, parameters, slots.
    #[tactic(auto, using(crate::proofs::Functions::function_refused))]
    pub fn function(self, at: usize) -> Result<usize, Stop>
        ensures { result ≡ shape (field_of self.entry function at) }
    {
        let (kind, entry) = below_after(self.image, at, 2, Refusal::Unknown)?;
        let returned = self.label(entry)?;
        let context = self.variable(returned)?;
        let flag = self.variable(context)?;
        let parameters = self.flag(flag, kind)?;
        let slots = self.parameters(parameters, kind)?;
        self.slots(slots)
    }
}
