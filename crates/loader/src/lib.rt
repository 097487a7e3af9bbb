// The loader: any bytes are answered, taken or refused by why and where.
#![tactic(auto)]

ghost use Rattle.std.specs.Prelude.{ℕ, ◌≡◌, Result};
ghost use Rattle.image.specs.Parse.{many};
ghost use Rattle.image.specs.Fields.{optional, list_of};
ghost use Rattle.image.specs.Answer.{shape, ending};
ghost use Rattle.image.specs.declared.number.Stop.{Stop};
ghost use Rattle.loader.specs.Fields.{Ends};

pub mod fields;
pub mod function;
pub mod instruction;
pub mod load;
pub mod operand;

use fields::Fields;
use image::field::up_to_after;
use image::number::Stop;
use value::refusal::Refusal;

// The header's counts.
#[derive(Clone, Copy, Debug, PartialEq, Eq)]
pub struct Counts {
    pub variables: u64,
    pub constants: u64,
    pub functions: u64,
    pub blocks: u64,
}

// `count` fields, one after another.
fn many<F: Fn(usize) -> Result<usize, Stop>>(
    count: u64,
    start: usize,
    field: F,
) -> Result<usize, Stop>
    requires { F.IsAlwaysCallable field }
    ensures { (ends : ℕ → Result ℕ Stop) → Ends (F.post field) ends → result ≡ shape (many count (ending ends) start) }
{
    let mut at = start;
    for _ in 0..count {
        at = field(at)?;
    }
    Ok(at)
}

// How fields are put together. Whoever calls these passes a reader that can be called at any place, so they stay within the crate.
impl Fields<'_> {
    // A mark, and the field where the mark is 1.
    #[tactic(auto, unfolding(image::specs::Fields::optional, image::specs::Parse::and_then))]
    fn optional<F: Fn(usize) -> Result<usize, Stop>>(
        self,
        at: usize,
        field: F,
    ) -> Result<usize, Stop>
        requires { F.IsAlwaysCallable field }
        ensures { (ends : ℕ → Result ℕ Stop) → Ends (F.post field) ends → result ≡ shape (optional self.entry.image.now (ending ends) at) }
    {
        let (mark, next) = up_to_after(self.image, at, 1, Refusal::Unknown)?;
        if mark == 0 {
            return Ok(next);
        }
        field(next)
    }

    // A count of at most `limit`, and as many fields.
    #[tactic(auto, unfolding(image::specs::Fields::list_of, image::specs::Parse::and_then))]
    fn list<F: Fn(usize) -> Result<usize, Stop>>(
        self,
        at: usize,
        limit: u64,
        field: F,
    ) -> Result<usize, Stop>
        requires { F.IsAlwaysCallable field }
        ensures { (ends : ℕ → Result ℕ Stop) → Ends (F.post field) ends → result ≡ shape (list_of self.entry.image.now limit (ending ends) at) }
    {
        let (count, next) = up_to_after(self.image, at, limit, Refusal::OverLimit)?;
        many(count, next, field)
    }
}
