// Fields of an image: each is read at its place, and the next where it ends.
ghost use Rattle.std.specs.Prelude.{ℕ, ◌≡◌, ◌<◌, ◌^◌, Bool, eqb};
ghost use Rattle.value.specs.Refusal.{unknown};
ghost use Rattle.value.specs.Tags.{kind_at, held};
ghost use Rattle.image.specs.Fields.{such, below, up_to, raw, at_end};
ghost use Rattle.image.specs.Answer.{got, shape, is_type};

use crate::number::{Stop, read_number};
use value::refusal::Refusal;
use value::{IrType, IrValue};

// A number that passes the test, else `why`.
fn tested_after<F: Fn(u64) -> bool>(
    image: &[u8],
    at: usize,
    why: Refusal,
    test: F,
) -> Result<(u64, usize), Stop>
    requires { F.IsAlwaysCallable test }
    ensures { (passes : ℕ → Bool) → ((v : ℕ) (r : Bool) → v < 2 ^ 64 → F.post test v r → r ≡ passes v) → got result ≡ such image.now passes why at }
{
    let (v, next) = read_number(image, at)?;
    if test(v) {
        Ok((v, next))
    } else {
        Err(Stop { why, place: at })
    }
}

// A number below `limit`, else `why`.
pub fn below_after(image: &[u8], at: usize, limit: u64, why: Refusal) -> Result<(u64, usize), Stop>
    ensures { got result ≡ below image.now limit why at }
{
    tested_after(image, at, why, |v| v < limit)
}

// A number of at most `most`, else `why`.
pub fn up_to_after(image: &[u8], at: usize, most: u64, why: Refusal) -> Result<(u64, usize), Stop>
    ensures { got result ≡ up_to image.now most why at }
{
    tested_after(image, at, why, |v| v <= most)
}

// The number `only` and no other: a version, or a flag that must be set.
pub fn only_after(image: &[u8], at: usize, only: u64) -> Result<(u64, usize), Stop>
    ensures { got result ≡ such image.now (λ v. eqb v only) unknown at }
{
    tested_after(image, at, Refusal::Unknown, |v| v == only)
}

// A type's tag.
#[tactic(auto, using(crate::proofs::Tests::type_found))]
pub fn type_after(image: &[u8], at: usize) -> Result<(u64, usize), Stop>
    ensures { got result ≡ such image.now is_type unknown at }
{
    tested_after(
        image,
        at,
        Refusal::Unknown,
        |v| IrType::from_tag(v).is_some(),
    )
}

// The bits of a value with this tag.
pub fn bits_after(image: &[u8], at: usize, tag: u64) -> Result<(u64, usize), Stop>
    ensures { got result ≡ such image.now (held (kind_at tag)) unknown at }
{
    tested_after(image, at, Refusal::Unknown, |v| IrValue::fits(tag, v))
}

// The place after `count` raw bytes.
#[tactic(auto, using(std::proofs::lemmas::Bool::Decides::nat_tests), unfolding(crate::specs::Fields::raw))]
pub fn raw_after(image: &[u8], at: usize, count: usize) -> Result<usize, Stop>
    ensures { result ≡ shape (raw image.now count at) }
{
    if image.len() < at || image.len() - at < count {
        return Err(Stop {
            why: Refusal::BytesRunOut,
            place: at,
        });
    }
    Ok(at + count)
}

// The image's end.
#[tactic(auto, using(std::proofs::lemmas::Bool::Decides::nat_tests), unfolding(crate::specs::Fields::at_end))]
pub fn end_after(image: &[u8], at: usize) -> Result<usize, Stop>
    ensures { result ≡ shape (at_end image.now at) }
{
    if image.len() <= at {
        Ok(at)
    } else {
        Err(Stop {
            why: Refusal::LeftOver,
            place: at,
        })
    }
}
