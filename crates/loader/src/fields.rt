// The fields of an image: what a number alone makes, and how fields are put together. Each is read at a place, and the answer is
// the place after it.
ghost use Rattle.std.specs.Prelude.{ℕ, ◌≡◌, Result};
ghost use Rattle.value.specs.Refusal.{unknown, beyond_count};
ghost use Rattle.value.specs.Tags.{kind_at, held};
ghost use Rattle.image.specs.Fields.{such, below, optional, list_of, bytes};
ghost use Rattle.image.specs.Image.{var, label, constant, callee, u32, size, type};
ghost use Rattle.image.specs.Answer.{shape, ending};
ghost use Rattle.image.specs.declared.number.Stop.{Stop};
ghost use Rattle.loader.specs.Fields.{field_of, Ends};

use crate::Counts;
use image::field::{below_after, bits_after, raw_after, type_after, up_to_after};
use image::number::Stop;
use value::refusal::Refusal;

// An image's bytes, and the counts that its header has.
#[derive(Clone, Copy)]
pub struct Fields<'a> {
    pub image: &'a [u8],
    pub counts: Counts,
}

impl<'a> Fields<'a> {
    // One of `count` variables, labels, constants or functions.
    fn one_of(self, at: usize, count: u64) -> Result<usize, Stop>
        ensures { result ≡ shape (below self.entry.image.now count beyond_count at) }
    {
        let (_, end) = below_after(self.image, at, count, Refusal::BeyondCount)?;
        Ok(end)
    }

    #[tactic(auto, unfolding(image::specs::Image::var))]
    pub fn variable(self, at: usize) -> Result<usize, Stop>
        ensures { result ≡ shape (field_of self.entry var at) }
    {
        self.one_of(at, self.counts.variables)
    }

    #[tactic(auto, unfolding(image::specs::Image::label))]
    pub fn label(self, at: usize) -> Result<usize, Stop>
        ensures { result ≡ shape (field_of self.entry label at) }
    {
        self.one_of(at, self.counts.blocks)
    }

    #[tactic(auto, unfolding(image::specs::Image::constant))]
    pub fn constant(self, at: usize) -> Result<usize, Stop>
        ensures { result ≡ shape (field_of self.entry constant at) }
    {
        self.one_of(at, self.counts.constants)
    }

    #[tactic(auto, unfolding(image::specs::Image::callee))]
    pub fn callee(self, at: usize) -> Result<usize, Stop>
        ensures { result ≡ shape (field_of self.entry callee at) }
    {
        self.one_of(at, self.counts.functions)
    }

    #[tactic(auto, unfolding(image::specs::Image::u32))]
    pub fn u32(self, at: usize) -> Result<usize, Stop>
        ensures { result ≡ shape (u32 self.entry.image.now at) }
    {
        let (_, end) = below_after(self.image, at, 4294967296, Refusal::Unknown)?;
        Ok(end)
    }

    #[tactic(auto, unfolding(image::specs::Image::size))]
    pub fn size(self, at: usize) -> Result<usize, Stop>
        ensures { result ≡ shape (size self.entry.image.now at) }
    {
        let (_, end) = up_to_after(self.image, at, 32768, Refusal::OverLimit)?;
        Ok(end)
    }

    #[tactic(auto, using(crate::proofs::Rows::type_walk))]
    pub fn tag(self, at: usize) -> Result<usize, Stop>
        ensures { result ≡ shape (type (self.entry.image.now) at) }
    {
        let (_, end) = type_after(self.image, at)?;
        Ok(end)
    }

    // The bits of a value with this tag.
    pub fn bits(self, at: usize, tag: u64) -> Result<usize, Stop>
        ensures { result ≡ shape (such self.entry.image.now (held (kind_at tag)) unknown at) }
    {
        let (_, end) = bits_after(self.image, at, tag)?;
        Ok(end)
    }

    // A count of at most `limit`, and as many raw bytes.
    #[tactic(auto, unfolding(image::specs::Fields::bytes, image::specs::Parse::and_then))]
    pub fn bytes(self, at: usize, limit: u64) -> Result<usize, Stop>
        ensures { result ≡ shape (bytes self.entry.image.now limit at) }
    {
        let (count, next) = up_to_after(self.image, at, limit, Refusal::OverLimit)?;
        raw_after(self.image, next, count as usize)
    }

    pub fn optional_variable(self, at: usize) -> Result<usize, Stop>
        ensures { result ≡ shape (optional self.entry.image.now (field_of self.entry var) at) }
    {
        self.optional(at, |at| self.variable(at))
    }
}
