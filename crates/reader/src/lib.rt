// A reader that holds the image and its place, for the tools, and an image's header, read by it. The work is left to the readers of
// crate `image`.
#![tactic(auto)]

ghost use Rattle.std.specs.Prelude.{◌≡◌, IfErr, eqb};
ghost use Rattle.value.specs.Refusal.{unknown, over_limit};
ghost use Rattle.image.specs.Number.{number};
ghost use Rattle.image.specs.Fields.{raw, such, up_to};
ghost use Rattle.image.specs.Answer.{shape};
ghost use Rattle.reader.specs.Header.{read_to, headed, answered};

use image::field::{only_after, raw_after, up_to_after};
use image::number::{Stop, read_number};
use loader::Counts;
use value::refusal::Refusal;

#[derive(Clone, Copy)]
pub struct Reader<'a> {
    pub image: &'a [u8],
    pub place: usize,
}

impl<'a> Reader<'a> {
    // A reader at the image's start.
    pub fn new(image: &'a [u8]) -> Reader<'a>
        ensures { (result.image ≡ image.entry) × (result.place ≡ 0) }
    {
        Reader { image, place: 0 }
    }

    // The number at the reader's place. The reader then stands after it, or where it is refused.
    #[tactic(auto, using(image::proofs::Groups::number_refused_here))]
    pub fn number<'s>(&'s mut self) -> Result<u64, Stop>
        ensures read { read_to result self.new.place ≡ number self.old.image.now self.old.place }
        ensures refused { IfErr result (λ e. self.new.place ≡ e.place) }
        ensures image { self.new.image ≡ self.old.image }
    {
        let (value, next) = read_number(self.image, self.place)?;
        self.place = next;
        Ok(value)
    }

    // Past `count` raw bytes, or refused where the reader stands.
    #[tactic(auto, using(image::proofs::Shapes::raw_refused_here))]
    pub fn skip<'s>(&'s mut self, count: usize) -> Result<(), Stop>
        ensures passed { shape (read_to result self.new.place) ≡ shape (raw self.old.image.now count self.old.place) }
        ensures refused { IfErr result (λ e. self.new.place ≡ e.place) }
        ensures image { self.new.image ≡ self.old.image }
    {
        self.place = raw_after(self.image, self.place, count)?;
        Ok(())
    }

    // The number `only` and no other.
    fn only<'s>(&'s mut self, only: u64) -> Result<u64, Stop>
        ensures read { read_to result self.new.place ≡ such self.old.image.now (λ v. eqb v only) unknown self.old.place }
        ensures refused { IfErr result (λ e. self.new.place ≡ self.old.place) }
        ensures image { self.new.image ≡ self.old.image }
    {
        let (value, next) = only_after(self.image, self.place, only)?;
        self.place = next;
        Ok(value)
    }

    // A count of at most `most`.
    fn up_to<'s>(&'s mut self, most: u64) -> Result<u64, Stop>
        ensures read { read_to result self.new.place ≡ up_to self.old.image.now most over_limit self.old.place }
        ensures refused { IfErr result (λ e. self.new.place ≡ self.old.place) }
        ensures image { self.new.image ≡ self.old.image }
    {
        let (value, next) = up_to_after(self.image, self.place, most, Refusal::OverLimit)?;
        self.place = next;
        Ok(value)
    }
}

// A header that is taken: its version, its counts and the place after it.
#[derive(Clone, Copy, Debug, PartialEq, Eq)]
pub struct Headed {
    pub version: u64,
    pub counts: Counts,
    pub end: usize,
}

// Any bytes: the header, or the first refusal and its place.
#[tactic(auto, using(std::proofs::lemmas::Bool::Decides::nat_tests), unfolding(crate::specs::Header::headed))]
pub fn read_header(image: &[u8]) -> Result<Headed, Stop>
    ensures { result ≡ answered (headed image.now) }
{
    if 32768 < image.len() {
        return Err(Stop {
            why: Refusal::OverLimit,
            place: 0,
        });
    }
    let mut reader = Reader::new(image);
    let version = reader.only(1)?;
    let variables = reader.up_to(256)?;
    let constants = reader.up_to(64)?;
    let functions = reader.up_to(64)?;
    let blocks = reader.up_to(512)?;
    let counts = Counts {
        variables,
        constants,
        functions,
        blocks,
    };
    Ok(Headed {
        version,
        counts,
        end: reader.place,
    })
}
