// The whole image: its header, its items with a table of their places, and its end.
ghost use Rattle.std.specs.Prelude.{◌≡◌, ◌+◌, ◌≤◌, length, IfOk};
ghost use Rattle.image.specs.Parse.{many, placed};
ghost use Rattle.image.specs.Image.{header, constants, function, instruction, blocks};
ghost use Rattle.loader.specs.Fields.{field_of};
ghost use Rattle.loader.specs.Tables.{Fills, FillsBlocks, header_of, loaded_from};

use crate::Counts;
use crate::fields::Fields;
use image::field::{end_after, only_after, raw_after, up_to_after};
use image::number::Stop;
use value::refusal::Refusal;

// The header's counts, and the place after it.
#[derive(Clone, Copy, Debug, PartialEq, Eq)]
pub struct Header {
    pub end: usize,
    pub counts: Counts,
}

// The header of an image that is not over-long.
#[tactic(auto, using(crate::proofs::Whole::header_read), unfolding(image::specs::Parse::and_then))]
pub fn read_header(image: &[u8]) -> Result<Header, Stop>
    ensures { result ≡ header_of (header image.now 0) }
{
    let (_, variables_at) = only_after(image, 0, 1)?;
    let (variables, constants_at) = up_to_after(image, variables_at, 256, Refusal::OverLimit)?;
    let (constants, functions_at) = up_to_after(image, constants_at, 64, Refusal::OverLimit)?;
    let (functions, blocks_at) = up_to_after(image, functions_at, 64, Refusal::OverLimit)?;
    let (blocks, end) = up_to_after(image, blocks_at, 512, Refusal::OverLimit)?;
    let counts = Counts {
        variables,
        constants,
        functions,
        blocks,
    };
    Ok(Header { end, counts })
}

// How many instructions the blocks have, and the place after them.
#[derive(Clone, Copy, Debug, PartialEq, Eq)]
pub struct Blocks {
    end: usize,
    total: usize,
}

impl<'a> Fields<'a> {
    // The constants, with 8,192 bytes over all.
    fn constants(self, start: usize, table: &mut [usize]) -> Result<usize, Stop>
        requires { self.counts.constants ≤ length table.old }
        ensures { Fills (field_of self.entry constants) start 0 table.old result table.new }
    {
        let mut at = start;
        let mut left: u64 = 8192;
        for i in 0..self.counts.constants as usize {
            table[i] = at;
            let (size, next) = up_to_after(self.image, at, left, Refusal::OverLimit)?;
            at = raw_after(self.image, next, size as usize)?;
            left -= size;
        }
        Ok(at)
    }

    fn functions(self, start: usize, table: &mut [usize]) -> Result<usize, Stop>
        requires { self.counts.functions ≤ length table.old }
        ensures { Fills (many self.entry.counts.functions (placed (field_of self.entry function))) start 0 table.old result table.new }
    {
        let mut at = start;
        for i in 0..self.counts.functions as usize {
            table[i] = at;
            at = self.function(at)?;
        }
        Ok(at)
    }

    // `count` instructions, their places in the table from `base` on.
    fn instructions(
        self,
        start: usize,
        count: usize,
        base: usize,
        table: &mut [usize],
    ) -> Result<usize, Stop>
        requires { base + count ≤ length table.old }
        ensures { Fills (many count (placed (field_of self.entry instruction))) start base table.old result table.new }
    {
        let mut at = start;
        for i in 0..count {
            table[base + i] = at;
            at = self.instruction(at)?;
        }
        Ok(at)
    }

    // The blocks, with 4,096 instructions over all: where each block starts among them, and each one's place.
    fn blocks(
        self,
        start: usize,
        labels: &mut [usize],
        places: &mut [usize],
    ) -> Result<Blocks, Stop>
        requires { (self.counts.blocks ≤ length labels.old) × (4096 ≤ length places.old) }
        ensures { FillsBlocks (field_of self.entry blocks) start labels.old places.old result labels.new places.new }
    {
        let mut end = start;
        let mut total: usize = 0;
        for i in 0..self.counts.blocks as usize {
            labels[i] = total;
            let left = (4096 - total) as u64;
            let (count, next) = up_to_after(self.image, end, left, Refusal::OverLimit)?;
            end = self.instructions(next, count as usize, total, places)?;
            total += count as usize;
        }
        Ok(Blocks { end, total })
    }
}

// An image that was taken: its counts, where each instruction, block, function and constant is, and its end.
#[derive(Clone, Copy)]
pub struct Loaded {
    pub end: usize,
    pub counts: Counts,
    pub instructions: usize,
    pub places: [usize; 4096],
    pub labels: [usize; 512],
    pub functions: [usize; 64],
    pub constants: [usize; 64],
}

// Any bytes: the image's counts and tables, or the first refusal and its place.
pub fn load(image: &[u8]) -> Result<Loaded, Stop>
    ensures { result ≡ loaded_from image.now }
{
    if 32768 < image.len() {
        return Err(Stop {
            why: Refusal::OverLimit,
            place: 0,
        });
    }
    let header = read_header(image)?;
    let counts = header.counts;
    let fields = Fields { image, counts };
    let mut constants = [0usize; 64];
    let mut functions = [0usize; 64];
    let mut labels = [0usize; 512];
    let mut places = [0usize; 4096];
    let functions_at = fields.constants(header.end, &mut constants)?;
    let blocks_at = fields.functions(functions_at, &mut functions)?;
    let blocks = fields.blocks(blocks_at, &mut labels, &mut places)?;
    let end = end_after(image, blocks.end)?;
    Ok(Loaded {
        end,
        counts,
        instructions: blocks.total,
        places,
        labels,
        functions,
        constants,
    })
}
