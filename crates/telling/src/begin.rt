// A start from the values that a line holds.
ghost use Rattle.std.specs.Prelude.{◌≡◌};
ghost use Rattle.memory.specs.Tables.{tables, state};
ghost use Rattle.eval.specs.Entry.{entering};
ghost use Rattle.telling.specs.Starts.{begun_of, budget_of};

use by_hand::table::word_at;
use eval::entry::EntryError;
use eval::start::start;
use instruction::step::Progress;
use instruction::variables::Found;
use memory::Registers;
use words::bound::least;

// A budget as 32 bits hold it.
pub fn budget_of(n: u64) -> u32
    ensures { result ≡ budget_of n }
{
    (n % 4294967296) as u32
}

// The first value is the context, and the others are the arguments.
pub fn begin(
    m: Registers,
    function: u64,
    count: u64,
    tags: &[u64],
    bits: &[u64],
    image: &[u8],
    store: &mut [u8],
    frames: &mut [u64],
    bounds: &mut [u64],
    pointers: &mut [u64],
    vars: &mut [u64],
) -> Result<Progress, EntryError>
    ensures { entering result store.new frames.new bounds.new pointers.new vars.new ≡ begun_of image.now function count tags.now bits.now (state (tables m store.old frames.old bounds.old pointers.old) vars.old) }
{
    let context = Found {
        tag: word_at(tags, 0),
        bits: word_at(bits, 0),
    };
    let end = least(count as usize, least(tags.len(), bits.len()));
    let from = least(1, end);
    start(
        image,
        function,
        context,
        &tags[from..end],
        &bits[from..end],
        m,
        store,
        frames,
        bounds,
        pointers,
        vars,
    )
}
