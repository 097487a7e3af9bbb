// Values on a line: pairs of a kind and its bits.
ghost use Rattle.std.specs.Prelude.{◌≡◌, ◌+◌, min, [], length, get_or, drop};
ghost use Rattle.words.specs.Words.{words};
ghost use Rattle.words.specs.Pairs.{pair_said, values_from, Stored};

use crate::word::{bits_at, count_words, kind_at};
use crate::{BadWord, PairError};

// The tag and the bits that the word at `k` and the one after it say.
fn pair_at(line: &[u8], k: usize) -> Result<(u64, u64), PairError>
    ensures { result ≡ pair_said (get_or (words line.now) k []) (get_or (words line.now) (k + 1) []) }
{
    let tag = kind_at(line, k).ok_or(PairError::Kind)?;
    let bits = bits_at(line, k + 1, tag).ok_or(PairError::Bits)?;
    Ok((tag, bits))
}

// Reads the values from the word at `first` to the line's end, one at least, into the two tables: how many there are.
pub fn read_values(
    line: &[u8],
    first: usize,
    tags: &mut [u64],
    bits: &mut [u64],
) -> Result<usize, BadWord>
    ensures { Stored (values_from (min (length tags.old) (length bits.old)) 0 first (drop first (words line.now))) result tags.old tags.new bits.old bits.new }
{
    let total = count_words(line);
    let mut n = first;
    for i in 0..tags.len().min(bits.len()) {
        let (tag, b) = match pair_at(line, n) {
            Ok(pair) => pair,
            Err(PairError::Kind) => return Err(BadWord(n)),
            Err(PairError::Bits) => return Err(BadWord(n + 1)),
        };
        tags[i] = tag;
        bits[i] = b;
        n += 2;
        if total <= n {
            return Ok(i + 1);
        }
    }
    Err(BadWord(n))
}
