// The words of a line.
ghost use Rattle.std.specs.Prelude.{◌≡◌, ◌+◌, length, get_or, drop, []};
ghost use Rattle.words.specs.Number.{up_to};
ghost use Rattle.words.specs.Hex.{hex_answer, hex_buffer};
ghost use Rattle.words.specs.Kinds.{kind_read, bits_read};
ghost use Rattle.words.specs.Words.{until, words, word_at, Stands};
ghost use Rattle.value.specs.Bytes.{same_bytes};

use crate::HexError;
use crate::hex::read_hex;
use crate::kind::{fits, read_kind};
use crate::number::read_number;

// The first place from `from` on at which the byte stands, or the end.
pub fn find(s: &[u8], from: usize, b: u8) -> usize
    ensures { result ≡ from + until b (drop from s.now) }
{
    let rest = s.get(from..).unwrap_or_default();
    from + rest.iter().position(|x| *x == b).unwrap_or(rest.len())
}

// Whether two texts are the same.
pub fn same(a: &[u8], b: &[u8]) -> bool
    ensures { result ≡ same_bytes a.now b.now }
{
    a == b
}

// How many words a line has.
pub fn count_words(line: &[u8]) -> usize
    ensures { result ≡ length (words line.now) }
{
    line.split(|b| *b == b' ').count()
}

// The word at `k`, counted from 0: no byte where there is no such word.
pub fn word(line: &[u8], k: usize) -> &[u8]
    ensures value { result.now ≡ get_or (words line.now) k [] }
    ensures stands { Stands line.now (word_at line.now k).from (word_at line.now k).to result.now }
{
    line.split(|b| *b == b' ').nth(k).unwrap_or_default()
}

// Whether the word at `k` is this one.
pub fn is_word(line: &[u8], k: usize, text: &[u8]) -> bool
    ensures { result ≡ same_bytes (get_or (words line.now) k []) text.now }
{
    same(word(line, k), text)
}

// The number that the word at `k` says, where it is at most `most`.
pub fn number_at(line: &[u8], k: usize, most: u64) -> Option<u64>
    ensures { result ≡ up_to most (get_or (words line.now) k []) }
{
    read_number(word(line, k)).filter(|n| *n <= most)
}

// Reads the word at `k` as HEX.
pub fn hex_at(line: &[u8], k: usize, out: &mut [u8]) -> Result<usize, HexError>
    ensures { (result ≡ hex_answer (get_or (words line.now) k []) (length out.old)) × (out.new ≡ hex_buffer (get_or (words line.now) k []) out.old) }
{
    read_hex(word(line, k), out)
}

// The tag of the kind that the word at `k` names.
pub fn kind_at(line: &[u8], k: usize) -> Option<u64>
    ensures { result ≡ kind_read (get_or (words line.now) k []) }
{
    read_kind(word(line, k))
}

// The bits that the word at `k` says, for the kind with this tag.
pub fn bits_at(line: &[u8], k: usize, tag: u64) -> Option<u64>
    ensures { result ≡ bits_read tag (get_or (words line.now) k []) }
{
    read_number(word(line, k)).filter(|bits| fits(tag, *bits))
}
