// The parts of a line after its command, and the line's end.
ghost use Rattle.std.specs.Prelude.{◌≡◌, [], min, length, get_or, drop};
ghost use Rattle.std.proofs.lemmas.List.Edits.{sets};
ghost use Rattle.words.specs.Hex.{hex_answer, hex_buffer};
ghost use Rattle.words.specs.Words.{words};
ghost use Rattle.commands.specs.Parts.{frame_read, var_read, part_read, part_after, ended_at, hex_end, end_after, bytes_left, tags_left, bits_left};

use words::BadWord;
use words::pairs::read_values;
use words::word::{bits_at, count_words, hex_at, is_word, kind_at, number_at};

// What a part of a line may be: a number up to a limit, a frame below the depth, a return variable, a kind, or the bits of the kind
// before them.
#[derive(Clone, Copy, Debug, PartialEq, Eq)]
pub enum Part {
    UpTo(u64),
    Frame,
    Var,
    Kind,
    Bits,
}

// What may stand at a line's end.
#[derive(Clone, Copy, Debug, PartialEq, Eq)]
pub enum End {
    Nothing,
    Hex,
    Values,
}

// Where reading a line stands: the number of the part before, and the next word's place, counted from 0.
#[derive(Clone, Copy, Debug, PartialEq, Eq)]
pub struct Spot {
    pub value: u64,
    pub next: usize,
}

// The number of a frame below the depth.
fn frame_at(line: &[u8], k: usize, depth: usize) -> Option<u64>
    ensures { result ≡ frame_read depth (get_or (words line.now) k []) }
{
    let last = depth.checked_sub(1)?;
    number_at(line, k, last as u64)
}

// A return variable as a frame's record holds it: 0 for `-`, else its number and one.
fn var_at(line: &[u8], k: usize) -> Option<u64>
    ensures { result ≡ var_read (get_or (words line.now) k []) }
{
    if is_word(line, k, b"-") {
        return Some(0);
    }
    let n = number_at(line, k, u64::MAX - 1)?;
    Some(n + 1)
}

// What the word at `k` says as such a part. Bits are those of the kind before them.
fn part_at(line: &[u8], k: usize, part: Part, depth: usize, before: u64) -> Option<u64>
    ensures { result ≡ part_read part depth before (get_or (words line.now) k []) }
{
    match part {
        Part::UpTo(most) => number_at(line, k, most),
        Part::Frame => frame_at(line, k, depth),
        Part::Var => var_at(line, k),
        Part::Kind => kind_at(line, k),
        Part::Bits => bits_at(line, k, before),
    }
}

// One part more, or none.
pub fn read_part(line: &[u8], s: Spot, part: Option<Part>, depth: usize) -> Result<Spot, BadWord>
    ensures { result ≡ part_after part depth s (words line.now) }
{
    let k = s.next;
    let Some(part) = part else {
        return Ok(Spot { value: 0, next: k });
    };
    let value = part_at(line, k, part, depth, s.value).ok_or(BadWord(k))?;
    Ok(Spot { value, next: k + 1 })
}

// The line ends before the word at `k`.
fn ended(line: &[u8], k: usize, value: u64) -> Result<u64, BadWord>
    ensures { result ≡ ended_at (words line.now) k value }
{
    if count_words(line) <= k {
        Ok(value)
    } else {
        Err(BadWord(k))
    }
}

fn end_by_hex(line: &[u8], k: usize, bytes: &mut [u8]) -> Result<u64, BadWord>
    ensures { (result ≡ hex_end (hex_answer (get_or (words line.now) k []) (length bytes.old)) (words line.now) k) × (bytes.new ≡ hex_buffer (get_or (words line.now) k []) bytes.old) }
{
    match hex_at(line, k, bytes) {
        Ok(n) => ended(line, k + 1, n as u64),
        Err(_) => Err(BadWord(k)),
    }
}

// The end of the line, from the word at `k` on: how many bytes or values there are.
pub fn read_end(
    line: &[u8],
    k: usize,
    end: End,
    bytes: &mut [u8],
    tags: &mut [u64],
    bits: &mut [u64],
) -> Result<u64, BadWord>
    ensures { (result ≡ end_after end (length bytes.old) (min (length tags.old) (length bits.old)) k (words line.now)) × (bytes.new ≡ bytes_left end k (words line.now) bytes.old) × (tags.new ≡ tags_left end (min (length tags.old) (length bits.old)) k (words line.now) tags.old) × (bits.new ≡ bits_left end (min (length tags.old) (length bits.old)) k (words line.now) bits.old) }
{
    match end {
        End::Nothing => ended(line, k, 0),
        End::Hex => end_by_hex(line, k, bytes),
        End::Values => {
            let n = read_values(line, k, tags, bits)?;
            Ok(n as u64)
        }
    }
}
