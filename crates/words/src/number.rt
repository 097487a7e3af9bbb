// Decimal numbers of 64 bits.
ghost use Rattle.std.specs.Prelude.{◌≡◌, Some, length};
ghost use Rattle.words.specs.Text.{text, put};
ghost use Rattle.words.specs.Number.{number, digits_say, digits, places, decimal};

use crate::text::place;

// What all of a word's bytes say as digits.
fn read_digits(word: &[u8]) -> Option<u64>
    ensures { result ≡ digits_say 0 word.now }
{
    let mut n: u64 = 0;
    for b in word {
        if !b.is_ascii_digit() {
            return None;
        }
        n = n.checked_mul(10)?.checked_add(u64::from(*b - b'0'))?;
    }
    Some(n)
}

// The number that a word says.
#[tactic(auto, using(crate::proofs::Digits::none_led, crate::proofs::Digits::zero_led, crate::proofs::Digits::one_led, crate::proofs::Digits::more_led))]
pub fn read_number(word: &[u8]) -> Option<u64>
    ensures { result ≡ number word.now }
{
    match word {
        [] | [b'0', _, ..] => None,
        _ => read_digits(word),
    }
}

// How many digits a number takes.
fn count_digits(n: u64) -> usize
    ensures { result ≡ places n }
{
    n.checked_ilog10().map_or(1, |k| k as usize + 1)
}

// The last digits of a number, as many as there are places.
fn spell(out: &mut [u8], n: u64)
    ensures { out.new ≡ digits (length out.old) n }
{
    let mut left = n;
    for i in (0..out.len()).rev() {
        out[i] = b'0' + (left % 10) as u8;
        left /= 10;
    }
}

// Writes a number's digits, or nothing where they have no room.
pub fn write_number(out: &mut [u8], at: usize, n: u64) -> Option<usize>
    ensures { text result out.new ≡ put (decimal n) (text (Some at) out.old) }
{
    let to = place(out, at, count_digits(n))?;
    spell(&mut out[at..to], n);
    Some(to)
}
