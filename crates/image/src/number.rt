// Numbers of an image: seven-bit groups, the low group first, in the shortest form.
ghost use Rattle.std.specs.Prelude.{◌≡◌, length};
ghost use Rattle.image.specs.Number.{number, bytes_of};
ghost use Rattle.image.specs.Answer.{got, Stored};

use value::refusal::Refusal;

// Why an image is refused, and the first byte of the refused field.
#[derive(Clone, Copy, Debug, PartialEq, Eq)]
pub struct Stop {
    pub why: Refusal,
    pub place: usize,
}

// The number at `start`, and the place after it.
#[tactic(auto, using(crate::proofs::Groups::padded_number))]
pub fn read_number(image: &[u8], start: usize) -> Result<(u64, usize), Stop>
    ensures { got result ≡ number image.now start }
{
    let runs_out = Stop {
        why: Refusal::BytesRunOut,
        place: start,
    };
    let malformed = Stop {
        why: Refusal::Malformed,
        place: start,
    };
    let mut at = start;
    let mut weight: u64 = 1;
    let mut sum: u64 = 0;
    for group in 0..9u32 {
        if image.len() <= at {
            return Err(runs_out);
        }
        let b = u64::from(image[at]);
        at += 1;
        if b < 128 {
            if b == 0 && 0 < group {
                return Err(malformed);
            }
            return Ok((sum + b * weight, at));
        }
        sum += (b - 128) * weight;
        weight *= 128;
    }
    if image.len() <= at {
        return Err(runs_out);
    }
    if image[at] == 1 {
        return Ok((sum + weight, at + 1));
    }
    Err(malformed)
}

// How many bytes the number takes.
pub fn length_of(v: u64) -> usize
    ensures { result ≡ length (bytes_of v) }
{
    let mut n: usize = 1;
    let mut left = v;
    while 128 <= left {
        left /= 128;
        n += 1;
    }
    n
}

// Writes the number's bytes from `start` on, and answers the place after them; or nothing where they have no room.
pub fn write_number(v: u64, out: &mut [u8], start: usize) -> Option<usize>
    ensures { Stored (bytes_of v) start out.old result out.new }
{
    let n = length_of(v);
    if out.len() < n || out.len() - n < start {
        return None;
    }
    let mut at = start;
    let mut left = v;
    while 128 <= left {
        out[at] = (left % 128 + 128) as u8;
        left /= 128;
        at += 1;
    }
    out[at] = left as u8;
    Some(at + 1)
}
