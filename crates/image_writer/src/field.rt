// Fields of a program, written from their values. Each answers the place after it, or nothing where it has no room.
ghost use Rattle.std.specs.Prelude.{◌++◌};
ghost use Rattle.image.specs.Number.{bytes_of};
ghost use Rattle.image.specs.Answer.{Stored};

use image::number::{length_of, write_number};

// Two numbers: an operand's tag and bits, a slot's variable and size, a branch's number and label, a declaration's variable and type.
pub fn write_pair(first: u64, second: u64, out: &mut [u8], start: usize) -> Option<usize>
    ensures { Stored (bytes_of first ++ bytes_of second) start out.old result out.new }
{
    let n = length_of(first) + length_of(second);
    if out.len() < n || out.len() - n < start {
        return None;
    }
    let at = write_number(first, out, start)?;
    write_number(second, out, at)
}

// Raw bytes, of a constant or of Initialize: a byte a turn, so that the library for C asks for no `memmove`.
pub fn write_bytes(raw: &[u8], out: &mut [u8], start: usize) -> Option<usize>
    ensures { Stored raw.now start out.old result out.new }
{
    let n = raw.len();
    if out.len() < n || out.len() - n < start {
        return None;
    }
    for i in 0..n {
        out[start + i] = raw[i];
    }
    Some(start + n)
}
