// A text is written piece by piece, each from the place where the one before it ends.
ghost use Rattle.std.specs.Prelude.{◌≡◌, Some, length};
ghost use Rattle.words.specs.Text.{text, put, placed};

// The place after a piece of `count` bytes that begins at `at`, where it has room.
pub fn place(out: &[u8], at: usize, count: usize) -> Option<usize>
    ensures { result ≡ placed count (Some at) (length out.now) }
{
    let to = at.checked_add(count)?;
    if to <= out.len() { Some(to) } else { None }
}

// Writes the bytes, or nothing where they have no room, and answers the place after them.
pub fn write_bytes(out: &mut [u8], at: usize, bytes: &[u8]) -> Option<usize>
    ensures { text result out.new ≡ put bytes.now (text (Some at) out.old) }
{
    let to = place(out, at, bytes.len())?;
    out[at..to].copy_from_slice(bytes);
    Some(to)
}
