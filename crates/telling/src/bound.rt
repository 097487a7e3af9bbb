// Bounds of parts of slices.
ghost use Rattle.std.specs.Prelude.{◌≡◌, min, length};
ghost use Rattle.telling.specs.Bounds.{Counts};

use words::bound::least;

// So many of the slice's bytes, or all of them.
pub fn within(n: usize, s: &[u8]) -> usize
    ensures value { result ≡ min n (length s.now) }
    ensures counts { Counts result s.now }
{
    least(n, s.len())
}

// So many of the slice's words, or all of them.
pub fn words_within(n: usize, s: &[u64]) -> usize
    ensures value { result ≡ min n (length s.now) }
    ensures counts { Counts result s.now }
{
    least(n, s.len())
}
