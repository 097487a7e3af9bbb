// Bounds of parts of slices.
ghost use Rattle.std.specs.Prelude.{◌≡◌, min};

pub fn least(a: usize, b: usize) -> usize
    ensures { result ≡ min a b }
{
    a.min(b)
}
