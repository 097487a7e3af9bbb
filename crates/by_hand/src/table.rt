// Words of a table, at any place.
ghost use Rattle.std.specs.Prelude.{◌≡◌, get_or, set};

// The word at a place, or 0 past the end.
pub fn word_at(s: &[u64], at: usize) -> u64
    ensures { result ≡ get_or s.now at 0 }
{
    s.get(at).copied().unwrap_or(0)
}

// The word at a place becomes this. A place past the end changes nothing.
pub fn put(s: &mut [u64], at: usize, v: u64)
    ensures { s.new ≡ set s.old at v }
{
    if at < s.len() {
        s[at] = v;
    }
}
