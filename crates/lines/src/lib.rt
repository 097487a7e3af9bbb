// The lines of an input that comes in parts.
#![tactic(auto)]

ghost use Rattle.std.specs.Prelude.{◌≡◌, length, drop};
ghost use Rattle.std.proofs.lemmas.List.Edits.{sets};
ghost use Rattle.lines.specs.Held.{line_in, held_after, held_at_end};

use words::word::find;

// The line that is being read: how many of its bytes are kept, the place after the input's bytes that were taken, and whether the line is at
// its end.
#[derive(Clone, Copy, Debug, PartialEq, Eq)]
pub struct Held {
    pub length: usize,
    pub at: usize,
    pub whole: bool,
}

// More of a line of which `kept` bytes stand in the buffer: the input's bytes from `at` on, up to a line's end. Those that have no room
// are passed over.
pub fn take_line(kept: usize, input: &[u8], at: usize, line: &mut [u8]) -> Held
    ensures { (result ≡ held_after (length line.old) kept at (drop at input.now)) × (line.new ≡ sets line.old kept (line_in (drop at input.now))) }
{
    let from = kept.min(line.len());
    if input.len() <= at {
        return Held {
            length: from,
            at,
            whole: false,
        };
    }
    let end = find(input, at, b'\n');
    let n = (end - at).min(line.len() - from);
    line[from..from + n].copy_from_slice(&input[at..at + n]);
    let whole = end < input.len();
    Held {
        length: from + n,
        at: if whole { end + 1 } else { end },
        whole,
    }
}

// The input's end, with so many bytes of a line kept.
#[tactic(auto, unfolding(crate::specs::Held::held_at_end))]
pub fn end_line(kept: usize) -> Held
    ensures { result ≡ held_at_end kept }
{
    Held {
        length: kept,
        at: 0,
        whole: kept != 0,
    }
}
