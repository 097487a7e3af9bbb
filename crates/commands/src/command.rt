// What a line asks: its command by name, and then its parts by the command's row.
ghost use Rattle.std.specs.Prelude.{◌≡◌, ℕ, List, find, bytes_eq};
ghost use Rattle.words.specs.Words.{words};
ghost use Rattle.commands.specs.Names.{command_name, poke_name, name_read};
ghost use Rattle.commands.specs.Commands.{Reads, LineReads, StartReads};

use crate::part::{Spot, read_end, read_part};
use crate::row::{Row, row_of, start_row};
use crate::{Asked, Parts};
use words::BadWord;
use words::word::{is_word, word};

// A command of the console.
#[derive(Clone, Copy, Debug, PartialEq, Eq)]
pub enum Command {
    Image,
    Fresh,
    Allocate,
    Write,
    Read,
    Start,
    Step,
    Run,
    Live,
    Rewrite,
    Dump,
    Poke(Poke),
}

// What `poke` changes.
#[derive(Clone, Copy, Debug, PartialEq, Eq)]
pub enum Poke {
    Counter,
    Next,
    Running,
    Var,
    Unset,
    Frame,
    Id,
    Place,
    Rvar,
    Local,
    Const,
}

// The commands of one word, in the order of the page that describes them.
const COMMANDS: [Command; 11] = [
    Command::Image,
    Command::Fresh,
    Command::Allocate,
    Command::Write,
    Command::Read,
    Command::Start,
    Command::Step,
    Command::Run,
    Command::Live,
    Command::Rewrite,
    Command::Dump,
];

const POKES: [Poke; 11] = [
    Poke::Counter,
    Poke::Next,
    Poke::Running,
    Poke::Var,
    Poke::Unset,
    Poke::Frame,
    Poke::Id,
    Poke::Place,
    Poke::Rvar,
    Poke::Local,
    Poke::Const,
];

// What a word of a line names.
trait Named: Copy {
    ghost name_of: { Self → List ℕ };

    fn name(self) -> &'static str
        ensures { result.now ≡ name_of self };
}

impl Named for Command {
    ghost name_of = { command_name };

    // Its first word.
    fn name(self) -> &'static str {
        match self {
            Command::Image => "image",
            Command::Fresh => "fresh",
            Command::Allocate => "allocate",
            Command::Write => "write",
            Command::Read => "read",
            Command::Start => "start",
            Command::Step => "step",
            Command::Run => "run",
            Command::Live => "live",
            Command::Rewrite => "rewrite",
            Command::Dump => "dump",
            Command::Poke(_) => "poke",
        }
    }
}

impl Named for Poke {
    ghost name_of = { poke_name };

    // The word after `poke`.
    fn name(self) -> &'static str {
        match self {
            Poke::Counter => "counter",
            Poke::Next => "next",
            Poke::Running => "running",
            Poke::Var => "var",
            Poke::Unset => "unset",
            Poke::Frame => "frame",
            Poke::Id => "id",
            Poke::Place => "place",
            Poke::Rvar => "rvar",
            Poke::Local => "local",
            Poke::Const => "const",
        }
    }
}

// The first of these that a word names.
fn named_by<T: Named>(all: &[T], word: &[u8]) -> Option<T>
    ensures { result ≡ find (λ x. bytes_eq (T.name_of x) word.now) all.now }
{
    all.iter()
        .copied()
        .find(|one| one.name().as_bytes() == word)
}

// The command that a line names, and the place after its name.
fn read_name(line: &[u8]) -> Result<(Command, usize), BadWord>
    ensures { result ≡ name_read (words line.now) }
{
    if is_word(line, 0, b"poke") {
        let poke = named_by(&POKES, word(line, 1)).ok_or(BadWord(1))?;
        return Ok((Command::Poke(poke), 2));
    }
    let command = named_by(&COMMANDS, word(line, 0)).ok_or(BadWord(0))?;
    Ok((command, 1))
}

// The parts of a line by a row, from the word at `next` on.
fn read_row(
    line: &[u8],
    next: usize,
    row: Row,
    depth: usize,
    bytes: &mut [u8],
    tags: &mut [u64],
    bits: &mut [u64],
) -> Result<Parts, BadWord>
    ensures { Reads row depth next (words line.now) result bytes.old bytes.new tags.old tags.new bits.old bits.new }
{
    let start = Spot { value: 0, next };
    let a = read_part(line, start, row.first, depth)?;
    let b = read_part(line, a, row.second, depth)?;
    let c = read_part(line, b, row.third, depth)?;
    let d = read_part(line, c, row.fourth, depth)?;
    let count = read_end(line, d.next, row.end, bytes, tags, bits)?;
    Ok(Parts {
        first: a.value,
        second: b.value,
        third: c.value,
        fourth: d.value,
        count,
    })
}

// What a line of the console asks, on a machine of this depth, or its first word that cannot be read. HEX goes into `bytes` and values
// into `tags` and `bits`.
pub fn read_line(
    line: &[u8],
    depth: usize,
    bytes: &mut [u8],
    tags: &mut [u64],
    bits: &mut [u64],
) -> Result<Asked, BadWord>
    ensures { LineReads depth (words line.now) result bytes.old bytes.new tags.old tags.new bits.old bits.new }
{
    let (command, next) = read_name(line)?;
    let parts = read_row(line, next, row_of(command), depth, bytes, tags, bits)?;
    Ok(Asked { command, parts })
}

// What a start line asks: the function, the budget and the values.
pub fn read_start_line(
    line: &[u8],
    bytes: &mut [u8],
    tags: &mut [u64],
    bits: &mut [u64],
) -> Result<Parts, BadWord>
    ensures { StartReads (words line.now) result bytes.old bytes.new tags.old tags.new bits.old bits.new }
{
    read_row(line, 0, start_row(), 0, bytes, tags, bits)
}
