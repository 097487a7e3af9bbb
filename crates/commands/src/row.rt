// The row of each command: what the parts of its line may be, and what ends it.
ghost use Rattle.std.specs.Prelude.{◌≡◌};
ghost use Rattle.commands.specs.Rows.{row, row_of, poke_row, start_row};

use crate::command::{Command, Poke};
use crate::part::{End, Part};

// Up to four parts, and the line's end.
#[derive(Clone, Copy, Debug, PartialEq, Eq)]
pub struct Row {
    pub first: Option<Part>,
    pub second: Option<Part>,
    pub third: Option<Part>,
    pub fourth: Option<Part>,
    pub end: End,
}

// Any number, 0 or 1, a variable, room for pointers, a size, a budget.
const ANY: Option<Part> = Some(Part::UpTo(u64::MAX));

const FLAG: Option<Part> = Some(Part::UpTo(1));

const VARIABLE: Option<Part> = Some(Part::UpTo(255));

const LIST_ROOM: Option<Part> = Some(Part::UpTo(4096));

const SIZE: Option<Part> = Some(Part::UpTo(32768));

const BUDGET: Option<Part> = Some(Part::UpTo(4294967295));

const FRAME: Option<Part> = Some(Part::Frame);

const VAR: Option<Part> = Some(Part::Var);

const KIND: Option<Part> = Some(Part::Kind);

const BITS: Option<Part> = Some(Part::Bits);

fn parts(
    first: Option<Part>,
    second: Option<Part>,
    third: Option<Part>,
    fourth: Option<Part>,
    end: End,
) -> Row
    ensures { result ≡ row first second third fourth end }
{
    Row {
        first,
        second,
        third,
        fourth,
        end,
    }
}

fn poke_row(poke: Poke) -> Row
    ensures { result ≡ poke_row poke }
{
    match poke {
        Poke::Counter => parts(ANY, None, None, None, End::Nothing),
        Poke::Next => parts(ANY, None, None, None, End::Nothing),
        Poke::Running => parts(FLAG, None, None, None, End::Nothing),
        Poke::Var => parts(VARIABLE, KIND, BITS, None, End::Nothing),
        Poke::Unset => parts(VARIABLE, None, None, None, End::Nothing),
        Poke::Frame => parts(ANY, ANY, VAR, None, End::Nothing),
        Poke::Id => parts(FRAME, ANY, None, None, End::Nothing),
        Poke::Place => parts(FRAME, ANY, None, None, End::Nothing),
        Poke::Rvar => parts(FRAME, VAR, None, None, End::Nothing),
        Poke::Local => parts(ANY, ANY, ANY, ANY, End::Nothing),
        Poke::Const => parts(ANY, ANY, None, None, End::Nothing),
    }
}

pub fn row_of(command: Command) -> Row
    ensures { result ≡ row_of command }
{
    match command {
        Command::Image => parts(None, None, None, None, End::Hex),
        Command::Fresh => parts(None, None, None, None, End::Nothing),
        Command::Allocate => parts(ANY, None, None, None, End::Nothing),
        Command::Write => parts(ANY, None, None, None, End::Hex),
        Command::Read => parts(ANY, SIZE, None, None, End::Nothing),
        Command::Start => parts(ANY, None, None, None, End::Values),
        Command::Step => parts(None, None, None, None, End::Nothing),
        Command::Run => parts(BUDGET, None, None, None, End::Nothing),
        Command::Live => parts(LIST_ROOM, None, None, None, End::Nothing),
        Command::Rewrite => parts(SIZE, None, None, None, End::Nothing),
        Command::Dump => parts(None, None, None, None, End::Nothing),
        Command::Poke(poke) => poke_row(poke),
    }
}

// The row of a start line: the function, the budget, and the values.
pub fn start_row() -> Row
    ensures { result ≡ start_row }
{
    parts(ANY, BUDGET, None, None, End::Values)
}
