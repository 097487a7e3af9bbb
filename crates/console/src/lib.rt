// What each command of the console does, on the machine and the image of a session.
#![tactic(auto)]

mod changing;
mod looking;
mod running;
pub mod session;

ghost use Rattle.std.specs.Prelude.{◌≡◌};
ghost use Rattle.console.specs.Turns.{told};

use memory::Registers;

// What a command of the machine leaves: its registers, and where the answer ends, if it has room.
#[derive(Clone, Copy)]
pub struct Told {
    pub m: Registers,
    pub text: Option<usize>,
}

// What a line leaves: the machine's registers, how long the image is, and where the answer ends, if it has room.
#[derive(Clone, Copy)]
pub struct Turn {
    pub m: Registers,
    pub image: usize,
    pub text: Option<usize>,
}

fn tell(m: Registers, text: Option<usize>) -> Told
    ensures { result ≡ told m text }
{
    Told { m, text }
}
