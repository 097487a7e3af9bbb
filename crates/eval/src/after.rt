// The registers after an entry: those that it hands out, or where it is refused the caller's own.
ghost use Rattle.std.specs.Prelude.{◌≡◌};
ghost use Rattle.eval.specs.After.{after_moved, after_entered, after_run, after_given};

use crate::entry::EntryError;
use instruction::step::Progress;
use memory::Registers;
use run::Ran;
use value::refusal::Refusal;

// After fresh memory was made.
pub fn after_moved(r: Result<Registers, Refusal>, m: Registers) -> Registers
    ensures { result ≡ after_moved r m }
{
    match r {
        Ok(n) => n,
        Err(_) => m,
    }
}

// After a start or a step.
pub fn after_entered(r: Result<Progress, EntryError>, m: Registers) -> Registers
    ensures { result ≡ after_entered r m }
{
    match r {
        Ok(Progress::Next(n)) => n,
        Ok(Progress::Ended(n, _)) => n,
        Err(_) => m,
    }
}

// After a run.
pub fn after_run(r: Result<Ran, EntryError>, m: Registers) -> Registers
    ensures { result ≡ after_run r m }
{
    match r {
        Ok(Ran::Returned(n, _, _)) => n,
        Ok(Ran::Paused(n, _)) => n,
        Ok(Ran::Stopped(n, _, _)) => n,
        Err(_) => m,
    }
}

// After an allocation.
pub fn after_given(r: Result<(usize, Registers), Refusal>, m: Registers) -> Registers
    ensures { result ≡ after_given r m }
{
    match r {
        Ok((_, n)) => n,
        Err(_) => m,
    }
}
