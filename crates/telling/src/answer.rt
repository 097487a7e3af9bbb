// What the evaluator answers, as a line from the start of the buffer.
ghost use Rattle.std.specs.Prelude.{◌≡◌};
ghost use Rattle.words.specs.Text.{text};
ghost use Rattle.telling.specs.Told.{line, stop_line, error_line, end_line, ran_line, last_line, entered_line, start_line, step_line, fresh_line, given_line, outcome_line, read_line, rewritten_line};
ghost use Rattle.telling.specs.Starts.{unread_line};

use crate::bound::within;
use answers::line::{
    write_cannot_read, write_image_refused, write_no_value, write_ok, write_paused, write_pointer,
    write_read_bytes, write_refusal, write_refused, write_returned, write_returned_none,
    write_stepped, write_value_line,
};
use eval::entry::EntryError;
use image::number::Stop;
use image_writer::writer::WriteError;
use instruction::step::Progress;
use instruction::variables::Found;
use memory::Registers;
use run::Ran;
use value::refusal::Refusal;

fn write_end(out: &mut [u8], v: Option<Found>, steps: u64) -> Option<usize>
    ensures { text result out.new ≡ line (end_line v steps) out.old }
{
    match v {
        Some(v) => write_returned(out, 0, v.tag, v.bits, steps),
        None => write_returned_none(out, 0, steps),
    }
}

// `image refused NUMBER at PLACE`
pub fn write_stop(out: &mut [u8], stop: Stop) -> Option<usize>
    ensures { text result out.new ≡ line (stop_line stop) out.old }
{
    write_image_refused(out, 0, stop.why.number(), stop.place as u64)
}

// `refused NUMBER`, or `image refused NUMBER at PLACE`
fn write_error(out: &mut [u8], e: EntryError) -> Option<usize>
    ensures { text result out.new ≡ line (error_line e) out.old }
{
    match e {
        EntryError::Refused(why) => write_refusal(out, 0, why.number()),
        EntryError::NotLoaded(stop) => write_stop(out, stop),
    }
}

// `returned KIND BITS steps N`, `returned none steps N`, `paused steps N`, `refused NUMBER steps N` or `image refused NUMBER at PLACE`
pub fn write_ran(out: &mut [u8], r: Result<Ran, EntryError>) -> Option<usize>
    ensures { text result out.new ≡ line (ran_line r) out.old }
{
    match r {
        Ok(Ran::Returned(_, v, steps)) => write_end(out, v, steps),
        Ok(Ran::Paused(_, steps)) => write_paused(out, 0, steps),
        Ok(Ran::Stopped(_, why, steps)) => write_refused(out, 0, why.number(), steps),
        Err(EntryError::Refused(why)) => write_refused(out, 0, why.number(), 0),
        Err(EntryError::NotLoaded(stop)) => write_stop(out, stop),
    }
}

fn write_last(out: &mut [u8], v: Option<Found>) -> Option<usize>
    ensures { text result out.new ≡ line (last_line v) out.old }
{
    match v {
        Some(v) => write_value_line(out, 0, v.tag, v.bits),
        None => write_no_value(out, 0),
    }
}

// `stepped`, `returned KIND BITS` or `returned none`
pub fn write_step(out: &mut [u8], r: Result<Progress, EntryError>) -> Option<usize>
    ensures { text result out.new ≡ line (step_line r) out.old }
{
    match r {
        Ok(Progress::Next(_)) => write_stepped(out, 0),
        Ok(Progress::Ended(_, v)) => write_last(out, v),
        Err(e) => write_error(out, e),
    }
}

// `ok`. It has three arms of its own beside `write_step`: a closure for the first would bring its contract, which is longer than they are.
pub fn write_start(out: &mut [u8], r: Result<Progress, EntryError>) -> Option<usize>
    ensures { text result out.new ≡ line (start_line r) out.old }
{
    match r {
        Ok(Progress::Next(_)) => write_ok(out, 0),
        Ok(Progress::Ended(_, v)) => write_last(out, v),
        Err(e) => write_error(out, e),
    }
}

// `ok`, where fresh memory was made
pub fn write_moved(out: &mut [u8], r: Result<Registers, Refusal>) -> Option<usize>
    ensures { text result out.new ≡ line (fresh_line r) out.old }
{
    match r {
        Ok(_) => write_ok(out, 0),
        Err(why) => write_refusal(out, 0, why.number()),
    }
}

// `pointer N`
pub fn write_given(out: &mut [u8], r: Result<(usize, Registers), Refusal>) -> Option<usize>
    ensures { text result out.new ≡ line (given_line r) out.old }
{
    match r {
        Ok((p, _)) => write_pointer(out, 0, p as u64),
        Err(why) => write_refusal(out, 0, why.number()),
    }
}

// `ok`
pub fn write_outcome(out: &mut [u8], r: Result<(), Refusal>) -> Option<usize>
    ensures { text result out.new ≡ line (outcome_line r) out.old }
{
    match r {
        Ok(()) => write_ok(out, 0),
        Err(why) => write_refusal(out, 0, why.number()),
    }
}

// `bytes HEX`
pub fn write_readout(out: &mut [u8], r: Result<(), EntryError>, bytes: &[u8]) -> Option<usize>
    ensures { text result out.new ≡ line (read_line r bytes.now) out.old }
{
    match r {
        Ok(()) => write_read_bytes(out, 0, bytes),
        Err(e) => write_error(out, e),
    }
}

// `bytes HEX`: the image that the writer wrote at the buffer's start.
pub fn write_rewritten(out: &mut [u8], r: Result<usize, WriteError>, bytes: &[u8]) -> Option<usize>
    ensures { text result out.new ≡ line (rewritten_line r bytes.now) out.old }
{
    match r {
        Ok(n) => {
            let end = within(n, bytes);
            write_read_bytes(out, 0, &bytes[..end])
        }
        Err(WriteError::Short(why)) => write_refusal(out, 0, why.number()),
        Err(WriteError::NotLoaded(stop)) => write_stop(out, stop),
    }
}

// `cannot read: word N`, counted from 1
pub fn write_unread(out: &mut [u8], word: usize) -> Option<usize>
    ensures { text result out.new ≡ line (unread_line word) out.old }
{
    let count = std::num::wrapping_add_u64(word as u64, 1);
    write_cannot_read(out, 0, count)
}
