// Registers and answers as words.
ghost use Rattle.std.specs.Prelude.{◌≡◌, get_or};
ghost use Rattle.replies.specs.Words.{shaped_of, refused_of, stopped_of, reply_error, ended_of, registers_in, registers_put, reply_put, counted_of, reply_moved, reply_entered, reply_run, reply_given, reply_read, reply_written, number_of};

use eval::entry::EntryError;
use image::number::Stop;
use image_writer::writer::WriteError;
use instruction::step::Progress;
use instruction::variables::Found;
use memory::Registers;
use run::Ran;
use value::refusal::Refusal;

// How many words the registers and an answer are.
pub const REGISTERS: usize = 5;

pub const ANSWER: usize = 4;

// A refusal's number or 0, and the words of an answer.
#[derive(Clone, Copy, Debug, PartialEq, Eq)]
pub struct Reply {
    pub number: u64,
    pub ended: u64,
    pub tag: u64,
    pub bits: u64,
    pub count: u64,
}

// Whether registers and answer have their lengths.
#[tactic(auto, unfolding(crate::specs::Words::shaped_of))]
pub fn shaped(registers: usize, answer: usize) -> bool
    ensures { result ≡ shaped_of registers answer }
{
    registers == REGISTERS && answer == ANSWER
}

// The k-th word, 0 beyond the last.
fn word(words: &[u64], k: usize) -> u64
    ensures { result ≡ get_or words.now k 0 }
{
    words.get(k).copied().unwrap_or(0)
}

// The registers that five words say.
pub fn registers_in(words: &[u64]) -> Registers
    ensures { result ≡ registers_in words.now }
{
    Registers {
        running: word(words, 0),
        next: word(words, 1) as usize,
        counter: word(words, 2),
        depth: word(words, 3) as usize,
        pointers: word(words, 4) as usize,
    }
}

// The registers into five words.
#[tactic(auto, unfolding(crate::specs::Words::registers_put))]
pub fn put_registers(m: Registers, words: &mut [u64])
    ensures { words.new ≡ registers_put m words.old }
{
    if words.len() == REGISTERS {
        words.copy_from_slice(&[
            m.running,
            m.next as u64,
            m.counter,
            m.depth as u64,
            m.pointers as u64,
        ]);
    }
}

// An answer into four words.
#[tactic(auto, unfolding(crate::specs::Words::reply_put))]
pub fn put_reply(r: Reply, words: &mut [u64])
    ensures { words.new ≡ reply_put r words.old }
{
    if words.len() == ANSWER {
        words.copy_from_slice(&[r.ended, r.tag, r.bits, r.count]);
    }
}

// An answer with a count and no value.
fn counted(number: u64, count: u64) -> Reply
    ensures { result ≡ counted_of number count }
{
    Reply {
        number,
        ended: 0,
        tag: 0,
        bits: 0,
        count,
    }
}

// A refusal's number, and no count.
fn refused(why: Refusal) -> Reply
    ensures { result ≡ refused_of why }
{
    counted(why.number(), 0)
}

// An image that was refused: the number, and the place as the count.
fn stopped(stop: Stop) -> Reply
    ensures { result ≡ stopped_of stop }
{
    counted(stop.why.number(), stop.place as u64)
}

fn reply_error(e: EntryError) -> Reply
    ensures { result ≡ reply_error e }
{
    match e {
        EntryError::Refused(why) => refused(why),
        EntryError::NotLoaded(stop) => stopped(stop),
    }
}

// The last Return's value, or none: tag 0 and bits 0.
fn ended(v: Option<Found>, count: u64) -> Reply
    ensures { result ≡ ended_of v count }
{
    let v = v.unwrap_or(Found { tag: 0, bits: 0 });
    Reply {
        number: 0,
        ended: 1,
        tag: v.tag,
        bits: v.bits,
        count,
    }
}

pub fn reply_moved(r: Result<Registers, Refusal>) -> Reply
    ensures { result ≡ reply_moved r }
{
    match r {
        Ok(_) => counted(0, 0),
        Err(why) => refused(why),
    }
}

pub fn reply_entered(r: Result<Progress, EntryError>) -> Reply
    ensures { result ≡ reply_entered r }
{
    match r {
        Ok(Progress::Next(_)) => counted(0, 0),
        Ok(Progress::Ended(_, v)) => ended(v, 0),
        Err(e) => reply_error(e),
    }
}

pub fn reply_run(r: Result<Ran, EntryError>) -> Reply
    ensures { result ≡ reply_run r }
{
    match r {
        Ok(Ran::Returned(_, v, count)) => ended(v, count),
        Ok(Ran::Paused(_, count)) => counted(0, count),
        Ok(Ran::Stopped(_, why, count)) => counted(why.number(), count),
        Err(e) => reply_error(e),
    }
}

pub fn reply_given(r: Result<(usize, Registers), Refusal>) -> Reply
    ensures { result ≡ reply_given r }
{
    match r {
        Ok((pointer, _)) => counted(0, pointer as u64),
        Err(why) => refused(why),
    }
}

pub fn reply_read(r: Result<(), EntryError>) -> Reply
    ensures { result ≡ reply_read r }
{
    match r {
        Ok(()) => counted(0, 0),
        Err(e) => reply_error(e),
    }
}

pub fn reply_written(r: Result<usize, WriteError>) -> Reply
    ensures { result ≡ reply_written r }
{
    match r {
        Ok(count) => counted(0, count as u64),
        Err(WriteError::NotLoaded(stop)) => stopped(stop),
        Err(WriteError::Short(why)) => refused(why),
    }
}

// The number of a refusal, or 0.
pub fn number_of(r: Result<(), Refusal>) -> u64
    ensures { result ≡ number_of r }
{
    match r {
        Ok(()) => 0,
        Err(why) => why.number(),
    }
}
