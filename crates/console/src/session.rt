// One line of the console, on the machine and the image of a session.
ghost use Rattle.std.specs.Prelude.{◌≡◌, take};
ghost use Rattle.std.proofs.lemmas.List.Edits.{sets};
ghost use Rattle.memory.specs.Tables.{tables, state};
ghost use Rattle.console.specs.Turns.{left, leaving, kept, keeping, machine_of, performed_of, read_of, answered_of, image_count};
ghost use Rattle.console.specs.Turns.{turn as Turns·turn};

use crate::changing::change;
use crate::looking::look;
use crate::running::perform_running;
use crate::{Told, Turn, tell};
use answers::line::write_image_taken;
use commands::Asked;
use commands::command::{Command, read_line};
use memory::Registers;
use telling::answer::write_unread;
use telling::bound::within;
use telling::{LONGEST, VALUES};
use words::BadWord;
use words::bound::least;
use words::text::write_bytes;

// The machine's part of a turn, beside the image's length.
fn turn(told: Told, image: usize) -> Turn
    ensures { result ≡ Turns·turn told image }
{
    let m = told.m;
    let text = told.text;
    Turn { m, image, text }
}

// `image HEX`: the bytes that have room become the image.
fn take_image(count: u64, bytes: &[u8], image: &mut [u8]) -> usize
    ensures { (result ≡ image_count count image.old bytes.now) × (image.new ≡ sets image.old 0 (take result bytes.now)) }
{
    let room = least(count as usize, image.len());
    let n = within(room, bytes);
    write_bytes(image, 0, &bytes[..n]);
    n
}

// A command of the machine: it runs the image, looks at the state or changes it.
fn perform_on_machine(
    m: Registers,
    asked: Asked,
    tags: &[u64],
    bits: &[u64],
    image: &[u8],
    bytes: &[u8],
    out: &mut [u8],
    store: &mut [u8],
    frames: &mut [u64],
    bounds: &mut [u64],
    pointers: &mut [u64],
    vars: &mut [u64],
) -> Told
    ensures { left result out.new store.new frames.new bounds.new pointers.new vars.new ≡ leaving out.old (machine_of asked tags.now bits.now image.now bytes.now (state (tables m store.old frames.old bounds.old pointers.old) vars.old)) }
{
    match asked.command {
        Command::Start | Command::Step | Command::Run => perform_running(
            m, asked, tags, bits, image, out, store, frames, bounds, pointers, vars,
        ),
        Command::Read | Command::Live | Command::Rewrite | Command::Dump => {
            let text = look(m, asked, image, out, store, frames, bounds, pointers, vars);
            tell(m, text)
        }
        _ => change(m, asked, bytes, out, store, frames, bounds, pointers, vars),
    }
}

// What a line asks is done: the image is taken, or the machine performs a command on it.
fn perform(
    m: Registers,
    asked: Asked,
    length: usize,
    tags: &[u64],
    bits: &[u64],
    image: &mut [u8],
    bytes: &[u8],
    out: &mut [u8],
    store: &mut [u8],
    frames: &mut [u64],
    bounds: &mut [u64],
    pointers: &mut [u64],
    vars: &mut [u64],
) -> Turn
    ensures { kept result out.new store.new frames.new bounds.new pointers.new vars.new image.new bytes.now ≡ keeping out.old (performed_of length asked tags.now bits.now image.old bytes.now (state (tables m store.old frames.old bounds.old pointers.old) vars.old)) }
{
    if let Command::Image = asked.command {
        let taken = take_image(asked.parts.count, bytes, image);
        let text = write_image_taken(out, 0, taken as u64);
        return turn(tell(m, text), taken);
    }
    let n = within(length, image);
    let told = perform_on_machine(
        m,
        asked,
        tags,
        bits,
        &image[..n],
        bytes,
        out,
        store,
        frames,
        bounds,
        pointers,
        vars,
    );
    turn(told, length)
}

// Answers a line that was read, or says which word cannot be.
fn answer_read(
    m: Registers,
    asked: Result<Asked, BadWord>,
    length: usize,
    tags: &[u64],
    bits: &[u64],
    image: &mut [u8],
    bytes: &[u8],
    out: &mut [u8],
    store: &mut [u8],
    frames: &mut [u64],
    bounds: &mut [u64],
    pointers: &mut [u64],
    vars: &mut [u64],
) -> Turn
    ensures { kept result out.new store.new frames.new bounds.new pointers.new vars.new image.new bytes.now ≡ keeping out.old (read_of length asked tags.now bits.now image.old bytes.now (state (tables m store.old frames.old bounds.old pointers.old) vars.old)) }
{
    match asked {
        Ok(asked) => perform(
            m, asked, length, tags, bits, image, bytes, out, store, frames, bounds, pointers, vars,
        ),
        Err(bad) => turn(tell(m, write_unread(out, bad.0)), length),
    }
}

// Answers a line of the console: what it asks is done on the machine and the image, whose first `length` bytes are the image.
pub fn answer(
    m: Registers,
    length: usize,
    line: &[u8],
    image: &mut [u8],
    bytes: &mut [u8],
    out: &mut [u8],
    store: &mut [u8],
    frames: &mut [u64],
    bounds: &mut [u64],
    pointers: &mut [u64],
    vars: &mut [u64],
) -> Turn
    ensures { kept result out.new store.new frames.new bounds.new pointers.new vars.new image.new bytes.new ≡ keeping out.old (answered_of length line.now image.old bytes.old (state (tables m store.old frames.old bounds.old pointers.old) vars.old)) }
{
    if LONGEST < line.len() {
        return turn(tell(m, write_unread(out, 0)), length);
    }
    let mut tags = [0u64; VALUES];
    let mut bits = [0u64; VALUES];
    let asked = read_line(line, m.depth, bytes, &mut tags, &mut bits);
    answer_read(
        m, asked, length, &tags, &bits, image, bytes, out, store, frames, bounds, pointers, vars,
    )
}
