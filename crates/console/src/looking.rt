// The commands that look at the state and leave it as it is: `read`, `live`, `rewrite` and `dump`.
ghost use Rattle.std.specs.Prelude.{◌≡◌};
ghost use Rattle.words.specs.Text.{text};
ghost use Rattle.memory.specs.Tables.{tables, state};
ghost use Rattle.eval.specs.Entry.{read_entered};
ghost use Rattle.telling.specs.Told.{line};
ghost use Rattle.console.specs.Turns.{reading_line, read_line_of, rewritten_in, rewrite_line_of, looked_of};

use by_hand::dump::write_dump;
use commands::command::Command;
use commands::{Asked, Parts};
use eval::entry::host_read;
use image_writer::writer::write_image;
use memory::Registers;
use telling::answer::{write_readout, write_rewritten};
use telling::bound::within;
use telling::live::write_live;

// As many bytes as the buffer holds, read through a pointer.
fn read_into(
    buffer: &mut [u8],
    p: usize,
    m: Registers,
    image: &[u8],
    out: &mut [u8],
    store: &[u8],
    frames: &[u64],
    bounds: &[u64],
    pointers: &[u64],
    vars: &[u64],
) -> Option<usize>
    ensures { text result out.new ≡ line (reading_line (read_entered image.now p buffer.old (state (tables m store.now frames.now bounds.now pointers.now) vars.now))) out.old }
{
    let r = host_read(image, m, p, buffer, store, frames, bounds, pointers, vars);
    write_readout(out, r, buffer)
}

// `read P SIZE`
fn look_read(
    m: Registers,
    parts: Parts,
    image: &[u8],
    out: &mut [u8],
    store: &[u8],
    frames: &[u64],
    bounds: &[u64],
    pointers: &[u64],
    vars: &[u64],
) -> Option<usize>
    ensures { text result out.new ≡ line (read_line_of parts image.now (state (tables m store.now frames.now bounds.now pointers.now) vars.now)) out.old }
{
    let mut bytes = [0u8; 32768];
    let size = within(parts.second as usize, &bytes);
    let p = parts.first as usize;
    read_into(
        &mut bytes[..size],
        p,
        m,
        image,
        out,
        store,
        frames,
        bounds,
        pointers,
        vars,
    )
}

// The image, written again into a buffer.
fn rewrite_into(buffer: &mut [u8], image: &[u8], out: &mut [u8]) -> Option<usize>
    ensures { text result out.new ≡ line (rewritten_in image.now buffer.old) out.old }
{
    let o = write_image(image, buffer);
    write_rewritten(out, o, buffer)
}

// `rewrite ROOM`
fn look_rewrite(parts: Parts, image: &[u8], out: &mut [u8]) -> Option<usize>
    ensures { text result out.new ≡ line (rewrite_line_of parts image.now) out.old }
{
    let mut bytes = [0u8; 32768];
    let room = within(parts.first as usize, &bytes);
    rewrite_into(&mut bytes[..room], image, out)
}

// The commands that look at the state.
pub fn look(
    m: Registers,
    asked: Asked,
    image: &[u8],
    out: &mut [u8],
    store: &[u8],
    frames: &[u64],
    bounds: &[u64],
    pointers: &[u64],
    vars: &[u64],
) -> Option<usize>
    ensures { text result out.new ≡ line (looked_of asked.command asked.parts image.now (state (tables m store.now frames.now bounds.now pointers.now) vars.now)) out.old }
{
    let parts = asked.parts;
    match asked.command {
        Command::Read => look_read(m, parts, image, out, store, frames, bounds, pointers, vars),
        Command::Live => write_live(out, parts.first, m, store, frames, bounds, pointers, vars),
        Command::Rewrite => look_rewrite(parts, image, out),
        _ => write_dump(out, 0, m, store, frames, bounds, pointers, vars),
    }
}
