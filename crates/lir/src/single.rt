// `lir run` and `lir check`: one image, one answer.
use crate::file::read_image;
use crate::say;
use crate::source::{LINE_ROOM, ONE_READ, read_first};
use memory::{BOUNDS_LENGTH, FRAMES_LENGTH, POINTERS_LENGTH, STORE_LENGTH, VARIABLES_LENGTH};
use once::checked::write_checked;
use once::start_line::answer_start;
use telling::bound::within;

// A file over 32,768 bytes is read one byte further, so that the loader refuses it.
const IMAGE_ROOM: usize = 32769;

fn print_answer(rt: &HostRuntime, image: &[u8], line: &[u8]) {
    let mut out = [0u8; 128];
    let mut store = [0u8; STORE_LENGTH];
    let mut frames = [0u64; FRAMES_LENGTH];
    let mut bounds = [0u64; BOUNDS_LENGTH];
    let mut pointers = [0u64; POINTERS_LENGTH];
    let mut vars = [0u64; VARIABLES_LENGTH];
    let to = answer_start(
        line,
        image,
        &mut out,
        &mut store,
        &mut frames,
        &mut bounds,
        &mut pointers,
        &mut vars,
    );
    say::answer(rt, &out, to);
}

fn run_image(rt: &HostRuntime, image: &[u8], line: &mut [u8]) {
    let mut input = [0u8; ONE_READ];
    match read_first(rt, &mut input, line) {
        Ok(n) => {
            let end = within(n, line);
            print_answer(rt, image, &line[..end]);
        }
        Err(e) => say::input_failed(rt, e),
    }
}

fn print_loaded(rt: &HostRuntime, image: &[u8]) {
    let mut out = [0u8; 128];
    let to = write_checked(&mut out, image);
    say::answer(rt, &out, to);
}

// The arrays go by references that have their lengths in their types, so that the check never spells them out.
fn run_with(rt: &HostRuntime, room: &mut [u8; IMAGE_ROOM], line: &mut [u8; LINE_ROOM]) {
    if let Some(n) = read_image(rt, room) {
        let end = within(n, room);
        run_image(rt, &room[..end], line);
    }
}

fn check_with(rt: &HostRuntime, room: &mut [u8; IMAGE_ROOM]) {
    if let Some(n) = read_image(rt, room) {
        let end = within(n, room);
        print_loaded(rt, &room[..end]);
    }
}

pub fn run(rt: &HostRuntime) {
    let mut room = [0u8; IMAGE_ROOM];
    let mut line = [0u8; LINE_ROOM];
    run_with(rt, &mut room, &mut line);
}

pub fn check(rt: &HostRuntime) {
    let mut room = [0u8; IMAGE_ROOM];
    check_with(rt, &mut room);
}
