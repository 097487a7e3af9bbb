// The program: runs an image, checks one, or drives the evaluator by hand. It moves bytes between files and proved functions.
#![tactic(auto)]

mod dialog;
mod file;
mod say;
mod single;
mod source;

use file::PATH_ROOM;
use std::env::FillError;
use std::rt::Env;
use telling::bound::within;

const USAGE: [&[u8]; 5] = [
    b"usage: lir run IMAGE    run an image; the start line is the first line of standard input:\n",
    b"                        FUNCTION BUDGET KIND BITS [KIND BITS]...\n",
    b"       lir check IMAGE  load an image, or say why it is refused\n",
    b"       lir console      the host's calls by hand, a command a line from standard input\n",
    b"       lir help         this text\n",
];

fn usage(rt: &HostRuntime) {
    for line in USAGE {
        say::text(rt, line);
    }
}

fn command(rt: &HostRuntime, word: &[u8], count: usize) {
    match (count, word) {
        (3, b"run") => single::run(rt),
        (3, b"check") => single::check(rt),
        (2, b"console") => dialog::run(rt),
        _ => usage(rt),
    }
}

// How many words the command line has, the program's name among them; four are too many already.
fn arg_count(rt: &HostRuntime) -> usize {
    let mut word = [0u8; PATH_ROOM];
    for i in 0..4usize {
        if let Err(FillError::NotPresent) = rt.arg(i, &mut word) {
            return i;
        }
    }
    4
}

// The command word goes to the front of the buffer; one that is not there, or is too long, is no word.
fn first_arg(rt: &HostRuntime, word: &mut [u8]) -> usize {
    rt.arg(1, word).unwrap_or(0)
}

fn main(rt: HostRuntime) {
    let mut word = [0u8; PATH_ROOM];
    let n = first_arg(&rt, &mut word);
    let end = within(n, &word);
    command(&rt, &word[..end], arg_count(&rt));
}
