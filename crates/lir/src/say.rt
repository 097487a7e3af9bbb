// What is written to standard output, and of failures to standard error.
use std::io;
use std::io::Write;
use telling::bound::within;

// Where standard error fails too, there is nobody to tell.
fn complain(rt: &HostRuntime, bytes: &[u8]) {
    let _ = rt.stderr().write_all(bytes);
}

// The reason without the number that the library adds to it.
fn reason(text: &str) -> &str {
    match text.find(" (os error ") {
        Some(end) => &text[..end],
        None => text,
    }
}

fn tell_reason(rt: &HostRuntime, e: io::Error) -> io::Result<()> {
    let text = format!(in rt.alloc(); "{e}")?;
    complain(rt, reason(text.as_str()).as_bytes());
    Ok(())
}

// `what: reason`, on standard error.
pub fn failed(rt: &HostRuntime, what: &[u8], e: io::Error) {
    complain(rt, what);
    complain(rt, b": ");
    let _ = tell_reason(rt, e);
    complain(rt, b"\n");
}

pub fn input_failed(rt: &HostRuntime, e: io::Error) {
    failed(rt, b"standard input", e);
}

pub fn text(rt: &HostRuntime, bytes: &[u8]) {
    if let Err(e) = rt.stdout().write_all(bytes) {
        failed(rt, b"standard output", e);
    }
}

// The answer that a buffer holds.
pub fn answer(rt: &HostRuntime, out: &[u8], to: Option<usize>) {
    match to {
        Some(n) => {
            let end = within(n, out);
            text(rt, &out[..end]);
        }
        None => complain(rt, b"lir: an answer had no room\n"),
    }
}
