// Reading a file, and standard input.
use crate::say;
use std::fs::File;
use std::io;
use std::io::Read;
use std::rt::Env;

// A path is no longer than this.
pub const PATH_ROOM: usize = 4096;

// The bytes to the end, or as many as have room: how many there are.
fn read_all<R: Read>(from: &mut R, buffer: &mut [u8]) -> io::Result<usize> {
    let mut n = 0usize;
    while n < buffer.len() {
        let more = from.read(&mut buffer[n..])?;
        if more == 0 {
            return Ok(n);
        }
        n += more;
    }
    Ok(n)
}

fn read_path(rt: &HostRuntime, path: &str, image: &mut [u8]) -> io::Result<usize> {
    let mut file = File::open(rt, path)?;
    read_all(&mut file, image)
}

// The path as text: the library opens no other.
fn read_named(rt: &HostRuntime, path: &[u8], image: &mut [u8]) -> io::Result<usize> {
    match str::from_utf8(path) {
        Ok(text) => read_path(rt, text, image),
        Err(_) => Err(io::Error::from(io::ErrorKind::InvalidFilename)),
    }
}

// The file that the second argument names: how many bytes it has, or as many as have room. A failure is told on standard error by the
// file's name and the reason.
pub fn read_image(rt: &HostRuntime, image: &mut [u8]) -> Option<usize> {
    let mut path = [0u8; PATH_ROOM];
    match rt.arg(2, &mut path) {
        Ok(n) => match read_named(rt, &path[..n], image) {
            Ok(count) => Some(count),
            Err(e) => {
                say::failed(rt, &path[..n], e);
                None
            }
        },
        Err(_) => {
            say::failed(rt, b"IMAGE", io::Error::from_raw_os_error(36));
            None
        }
    }
}
