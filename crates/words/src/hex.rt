// Bytes as pairs of hex digits.
ghost use Rattle.std.specs.Prelude.{◌≡◌, ◌*◌, ◌/◌, ◌<◌, Some, length};
ghost use Rattle.words.specs.Text.{text, put};
ghost use Rattle.words.specs.Hex.{is_hex, bytes_said, hex_answer, hex_buffer, pairs_of, hex_of};
ghost use Rattle.words.specs.Hex.{nibble as Hex·nibble};
ghost use Rattle.words.specs.Hex.{glyph as Hex·glyph};

use crate::HexError;
use crate::text::{place, write_bytes};

// What a hex digit says.
#[tactic(auto, unfolding(crate::specs::Hex::nibble))]
fn nibble(b: u8) -> u8
    ensures value { result ≡ Hex·nibble b }
    ensures upper_bound { result < 16 }
{
    match b {
        b'0'..=b'9' => b - b'0',
        b'a'..=b'f' => b - b'a' + 10,
        b'A'..=b'F' => b - b'A' + 10,
        _ => 0,
    }
}

// Whether a word is HEX.
fn is_hex(word: &[u8]) -> bool
    ensures { result ≡ is_hex word.now }
{
    match word {
        [] => false,
        [b] => *b == b'-',
        _ => word.len() % 2 == 0 && word.iter().all(|b| b.is_ascii_hexdigit()),
    }
}

// The bytes that a word's pairs say.
fn decode(word: &[u8], out: &mut [u8])
    requires { length out.old ≡ length word.now / 2 }
    ensures { out.new ≡ bytes_said word.now }
{
    for i in 0..out.len() {
        out[i] = nibble(word[2 * i]) * 16 + nibble(word[2 * i + 1]);
    }
}

// Reads a word of HEX into the buffer, or leaves it as it was: how many bytes the word says.
pub fn read_hex(word: &[u8], out: &mut [u8]) -> Result<usize, HexError>
    ensures { (result ≡ hex_answer word.now (length out.old)) × (out.new ≡ hex_buffer word.now out.old) }
{
    if !is_hex(word) {
        return Err(HexError::Bad);
    }
    let count = word.len() / 2;
    if out.len() < count {
        return Err(HexError::Long);
    }
    decode(word, &mut out[..count]);
    Ok(count)
}

// A digit below 16 in lower case.
fn glyph(d: u8) -> u8
    requires { d < 16 }
    ensures { result ≡ Hex·glyph d }
{
    if d < 10 { b'0' + d } else { b'a' + (d - 10) }
}

// The bytes' digits.
fn encode(out: &mut [u8], bytes: &[u8])
    requires { length out.old ≡ length bytes.now * 2 }
    ensures { out.new ≡ pairs_of bytes.now }
{
    for i in 0..bytes.len() {
        out[2 * i] = glyph(bytes[i] / 16);
        out[2 * i + 1] = glyph(bytes[i] % 16);
    }
}

// Writes bytes as HEX, or nothing where they have no room.
pub fn write_hex(out: &mut [u8], at: usize, bytes: &[u8]) -> Option<usize>
    ensures { text result out.new ≡ put (hex_of bytes.now) (text (Some at) out.old) }
{
    if bytes.is_empty() {
        return write_bytes(out, at, b"-");
    }
    let to = place(out, at, bytes.len() * 2)?;
    encode(&mut out[at..to], bytes);
    Some(to)
}
