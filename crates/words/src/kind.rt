// The names of the kinds, and which bits fit them.
ghost use Rattle.std.specs.Prelude.{◌≡◌, Some};
ghost use Rattle.words.specs.Text.{text, put};
ghost use Rattle.words.specs.Kinds.{name_of, kind_read};
ghost use Rattle.words.specs.Kinds.{fits as Kinds·fits};

use crate::text::write_bytes;
use crate::word::same;
use value::IrType;

// The names in the order of their tags, 1 to 14.
const NAMES: [&[u8]; 15] = [
    b"", b"Bool", b"U8", b"U16", b"U32", b"U64", b"I8", b"I16", b"I32", b"I64", b"F32", b"F64",
    b"Char", b"Asn", b"Pointer",
];

// The name of the kind with this tag: no byte where there is no such kind.
fn name(tag: u64) -> &'static [u8]
    ensures { result.now ≡ name_of tag }
{
    if tag <= IrType::POINTER_TAG {
        NAMES[tag as usize]
    } else {
        b""
    }
}

// The tag of the kind that a word names.
pub fn read_kind(word: &[u8]) -> Option<u64>
    ensures { result ≡ kind_read word.now }
{
    for tag in IrType::BOOL_TAG..=IrType::POINTER_TAG {
        if same(word, name(tag)) {
            return Some(tag);
        }
    }
    None
}

// Writes the name of the kind with this tag: no byte where there is no such kind.
pub fn write_kind(out: &mut [u8], at: usize, tag: u64) -> Option<usize>
    ensures { text result out.new ≡ put (name_of tag) (text (Some at) out.old) }
{
    write_bytes(out, at, name(tag))
}

// The largest bits of each kind, in the order of their tags.
const MOST: [u64; 15] = [
    0,
    1,
    255,
    65535,
    4294967295,
    18446744073709551615,
    255,
    65535,
    4294967295,
    18446744073709551615,
    4294967295,
    18446744073709551615,
    4294967295,
    4294967295,
    18446744073709551615,
];

// Whether bits fit the kind with this tag.
#[tactic(auto, using(crate::proofs::Names::no_kind, crate::proofs::Names::no_such_kind))]
pub fn fits(tag: u64, bits: u64) -> bool
    ensures { result ≡ Kinds·fits tag bits }
{
    if tag == 0 {
        return false;
    }
    if IrType::POINTER_TAG < tag {
        return false;
    }
    bits <= MOST[tag as usize]
}
