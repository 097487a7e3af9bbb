// The words of the program's lines: readers and writers of numbers, kinds, HEX and values, on lent slices. A word that cannot be read is
// `None` or an error; a writer answers the place after what it wrote, or `None` where a piece had no room.
#![tactic(auto)]

pub mod bound;
pub mod hex;
pub mod kind;
pub mod number;
pub mod pairs;
pub mod text;
pub mod word;

// Why a word of HEX was not read: its bytes are too many for the buffer, or it is no HEX.
#[derive(Clone, Copy, Debug, PartialEq, Eq)]
pub enum HexError {
    Long,
    Bad,
}

// Which of two words cannot be read as a kind and its bits.
#[derive(Clone, Copy, Debug, PartialEq, Eq)]
pub enum PairError {
    Kind,
    Bits,
}

// The word, counted from 0, that cannot be read.
#[derive(Clone, Copy, Debug, PartialEq, Eq)]
pub struct BadWord(pub usize);
