// The answer lines of the program and the parts of its dump, written piece by piece into a lent buffer. Each writer answers the place
// after what it wrote, or `None` where a piece had no room.
#![tactic(auto, using(words::proofs::Whole::none_stays))]

pub mod dump;
pub mod line;
