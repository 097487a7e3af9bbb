// The entries on slices and numbers, as `embed_c` exports them to a host in Rust or C. A slice is a pointer and a count; every length is tested, those of the tables by the entries.
//
// registers  5 words: running, next, counter, depth, pointers
// answer     4 words: ended, tag, bits, count. Ended is 1 after the last Return, tag and bits are then its value, 0 for none.
//            Count is the steps done, the new pointer's number or the bytes written; where an image is refused, the place
// tables     as in `memory`
//
// Each function answers 0, or the number of a refusal. A wrong length of registers or answer is 10, and then nothing is changed.
#![tactic(auto)]

pub mod entries;
pub mod host;
