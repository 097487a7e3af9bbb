// What `lir run` and `lir check` answer: one image, one line, on lent buffers.
#![tactic(auto)]

pub mod checked;
pub mod start_line;
