// The loader against answers that come from elsewhere: `data/image_cases.txt` is the oracle's list of images, each with the
// number and place of its refusal. A wrong answer is printed by its line and changes the counts in `stdout`.
#![tactic(auto)]

mod images;
mod line;
mod say;

use std::io;

fn main(rt: HostRuntime) -> io::Result<()> {
    images::run(&rt)
}
