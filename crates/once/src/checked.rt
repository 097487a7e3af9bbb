// `lir check`: whether an image is taken.
ghost use Rattle.std.specs.Prelude.{◌≡◌};
ghost use Rattle.words.specs.Text.{text};
ghost use Rattle.image.specs.Image.{image as Image·image};
ghost use Rattle.telling.specs.Told.{line};
ghost use Rattle.once.specs.Checked.{checked_line};

use answers::line::write_taken;
use loader::load::load;
use reader::read_header;
use telling::answer::write_stop;

// What loading answers, as a line.
#[tactic(auto, using(crate::proofs::Checking::loaded_refused, crate::proofs::Checking::loaded_taken))]
fn write_loaded(out: &mut [u8], image: &[u8]) -> Option<usize>
    ensures { text result out.new ≡ line (checked_line (Image·image image.now)) out.old }
{
    match load(image) {
        Err(stop) => write_stop(out, stop),
        Ok(l) => {
            let counts = l.counts;
            write_taken(
                out,
                0,
                counts.variables,
                counts.constants,
                counts.functions,
                counts.blocks,
                l.instructions as u64,
            )
        }
    }
}

// The header first, by the reader that holds its place: what it refuses, loading refuses alike.
#[tactic(auto, using(crate::proofs::Checking::header_refused))]
pub fn write_checked(out: &mut [u8], image: &[u8]) -> Option<usize>
    ensures { text result out.new ≡ line (checked_line (Image·image image.now)) out.old }
{
    match read_header(image) {
        Err(stop) => write_stop(out, stop),
        Ok(_) => write_loaded(out, image),
    }
}
