// Fields of an instruction that was accepted: numbers, read one after another.
ghost use Rattle.std.specs.Prelude.{◌≡◌};
ghost use Rattle.instruction.specs.Decode.{field_at, operand_at};

use image::number::read_number;

// A number and the place after it. Place 0 is no field's: refused, and so is what is read from there.
#[derive(Clone, Copy, Debug, PartialEq, Eq)]
pub struct Field {
    pub value: u64,
    pub next: usize,
}

// An operand's tag and its variable or bits, and the place after it.
#[derive(Clone, Copy, Debug, PartialEq, Eq)]
pub struct Operand {
    pub tag: u64,
    pub bits: u64,
    pub next: usize,
}

// Most numbers are a byte below 128: these are read here, and the others group by group.
#[tactic(auto, using(crate::proofs::Short::field_of_byte), unfolding(crate::specs::Decode::field_at))]
pub fn read_field(image: &[u8], at: usize) -> Field
    ensures { result ≡ field_at image.now at }
{
    if at == 0 {
        return Field { value: 0, next: 0 };
    }
    if at < image.len() {
        let byte = image[at] as u64;
        if byte < 128 {
            return Field {
                value: byte,
                next: at + 1,
            };
        }
    }
    match read_number(image, at) {
        Ok((value, next)) => Field { value, next },
        Err(_) => Field { value: 0, next: 0 },
    }
}

#[tactic(auto, unfolding(crate::specs::Decode::operand_at))]
pub fn read_operand(image: &[u8], at: usize) -> Operand
    ensures { result ≡ operand_at image.now at }
{
    let tag = read_field(image, at);
    let bits = read_field(image, tag.next);
    Operand {
        tag: tag.value,
        bits: bits.value,
        next: bits.next,
    }
}
