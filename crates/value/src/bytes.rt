// Values as bytes, low byte first.
ghost use Rattle.std.specs.Prelude.{◌≡◌, leb, length};
ghost use Rattle.value.specs.Value.{size, bytes_of};
ghost use Rattle.value.specs.Ir.{value_of, type_of, written, loaded};

use crate::refusal::Refusal;
use crate::{IrType, IrValue};

impl IrValue {
    // The value's bytes go to the front of `to`. One that is too short stays as it is, and the answer is false.
    #[tactic(auto, using(crate::proofs::LowFirst::size_small))]
    pub fn write(self, to: &mut [u8]) -> bool
        ensures { (result ≡ leb (size (value_of self).kind) (length to.old)) × (to.new ≡ written (bytes_of (value_of self)) to.old) }
    {
        let count = self.size();
        if to.len() < count {
            return false;
        }
        let bytes = self.bits().to_le_bytes();
        to[..count].copy_from_slice(&bytes[..count]);
        true
    }

    // The value of the type that stands at the front of `from`; none where the bytes are too few.
    #[tactic(auto, using(crate::proofs::LowFirst::size_small))]
    pub fn read(ty: IrType, from: &[u8]) -> Option<Result<IrValue, Refusal>>
        ensures { result ≡ loaded (type_of ty) from.now }
    {
        let count = ty.size();
        if from.len() < count {
            return None;
        }
        let mut bytes = [0u8; 8];
        bytes[..count].copy_from_slice(&from[..count]);
        let bits = u64::from_le_bytes(bytes);
        Some(IrValue::from_bits(ty.tag(), bits).ok_or(Refusal::NotBool))
    }
}
