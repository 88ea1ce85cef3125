// Numbers written in bits.
ghost use Rattle.std.specs.Prelude.{◌≡◌, length, take, slice_index_or};
ghost use Rattle.element.specs.declared.bits.Bit.TheVariants.{Zero};
ghost use Rattle.element.specs.Bits.{number_of};

use crate::bits::Bit;

// The number that bits make, the first the most significant. No more than the first 32 count.
pub fn number_of(bits: &[Bit]) -> u32
    ensures { result ≡ number_of (λ i. slice_index_or bits.now i Zero) (length (take 32 bits.now)) }
{
    let first = &bits[..32usize.min(bits.len())];
    let mut number = 0;
    for bit in first {
        number = 2 * number + u8::from(*bit) as u32;
    }
    number
}
