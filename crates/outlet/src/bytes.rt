// One bit of a byte.
ghost use Rattle.std.specs.Prelude.{◌≡◌};
ghost use Rattle.outlet.specs.Bytes.{bit_of};

use element::Bit;

// Bit `q` of the byte, the most significant first; the least significant one from 7 on.
pub fn byte_bit(byte: u8, q: usize) -> Bit
    ensures { result ≡ bit_of byte q }
{
    // A call for a bit of any word would be no shorter.
    Bit::from((byte >> (7 - q.min(7))) % 2 == 1)
}
