// The packed outlet.
ghost use Rattle.std.specs.Prelude.{◌≡◌, ◌<◌, vec_len};
ghost use Rattle.element.specs.Bits.{weight};
ghost use Rattle.outlet.specs.Packing.{byte_with, packed_room};
ghost use Rattle.outlet.specs.PackedLaws.{byte_cell, byte_laws};

use crate::bytes::byte_bit;
use crate::cell::Cell;
use crate::interface::Outlet;
use crate::store::Stored;
use element::Bit;

impl Cell for u8 {
    const PLACES: usize = 8;

    ghost PLACES = { byte_cell.PLACES };

    ghost form = { byte_cell.form };

    ghost laws = { byte_laws };

    fn bit(self, q: usize) -> Bit {
        byte_bit(self, q)
    }

    fn with(self, q: usize, b: Bit) -> u8 {
        with_bit(self, q, b)
    }
}

// The byte with bit `q` written and zeros after it.
#[tactic(auto, using(crate::proofs::Digits::after_fits, crate::proofs::Digits::opening_fits))]
fn with_bit(byte: u8, q: usize, b: Bit) -> u8
    requires { q < 8 }
    ensures { result ≡ byte_with byte q (weight b) }
{
    // The bit that opens a byte clears it.
    let front = if q > 0 { byte >> (8 - q) << (8 - q) } else { 0 };
    front + (u8::from(b) << (7 - q))
}

// Bits packed into bytes, eight to a byte, the first bit the most significant.
pub type Packed = Stored<u8>;

impl Packed {
    // An outlet that holds the bits of the bytes, as many as it can.
    pub fn full(bytes: Vec<u8>) -> Packed
        ensures bytes { result.bytes ≡ bytes }
        ensures held { result.held ≡ packed_room (vec_len bytes) }
    {
        let mut packed = Packed::empty(bytes);
        packed.held = packed.capacity();
        packed
    }
}
