// Bits.
ghost use Rattle.std.specs.Prelude.{◌≡◌, ◌<◌};
ghost use Rattle.element.specs.Bits.{bit_zero, bit_plus, bit_same, bit_laws, bit_if, weight};

use crate::Element;

// A bit: there is no third value.
#[derive(Clone, Copy, PartialEq, Eq, Debug)]
pub enum Bit {
    Zero,
    One,
}

// The sum is one match on the pair, which compiles to an exclusive or of whole vectors.
impl Element for Bit {
    ghost zero = { bit_zero };

    ghost plus = { bit_plus };

    ghost same = { bit_same };

    ghost laws = { bit_laws };

    fn zero() -> Bit {
        Bit::Zero
    }

    fn plus(self, other: Bit) -> Bit {
        match (self, other) {
            (Bit::Zero, Bit::Zero) => Bit::Zero,
            (Bit::Zero, Bit::One) => Bit::One,
            (Bit::One, Bit::Zero) => Bit::One,
            (Bit::One, Bit::One) => Bit::Zero,
        }
    }

    fn same(self, other: Bit) -> bool {
        self == other
    }
}

// One where it is true.
impl From<bool> for Bit {
    ghost from_gives = { λ yes r. r ≡ bit_if yes };

    fn from(yes: bool) -> Bit {
        if yes { Bit::One } else { Bit::Zero }
    }
}

// A bit as a number.
impl From<Bit> for u8 {
    ghost from_gives = { λ b r. (r ≡ weight b) × (r < 2) };

    fn from(b: Bit) -> u8 {
        b as u8
    }
}
