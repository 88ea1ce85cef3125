// Blocks side by side.
ghost use Rattle.element.specs.Lanes.{lanes_zero, lanes_plus, lanes_same, lanes_laws};

use crate::Element;

// Sixty-four lanes: the same place of 64 blocks side by side, one block to each bit of the word.
#[derive(Clone, Copy, PartialEq, Eq, Debug)]
pub struct Lanes {
    pub bits: u64,
}

impl Element for Lanes {
    ghost zero = { lanes_zero };

    ghost plus = { lanes_plus };

    ghost same = { lanes_same };

    ghost laws = { lanes_laws };

    fn zero() -> Lanes {
        Lanes { bits: 0 }
    }

    fn plus(self, other: Lanes) -> Lanes {
        Lanes {
            bits: self.bits ^ other.bits,
        }
    }

    fn same(self, other: Lanes) -> bool {
        self == other
    }
}
