// The level outlet.
ghost use Rattle.outlet.specs.LevelLaws.{level_cell, level_laws};

use crate::cell::Cell;
use crate::store::Stored;
use element::Bit;

impl Cell for i8 {
    const PLACES: usize = 1;

    ghost PLACES = { level_cell.PLACES };

    ghost form = { level_cell.form };

    ghost laws = { level_laws };

    fn bit(self, _q: usize) -> Bit {
        Bit::from(self >= 0)
    }

    fn with(self, _q: usize, b: Bit) -> i8 {
        // By cases: −1 and 1 are not the bit's number.
        match b {
            Bit::Zero => -1,
            Bit::One => 1,
        }
    }
}

// Bits as levels, one to a signed byte: −1 for 0 and +1 for 1.
pub type Levels = Stored<i8>;
