// What pivot rows leave to their unknowns.
ghost use Rattle.std.specs.Prelude.{◌≡◌, ◌^◌, ◌<◌, Ok, MatchBool};
ghost use Rattle.erasure.specs.Unknowns.{pivot, Solves};
ghost use Rattle.erasure.specs.Solutions.{Differ, Settled, Means};

use crate::elimination::{MOST_UNKNOWNS, Pivots, lowest_unknown};
use element::Bit;

// One assignment meets the demands, or several do: then the set of the unknowns in which some two of them differ.
// Neither is an error to pass on, so this is no `Result`. The bits are an array: the crate allocates nothing.
#[derive(Clone, Copy)]
pub(crate) enum Solutions {
    Single([Bit; MOST_UNKNOWNS]),
    Several(u64),
}

// The set of the unknown k alone.
pub(crate) fn only_unknown(k: usize) -> u64
    requires { k < 64 }
    ensures { result ≡ 2 ^ k }
{
    1 << k
}

impl Pivots {
    // Whether two solutions differ in the unknown k: its row has another unknown, or it has none.
    fn is_open(&self, k: usize) -> bool
        requires { k < self.now.count }
        ensures { MatchBool result (Differ (Solves self.now.count self.now.rows) k) (Settled (Solves self.now.count self.now.rows) k (pivot self.now.rows k).bit) }
    {
        lowest_unknown(self.rows[k].unknowns ^ only_unknown(k), self.count).is_some()
    }

    // What the rows leave to the unknowns.
    pub(crate) fn solutions(&self) -> Solutions
        ensures { Means self.now.count (Solves self.now.count self.now.rows) (Ok result) }
    {
        let mut open = 0;
        // Unknowns by number, and not row by row: `is_open` speaks of the solutions of all rows.
        for k in 0..self.count {
            if self.is_open(k) {
                open |= only_unknown(k);
            }
        }
        if lowest_unknown(open, self.count).is_some() {
            Solutions::Several(open)
        } else {
            Solutions::Single(self.rows.map(|row| row.bit))
        }
    }
}
