// The randomizer, a layer that adds the randomizing sequence to each frame behind its attached sync marker.
ghost use Rattle.std.specs.Prelude.{◌≡◌, length};
ghost use Rattle.outlet.specs.Masks.{masked, randomizing};

use crate::interface::Outlet;
use crate::layer::{Mask, Masked};
use crate::sequence::randomizing_bit;
use ar4ja::Code;
use element::Bit;

// How many bits the attached sync marker has.
pub const MARKER_LEN: usize = 64;

// The sequence added to frames of the code, which follow one another from the place `start` on.
#[derive(Clone, Copy)]
pub struct Randomization {
    pub(crate) start: usize,
    pub(crate) code: Code,
}

impl Mask for Randomization {
    ghost mask = { λ r. randomizing r.start r.code };

    fn at(self, place: usize) -> Bit {
        if place < self.start {
            return Bit::Zero;
        }
        let q = (place - self.start) % self.code.frame_len();
        if q < MARKER_LEN {
            Bit::Zero
        } else {
            randomizing_bit(q - MARKER_LEN)
        }
    }
}

// The bits below, with the sequence added to the frames from the start place on.
pub type Randomizer<O> = Masked<Randomization, O>;

impl<O: Outlet> Randomizer<O> {
    // The randomizer over an outlet, for frames of a code that follow what the outlet holds now. The bits
    // held now show as they are.
    #[tactic(auto, using(crate::proofs::Layered::not_yet))]
    pub fn over(below: O, code: Code) -> Randomizer<O>
        ensures below { result.below ≡ below }
        ensures start { result.mask.start ≡ length (O.bits below) }
        ensures code { result.mask.code ≡ code }
        ensures bits { masked (randomizing result.mask.start result.mask.code) (O.bits result.below) ≡ O.bits below }
    {
        let start = below.held();
        Masked {
            below,
            mask: Randomization { start, code },
        }
    }
}
