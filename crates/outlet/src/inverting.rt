// The inverter, a layer that shows the complements of the bits below.
ghost use Rattle.std.specs.Prelude.{◌≡◌};
ghost use Rattle.outlet.specs.Masks.{masked, inverting};

use crate::interface::Outlet;
use crate::layer::{Mask, Masked};
use element::Bit;

// One added everywhere.
#[derive(Clone, Copy)]
pub struct Inversion;

impl Mask for Inversion {
    ghost mask = { λ _. inverting };

    fn at(self, _place: usize) -> Bit {
        Bit::One
    }
}

// The complements of the bits below.
pub type Inverter<O> = Masked<Inversion, O>;

impl<O: Outlet> Inverter<O> {
    // The inverter over an outlet. The complements of its bits are the bits below, so that an inverter over
    // it shows those again.
    #[tactic(auto, using(crate::proofs::Layered::masked_twice))]
    pub fn over(below: O) -> Inverter<O>
        ensures below { result.below ≡ below }
        ensures twice { masked inverting (masked inverting (O.bits result.below)) ≡ O.bits below }
    {
        Masked {
            below,
            mask: Inversion,
        }
    }
}
