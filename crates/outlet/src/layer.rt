// A layer, an outlet over another one that shows the bits below with a mask added.
ghost use Rattle.std.specs.Prelude.{◌≡◌, ℕ};
ghost use Rattle.element.specs.declared.bits.Bit.{Bit};
ghost use Rattle.outlet.specs.Masks.{masked};
ghost use Rattle.outlet.specs.LayerLaws.{masked_lawful};

use crate::faults::{PlaceFault, TakeFault};
use crate::interface::Outlet;
use element::{Bit, Element};

// What is added to the bit at each place.
pub trait Mask: Copy {
    ghost mask: { Self → ℕ → Bit };

    // What is added to the bit at a place.
    fn at(self, place: usize) -> Bit
        ensures { result ≡ mask self place };
}

// The outlet below with the mask added to its bits.
#[derive(Drop)]
pub struct Masked<M, O> {
    pub(crate) below: O,
    pub(crate) mask: M,
}

impl<M: Mask, O: Outlet> Masked<M, O> {
    // The outlet below, as it stands.
    pub fn below(&self) -> &O
        ensures { result.now ≡ self.now.below }
    {
        &self.below
    }

    // Hands the outlet below back.
    pub fn into_below(self) -> O
        ensures { result ≡ self.below }
    {
        let Masked { below, mask: _ } = self;
        below
    }
}

#[tactic(auto, using(crate::proofs::Layered::layered))]
impl<M: Mask, O: Outlet> Outlet for Masked<M, O> {
    ghost bits = { λ w. masked (M.mask w.mask) (O.bits w.below) };

    ghost room = { λ w. O.room w.below };

    ghost kept = { λ w v. (v.mask ≡ w.mask) × O.kept w.below v.below };

    ghost lawful = { masked_lawful M.mask O.lawful };

    fn take(&mut self, b: Bit) -> Result<(), TakeFault> {
        let m = self.mask.at(self.below.held());
        self.below.take(b.plus(m))
    }

    fn held(&self) -> usize {
        self.below.held()
    }

    fn capacity(&self) -> usize {
        self.below.capacity()
    }

    fn bit_at(&self, place: usize) -> Result<Bit, PlaceFault> {
        let b = self.below.bit_at(place)?;
        Ok(b.plus(self.mask.at(place)))
    }
}
