// Stores, outlets over cells of their own.
ghost use Rattle.std.specs.Prelude.{◌≡◌, ℕ, ◌%◌, ◌≤◌, List, vec_len};
ghost use Rattle.outlet.specs.Storing.{stored_bits, store_room, Stores, cells_after};
ghost use Rattle.outlet.specs.StoreLaws.{store_lawful};

use crate::cell::Cell;
use crate::faults::{PlaceFault, TakeFault};
use crate::interface::Outlet;
use element::Bit;

// A store uses no more of its cells than the first so many.
const MOST_CELLS: usize = 1_048_576;

// Bits in cells of its own, as many to a cell as it has places.
// `held` stands beside the bytes: all of them are handed back, and it counts bits, not bytes.
#[derive(Drop)]
pub struct Stored<C: Cell> {
    pub(crate) bytes: Vec<C>,
    pub(crate) held: usize,
    ghost fits: { held ≤ store_room C.PLACES (vec_len bytes) },
}

impl<C: Cell> Stored<C> {
    // An outlet over the cells that holds no bit.
    pub fn empty(bytes: Vec<C>) -> Stored<C>
        ensures bytes { result.bytes ≡ bytes }
        ensures held { result.held ≡ 0 }
    {
        Stored { bytes, held: 0 }
    }

    // Hands the cells back. Since any earlier state of the outlet that held whole cells, as it was made,
    // the cells reached hold the bits taken and the others are unchanged.
    #[tactic(auto, using(crate::proofs::Storings::stored_since))]
    pub fn into_bytes(self) -> Vec<C>
        ensures bytes { result ≡ self.bytes }
        ensures since { (old : List C) (n : ℕ) → n % C.PLACES ≡ 0 → Stores C.PLACES C.form old self.bytes.items n self.held → result.items ≡ cells_after C.PLACES C.form old n (stored_bits C.PLACES C.form self.bytes.items self.held) }
    {
        let Stored { bytes, held: _ } = self;
        bytes
    }
}

#[tactic(auto, using(crate::proofs::Storings::counted, crate::proofs::Storings::take_bits, crate::proofs::Storings::bit_held))]
impl<C: Cell> Outlet for Stored<C> {
    ghost bits = { λ o. stored_bits C.PLACES C.form o.bytes.items o.held };

    ghost room = { λ o. store_room C.PLACES (vec_len o.bytes) };

    ghost kept = { λ o p. Stores C.PLACES C.form o.bytes.items p.bytes.items o.held p.held };

    // Told how to read a store: `Stored` imports what this file does, so the law cannot name it.
    ghost lawful = { store_lawful C.PLACES C.form (λ o. o.bytes.items) (λ o. vec_len o.bytes) (λ o. o.held) (λ o. o.bytes.ok.0) (λ o. o.fits) };

    fn take(&mut self, b: Bit) -> Result<(), TakeFault> {
        // `self.capacity()` would ask the reference, which is an outlet too.
        if self.held >= (*self).capacity() {
            return Err(TakeFault::Full);
        }
        let places = C::PLACES;
        let at = self.held / places;
        let cell = self.bytes[at].with(self.held % places, b);
        self.bytes[at] = cell;
        self.held += 1;
        Ok(())
    }

    fn held(&self) -> usize {
        self.held
    }

    fn capacity(&self) -> usize {
        C::PLACES * self.bytes.len().min(MOST_CELLS)
    }

    fn bit_at(&self, place: usize) -> Result<Bit, PlaceFault> {
        if place >= self.held {
            return Err(PlaceFault::NotHeld);
        }
        let places = C::PLACES;
        Ok(self.bytes[place / places].bit(place % places))
    }
}
