// A reference to an outlet is an outlet.
ghost use Rattle.std.specs.Prelude.{◌≡◌};
ghost use Rattle.outlet.specs.ReferenceLaws.{reference_lawful};

use crate::faults::{PlaceFault, TakeFault};
use crate::interface::Outlet;
use element::Bit;

impl<'a, O: Outlet> Outlet for &'a mut O {
    ghost bits = { λ r. O.bits r.now };

    ghost room = { λ r. O.room r.now };

    ghost kept = { λ r s. O.kept r.now s.now × (s.ghost_name ≡ r.ghost_name) };

    ghost lawful = { reference_lawful O.lawful };

    fn take(&mut self, b: Bit) -> Result<(), TakeFault> {
        (**self).take(b)
    }

    fn held(&self) -> usize {
        (**self).held()
    }

    fn capacity(&self) -> usize {
        (**self).capacity()
    }

    fn bit_at(&self, place: usize) -> Result<Bit, PlaceFault> {
        (**self).bit_at(place)
    }
}
