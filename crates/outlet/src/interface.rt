// What every outlet is.
ghost use Rattle.std.specs.Prelude.{◌≡◌, ℕ, List, [], ◌∷◌, length};
ghost use Rattle.element.specs.declared.bits.Bit.{Bit};
ghost use Rattle.refusal.specs.Outcome.{outcome};
ghost use Rattle.outlet.specs.Refusals.{take_fault, place_fault};
ghost use Rattle.outlet.specs.Meaning.{Lawful, take_answer, taken, bit_answer};

use crate::faults::{PlaceFault, TakeFault};
use element::Bit;

// An outlet, told by the bits that it holds. Bits are added at the end, and none is changed or removed.
pub trait Outlet {
    ghost bits: { Self → List Bit };

    // How many bits it can hold.
    ghost room: { Self → ℕ };

    // What no take changes, from an earlier state to a later one.
    ghost kept: { Self → Self → Type 0 };

    ghost lawful: { Lawful bits room kept };

    // Adds a bit at the end, or says that the outlet is full and changes nothing.
    fn take(&mut self, b: Bit) -> Result<(), TakeFault>
        ensures answer { outcome take_fault result ≡ take_answer (b ∷ []) (bits self.old) (room self.old) }
        ensures after { bits self.new ≡ taken (b ∷ []) (bits self.old) (room self.old) }
        ensures capacity { room self.new ≡ room self.old }
        ensures rest { kept self.old self.new };

    // How many bits it holds.
    fn held(&self) -> usize
        ensures { result ≡ length (bits self.now) };

    // How many bits it can hold.
    fn capacity(&self) -> usize
        ensures { result ≡ room self.now };

    // The bit at a place, counted from 0.
    fn bit_at(&self, place: usize) -> Result<Bit, PlaceFault>
        ensures { outcome place_fault result ≡ bit_answer (bits self.now) place };
}
