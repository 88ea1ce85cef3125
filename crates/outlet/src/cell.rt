// What a store keeps its bits in.
ghost use Rattle.std.specs.Prelude.{◌≡◌, ℕ, ◌<◌};
ghost use Rattle.outlet.specs.Storing.{Form, FormLaws, Written};

use element::Bit;

// A cell, a small value with places for bits. The trait is for this crate alone, so that `with` can ask for a
// place that there is.
pub trait Cell: Copy {
    // How many places it has.
    const PLACES: usize;

    ghost PLACES: { ℕ };

    ghost form: { Form Self };

    // The bit at place `q` of the cell.
    fn bit(self, q: usize) -> Bit
        ensures { result ≡ form.bit self q };

    // The cell with the bit written at place `q`, and zeros after it.
    fn with(self, q: usize, b: Bit) -> Self
        requires { q < PLACES }
        ensures { Written form self q b result };

    ghost laws: { FormLaws PLACES form };
}
