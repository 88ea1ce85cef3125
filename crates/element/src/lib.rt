// Elements that codes are made of: what can be added and compared. Coding and checking are written once,
// over any element; the three kinds here are bits, 64 blocks side by side, and affine forms in 64 unknowns.

#![tactic(auto)]

ghost use Rattle.std.specs.Prelude.{◌≡◌, Bool};
ghost use Rattle.element.specs.Laws.{Laws};

mod bits;
mod forms;
mod numbers;
mod side_by_side;

pub use bits::Bit;
pub use forms::Form;
pub use numbers::number_of;
pub use side_by_side::Lanes;

// An element kind: a zero, a sum in which every element is its own inverse, and a test of equality.
pub trait Element: Copy {
    ghost zero: { Self };

    ghost plus: { Self → Self → Self };

    ghost same: { Self → Self → Bool };

    ghost laws: { Laws zero plus same };

    fn zero() -> Self
        ensures { result ≡ zero };

    fn plus(self, other: Self) -> Self
        ensures { result ≡ plus self other };

    fn same(self, other: Self) -> bool
        ensures { result ≡ same self other };
}
