// Refusals: how a call that turns its input down says why. Check and the coders share one enum; every other operation has
// its own, since it is refused for its own reasons. A case has one number of the plant's books, or that of the fault
// that it holds, and values.

#![tactic(auto)]

ghost use Rattle.std.specs.Prelude.{◌≡◌};
ghost use Rattle.refusal.specs.Outcome.{Numbered};

// A reason for turning an input down, with its number.
pub trait Refusal {
    ghost numbered: { Self → Numbered };

    fn number(&self) -> u32
        ensures { result ≡ (numbered self.now).number };
}
