// Why an outlet turns a call down.
ghost use Rattle.outlet.specs.Refusals.{take_fault, place_fault};

use refusal::Refusal;

// Why a bit was not taken.
#[derive(Clone, Copy, PartialEq, Eq, Debug)]
pub enum TakeFault {
    // The outlet holds as many bits as it can.
    Full,
}

impl Refusal for TakeFault {
    ghost numbered = { take_fault };

    fn number(&self) -> u32 {
        match self {
            TakeFault::Full => 17,
        }
    }
}

// Why there is no bit at a place.
#[derive(Clone, Copy, PartialEq, Eq, Debug)]
pub enum PlaceFault {
    // The place is not below the count held.
    NotHeld,
}

impl Refusal for PlaceFault {
    ghost numbered = { place_fault };

    fn number(&self) -> u32 {
        match self {
            PlaceFault::NotHeld => 18,
        }
    }
}
