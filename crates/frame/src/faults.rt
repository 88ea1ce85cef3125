// What reading a frame answers.
ghost use Rattle.std.specs.Prelude.{◌≡◌, Some};
ghost use Rattle.frame.specs.declared.faults.ReadFault.TheVariants.{RunTooShort};
ghost use Rattle.frame.specs.Marker.{flipped, orientation_word};
ghost use Rattle.frame.specs.Refusals.{read_fault};

use element::Bit;
use qc::RunFault;
use refusal::Refusal;
use std::fmt;

// Which way the bits of a frame stand.
#[derive(Clone, Copy, PartialEq, Eq, Debug)]
pub enum Orientation {
    Upright,
    Complemented,
}

// What is added to each bit of a frame to set it upright.
impl From<Orientation> for Bit {
    ghost from_gives = { λ way r. r ≡ flipped way };

    fn from(orientation: Orientation) -> Bit {
        match orientation {
            Orientation::Upright => Bit::Zero,
            Orientation::Complemented => Bit::One,
        }
    }
}

impl fmt::Display for Orientation {
    ghost output = { λ way. Some (orientation_word way) };

    fn fmt<W: fmt::Write>(&self, f: &mut fmt::Formatter<W>) -> fmt::Result {
        f.write_str(match self {
            Orientation::Upright => "upright",
            Orientation::Complemented => "complemented",
        })
    }
}

// Why a frame was not read.
#[derive(Clone, Copy, PartialEq, Eq, Debug)]
pub enum ReadFault {
    // The tolerance is above 15.
    Tolerance,
    // The message buffer is not 128 bytes.
    MessageLength,
    // The work buffer is shorter than a whole block.
    RunTooShort,
    // Fewer bits than a frame's are held from the place on.
    NotHeld,
    // Neither the marker nor its complement is within the tolerance.
    NoMarker,
    // The block does not pass; the lowest row that is not zero.
    Fails(usize),
}

impl Refusal for ReadFault {
    ghost numbered = { read_fault };

    fn number(&self) -> u32 {
        match self {
            ReadFault::Tolerance => 5,
            ReadFault::MessageLength => 2,
            ReadFault::RunTooShort => 8,
            ReadFault::NotHeld => 4,
            ReadFault::NoMarker => 6,
            ReadFault::Fails(_) => 7,
        }
    }
}

impl From<RunFault> for ReadFault {
    ghost from_gives = { λ fault r. r ≡ RunTooShort };

    fn from(fault: RunFault) -> ReadFault {
        match fault {
            RunFault::TooShort => ReadFault::RunTooShort,
        }
    }
}
