// Why a block was not filled.
ghost use Rattle.std.specs.Prelude.{◌≡◌};
ghost use Rattle.erasure.specs.Refusals.{fill_fault};
ghost use Rattle.erasure.specs.declared.faults.FillFault.TheVariants.{NoneFits};

use crate::elimination::Contradiction;
use refusal::Refusal;

#[derive(Clone, Copy, PartialEq, Eq, Debug)]
pub enum FillFault {
    // There are not as many marks as a block has, or the work buffer is shorter than a whole block.
    WrongLengths,
    // The list of places is shorter than 64.
    ShortList,
    // More than 64 symbols are erased.
    TooManyErased,
    // No codeblock fits the symbols that are known.
    NoneFits,
    // Several codeblocks fit: how many places were listed.
    SeveralFit(usize),
}

// No assignment of the unknowns meets the demands where no codeblock fits.
impl From<Contradiction> for FillFault {
    ghost from_gives = { λ _ r. r ≡ NoneFits };

    fn from(_: Contradiction) -> FillFault {
        FillFault::NoneFits
    }
}

impl Refusal for FillFault {
    ghost numbered = { fill_fault };

    fn number(&self) -> u32 {
        match self {
            FillFault::WrongLengths => 8,
            FillFault::ShortList => 9,
            FillFault::TooManyErased => 10,
            FillFault::NoneFits => 11,
            FillFault::SeveralFit(_) => 12,
        }
    }
}
