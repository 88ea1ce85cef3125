// Why a call on a work buffer was refused.
ghost use Rattle.qc.specs.Refusals.{run_fault};

use refusal::Refusal;

#[derive(Clone, Copy, PartialEq, Eq, Debug)]
pub enum RunFault {
    // The buffer is shorter than a whole block.
    TooShort,
}

impl Refusal for RunFault {
    ghost numbered = { run_fault };

    fn number(&self) -> u32 {
        match self {
            RunFault::TooShort => 8,
        }
    }
}
