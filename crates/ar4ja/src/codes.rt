// The three codes.
ghost use Rattle.std.specs.Prelude.{◌≡◌, true, ◌+◌, length};
ghost use Rattle.refusal.specs.Outcome.{outcome};
ghost use Rattle.qc.specs.Shape.{sent};
ghost use Rattle.ar4ja.specs.Parameters.{ParametersOf};
ghost use Rattle.ar4ja.specs.Codes.{shape_of, tables_of, shapes_sound, tables_ruled, number_of, named};
ghost use Rattle.ar4ja.specs.Refusals.{code_fault};
ghost use Rattle.ar4ja.specs.Worked.{worked, all_agree};

use crate::parameters::{Parameters, four_fifths, half, two_thirds};
use qc::{Permutation, QuasiCyclic, Term};
use refusal::Refusal;

// A code, by its rate and its number of information bits.
#[derive(Clone, Copy, PartialEq, Eq, Debug)]
pub enum Code {
    Half1024 = 1,
    TwoThirds1024 = 2,
    FourFifths1024 = 3,
}

// Why a code was not named.
#[derive(Clone, Copy, PartialEq, Eq, Debug)]
pub enum CodeFault {
    // No code has this number.
    Unknown,
}

impl Refusal for CodeFault {
    ghost numbered = { code_fault };

    fn number(&self) -> u32 {
        match self {
            CodeFault::Unknown => 1,
        }
    }
}

// The code of a number, 1 to 3.
impl TryFrom<u32> for Code {
    type Error = CodeFault;

    ghost try_from_gives = { λ n r. outcome code_fault r ≡ named n };

    fn try_from(n: u32) -> Result<Code, CodeFault> {
        match n {
            1 => Ok(Code::Half1024),
            2 => Ok(Code::TwoThirds1024),
            3 => Ok(Code::FourFifths1024),
            _ => Err(CodeFault::Unknown),
        }
    }
}

// The number of a code.
impl From<Code> for u32 {
    ghost from_gives = { λ code n. n ≡ number_of code };

    fn from(code: Code) -> u32 {
        code as u32
    }
}

impl Code {
    // Every code, by rising number.
    pub const ALL: [Code; 3] = [Code::Half1024, Code::TwoThirds1024, Code::FourFifths1024];

    // How many bits a frame has: the attached sync marker, then the block, F.
    pub fn frame_len(self) -> usize
        ensures { result ≡ 64 + sent (shape_of self) }
    {
        64 + self.block_len()
    }
}

impl Code {
    fn parameters(self) -> Parameters
        ensures { ParametersOf self result }
    {
        match self {
            Code::Half1024 => half(),
            Code::TwoThirds1024 => two_thirds(),
            Code::FourFifths1024 => four_fifths(),
        }
    }
}

impl QuasiCyclic for Code {
    ghost shape = { shape_of };

    ghost tables = { tables_of };

    ghost lawful = { shapes_sound };

    ghost ruled = { tables_ruled };

    fn message_groups(self) -> usize {
        self.parameters().message_groups
    }

    fn segment(self) -> usize {
        self.parameters().segment
    }

    fn table(self) -> &'static [Permutation] {
        self.parameters().table
    }

    fn first_terms(self) -> &'static [Term] {
        self.parameters().first_terms
    }

    fn second_terms(self) -> &'static [Term] {
        self.parameters().second_terms
    }

    fn known_terms(self) -> &'static [Term] {
        self.parameters().known_terms
    }

    fn message_terms(self) -> &'static [Term] {
        self.parameters().message_terms
    }

    fn asked_terms(self) -> &'static [Term] {
        self.parameters().asked_terms
    }

    fn closing_terms(self) -> &'static [Term] {
        self.parameters().closing_terms
    }

    fn generator(self) -> &'static [u32] {
        self.parameters().generator
    }

    fn inverse(self) -> &'static [u32] {
        self.parameters().inverse
    }
}

// How many worked values of the codes there are; the definitions give each of them.
pub fn worked_values() -> usize
    ensures count { result ≡ length worked }
    ensures agree { all_agree worked ≡ true }
{
    24
}
