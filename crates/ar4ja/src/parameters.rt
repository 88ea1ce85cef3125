// The parameters of each code.
ghost use Rattle.ar4ja.specs.declared.codes.Code.TheVariants.{Half1024, TwoThirds1024, FourFifths1024};
ghost use Rattle.ar4ja.specs.Parameters.{ParametersOf};

use crate::permutations::*;
use crate::rows::*;
use crate::tables::*;
use qc::{Permutation, Term};

// What is tabulated of a code: how many message groups and how wide a segment, its lists for the loops, and its
// tables of first rows.
#[derive(Drop)]
pub(crate) struct Parameters {
    pub(crate) message_groups: usize,
    pub(crate) segment: usize,
    pub(crate) table: &'static [Permutation],
    pub(crate) first_terms: &'static [Term],
    pub(crate) second_terms: &'static [Term],
    pub(crate) known_terms: &'static [Term],
    pub(crate) message_terms: &'static [Term],
    pub(crate) asked_terms: &'static [Term],
    pub(crate) closing_terms: &'static [Term],
    pub(crate) generator: &'static [u32],
    pub(crate) inverse: &'static [u32],
}

// Rate 1/2.
pub(crate) fn half() -> Parameters
    ensures { ParametersOf Half1024 result }
{
    Parameters {
        message_groups: 2,
        segment: 128,
        table: &HALF_1024,
        first_terms: &HALF_FIRST,
        second_terms: &HALF_SECOND,
        known_terms: &HALF_THIRD,
        message_terms: &HALF_THIRD[..3],
        asked_terms: &HALF_ASKED,
        closing_terms: &HALF_FIRST[1..],
        generator: &HALF_GENERATOR,
        inverse: &HALF_INVERSE,
    }
}

// Rate 2/3.
pub(crate) fn two_thirds() -> Parameters
    ensures { ParametersOf TwoThirds1024 result }
{
    Parameters {
        message_groups: 4,
        segment: 64,
        table: &TWO_THIRDS_1024,
        first_terms: &TWO_THIRDS_FIRST,
        second_terms: &TWO_THIRDS_SECOND,
        known_terms: &TWO_THIRDS_THIRD,
        message_terms: &TWO_THIRDS_THIRD[..7],
        asked_terms: &TWO_THIRDS_ASKED,
        closing_terms: &TWO_THIRDS_FIRST[1..],
        generator: &TWO_THIRDS_GENERATOR,
        inverse: &TWO_THIRDS_INVERSE,
    }
}

// Rate 4/5.
pub(crate) fn four_fifths() -> Parameters
    ensures { ParametersOf FourFifths1024 result }
{
    Parameters {
        message_groups: 8,
        segment: 32,
        table: &FOUR_FIFTHS_1024,
        first_terms: &FOUR_FIFTHS_FIRST,
        second_terms: &FOUR_FIFTHS_SECOND,
        known_terms: &FOUR_FIFTHS_THIRD,
        message_terms: &FOUR_FIFTHS_THIRD[..15],
        asked_terms: &FOUR_FIFTHS_ASKED,
        closing_terms: &FOUR_FIFTHS_FIRST[1..],
        generator: &FOUR_FIFTHS_GENERATOR,
        inverse: &FOUR_FIFTHS_INVERSE,
    }
}
