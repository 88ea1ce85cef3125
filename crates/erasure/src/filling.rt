// Filling the erased symbols of a block.
ghost use Rattle.std.specs.Prelude.{◌≡◌};
ghost use Rattle.refusal.specs.Outcome.{outcome};
ghost use Rattle.ar4ja.specs.Codes.{shape_of};
ghost use Rattle.erasure.specs.Refusals.{fill_fault};
ghost use Rattle.erasure.specs.Fill.{Answers, MarksAfter, forms_after, listed, PlacesAfter};

use crate::elimination::MOST_UNKNOWNS;
use crate::faults::FillFault;
use crate::marks::{count_erased, fill_marks, list_places, write_forms};
use crate::solutions::Solutions;
use crate::solving::solve;
use ar4ja::Code;
use element::{Bit, Form};
use qc::QuasiCyclic;

// Fills the erased symbols of a block, where exactly one codeblock fits those that are known. A mark is the bit of
// a symbol, or `None` where the symbol is erased. `forms` is a work buffer for a whole block: it is left with the
// block as marked, an erased place as the form of its unknown alone, and the punctured group behind it. Where
// several codeblocks fit, the front of `places` gets the places in which some two of them differ, and the refusal
// says how many these are.
pub fn fill(
    code: Code,
    marks: &mut [Option<Bit>],
    forms: &mut [Form],
    places: &mut [usize],
) -> Result<(), FillFault>
    ensures answer { Answers (shape_of code) marks.old forms.old places.old (outcome fill_fault result) }
    ensures marks { MarksAfter (shape_of code) marks.old marks.new (outcome fill_fault result) }
    ensures forms { forms.new ≡ forms_after (shape_of code) marks.old forms.old places.old }
    ensures places { PlacesAfter (shape_of code) marks.old forms.old places.old places.new (listed (outcome fill_fault result)) }
{
    if marks.len() != code.block_len() || forms.len() < code.whole_len() {
        return Err(FillFault::WrongLengths);
    }
    if places.len() < MOST_UNKNOWNS {
        return Err(FillFault::ShortList);
    }
    let erased = count_erased(marks);
    if erased > MOST_UNKNOWNS {
        return Err(FillFault::TooManyErased);
    }
    write_forms(marks, forms);
    // The check writes the punctured group; its verdict on forms says nothing yet.
    let _ = qc::check(code, forms);
    let solutions = solve(code, forms, erased)?;
    match solutions {
        Solutions::Single(bits) => {
            fill_marks(marks, &bits);
            Ok(())
        }
        Solutions::Several(open) => Err(FillFault::SeveralFit(list_places(marks, open, places))),
    }
}
