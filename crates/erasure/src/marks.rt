// The marks of a block, and what a fill writes from them. A mark is the bit of a symbol as received, or `None`
// where the symbol is erased. That few are erased is a clause of each function that goes over them, since the marks
// are the caller's, and a type that borrows them for these three calls would be no plainer.
ghost use Rattle.std.specs.Prelude.{◌≡◌, ℕ, ◌<◌, ◌≤◌, None, length, slice_index_or};
ghost use Rattle.element.specs.declared.bits.Bit.TheVariants.{Zero};
ghost use Rattle.erasure.specs.Marks.{mark_at, rank, erasures, form_of, laid, filled_of, Marked};
ghost use Rattle.erasure.specs.Places.{Places};

use crate::elimination::{MOST_UNKNOWNS, holds};
use crate::solutions::only_unknown;
use element::{Bit, Form};

// How many marks are erased.
pub(crate) fn count_erased(marks: &[Option<Bit>]) -> usize
    ensures { result ≡ erasures marks.now }
{
    // Added up without a branch: behind `filter` each mark is one to guess.
    let mut n = 0;
    for mark in marks {
        n += usize::from(mark.is_none());
    }
    n
}

// The form of a mark that has k erased before it.
fn form_of(mark: Option<Bit>, k: usize) -> Form
    requires { mark ≡ None → k < 64 }
    ensures { result ≡ form_of mark k }
{
    match mark {
        Some(bit) => Form { bit, unknowns: 0 },
        None => Form {
            bit: Bit::Zero,
            unknowns: only_unknown(k),
        },
    }
}

// Writes the forms of the marks over the front of the work buffer.
pub(crate) fn write_forms(marks: &[Option<Bit>], forms: &mut [Form])
    requires room { length marks.now ≤ length forms.old }
    requires few { erasures marks.now ≤ 64 }
    ensures { forms.new ≡ laid marks.now forms.old }
{
    // Counted by hand, since every mark is written and the erased ones alone are numbered.
    let mut k = 0;
    for (i, mark) in marks.iter().enumerate() {
        forms[i] = form_of(*mark, k);
        if mark.is_none() {
            k += 1;
        }
    }
}

// Writes the bits of the unknowns over the erased marks.
pub(crate) fn fill_marks(marks: &mut [Option<Bit>], bits: &[Bit; MOST_UNKNOWNS])
    requires few { erasures marks.old ≤ 64 }
    ensures { (i : ℕ) → i < length marks.old → mark_at marks.new i ≡ filled_of (mark_at marks.old i) (slice_index_or bits.now (rank marks.old i) Zero) }
{
    // Counted by hand, since behind `iter_mut().filter(..)` a proof does not know the marks that are written.
    let mut k = 0;
    for mark in marks.iter_mut() {
        if mark.is_none() {
            *mark = Some(bits[k]);
            k += 1;
        }
    }
}

// Writes the erased places whose unknowns are in the set to the front of the list, and says how many they are:
// the refusal carries that number, and the crate allocates no list.
pub(crate) fn list_places(marks: &[Option<Bit>], open: u64, places: &mut [usize]) -> usize
    requires few { erasures marks.now ≤ 64 }
    requires room { 64 ≤ length places.old }
    ensures { Places (Marked marks.now «open») (length marks.now) result places.old places.new }
{
    // Counted by hand: `filter` and a second `enumerate` would give k and still leave n, and a proof would then have to
    // say where the k-th erased mark lies.
    let mut n = 0;
    let mut k = 0;
    for (i, mark) in marks.iter().enumerate() {
        if mark.is_none() {
            if holds(open, k) {
                places[n] = i;
                n += 1;
            }
            k += 1;
        }
    }
    n
}
