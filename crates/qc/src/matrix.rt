// A quasi-cyclic code, by its shape and by the lists that the loops run over.
ghost use Rattle.std.specs.Prelude.{◌≡◌, true};
ghost use Rattle.qc.specs.Shape.{Shape, M, sent, whole, first, second, known, asked, closing, permutations};
ghost use Rattle.qc.specs.Terms.{terms};
ghost use Rattle.qc.specs.Sound.{sound};
ghost use Rattle.qc.specs.Coding.{Tables};
ghost use Rattle.qc.specs.Rules.{tabulated};

use crate::terms::{Permutation, Term};

// A code's meaning is its shape and its tables, which keep their rules. Its lists are made from the shape's
// block equations: the first two block rows, all but the punctured group of the third, and what the check
// coder solves for. Its tables are first rows in words of 32 bits.
pub trait QuasiCyclic: Copy {
    ghost shape: { Self → Shape };

    ghost tables: { Self → Tables };

    ghost lawful: { (c : Self) → sound (shape c) ≡ true };

    ghost ruled: { (c : Self) → tabulated (shape c) (tables c) ≡ true };

    fn message_groups(self) -> usize
        ensures { result ≡ (shape self).K };

    fn segment(self) -> usize
        ensures { result ≡ (shape self).m };

    fn table(self) -> &'static [Permutation]
        ensures { result.now ≡ permutations (shape self) };

    fn first_terms(self) -> &'static [Term]
        ensures { result.now ≡ terms (first (shape self)) };

    fn second_terms(self) -> &'static [Term]
        ensures { result.now ≡ terms (second (shape self)) };

    fn known_terms(self) -> &'static [Term]
        ensures { result.now ≡ terms (known (shape self)) };

    fn message_terms(self) -> &'static [Term]
        ensures { result.now ≡ terms (shape self).u3 };

    fn asked_terms(self) -> &'static [Term]
        ensures { result.now ≡ terms (asked (shape self)) };

    fn closing_terms(self) -> &'static [Term]
        ensures { result.now ≡ terms (closing (shape self)) };

    fn generator(self) -> &'static [u32]
        ensures { result.now ≡ (tables self).generator };

    fn inverse(self) -> &'static [u32]
        ensures { result.now ≡ (tables self).inverse };

    // How many elements a group has.
    fn group_len(self) -> usize
        ensures { result ≡ M (shape self) }
    {
        4 * self.segment()
    }

    // How many elements of a block are sent.
    fn block_len(self) -> usize
        ensures { result ≡ sent (shape self) }
    {
        (self.message_groups() + 2) * self.group_len()
    }

    // How many elements a whole block has, its punctured group included.
    fn whole_len(self) -> usize
        ensures { result ≡ whole (shape self) }
    {
        (self.message_groups() + 3) * self.group_len()
    }
}
