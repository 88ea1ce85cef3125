// Elimination over forms in at most 64 unknowns. What is demanded of the unknowns stands in pivot rows.
ghost use Rattle.std.specs.Prelude.{◌≡◌, ℕ, ◌<◌, ◌≤◌, true, false, length, is_ok};
ghost use Rattle.element.specs.declared.bits.Bit.TheVariants.{Zero, One};
ghost use Rattle.erasure.specs.Unknowns.{member, pivot, Solves, Reduced, Cleared, added, Found};
ghost use Rattle.erasure.specs.Demands.{Inserted, Demanded};

use element::{Bit, Element, Form};

// No block is filled in more places. Clauses write it as 64.
pub(crate) const MOST_UNKNOWNS: usize = 64;

// No assignment of the unknowns meets all demands.
#[derive(Clone, Copy)]
pub(crate) struct Contradiction;

// What is demanded of the first `count` unknowns: row p is the zero form, or has the unknown p and no other that
// has a pivot row. An array with a count, since the crate allocates nothing. That the count stays is a clause of each
// function that takes a `&mut`, which lends both fields.
#[derive(Drop)]
pub(crate) struct Pivots {
    pub(crate) rows: [Form; MOST_UNKNOWNS],
    pub(crate) count: usize,
    ghost size: { count ≤ 64 },
    ghost reduced: { Reduced count rows },
}

// Whether the unknown k is in the set.
pub(crate) fn holds(unknowns: u64, k: usize) -> bool
    requires { k < 64 }
    ensures in_set { result ≡ true → member unknowns k ≡ One }
    ensures not_in_set { result ≡ false → member unknowns k ≡ Zero }
{
    (unknowns >> k) % 2 == 1
}

// The lowest of the first u unknowns that is in the set, if one is.
pub(crate) fn lowest_unknown(unknowns: u64, u: usize) -> Option<usize>
    requires { u ≤ 64 }
    ensures { Found u unknowns result }
{
    (0..u).find(|k| holds(unknowns, *k))
}

// Adds the form to each of the first `count` rows that has the unknown k.
fn substitute(rows: &mut [Form], count: usize, k: usize, form: Form)
    requires unknown { k < 64 }
    requires room { count ≤ length rows.old }
    ensures { (p : ℕ) → p < count → pivot rows.new p ≡ added (member (pivot rows.old p).unknowns k) (pivot rows.old p) form }
{
    for row in rows[..count].iter_mut() {
        if holds(row.unknowns, k) {
            *row = row.plus(form);
        }
    }
}

impl Pivots {
    // Demands nothing.
    pub(crate) fn new(count: usize) -> Pivots
        requires { count ≤ 64 }
        ensures count { result.count ≡ count }
        ensures free { (s : ℕ → Bit) → Solves count result.rows s }
    {
        Pivots {
            rows: [Form::zero(); MOST_UNKNOWNS],
            count,
        }
    }

    // The form with the pivots taken out of it.
    fn reduce(&self, form: Form) -> Form
        ensures { Cleared self.now.count self.now.count self.now.rows form result }
    {
        let mut left = form;
        for (p, row) in self.rows[..self.count].iter().enumerate() {
            if holds(left.unknowns, p) {
                left = left.plus(*row);
            }
        }
        left
    }

    // Adds the demand that the form is zero.
    fn insert(&mut self, form: Form) -> Result<(), Contradiction>
        ensures count { self.new.count ≡ self.old.count }
        ensures inserted { Inserted self.old.count self.old.rows form self.new.rows (is_ok result) }
    {
        let left = self.reduce(form);
        match lowest_unknown(left.unknowns, self.count) {
            Some(k) => {
                substitute(&mut self.rows, self.count, k, left);
                self.rows[k] = left;
                Ok(())
            }
            None if left.bit == Bit::Zero => Ok(()),
            None => Err(Contradiction),
        }
    }

    // Adds the demand that each of the forms is zero.
    pub(crate) fn insert_all(&mut self, forms: &[Form]) -> Result<(), Contradiction>
        ensures count { self.new.count ≡ self.old.count }
        ensures demanded { Demanded self.old.count self.old.rows forms.now self.new.rows (is_ok result) }
    {
        for form in forms {
            self.insert(*form)?;
        }
        Ok(())
    }
}
