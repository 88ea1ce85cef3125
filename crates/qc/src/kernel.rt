// The inner loops, over whole segments.
ghost use Rattle.std.specs.Prelude.{◌≡◌, ℕ, ◌+◌, ◌-◌, ◌*◌, ◌/◌, ◌%◌, ◌<◌, ◌≤◌, length, slice_index_or};
ghost use Rattle.std.specs.List.{list_all};
ghost use Rattle.qc.specs.Segments.{segments, term_at, summed, Readable, AllReadable, AllApart, Written};
ghost use Rattle.qc.specs.Codeblock.{lowest};
ghost use Rattle.qc.specs.Shape.{permutations};

use crate::matrix::QuasiCyclic;
use crate::terms::{Permutation, Term};
use element::Element;

// Writes zero into each place.
pub(crate) fn clear<E: Element>(sums: &mut [E])
    ensures { (s : ℕ) → s < length sums.old → slice_index_or sums.new s E.zero ≡ E.zero }
{
    for sum in sums.iter_mut() {
        *sum = E::zero();
    }
}

// Adds `more` to `sums`, place by place.
pub(crate) fn add_each<E: Element>(sums: &mut [E], more: &[E])
    requires { length sums.old ≡ length more.now }
    ensures { (s : ℕ) → s < length sums.old → slice_index_or sums.new s E.zero ≡ E.plus (slice_index_or sums.old s E.zero) (slice_index_or more.now s E.zero) }
{
    // After `iter_mut().zip(more)` a proof would know nothing of the sums, so `more` goes by number.
    for (i, sum) in sums.iter_mut().enumerate() {
        *sum = sum.plus(more[i]);
    }
}

// Adds `segment`, read from its place `shift` on, round to the one before, to `sums`, place by place.
fn add_rotated<E: Element>(sums: &mut [E], segment: &[E], shift: usize)
    requires lengths { length sums.old ≡ length segment.now }
    requires within { shift < length segment.now }
    ensures { (s : ℕ) → s < length sums.old → slice_index_or sums.new s E.zero ≡ E.plus (slice_index_or sums.old s E.zero) (slice_index_or segment.now ((s + shift) % length segment.now) E.zero) }
{
    let cut = segment.len() - shift;
    add_each(&mut sums[..cut], &segment[shift..]);
    add_each(&mut sums[cut..], &segment[..shift]);
}

// Adds segment j of one term. The permutation is looked up here, once for the whole segment.
fn add_term<E: Element>(sums: &mut [E], run: &[E], table: &[Permutation], t: Term, j: usize)
    requires readable { Readable (length sums.old) (length run.now) table.now t }
    requires quarter { j < 4 }
    ensures { (s : ℕ) → s < length sums.old → slice_index_or sums.new s E.zero ≡ E.plus (slice_index_or sums.old s E.zero) (term_at (length sums.old) table.now (segments E.zero (length sums.old) run.now) j s t) }
{
    let m = sums.len();
    let p = table[t.permutation];
    let from = (4 * t.group + (p.theta + j) % 4) * m;
    add_rotated(sums, &run[from..from + m], p.phi[j]);
}

// Whether each place is zero. `all` would stop early, and so not run over whole vectors.
fn all_zero<E: Element>(sums: &[E]) -> bool
    ensures { result ≡ list_all (λ x. E.same x E.zero) sums.now }
{
    let zero = E::zero();
    sums.iter().fold(true, |clean, sum| clean & sum.same(zero))
}

// The lowest place that is not zero.
fn lowest_nonzero<E: Element>(sums: &[E]) -> Option<usize>
    ensures { result ≡ lowest (λ s. E.same (slice_index_or sums.now s E.zero) E.zero) (length sums.now) }
{
    if all_zero(sums) {
        return None;
    }
    let zero = E::zero();
    sums.iter().position(|sum| !sum.same(zero))
}

// Writes `sums` over the places of `run` from `from` on.
pub(crate) fn write_segment<E: Element>(run: &mut [E], from: usize, sums: &[E])
    requires { from + length sums.now ≤ length run.old }
    ensures before { (p : ℕ) → p < from → slice_index_or run.new p E.zero ≡ slice_index_or run.old p E.zero }
    ensures made { (i : ℕ) → i < length sums.now → slice_index_or run.new (from + i) E.zero ≡ slice_index_or sums.now i E.zero }
    ensures rest { (p : ℕ) → from + length sums.now ≤ p → slice_index_or run.new p E.zero ≡ slice_index_or run.old p E.zero }
{
    run[from..from + sums.len()].copy_from_slice(sums);
}

// A sum of terms, with the table of their permutations. That the terms can be read is asked at each call,
// since it speaks of the lengths of the caller's buffers too.
#[derive(Clone, Copy)]
pub(crate) struct Summands<'a> {
    table: &'a [Permutation],
    terms: &'a [Term],
}

impl Summands<'static> {
    // A sum of a code's own terms.
    pub(crate) fn of<C: QuasiCyclic>(code: C, terms: &'static [Term]) -> Self
        ensures table { result.table.now ≡ permutations (C.shape code) }
        ensures listed { result.terms.now ≡ terms.now }
    {
        Summands {
            table: code.table(),
            terms,
        }
    }
}

impl Summands<'_> {
    // Segment j of the sum.
    pub(crate) fn sum_segment<E: Element>(self, sums: &mut [E], run: &[E], j: usize)
        requires readable { AllReadable (length sums.old) (length run.now) self.table.now self.terms.now }
        requires quarter { j < 4 }
        ensures { (s : ℕ) → s < length sums.old → slice_index_or sums.new s E.zero ≡ summed E.zero E.plus (length sums.old) self.entry run.now j s }
    {
        clear(sums);
        for t in self.terms {
            add_term(sums, run, self.table, *t, j);
        }
    }

    // The lowest place of the sum that is not zero, in a group of four segments.
    pub(crate) fn lowest_row<E: Element>(self, sums: &mut [E], run: &[E]) -> Option<usize>
        requires short { length sums.old ≤ 512 }
        requires readable { AllReadable (length sums.old) (length run.now) self.table.now self.terms.now }
        ensures { result ≡ lowest (λ i. E.same (summed E.zero E.plus (length sums.old) self.entry run.now (i / length sums.old) (i % length sums.old)) E.zero) (4 * length sums.old) }
    {
        let m = sums.len();
        // j numbers the segments of a group, which are worked out one by one and lie in no slice.
        for j in 0..4 {
            self.sum_segment(sums, run, j);
            if let Some(s) = lowest_nonzero(sums) {
                return Some(j * m + s);
            }
        }
        None
    }

    // Writes the four segments of the sum to the group that begins at `from`; its terms are of other groups.
    pub(crate) fn write_group<E: Element>(self, run: &mut [E], sums: &mut [E], from: usize)
        requires short { length sums.old ≤ 512 }
        requires readable { AllReadable (length sums.old) (length run.old) self.table.now self.terms.now }
        requires apart { AllApart (length sums.old) from self.terms.now }
        requires there { from + 4 * length sums.old ≤ length run.old }
        ensures { Written E.zero (λ p. summed E.zero E.plus (length sums.old) self.entry run.old ((p - from) / length sums.old) ((p - from) % length sums.old)) from run.old run.new (from + 4 * length sums.old) }
    {
        let m = sums.len();
        // By number: each segment is worked out from the whole run.
        for j in 0..4 {
            self.sum_segment(sums, run, j);
            write_segment(run, from + j * m, sums);
        }
    }
}
