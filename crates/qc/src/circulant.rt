// Circulants of a table applied to segments.
ghost use Rattle.std.specs.Prelude.{◌≡◌, ℕ, ◌+◌, ◌-◌, ◌*◌, ◌/◌, ◌%◌, ◌<◌, ◌≤◌, length, get_or, take, slice_index, slice_index_or};
ghost use Rattle.qc.specs.Segments.{total, segments, Written};
ghost use Rattle.qc.specs.Circulant.{act, bit, number, ones_of};
ghost use Rattle.qc.specs.Product.{product_at};

use crate::kernel::{add_each, clear, write_segment};
use element::Element;

// Room to work segments of m elements in: one for sums, twice one, and a place for each element. The m bits of a
// first row fill whole words.
// The length of `sums` behind a `&mut Scratch` is known after a call only by a clause, so each call says it is `kept`.
#[derive(Drop)]
pub(crate) struct Scratch<'a, E> {
    pub(crate) sums: &'a mut [E],
    wide: &'a mut [E],
    places: &'a mut [usize],
    ghost some: { 0 < length sums.now },
    ghost words: { length sums.now % 32 ≡ 0 },
    ghost twice: { length wide.now ≡ length sums.now + length sums.now },
    ghost listed: { length places.now ≡ length sums.now },
}

impl<'a, E> Scratch<'a, E> {
    // At the front of each slice.
    pub(crate) fn new(
        m: usize,
        sums: &'a mut [E],
        wide: &'a mut [E],
        places: &'a mut [usize],
    ) -> Self
        requires segment { (0 < m) × (m % 32 ≡ 0) }
        requires room { (m ≤ length sums.old) × ((m + m ≤ length wide.old) × (m ≤ length places.old)) }
        ensures { length result.sums.now ≡ m }
    {
        Scratch {
            sums: &mut sums[..m],
            wide: &mut wide[..m + m],
            places: &mut places[..m],
        }
    }
}

// A product with a table of first rows, in `words`: `targets` segments from segment `target` on are made from
// `sources` segments from segment `source` on. First row `targets * r + q` takes source r to target q.
#[derive(Clone, Copy)]
pub(crate) struct Product {
    pub(crate) words: &'static [u32],
    pub(crate) source: usize,
    pub(crate) sources: usize,
    pub(crate) target: usize,
    pub(crate) targets: usize,
}

// Writes `segment` to `wide`, and once more after it, so that no place past its end has to go round.
fn write_twice<E: Element>(wide: &mut [E], segment: &[E])
    requires { length wide.old ≡ length segment.now + length segment.now }
    ensures { (i : ℕ) → i < length segment.now + length segment.now → slice_index_or wide.new i E.zero ≡ slice_index_or segment.now (i % length segment.now) E.zero }
{
    let m = segment.len();
    wide[..m].copy_from_slice(segment);
    wide[m..].copy_from_slice(segment);
}

// Lists how far each one of a first row takes an element: one place more than the number of its bit. Answers
// how many there are: the list has a count beside it, since it lies in fixed memory. Each place is written, and
// kept or not by its bit, so that there is no branch to guess.
fn list_ones(places: &mut [usize], first_row: &[u32]) -> usize
    requires { length places.old ≡ 32 * length first_row.now }
    ensures listed { take result places.new ≡ ones_of (bit (number first_row.now 0 (length first_row.now))) (length places.old) }
    ensures count { result ≤ length places.old }
{
    let m = places.len();
    let mut n = 0;
    for e in 0..m {
        places[n] = e + 1;
        n += ((first_row[(m - 1 - e) / 32] >> (e % 32)) % 2) as usize;
    }
    n
}

// For each of the 16 places from `base` on, the sum of what `wide` has each of `places` further.
fn sums_at<E: Element>(wide: &[E], places: &[usize], base: usize) -> [E; 16]
    requires { (k : ℕ) → k < length places.now → base + slice_index places.now k + 16 ≤ length wide.now }
    ensures { (i : ℕ) → i < 16 → slice_index_or result i E.zero ≡ total E.zero E.plus (λ k. get_or wide.now (base + k + i) E.zero) places.now }
{
    let mut sums = [E::zero(); 16];
    for &k in places {
        add_each(&mut sums, &wide[base + k..base + k + 16]);
    }
    sums
}

// Adds to each place of `sums` what `wide` has each of `places` further. Sixteen sums are held at a time, by number,
// since `as_chunks_mut` tells a proof nothing of what the sums end as.
fn add_shifted<E: Element>(sums: &mut [E], wide: &[E], places: &[usize])
    requires sixteens { length sums.old % 16 ≡ 0 }
    requires there { (k : ℕ) → k < length places.now → slice_index places.now k + length sums.old ≤ length wide.now }
    ensures { (i : ℕ) → i < length sums.old → slice_index_or sums.new i E.zero ≡ E.plus (slice_index_or sums.old i E.zero) (total E.zero E.plus (λ k. get_or wide.now (k + i) E.zero) places.now) }
{
    for b in 0..sums.len() / 16 {
        let from = 16 * b;
        let more = sums_at(wide, places, from);
        add_each(&mut sums[from..from + 16], &more);
    }
}

// Adds to the sums a circulant applied to `segment`. Inlined into the loop over sources, it is up to a fifth slower.
#[inline(never)]
fn add_circulant<E: Element>(scratch: &mut Scratch<'_, E>, segment: &[E], first_row: &[u32])
    requires { (length scratch.old.sums.now ≡ length segment.now) × (length segment.now ≡ 32 * length first_row.now) }
    ensures kept { length scratch.new.sums.now ≡ length scratch.old.sums.now }
    ensures added { (s : ℕ) → s < length scratch.old.sums.now → slice_index_or scratch.new.sums.now s E.zero ≡ E.plus (slice_index_or scratch.old.sums.now s E.zero) (act E.zero E.plus (length segment.now) (number first_row.now 0 (length first_row.now)) (λ i. get_or segment.now i E.zero) s) }
{
    let wide = &mut *scratch.wide;
    let places = &mut *scratch.places;
    write_twice(wide, segment);
    let n = list_ones(places, first_row);
    add_shifted(scratch.sums, wide, &places[..n]);
}

impl Product {
    // Sums target q. Source r and its first row go by one number.
    fn sum_target<E: Element>(self, scratch: &mut Scratch<'_, E>, run: &[E], q: usize)
        requires table { self.sources * self.targets * (length scratch.old.sums.now / 32) ≤ length self.words.now }
        requires there { (self.source + self.sources) * length scratch.old.sums.now ≤ length run.now }
        requires target { q < self.targets }
        ensures kept { length scratch.new.sums.now ≡ length scratch.old.sums.now }
        ensures made { let m = length scratch.old.sums.now in (s : ℕ) → s < m → slice_index_or scratch.new.sums.now s E.zero ≡ product_at E.zero E.plus m self (segments E.zero m run.now) q s }
    {
        let m = scratch.sums.len();
        let row = m / 32;
        clear(scratch.sums);
        for r in 0..self.sources {
            let from = (self.source + r) * m;
            let segment = &run[from..from + m];
            let start = (self.targets * r + q) * row;
            let first_row = &self.words[start..start + row];
            add_circulant(scratch, segment, first_row);
        }
    }

    // Writes the targets, by number, since each reads the whole run. The sources lie before them.
    // `Summands::write_group` has this loop over its own sums: a trait for both would need laws of its own.
    pub(crate) fn write<E: Element>(self, run: &mut [E], scratch: &mut Scratch<'_, E>)
        requires table { self.sources * self.targets * (length scratch.old.sums.now / 32) ≤ length self.words.now }
        requires apart { self.source + self.sources ≤ self.target }
        requires there { (self.target + self.targets) * length scratch.old.sums.now ≤ length run.old }
        ensures kept { length scratch.new.sums.now ≡ length scratch.old.sums.now }
        ensures made { let m = length scratch.old.sums.now in let from = self.target * m in Written E.zero (λ p. product_at E.zero E.plus m self (segments E.zero m run.old) ((p - from) / m) ((p - from) % m)) from run.old run.new (from + self.targets * m) }
    {
        let m = scratch.sums.len();
        for q in 0..self.targets {
            self.sum_target(scratch, run, q);
            let sums = &mut *scratch.sums;
            write_segment(run, (self.target + q) * m, sums);
        }
    }
}
