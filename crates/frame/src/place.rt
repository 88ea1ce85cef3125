// A frame's place in an outlet: the marker there, and the block behind it.
ghost use Rattle.std.specs.Prelude.{◌≡◌, ◌+◌, ◌^◌, ◌<◌, ◌≤◌, ◌++◌, length, drop, slice_index_or};
ghost use Rattle.element.specs.declared.bits.Bit.TheVariants.{Zero};
ghost use Rattle.qc.specs.Shape.{sent};
ghost use Rattle.ar4ja.specs.Codes.{shape_of};
ghost use Rattle.outlet.specs.Masks.{frame_bits};
ghost use Rattle.frame.specs.declared.faults.Orientation.TheVariants.{Upright};
ghost use Rattle.frame.specs.Marker.{distance, found};
ghost use Rattle.frame.specs.Reading.{received};

use crate::faults::Orientation;
use crate::marker::marker_bit;
use ar4ja::Code;
use element::{Bit, Element};
use outlet::{MARKER_LEN, Outlet, randomizing_bit};
use qc::QuasiCyclic;

// A frame of the code, or what stands in its place: as many bits, from `start` on, that the outlet holds.
#[derive(Drop)]
pub(crate) struct Frame<'a, O: Outlet> {
    pub(crate) outlet: &'a O,
    pub(crate) start: usize,
    pub(crate) code: Code,
    ghost held: { start + frame_bits code ≤ length (O.bits outlet.now) },
    ghost fits: { start + frame_bits code < 2 ^ 64 },
}

impl<'a, O: Outlet> Frame<'a, O> {
    // Bit `i` from the place on.
    fn bit(&self, i: usize) -> Bit
        requires { i < frame_bits self.now.code }
        ensures { result ≡ slice_index_or (O.bits self.now.outlet.now) (self.now.start + i) Zero }
    {
        self.outlet.bit_at(self.start + i).unwrap_or(Bit::Zero)
    }

    // In how many bits the first 64 differ from the marker.
    fn distance(&self) -> u32
        ensures { result ≡ distance Upright (O.bits self.now.outlet.now) self.now.start }
    {
        // A loop: no proof was found of the count of a filtered range.
        let mut differ = 0;
        for i in 0..MARKER_LEN {
            if self.bit(i) != marker_bit(i) {
                differ += 1;
            }
        }
        differ
    }

    // Which way the bits stand and how far the first 64 are from the marker, if that is within the tolerance.
    pub(crate) fn find_marker(&self, tolerance: u32) -> Option<(Orientation, u32)>
        ensures { result ≡ found (O.bits self.now.outlet.now) self.now.start tolerance }
    {
        let differ = self.distance();
        if differ <= tolerance {
            return Some((Orientation::Upright, differ));
        }
        let other = 64 - differ;
        if other <= tolerance {
            return Some((Orientation::Complemented, other));
        }
        None
    }

    // Writes the bits of the block to the front of the run, without the randomizing sequence and without
    // `turn`, which was added to all.
    pub(crate) fn fetch(&self, turn: Bit, run: &mut [Bit])
        requires { sent (shape_of self.now.code) ≤ length run.old }
        ensures { run.new ≡ received turn (O.bits self.now.outlet.now) self.now.start (sent (shape_of self.now.code)) ++ drop (sent (shape_of self.now.code)) run.old }
    {
        let block = &mut run[..self.code.block_len()];
        for (i, b) in block.iter_mut().enumerate() {
            *b = self.bit(MARKER_LEN + i).plus(randomizing_bit(i)).plus(turn);
        }
    }
}
