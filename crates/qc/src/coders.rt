// Two coders: one by the generator table, one by the rows with an inverse.
ghost use Rattle.std.specs.Prelude.{◌≡◌, ◌≤◌, length};
ghost use Rattle.refusal.specs.Outcome.{outcome};
ghost use Rattle.qc.specs.Refusals.{run_fault};
ghost use Rattle.qc.specs.Shape.{whole};
ghost use Rattle.qc.specs.Coding.{encoded, encoded_run, encode_answer, Coded, Linear, ZeroBlock, Turns};

use crate::circulant::{Product, Scratch};
use crate::faults::RunFault;
use crate::kernel::Summands;
use crate::matrix::QuasiCyclic;
use crate::syndrome::{LONGEST_SEGMENT, complete};
use element::Element;

// A coder keeps the message at the front of a run and writes behind it the parity and the punctured group
// that make all rows zero. Its block is the only one of the message with that; the block of a sum of
// messages is the sum of their blocks, that of zeros is zeros, and a message with each segment turned has the
// block so turned. Any type may be a coder; the two here share what stands
// around the working of a block, which each does in its own way (`Encoding`).
pub trait Coder {
    fn encode<C: QuasiCyclic, E: Element>(&self, code: C, run: &mut [E]) -> Result<(), RunFault>
        ensures answer { outcome run_fault result ≡ encode_answer E.zero E.plus (C.shape code) (C.tables code) run.old }
        ensures after { run.new ≡ encoded_run E.zero E.plus (C.shape code) (C.tables code) run.old }
        ensures coded { whole (C.shape code) ≤ length run.old → Coded E.zero E.plus (C.shape code) (C.tables code) run.old }
        ensures linear { Linear E.zero E.plus (C.shape code) (C.tables code) }
        ensures zeros { ZeroBlock E.zero E.plus (C.shape code) (C.tables code) }
        ensures turns { Turns E.zero E.plus (C.shape code) (C.tables code) };
}

// Codes by the generator table.
#[derive(Clone, Copy, PartialEq, Eq, Debug)]
pub struct TableCoder;

// Codes by the rows of the parity-check matrix, with the inverse of I + P Q.
#[derive(Clone, Copy, PartialEq, Eq, Debug)]
pub struct CheckCoder;

// How a coder works a whole block. It asks of the buffers what `complete` does, and for the same reason.
trait Encoding {
    fn encode_block<C: QuasiCyclic, E: Element>(
        &self,
        code: C,
        run: &mut [E],
        scratch: &mut Scratch<'_, E>,
    )
        requires there { whole (C.shape code) ≤ length run.old }
        requires room { length scratch.old.sums.now ≡ (C.shape code).m }
        ensures { run.new ≡ encoded E.zero E.plus (C.shape code) (C.tables code) run.old };
}

impl Encoding for TableCoder {
    fn encode_block<C: QuasiCyclic, E: Element>(
        &self,
        code: C,
        run: &mut [E],
        scratch: &mut Scratch<'_, E>,
    ) {
        let segments = 4 * code.message_groups();
        let product = Product {
            words: code.generator(),
            source: 0,
            sources: segments,
            target: segments,
            targets: 8,
        };
        product.write(run, scratch);
        complete(code, run, scratch.sums);
    }
}

impl Encoding for CheckCoder {
    fn encode_block<C: QuasiCyclic, E: Element>(
        &self,
        code: C,
        run: &mut [E],
        scratch: &mut Scratch<'_, E>,
    ) {
        let groups = code.message_groups();
        let parity = groups * code.group_len();
        let message = Summands::of(code, code.message_terms());
        message.write_group(run, scratch.sums, code.block_len());
        let asked = Summands::of(code, code.asked_terms());
        asked.write_group(run, scratch.sums, parity);
        let segments = 4 * groups;
        let product = Product {
            words: code.inverse(),
            source: segments,
            sources: 4,
            target: segments + 4,
            targets: 4,
        };
        product.write(run, scratch);
        complete(code, run, scratch.sums);
        let closing = Summands::of(code, code.closing_terms());
        closing.write_group(run, scratch.sums, parity);
    }
}

// The room is arrays of the longest segment, since library calls on lent buffers allocate nothing.
const LONGEST_TWICE: usize = 2 * LONGEST_SEGMENT;

impl<K: Encoding> Coder for K {
    fn encode<C: QuasiCyclic, E: Element>(&self, code: C, run: &mut [E]) -> Result<(), RunFault> {
        if run.len() < code.whole_len() {
            return Err(RunFault::TooShort);
        }
        let mut sums = [E::zero(); LONGEST_SEGMENT];
        let mut wide = [E::zero(); LONGEST_TWICE];
        let mut places = [0; LONGEST_SEGMENT];
        let mut scratch = Scratch::new(code.segment(), &mut sums, &mut wide, &mut places);
        self.encode_block(code, run, &mut scratch);
        Ok(())
    }
}
