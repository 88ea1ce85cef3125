// The check of a block.
ghost use Rattle.std.specs.Prelude.{◌≡◌, ℕ, ◌*◌, ◌<◌, ◌≤◌, ◌↔◌, length, None, Ok};
ghost use Rattle.refusal.specs.Outcome.{outcome};
ghost use Rattle.qc.specs.Refusals.{run_fault};
ghost use Rattle.qc.specs.Shape.{M, whole};
ghost use Rattle.qc.specs.Codeblock.{row, lowest, groups, completed, punctured, completed_by, AllZero, Codeblock};
ghost use Rattle.qc.specs.Coding.{Reproduced};
ghost use Rattle.qc.specs.Check.{checked_run, check_answer};

use crate::faults::RunFault;
use crate::kernel::Summands;
use crate::matrix::QuasiCyclic;
use element::Element;

// No code has longer segments.
pub const LONGEST_SEGMENT: usize = 512;

// Writes the punctured group of the block at the front of `run` behind it.
// `there` and `segment` are asked here and below: they tie the code to two buffers that are lent on apart.
pub(crate) fn complete<C: QuasiCyclic, E: Element>(code: C, run: &mut [E], sums: &mut [E])
    requires there { whole (C.shape code) ≤ length run.old }
    requires segment { length sums.old ≡ (C.shape code).m }
    ensures { run.new ≡ completed E.zero E.plus (C.shape code) run.old }
{
    let known = Summands::of(code, code.known_terms());
    known.write_group(run, sums, code.block_len());
}

// The lowest of the rows of the first two block rows that is not zero.
fn lowest_failing<C: QuasiCyclic, E: Element>(code: C, run: &[E], sums: &mut [E]) -> Option<usize>
    requires there { whole (C.shape code) ≤ length run.now }
    requires segment { length sums.old ≡ (C.shape code).m }
    ensures { result ≡ lowest (λ i. E.same (row E.zero E.plus (C.shape code) (groups E.zero (M (C.shape code)) run.now) i) E.zero) (2 * M (C.shape code)) }
{
    let first = Summands::of(code, code.first_terms());
    // Not `or_else`, whose closure would need clauses for what `lowest_row` asks of it.
    if let Some(r) = first.lowest_row(sums, run) {
        return Some(r);
    }
    let second = Summands::of(code, code.second_terms());
    let group = code.group_len();
    second.lowest_row(sums, run).map(|r| group + r)
}

// Checks the block at the front of `run`: writes its punctured group behind it, and answers the lowest row
// that is not zero. There is none, and the block passes, exactly when some punctured group makes all rows
// zero, which is then the one that was written, and exactly when both coders make its parity from its
// message.
#[tactic(auto, using(crate::proofs::Answered::answered_by))]
pub fn check<C: QuasiCyclic, E: Element>(code: C, run: &mut [E]) -> Result<Option<usize>, RunFault>
    ensures answer { outcome run_fault result ≡ check_answer E.zero E.plus (C.shape code) E.same run.old }
    ensures after { run.new ≡ checked_run E.zero E.plus (C.shape code) run.old }
    ensures passes { whole (C.shape code) ≤ length run.old → (result ≡ Ok None ↔ Codeblock E.zero E.plus (C.shape code) (groups E.zero (M (C.shape code)) run.old)) }
    ensures only { (w : ℕ → E) → AllZero E.zero E.plus (C.shape code) (completed_by E.zero E.plus (C.shape code) (groups E.zero (M (C.shape code)) run.old) w) → (i : ℕ) → i < M (C.shape code) → w i ≡ punctured E.zero E.plus (C.shape code) (groups E.zero (M (C.shape code)) run.old) i }
    ensures coders { whole (C.shape code) ≤ length run.old → (result ≡ Ok None ↔ Reproduced E.zero E.plus (C.shape code) (C.tables code) run.old) }
{
    // The coders test the same: one comparison, no shorter as a function with a contract.
    if run.len() < code.whole_len() {
        return Err(RunFault::TooShort);
    }
    // An array of the longest segment: nothing is allocated.
    let mut scratch = [E::zero(); LONGEST_SEGMENT];
    let sums = &mut scratch[..code.segment()];
    complete(code, run, sums);
    Ok(lowest_failing(code, run, sums))
}
