// The rows of a block with erased symbols, solved for its unknowns.
ghost use Rattle.std.specs.Prelude.{◌≡◌, ◌*◌, ◌≤◌, length, is_ok};
ghost use Rattle.qc.specs.Shape.{M, whole};
ghost use Rattle.ar4ja.specs.Codes.{shape_of};
ghost use Rattle.erasure.specs.Demands.{Adds, RowsZero};
ghost use Rattle.erasure.specs.Solutions.{Means};

use crate::elimination::{Contradiction, Pivots};
use crate::solutions::Solutions;
use ar4ja::Code;
use element::{Element, Form};
use qc::{LONGEST_SEGMENT, QuasiCyclic};

// Adds the demand that all rows of the first two block rows are zero; `rows` is room for one segment. The clauses `there` and
// `segment` stand again and again, since they speak of buffers that are lent apart.
fn insert_rows(
    code: Code,
    run: &[Form],
    pivots: &mut Pivots,
    rows: &mut [Form],
) -> Result<(), Contradiction>
    requires there { whole (shape_of code) ≤ length run.now }
    requires segment { length rows.old ≡ (shape_of code).m }
    ensures count { pivots.new.count ≡ pivots.old.count }
    ensures demanded { Adds pivots.old.count pivots.old.rows (RowsZero pivots.old.count (shape_of code) run.now (2 * M (shape_of code))) pivots.new.rows (is_ok result) }
{
    // Segments by number: their rows are no list yet, and each call writes those of one segment.
    for n in 0..8 {
        // The lengths are right, so the rows are always there.
        let _ = qc::rows_of_segment(code, run, n, rows);
        pivots.insert_all(rows)?;
    }
    Ok(())
}

// What the rows of a whole block of forms in u unknowns leave to these.
pub(crate) fn solve(code: Code, run: &[Form], u: usize) -> Result<Solutions, Contradiction>
    requires size { u ≤ 64 }
    requires there { whole (shape_of code) ≤ length run.now }
    ensures { Means u (RowsZero u (shape_of code) run.now (2 * M (shape_of code))) result }
{
    let mut pivots = Pivots::new(u);
    // An array as long as any segment, since the crate allocates nothing.
    let mut scratch = [Form::zero(); LONGEST_SEGMENT];
    insert_rows(code, run, &mut pivots, &mut scratch[..code.segment()])?;
    Ok(pivots.solutions())
}
