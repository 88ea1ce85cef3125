// The rows of a block, for callers that solve them.
ghost use Rattle.std.specs.Prelude.{◌≡◌, ◌/◌, ◌<◌, length, if◌then◌else◌};
ghost use Rattle.qc.specs.Terms.{terms};
ghost use Rattle.qc.specs.Codeblock.{block_row};
ghost use Rattle.qc.specs.SegmentRows.{rows_there, segment_rows};

use crate::kernel::Summands;
use crate::matrix::QuasiCyclic;
use crate::terms::Term;
use element::Element;

// Whether the rows can be worked out and have room.
fn has_rows<C: QuasiCyclic>(code: C, len: usize, n: usize, room: usize) -> bool
    ensures { result ≡ rows_there (C.shape code) len n room }
{
    code.whole_len() <= len && room == code.segment() && n < 8
}

// The terms of the block row that has segment n.
fn row_terms<C: QuasiCyclic>(code: C, n: usize) -> &'static [Term]
    requires { n < 8 }
    ensures { result.now ≡ terms (block_row (C.shape code) (n / 4)) }
{
    if n < 4 {
        code.first_terms()
    } else {
        code.second_terms()
    }
}

// Writes rows n·m to n·m + m - 1 of the whole block at the front of `run` into `rows`, which is one segment
// of m elements; n is 0 to 7, since the third block row is what the punctured group is worked out from.
// Answers false, and writes nothing, where `run` is shorter than a whole block, `rows` is not one segment or
// n is not below 8. The answer is a bool: the elimination that asks for rows always has the lengths right.
pub fn rows_of_segment<C: QuasiCyclic, E: Element>(
    code: C,
    run: &[E],
    n: usize,
    rows: &mut [E],
) -> bool
    ensures answer { result ≡ rows_there (C.shape code) (length run.now) n (length rows.old) }
    ensures after { rows.new ≡ (if rows_there (C.shape code) (length run.now) n (length rows.old) then segment_rows E.zero E.plus (C.shape code) run.now n else rows.old) }
{
    if !has_rows(code, run.len(), n, rows.len()) {
        return false;
    }
    let block_row = Summands::of(code, row_terms(code, n));
    block_row.sum_segment(rows, run, n % 4);
    true
}
