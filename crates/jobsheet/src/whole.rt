// A whole sheet worked.
ghost use Rattle.std.specs.Prelude.{◌≡◌, ℕ, ◌+◌, ◌≤◌, true, List, ◌++◌, length, is_ok, vec_len, vec_capacity};
ghost use Rattle.jobsheet.specs.Printout.{printed_sheet};
ghost use Rattle.jobsheet.specs.Law.{LineForLine};

use crate::opening::ROOM;
use crate::sheet::Sheet;
use std::alloc::AllocError;

// Adds to `all` what is printed for a sheet: the heading, and then a line for each job line of the sheet. The only
// error is want of memory, after which a front part of it is added; where `all` has the capacity there is none.
pub fn work(text: &[u8], all: &mut Vec<u8>) -> Result<(), AllocError>
    ensures printed { is_ok result ≡ true → all.new.items ≡ all.old.items ++ printed_sheet text.now }
    ensures part { (rest : List ℕ) × (all.new.items ++ rest ≡ all.old.items ++ printed_sheet text.now) }
    ensures room { vec_len all.old + length (printed_sheet text.now) ≤ vec_capacity all.old → is_ok result ≡ true }
    ensures lines { LineForLine text.now (printed_sheet text.now) }
{
    // One line's room, lent again for each.
    let mut out = [0u8; ROOM];
    let (mut sheet, opened) = Sheet::open(text, &mut out);
    all.extend_from_slice(&out[..opened.count])?;
    // No `for`: each line is worked into a buffer that is lent, which no iterator is handed.
    while sheet.has_line() {
        let worked = sheet.job_line(&mut out);
        all.extend_from_slice(&out[..worked.count])?;
    }
    Ok(())
}
