// A sheet opened.
ghost use Rattle.std.specs.Prelude.{◌≡◌, length};
ghost use Rattle.jobsheet.specs.Refusals.{told};
ghost use Rattle.jobsheet.specs.Printing.{front};
ghost use Rattle.jobsheet.specs.Printout.{refusal_of};
ghost use Rattle.jobsheet.specs.Sheets.{standing, closed, open_answer, open_printed, open_standing};
ghost use Rattle.jobsheet.specs.Steps.{Opened};

use crate::ends::line_at;
use crate::faults::SheetFault;
use crate::names::Order;
use crate::order::read_names;
use crate::printing::Printer;
use crate::report::Printed;
use crate::sheet::Sheet;

// No output buffer is smaller.
pub const ROOM: usize = 272;

// No sheet is longer.
pub const LIMIT: usize = 65536;

const HEADING: &[u8] = b"line,code,coder,parity\n";

// The order of a sheet's names, and where its second line begins.
fn read_order(text: &[u8]) -> Result<(Order, usize), SheetFault>
    ensures { Opened text.now result }
{
    if text.len() > LIMIT {
        return Err(SheetFault::TooLong);
    }
    let (line, next) = line_at(text, 0);
    let order = read_names(line).ok_or(SheetFault::Names)?;
    Ok((order, next))
}

impl<'a> Sheet<'a> {
    // A sheet with no line left.
    fn closed(text: &'a [u8]) -> Sheet<'a>
        ensures { standing result ≡ closed }
    {
        Sheet {
            text,
            at: text.len(),
            line: 1,
            order: Order::CodeCoderMessage,
        }
    }

    // Opens a sheet: the heading is printed, and then the refusal if there is one.
    pub fn open(text: &'a [u8], out: &mut [u8]) -> (Sheet<'a>, Printed)
        ensures count { result.1.count ≡ length (open_printed (length out.old) text.now) }
        ensures fault { told result.1.fault ≡ refusal_of (open_answer (length out.old) text.now) }
        ensures out { out.new ≡ front (open_printed (length out.old) text.now) out.old }
        ensures sheet { standing result.0 ≡ open_standing (length out.old) text.now }
    {
        if out.len() < ROOM {
            return (Sheet::closed(text), Printed::nothing(SheetFault::Buffer));
        }
        let mut printer = Printer::new(out);
        printer.text(HEADING);
        match read_order(text) {
            Ok((order, at)) => (
                Sheet {
                    text,
                    at,
                    line: 2,
                    order,
                },
                printer.printed(None),
            ),
            Err(fault) => {
                printer.refusal(fault);
                (Sheet::closed(text), printer.printed(Some(fault)))
            }
        }
    }
}
