// The lines of a sheet, worked one after another.
ghost use Rattle.std.specs.Prelude.{◌≡◌, ◌<◌, length, drop};
ghost use Rattle.jobsheet.specs.Text.{lines};
ghost use Rattle.jobsheet.specs.Refusals.{told};
ghost use Rattle.jobsheet.specs.Printing.{front};
ghost use Rattle.jobsheet.specs.Printout.{refusal_of};
ghost use Rattle.jobsheet.specs.Sheets.{standing, next_answer, next_standing, some_left, job_answer, job_printed, job_standing};
ghost use Rattle.jobsheet.specs.JobSteps.{all_asked};

use crate::ends::line_at;
use crate::faults::SheetFault;
use crate::jobs::{Job, read_job};
use crate::opening::ROOM;
use crate::printing::Printer;
use crate::report::Printed;
use crate::sheet::Sheet;

impl<'a> Sheet<'a> {
    // Whether a line is left.
    pub fn has_line(&self) -> bool
        ensures { result ≡ some_left (standing self.now).left }
    {
        self.at < self.text.len()
    }

    // What the next line says; it goes on to the one after it.
    fn next_job(&mut self) -> Result<Job<'a>, SheetFault>
        requires { self.old.at < length self.old.text.now }
        ensures answer { all_asked result ≡ next_answer self.old.order self.old.line (lines (drop self.old.at self.old.text.now)) }
        ensures after { standing self.new ≡ next_standing self.old.order self.old.line (lines (drop self.old.at self.old.text.now)) }
    {
        let number = self.line;
        let (line, next) = line_at(self.text, self.at);
        let job = read_job(self.order, line);
        self.at = next;
        self.line = number + 1;
        job.map_err(|fault| SheetFault::from((number, fault)))
    }

    // Works the next line, and prints what it gives or why it is refused.
    pub fn job_line(&mut self, out: &mut [u8]) -> Printed
        ensures count { result.count ≡ length (job_printed (length out.old) (standing self.old)) }
        ensures fault { told result.fault ≡ refusal_of (job_answer (length out.old) (standing self.old)) }
        ensures out { out.new ≡ front (job_printed (length out.old) (standing self.old)) out.old }
        ensures sheet { standing self.new ≡ job_standing (length out.old) (standing self.old) }
    {
        if out.len() < ROOM {
            return Printed::nothing(SheetFault::Buffer);
        }
        if self.at == self.text.len() {
            return Printed::nothing(SheetFault::NoLine);
        }
        let line = self.line;
        let mut printer = Printer::new(out);
        match self.next_job() {
            Ok(job) => {
                printer.job(line, job);
                printer.printed(None)
            }
            Err(fault) => {
                printer.refusal(fault);
                printer.printed(Some(fault))
            }
        }
    }
}
