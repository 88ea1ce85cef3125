// The lines that are printed, one for a job, one for a refusal, and what a call tells of them.
ghost use Rattle.std.specs.Prelude.{◌≡◌, ◌^◌, ◌<◌, Some};
ghost use Rattle.jobsheet.specs.JobSteps.{asked};
ghost use Rattle.jobsheet.specs.Refusals.{sheet_fault};
ghost use Rattle.jobsheet.specs.Printing.{job_text, refusal_text, ended, job_start};
ghost use Rattle.jobsheet.specs.Printers.{HasRoom, Adds};

use crate::coding::{MESSAGE_BITS, code_message};
use crate::faults::SheetFault;
use crate::jobs::Job;
use crate::printing::Printer;
use element::Bit;
use qc::QuasiCyclic;
use refusal::Refusal;

// The longest whole block, which is that of code 1.
const LONGEST: usize = 2560;

// How many bytes a call wrote, and the sheet's fault if there is one: no `Result`, since a refusal is printed too.
#[derive(Clone, Copy)]
pub struct Printed {
    pub count: usize,
    pub fault: Option<SheetFault>,
}

impl Printed {
    // A refusal that prints nothing.
    pub(crate) fn nothing(fault: SheetFault) -> Printed
        ensures { (result.count ≡ 0) × (result.fault ≡ Some fault) }
    {
        Printed {
            count: 0,
            fault: Some(fault),
        }
    }
}

impl Printer<'_> {
    // Prints a job's line up to its parity.
    #[tactic(auto, using(crate::proofs::Fronts::five, crate::proofs::Fronts::one, crate::proofs::Fronts::word_five))]
    fn job_start(&mut self, line: u32, job: Job<'_>)
        requires room { HasRoom self.old 14 }
        requires line { line < 10 ^ 5 }
        ensures { Adds self.old self.new (job_start line job.entry.code job.entry.coder) }
    {
        self.decimal(line);
        self.text(b",");
        self.decimal(u32::from(job.code));
        self.text(b",");
        self.text(job.coder.word());
        self.text(b",")
    }

    // Prints the line of a job. Its message is coded in a run of its own.
    pub(crate) fn job(&mut self, line: u32, job: Job<'_>)
        requires room { HasRoom self.old 272 }
        requires line { line < 10 ^ 5 }
        ensures { Adds self.old self.new (ended (job_text line (asked job.entry))) }
    {
        // An array of the longest block: nothing is allocated.
        let mut run = [Bit::Zero; LONGEST];
        code_message(job, &mut run);
        self.job_start(line, job);
        self.hex(&run[MESSAGE_BITS..job.code.block_len()]);
        self.text(b"\n")
    }

    // Prints the line of a refusal.
    #[tactic(auto, using(crate::proofs::Fronts::ten))]
    pub(crate) fn refusal(&mut self, fault: SheetFault)
        requires { HasRoom self.old 41 }
        ensures { Adds self.old self.new (ended (refusal_text (sheet_fault fault))) }
    {
        self.decimal(fault.line());
        self.text(b",refused,");
        self.decimal(fault.column());
        self.text(b",");
        self.decimal(fault.number());
        self.text(b"\n")
    }

    // What it has printed, with the sheet's fault if there is one.
    pub(crate) fn printed(&self, fault: Option<SheetFault>) -> Printed
        ensures { (result.count ≡ self.now.at) × (result.fault ≡ fault) }
    {
        Printed {
            count: self.at,
            fault,
        }
    }
}
