// What a job line asks for.
ghost use Rattle.std.specs.Prelude.{◌≡◌};
ghost use Rattle.jobsheet.specs.Tokens.{left};
ghost use Rattle.jobsheet.specs.Jobs.{job_of, line_job};
ghost use Rattle.jobsheet.specs.JobSteps.{asked, all_asked, with_value, filled};

use crate::faults::{LineFault, ValueFault};
use crate::line::Line;
use crate::message::{DIGITS, Message};
use crate::names::{CoderName, Name, Order};
use crate::token::{Kind, Words};
use crate::values::{code_value, coder_value, message_value};
use ar4ja::Code;

// A message to code.
#[derive(Clone, Copy)]
pub(crate) struct Job<'a> {
    pub code: Code,
    pub coder: CoderName,
    pub message: Message<'a>,
}

impl<'a> Job<'a> {
    // A job whose values are yet to come. Any values serve, since the names of an order differ, and so each is set.
    fn blank() -> Job<'a> {
        Job {
            code: Code::Half1024,
            coder: CoderName::Table,
            message: Message {
                digits: &[b'0'; DIGITS],
            },
        }
    }

    // The job with the value that a word has under a name.
    fn with(self, name: Name, word: &'a [u8]) -> Result<Job<'a>, ValueFault>
        ensures { all_asked result ≡ with_value (asked self.entry) name word.now }
    {
        match name {
            Name::Code => {
                let code = code_value(word)?;
                Ok(Job { code, ..self })
            }
            Name::Coder => {
                let coder = coder_value(word)?;
                Ok(Job { coder, ..self })
            }
            Name::Message => {
                let message = message_value(word)?;
                Ok(Job { message, ..self })
            }
        }
    }

    // The job with the value of a word in a column.
    fn fill(self, column: u32, name: Name, word: &'a [u8]) -> Result<Job<'a>, LineFault>
        ensures { all_asked result ≡ filled «column» (asked self.entry) name word.now }
    {
        self.with(name, word)
            .map_err(|fault| LineFault::from((column, fault)))
    }
}

// What three words ask for, value by value from the left.
fn read_values<'a>(order: Order, words: Words<'a>) -> Result<Job<'a>, LineFault>
    ensures { all_asked result ≡ job_of order words.entry.first.now words.entry.second.now words.entry.third.now }
{
    let (first, second, third) = order.names();
    let blank = Job::blank();
    let job = blank.fill(1, first, words.first)?;
    let job = job.fill(2, second, words.second)?;
    job.fill(3, third, words.third)
}

// What a line asks for.
pub(crate) fn read_job<'a>(order: Order, line: Line<'a>) -> Result<Job<'a>, LineFault>
    ensures { all_asked result ≡ line_job order (left line.entry) }
{
    let words = line.words(Kind::Values).ok_or(LineFault::Count)?;
    read_values(order, words)
}
