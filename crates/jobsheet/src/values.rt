// The values of a job line, each by its word.
ghost use Rattle.std.specs.Prelude.{◌≡◌};
ghost use Rattle.jobsheet.specs.Values.{is_hex, all_hex, code_value, coder_value, message_value};
ghost use Rattle.jobsheet.specs.JobSteps.{held};

use crate::faults::ValueFault;
use crate::message::{DIGITS, Message};
use crate::names::CoderName;
use ar4ja::Code;

// A code: one digit, the number of a code.
pub(crate) fn code_value(word: &[u8]) -> Result<Code, ValueFault>
    ensures { result ≡ code_value word.now }
{
    match word {
        [digit @ b'0'..=b'9'] => Ok(Code::try_from((*digit - b'0') as u32)?),
        _ => Err(ValueFault::Unreadable),
    }
}

// A coder, by its word.
pub(crate) fn coder_value(word: &[u8]) -> Result<CoderName, ValueFault>
    ensures { result ≡ coder_value word.now }
{
    CoderName::of(word).ok_or(ValueFault::Unreadable)
}

// Whether a byte is a digit of a message.
fn is_hex(b: u8) -> bool
    ensures { result ≡ is_hex b }
{
    matches!(b as char, '0'..='9' | 'A'..='F')
}

// Whether each byte of a word is a digit of a message.
fn all_hex(word: &[u8]) -> bool
    ensures { result ≡ all_hex word.now }
{
    word.iter().all(|b| is_hex(*b))
}

// A message: its digits.
pub(crate) fn message_value(word: &[u8]) -> Result<Message<'_>, ValueFault>
    ensures { held result ≡ message_value word.now }
{
    if !all_hex(word) {
        return Err(ValueFault::Unreadable);
    }
    if word.len() != DIGITS {
        return Err(ValueFault::WrongLength);
    }
    Ok(Message { digits: word })
}
