// A job's message spread to bits, and coded.
ghost use Rattle.std.specs.Prelude.{◌≡◌, ℕ, ◌+◌, ◌-◌, ◌*◌, ◌/◌, ◌%◌, ◌^◌, ◌<◌, ◌≤◌, true, ◌++◌, length, drop, slice_index_or, ◌==◌};
ghost use Rattle.element.specs.declared.bits.Bit.TheVariants.{Zero};
ghost use Rattle.element.specs.Bits.{bit_plus, bit_if};
ghost use Rattle.qc.specs.Shape.{M, whole};
ghost use Rattle.qc.specs.Coding.{encoded};
ghost use Rattle.ar4ja.specs.Codes.{shape_of, tables_of};
ghost use Rattle.jobsheet.specs.Values.{is_hex, hex_value, message_bits};
ghost use Rattle.jobsheet.specs.Parity.{parity_bit};

use crate::jobs::Job;
use crate::message::{DIGITS, Message};
use crate::names::CoderName;
use ar4ja::Code;
use element::Bit;
use qc::{CheckCoder, Coder, TableCoder};

// How many bits a message has: four to a digit.
pub(crate) const MESSAGE_BITS: usize = 4 * DIGITS;

// The value of a digit. `char::to_digit` reads small letters too, and answers an `Option`.
fn hex_value(b: u8) -> u8
    requires { is_hex b ≡ true }
    ensures { result ≡ hex_value b }
{
    match b as char {
        '0'..='9' => b - b'0',
        _ => b - b'A' + 10,
    }
}

// A bit of a digit's four, the first the most significant.
fn bit_of(digit: u8, place: usize) -> Bit
    requires { (is_hex digit ≡ true) × (place < 4) }
    ensures { result ≡ bit_if (hex_value digit / 2 ^ (3 - place) % 2 == 1) }
{
    // A call for a bit of any word would be no shorter.
    Bit::from((hex_value(digit) >> (3 - place)) % 2 == 1)
}

// Writes the bits of a message to the front of the run. A loop shared with frames, whose bytes have eight bits, would take
// the width and the reading as parameters, and is no shorter.
fn spread(message: Message<'_>, run: &mut [Bit])
    requires { 1024 ≤ length run.old }
    ensures { run.new ≡ message_bits message.entry.digits.now ++ drop 1024 run.old }
{
    let digits = message.digits;
    for (i, bit) in run[..MESSAGE_BITS].iter_mut().enumerate() {
        *bit = bit_of(digits[i / 4], i % 4);
    }
}

// Codes the message at the front of the run by the named coder. The run is long enough, so none refuses it.
fn encode(coder: CoderName, code: Code, run: &mut [Bit])
    requires { whole (shape_of code) ≤ length run.old }
    ensures { run.new ≡ encoded Zero bit_plus (shape_of code) (tables_of code) run.old }
{
    let _ = match coder {
        CoderName::Table => TableCoder.encode(code, run),
        CoderName::Check => CheckCoder.encode(code, run),
    };
}

// Codes a job's message in a run: its parity then stands behind its bits.
pub(crate) fn code_message(job: Job<'_>, run: &mut [Bit])
    requires { whole (shape_of job.code) ≤ length run.old }
    ensures { (i : ℕ) → i < 2 * M (shape_of job.entry.code) → slice_index_or run.new (1024 + i) Zero ≡ parity_bit job.entry.code (message_bits job.entry.message.digits.now) i }
{
    spread(job.message, run);
    encode(job.coder, job.code, run);
}
