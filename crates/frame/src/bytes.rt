// A message's bits put together to bytes, the first bit of each byte the most significant.
ghost use Rattle.std.specs.Prelude.{◌≡◌, ◌+◌, ◌*◌, ◌≤◌, length, slice_index_or};
ghost use Rattle.element.specs.declared.bits.Bit.TheVariants.{Zero};
ghost use Rattle.outlet.specs.Bytes.{pack};
ghost use Rattle.frame.specs.Message.{message_len, message_bytes};

use ar4ja::Code;
use element::{Bit, number_of};
use qc::QuasiCyclic;

// How many bytes a message of a code has.
pub fn message_len(code: Code) -> usize
    ensures { result ≡ message_len code }
{
    code.message_groups() * code.group_len() / 8
}

// The byte of the eight bits from a place on.
#[tactic(auto, using(crate::proofs::Filling::byte_of))]
fn byte_from(run: &[Bit], from: usize) -> u8
    requires { from + 8 ≤ length run.now }
    ensures { result ≡ pack (λ j. slice_index_or run.now (from + j) Zero) }
{
    number_of(&run[from..from + 8]) as u8
}

// Fills the message with the bytes of the bits at the front of the run.
pub(crate) fn gather(run: &[Bit], message: &mut [u8])
    requires { 8 * length message.old ≤ length run.now }
    ensures { message.new ≡ message_bytes run.now (length message.old) }
{
    for (k, byte) in message.iter_mut().enumerate() {
        *byte = byte_from(run, 8 * k);
    }
}
