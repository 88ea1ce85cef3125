// The steps of a send: a message's bits written to a run, and bits given to an outlet.
ghost use Rattle.std.specs.Prelude.{◌≡◌, ◌+◌, ◌*◌, ◌≤◌, ◌++◌, length, drop};
ghost use Rattle.outlet.specs.Packing.{packed_bits};
ghost use Rattle.line.specs.Frames.{marker};

use element::Bit;
use frame::marker_bit;
use outlet::{MARKER_LEN, Outlet, byte_bit};

// Writes the message's bits to the front of the run, the first bit of each byte the most significant.
pub(crate) fn spread(message: &[u8], run: &mut [Bit])
    requires { 8 * length message.now ≤ length run.old }
    ensures { run.new ≡ packed_bits message.now (8 * length message.now) ++ drop (8 * length message.now) run.old }
{
    let front = &mut run[..8 * message.len()];
    for (i, b) in front.iter_mut().enumerate() {
        *b = byte_bit(message[i / 8], i % 8);
    }
}

// Gives the outlet the marker. An array of its bits for `put_bits` to give wants a clause on the closure that makes it and
// a lemma on the array, and is no plainer.
pub(crate) fn put_marker<O: Outlet>(out: &mut O)
    requires { length (O.bits out.old) + 64 ≤ O.room out.old }
    ensures bits { O.bits out.new ≡ O.bits out.old ++ marker }
    ensures kept { O.kept out.old out.new }
{
    // There is room, so each bit is taken.
    for i in 0..MARKER_LEN {
        let _ = out.take(marker_bit(i));
    }
}

// Gives the outlet the bits of a slice.
pub(crate) fn put_bits<O: Outlet>(out: &mut O, run: &[Bit])
    requires { length (O.bits out.old) + length run.now ≤ O.room out.old }
    ensures bits { O.bits out.new ≡ O.bits out.old ++ run.now }
    ensures kept { O.kept out.old out.new }
{
    // There is room, so each bit is taken.
    for b in run {
        let _ = out.take(*b);
    }
}
