// Reading a frame from an outlet.
ghost use Rattle.std.specs.Prelude.{◌≡◌, ℕ, ◌≤◌, ◌↔◌, length, None, Ok};
ghost use Rattle.refusal.specs.Outcome.{outcome, unless};
ghost use Rattle.frame.specs.declared.faults.Orientation.{Orientation};
ghost use Rattle.frame.specs.declared.faults.Orientation.TheVariants.{Upright, Complemented};
ghost use Rattle.frame.specs.Refusals.{read_fault};
ghost use Rattle.frame.specs.Marker.{Marked};
ghost use Rattle.frame.specs.Reading.{MarkedCodeblock, due, read_answer, read_run, read_message};

use crate::bytes::{gather, message_len};
use crate::faults::{Orientation, ReadFault};
use crate::place::Frame;
use ar4ja::Code;
use element::Bit;
use outlet::Outlet;
use qc::{QuasiCyclic, check};

// No larger tolerance is lawful: up to it, a marker can not be taken for its complement.
const LARGEST_TOLERANCE: u32 = 15;

// The first reason not to look for a frame.
fn refusal_due(
    held: usize,
    place: usize,
    code: Code,
    tolerance: u32,
    message: usize,
    run: usize,
) -> Result<(), ReadFault>
    ensures { result ≡ unless (due held place code tolerance message run) }
{
    if tolerance > LARGEST_TOLERANCE {
        return Err(ReadFault::Tolerance);
    }
    if message != message_len(code) {
        return Err(ReadFault::MessageLength);
    }
    if run < code.whole_len() {
        return Err(ReadFault::RunTooShort);
    }
    if place > held || held - place < code.frame_len() {
        return Err(ReadFault::NotHeld);
    }
    Ok(())
}

// Reads the frame at a place. It answers which way its bits stand and in how many bits its marker
// differs, and the message is in the caller's buffer. The work buffer then holds the block as received,
// upright and without the randomizing sequence, and its punctured group, also where the block does not
// pass.
pub fn read<O: Outlet>(
    outlet: &O,
    place: usize,
    code: Code,
    tolerance: u32,
    message: &mut [u8],
    run: &mut [Bit],
) -> Result<(Orientation, u32), ReadFault>
    ensures answer { outcome read_fault result ≡ read_answer (O.bits outlet.now) place code tolerance (length message.old) run.old }
    ensures run { run.new ≡ read_run (O.bits outlet.now) place code tolerance (length message.old) run.old }
    ensures message { message.new ≡ read_message (O.bits outlet.now) place code tolerance message.old run.old }
    ensures accepts { due (length (O.bits outlet.now)) place code tolerance (length message.old) (length run.old) ≡ None → (way : Orientation) (d : ℕ) → result ≡ Ok (way, d) ↔ MarkedCodeblock (O.bits outlet.now) place code tolerance way d }
    ensures one { tolerance ≤ 15 → (d e : ℕ) → Marked (O.bits outlet.now) place tolerance Upright d → Marked (O.bits outlet.now) place tolerance Complemented e → ⊥ }
{
    refusal_due(
        outlet.held(),
        place,
        code,
        tolerance,
        message.len(),
        run.len(),
    )?;
    let frame = Frame {
        outlet,
        start: place,
        code,
    };
    let (way, distance) = frame.find_marker(tolerance).ok_or(ReadFault::NoMarker)?;
    frame.fetch(Bit::from(way), run);
    if let Some(row) = check(code, run)? {
        return Err(ReadFault::Fails(row));
    }
    gather(run, message);
    Ok((way, distance))
}
