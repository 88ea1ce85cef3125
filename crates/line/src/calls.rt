// What a line is asked.
ghost use Rattle.std.specs.Prelude.{◌≡◌, ℕ, List, length};
ghost use Rattle.ar4ja.specs.declared.codes.Code.{Code};
ghost use Rattle.line.specs.Frames.{WholeBlock, whole_block};
ghost use Rattle.refusal.specs.Outcome.{unless};
ghost use Rattle.line.specs.Book.{Book, opened, send_due, read_back_due};
ghost use Rattle.line.specs.Follow.{Follows, Sends, ReadsBack};

use crate::faults::{ReadBackFault, SendFault};
use crate::line_type::Line;
use crate::sending::{put_bits, put_marker, spread};
use ar4ja::Code;
use element::Bit;
use frame::{message_len, read};
use outlet::{Outlet, Randomizer};
use qc::{Coder, QuasiCyclic};

// The first reason not to send a message, with so many places left.
fn send_due(code: Code, left: usize, message: usize, run: usize) -> Result<(), SendFault>
    ensures { result ≡ unless (send_due code left message run) }
{
    if message != message_len(code) {
        return Err(SendFault::MessageLength);
    }
    if run < code.whole_len() {
        return Err(SendFault::RunTooShort);
    }
    if left < code.frame_len() {
        return Err(SendFault::NoRoom);
    }
    Ok(())
}

// The first reason not to read a frame back, with so many sent. This test, that of a send and that of a reading share two
// lengths alone: one test of these, with a fault of its own and a conversion into each operation's, is no shorter.
fn read_back_due(
    code: Code,
    done: usize,
    frame: usize,
    message: usize,
    run: usize,
) -> Result<(), ReadBackFault>
    ensures { result ≡ unless (read_back_due code done frame message run) }
{
    if frame >= done {
        return Err(ReadBackFault::NoSuchFrame);
    }
    if message != message_len(code) {
        return Err(ReadBackFault::MessageLength);
    }
    if run < code.whole_len() {
        return Err(ReadBackFault::RunTooShort);
    }
    Ok(())
}

impl<C: Coder, O: Outlet> Line<C, O> {
    // Opens a line over an outlet, with a randomizer between them. Its frames follow what the outlet holds.
    pub fn open(code: Code, coder: C, outlet: O) -> Line<C, O>
        ensures follows { Follows O.bits O.room (opened code (O.bits outlet) (O.room outlet)) result }
        ensures outlet { result.randomizer.below ≡ outlet }
    {
        Line {
            code,
            coder,
            randomizer: Randomizer::over(outlet, code),
            done: 0,
            refused: 0,
        }
    }

    // The done sends, and the refused ones up to the largest number that is kept.
    pub fn counts(&self) -> (usize, u32)
        ensures { (b : Book) → Follows O.bits O.room b self.now → (result.0 ≡ length b.messages) × (result.1 ≡ b.refused) }
    {
        (self.done, self.refused)
    }

    // Sends the frame of the message. The run then holds the message's whole block.
    pub fn send(&mut self, message: &[u8], run: &mut [Bit]) -> Result<(), SendFault>
        ensures sends { (b : Book) → Follows O.bits O.room b self.old → Sends O.bits O.room message.now run.old result run.new self.new b }
        ensures block { (code : Code) (m : List ℕ) → WholeBlock code m (whole_block code m) }
        ensures kept { O.kept self.old.randomizer.below self.new.randomizer.below }
    {
        let left = self.randomizer.capacity() - self.randomizer.held();
        if let Err(fault) = send_due(self.code, left, message.len(), run.len()) {
            self.refused = self.refused.saturating_add(1);
            return Err(fault);
        }
        spread(message, run);
        // The run is long enough, so this is done.
        let _ = self.coder.encode(self.code, run);
        put_marker(&mut self.randomizer);
        put_bits(&mut self.randomizer, &run[0..self.code.block_len()]);
        self.done = self.done.saturating_add(1);
        Ok(())
    }

    // Reads the frame of a done send, counted from 0, from the outlet under the randomizer. Such a frame's
    // marker is exact and its block passes, so this reading is never refused.
    pub fn read_back(
        &self,
        frame: usize,
        message: &mut [u8],
        run: &mut [Bit],
    ) -> Result<(), ReadBackFault>
        ensures { (b : Book) → Follows O.bits O.room b self.now → ReadsBack frame message.old run.old result message.new run.new b }
    {
        read_back_due(self.code, self.done, frame, message.len(), run.len())?;
        let back = (self.done - frame).saturating_mul(self.code.frame_len());
        let place = self.randomizer.held().saturating_sub(back);
        let _ = read(self.randomizer.below(), place, self.code, 0, message, run);
        Ok(())
    }

    // Ends the line, and hands the outlet back.
    pub fn into_outlet(self) -> O
    where
        C: Drop,
        ensures { result ≡ self.randomizer.below }
    {
        self.randomizer.into_below()
    }
}
