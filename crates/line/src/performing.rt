// Any list of calls on a line, from its opening on.
ghost use Rattle.std.specs.Prelude.{◌≡◌, map};
ghost use Rattle.line.specs.Book.{Book, opened, written};
ghost use Rattle.line.specs.Follow.{Follows};
ghost use Rattle.line.specs.Calls.{seen, served, turned, served_calls, book_after};
ghost use Rattle.line.specs.Law.{LineLaw};

use crate::call::{Answer, Ask, Call};
use crate::line_type::Line;
use ar4ja::Code;
use outlet::Outlet;
use qc::Coder;

// Puts one call to the line, by a match, since a list of calls is data that the promise speaks of: its buffers are worked in, and its answer is noted.
fn serve<C: Coder, O: Outlet>(line: &mut Line<C, O>, call: &mut Call)
    ensures calls { (b : Book) → Follows O.bits O.room b line.old → seen call.new ≡ served b (seen call.old) }
    ensures book { (b : Book) → Follows O.bits O.room b line.old → Follows O.bits O.room (turned b (seen call.old)) line.new }
    ensures kept { O.kept line.old.randomizer.below line.new.randomizer.below }
{
    let answer = match call.ask {
        Ask::Send => Answer::Sent(line.send(&call.message, &mut call.run)),
        Ask::ReadBack(frame) => {
            Answer::ReadBack(line.read_back(frame, &mut call.message, &mut call.run))
        }
        Ask::Counts => {
            let (done, refused) = line.counts();
            Answer::Counts(done, refused)
        }
    };
    call.answer = Some(answer);
}

// Opens a line over the outlet, puts the calls to it one after the other, and hands the outlet back.
#[tactic(auto, using(crate::proofs::Serving::serving))]
pub fn perform<C: Coder + Drop, O: Outlet>(code: Code, coder: C, outlet: O, calls: &mut [Call]) -> O
    ensures answers { map seen calls.new ≡ served_calls (opened code (O.bits outlet) (O.room outlet)) (map seen calls.old) }
    ensures outlet { O.bits result ≡ written (book_after (opened code (O.bits outlet) (O.room outlet)) (map seen calls.old)) }
    ensures law { LineLaw code (O.bits outlet) (O.room outlet) (map seen calls.old) (map seen calls.new) (O.bits result) }
    ensures kept { O.kept outlet result }
{
    let mut line = Line::open(code, coder, outlet);
    for call in calls.iter_mut() {
        serve(&mut line, call);
    }
    line.into_outlet()
}
