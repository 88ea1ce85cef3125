// The names line of a sheet.
ghost use Rattle.std.specs.Prelude.{◌≡◌, ◌≤◌};
ghost use Rattle.jobsheet.specs.Names.{order_of};
ghost use Rattle.jobsheet.specs.Tokens.{rest};

use crate::line::Line;
use crate::names::{Name, Order};
use crate::token::Kind;

// The order of the names in a line, if it is a names line.
pub(crate) fn read_names(line: Line<'_>) -> Option<Order>
    requires { line.from ≤ line.end }
    ensures { result ≡ order_of (rest line.entry) }
{
    let words = line.words(Kind::Names)?;
    let first = Name::of(words.first)?;
    let second = Name::of(words.second)?;
    let third = Name::of(words.third)?;
    Order::of(first, second, third)
}
