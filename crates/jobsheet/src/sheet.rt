// A job sheet that is being worked, line by line.
ghost use Rattle.std.specs.Prelude.{◌+◌, ◌≤◌, length};

use crate::names::Order;

// The place of the next line, its number, and the order of the columns. A line has at least one byte, so
// that no number passes 65,536.
#[derive(Drop)]
pub struct Sheet<'a> {
    pub(crate) text: &'a [u8],
    pub(crate) at: usize,
    pub(crate) line: u32,
    pub(crate) order: Order,
    ghost inside: { at ≤ length text.now },
    ghost few: { line + length text.now ≤ at + 65537 },
}
