// A line of a sheet that is being read.
ghost use Rattle.std.specs.Prelude.{◌≤◌, length};

// A part of the sheet, from the next word to the line's end. Past its last word it begins behind its end.
#[derive(Clone, Copy)]
pub(crate) struct Line<'a> {
    pub(crate) text: &'a [u8],
    pub(crate) from: usize,
    pub(crate) end: usize,
    ghost within: { end ≤ length text.now },
}
