// A line's fields.
use ar4ja::Code;
use outlet::Randomizer;

// Frames of the code stand one after the other at the end of what the outlet holds, as many as `done` says.
// Its book stands in the clauses: a ghost field is a fact over the fields, and holds no value of its own.
#[derive(Drop)]
pub struct Line<C, O> {
    pub(crate) code: Code,
    pub(crate) coder: C,
    pub(crate) randomizer: Randomizer<O>,
    pub(crate) done: usize,
    pub(crate) refused: u32,
}
