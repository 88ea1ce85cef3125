// The parts of a parity-check matrix as the loops read them.

// A permutation of the M places of a group: segment j goes by the segment (theta + j) mod 4, read from its
// place phi[j] on, round to the one before. A segment is a quarter of a group, one circulant wide.
#[derive(Clone, Copy, PartialEq, Eq, Debug)]
pub struct Permutation {
    pub theta: usize,
    pub phi: [usize; 4],
}

// One summand of a block equation: a group of the block under a permutation, by its number in a table.
#[derive(Clone, Copy, PartialEq, Eq, Debug)]
pub struct Term {
    pub permutation: usize,
    pub group: usize,
}
