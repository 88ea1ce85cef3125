// Quasi-cyclic codes with punctured bits, over any element kind and any shape with segments of up to 512 elements:
// permutations, block equations, the check of a block, and two coders. It knows the numbers of no code.

#![tactic(auto)]

mod check_rows;
mod circulant;
mod coders;
mod faults;
mod kernel;
mod matrix;
mod syndrome;
mod terms;

pub use check_rows::rows_of_segment;
pub use coders::{CheckCoder, Coder, TableCoder};
pub use faults::RunFault;
pub use matrix::QuasiCyclic;
pub use syndrome::{LONGEST_SEGMENT, check};
pub use terms::{Permutation, Term};
