// Erasure fill: the erased symbols of a block, exactly when one codeblock fits the others. An erased symbol is
// an unknown, the rows of the block are affine forms in the unknowns, and elimination settles them.

#![tactic(auto)]

mod elimination;
mod faults;
mod filling;
mod marks;
mod solutions;
mod solving;

pub use faults::FillFault;
pub use filling::fill;
