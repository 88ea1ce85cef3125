// The AR4JA codes of IRIG 106 Appendix R with 1,024 information bits: their names, parameters, permutations
// and block rows. Everything that differs between codes is here, and nothing else is.

#![tactic(auto)]

mod codes;
mod parameters;
mod permutations;
mod rows;
mod tables;

pub use codes::{Code, CodeFault, worked_values};
