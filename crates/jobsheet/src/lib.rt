// The job sheet: a text of coding jobs, one to a line, and what is printed for it. It knows the coders and
// the codes, and nothing of frames or outlets.

#![tactic(auto)]

mod coding;
mod ends;
mod faults;
mod jobs;
mod line;
mod message;
mod names;
mod opening;
mod order;
mod printing;
mod report;
mod sheet;
mod token;
mod values;
mod whole;
mod working;

pub use faults::{LineFault, SheetFault, ValueFault};
pub use opening::{LIMIT, ROOM};
pub use report::Printed;
pub use sheet::Sheet;
pub use whole::work;
