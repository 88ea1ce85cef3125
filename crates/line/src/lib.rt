// The line: messages sent as frames through an outlet, and read back from it. What a line has done is told by
// its book, a list of messages and a number of refused sends.

#![tactic(auto)]

mod call;
mod calls;
mod faults;
mod line_type;
mod performing;
mod sending;

pub use call::{Answer, Ask, Call};
pub use faults::{ReadBackFault, SendFault};
pub use line_type::Line;
pub use performing::perform;
