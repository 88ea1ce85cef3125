// Frames: the attached sync marker and a block behind it, and how a frame is read from where it stands.

#![tactic(auto)]

mod bytes;
mod faults;
mod marker;
mod place;
mod reading;

pub use bytes::message_len;
pub use faults::{Orientation, ReadFault};
pub use marker::marker_bit;
pub use reading::read;
