// Outlets: where bits go, by meaning. An outlet holds a list of bits and takes more at its end, up to a
// capacity that never changes. A layer is an outlet over another one that shows its bits changed.

#![tactic(auto)]

mod bytes;
mod cell;
mod faults;
mod interface;
mod inverting;
mod layer;
mod levels;
mod packed;
mod randomizing;
mod reference;
mod sequence;
mod store;

pub use bytes::byte_bit;
pub use faults::{PlaceFault, TakeFault};
pub use interface::Outlet;
pub use inverting::Inverter;
pub use levels::Levels;
pub use packed::Packed;
pub use randomizing::{MARKER_LEN, Randomizer};
pub use sequence::{randomizing_bit, sequence_period};
