//! Images: what a book holds, copied collection by collection and spelled into whole blocks; and
//! what the book keeps beside its transactions while it is gathered for an image.
#![tactic(auto)]

mod effect;
mod effects;
mod gather;
mod gathering;
mod packing;
mod stamped;
mod telling;

pub use effect::Effect;
pub use gather::{Gather, ImageHead};
pub use gathering::Gathering;
pub use packing::{push_records, push_shown};
pub use telling::live_records;
