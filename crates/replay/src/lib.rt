//! The records of an area, read one after another: an image, which is loaded into a machine, and a
//! journal behind it that is repeated. What bytes stand for, and which are sound.
#![tactic(auto)]

mod appending;
mod loader;
mod machine;
mod reading;
mod redoing;
mod repetition;
mod stage;
mod undoing;

pub use appending::{append_all, blocks_len, make_room};
pub use loader::Loader;
pub use machine::{Machine, unmade};
pub use repetition::{Repeated, Repetition};
pub use stage::{Collections, Stage, Told};
pub use undoing::undo_all;
