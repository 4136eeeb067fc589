//! The core as a list of steps: the same book, keeper and recovery that threads use, on one thread.
//! Its theorem is the crash theorem.
#![tactic(auto)]

mod step;
mod transit;
mod world;

pub use step::{Answer, Step};
pub use transit::Transit;
pub use world::{World, play};
