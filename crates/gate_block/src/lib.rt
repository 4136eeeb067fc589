//! Rows of blocks in an area of a disk, each kept whole or not at all through a stop at any moment.
#![tactic(auto)]

mod area;
mod block;
mod bytes;
pub mod layout;
mod read_error;

pub use area::Area;
pub use block::{BLOCK_HEAD, close_block};
