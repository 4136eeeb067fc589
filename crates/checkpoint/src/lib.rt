//! The keeper: it takes the blocks that a book hands over, in their order, and brings them to the
//! area in use of a disk.
//! What it has brought is kept: a stop at any later moment leaves it.
//!
//! It also writes images of the book: whole blocks, into the area that is not in use, while it goes
//! on appending to the one in use; then one byte makes the image the store. The end of an image may
//! be held before the image is there: from then on no block past it is kept.
//!
//! Which blocks of a book a keeper has received since it was opened, and what its disk holds of
//! them, is one relation (`HasReceived`), in which no book stands. Each call keeps it, and says
//! what a stop at any moment of it leaves: a content that some beginning of what the book's records
//! commit gives, with all that the mark told.
//!
//! Contracts see a keeper as a `KeeperState`: its disk, the area in use, the mark (the place up to
//! which commits are kept), the block that was held back, whether the disk has failed, the LSN up
//! to which the image of the area in use covers the records, and how far it is with an image.
#![tactic(auto)]

mod inbox;
mod keeper;
mod laying;
mod root;
mod stage;
mod turn;

pub use inbox::Inbox;
pub use keeper::Keeper;
pub use laying::{Laying, is_too_long, room_behind};
pub use turn::Turn;
