//! What lies under the locks of a store: the book in parts, four shelves and a journal.
//!
//! A step of a client looks at the shelf that it needs under that shelf's lock (`ShelfDesk`), takes
//! the journal's lock behind it, has the journal take the step, and notes it in the one history
//! that all clients see (`Desk`). A commit holds the shelves that its transaction touched; a
//! making, an end and a look at how the store stands hold all four (`Shelves`). The crate `clients`
//! decides which locks a call takes; `store` has the disk's side.
//!
//! **What it promises.** Each step of a `Desk` stands at the end of the history with the very answer
//! that is given, and what the client has seen of that history is legal (`Steps` of `specs/Seen`).
//!
//! **Where its argument stands.** `specs/Touches` is what the locks keep. Each shelf has a twin,
//! a list of touches that the shelf's lock and the journal's both know, and that only both together
//! lengthen: so under both the journal knows what the shelf holds. With the shelves that it knows
//! it is a book, which stands where the history ends, and has sent a beginning of its records
//! (`specs/Desks`). `proofs/ShelfSteps` and `proofs/DeskSteps` keep that over each step. The
//! history itself is a table of `group_commit`, of which each client has a seat.
//!
//! **To change it.** A new step is a method of `Desk`, which notes it. When a client waits is
//! `Signal`; who waits for work, and whom it is told, is `WaitQueue` (`queue.rt`); how much room a
//! block leaves is `Room` of `engine`; how much the next image may take is `Budget`, and what a
//! step adds to it is `Footprint`.
#![tactic(auto)]

mod asked;
mod asking;
mod budget;
mod commits;
mod counts;
mod desk;
mod ended;
mod ending;
mod extent;
mod footprint;
mod line;
mod lock;
mod making;
mod moment;
mod naming;
mod order;
mod quarter;
mod queue;
mod recent_ends;
mod served;
mod shared;
mod shelf_desk;
mod shelves;
mod signal;
mod status;
mod touch;
mod visit;
mod waiter;

pub use asked::{Asked, Ended};
pub use budget::{Admission, Fill, full_of};
pub use catalog::Measured;
pub use counts::Counts;
pub use desk::{Desk, note_alone};
pub use extent::Extent;
pub use footprint::{Change, Footprint};
pub use lock::Lock;
pub use moment::Moment;
pub use naming::Naming;
pub use order::{Order, Ranked, lock_next};
pub use quarter::{FirstShelf, FourthShelf, Quarter, SecondShelf, ThirdShelf};
pub use queue::{Place, WaitQueue};
pub use shared::Shared;
pub use shelf_desk::ShelfDesk;
pub use shelves::{Held, HeldAll, Shelves};
pub use signal::Signal;
pub use status::Status;
pub use touch::Touch;
pub use undo_log::Handle;
