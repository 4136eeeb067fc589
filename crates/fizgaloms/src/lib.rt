//! Fizgaloms for programs: a store in a file, and all that a program names of it, under one name.
//!
//! ```text
//! use fizgaloms::{Attempt, Call, Refusal, Reply, Transaction, keep};
//!
//! struct Draw;
//!
//! impl Transaction for Draw {
//!     type Output = u64;
//!
//!     fn make_calls<A: Attempt>(&self, attempt: &mut A) -> Result<u64, Refusal> {
//!         match attempt.call("ids", &Call::Draw)? {
//!             Reply::Id(id) => Ok(id),
//!             _ => Err(Refusal::WrongKind),
//!         }
//!     }
//! }
//! ```
//!
//! A program says what each of its threads does (`Work`), opens the file (`open_or_format`), and
//! hands both to `run`. A thread runs transactions by `transact` and `keep`, and those that wait
//! for something to do by `transact_waiting` and `keep_waiting`. A thread may also speak with its
//! `Client` step by step: `begin`, `call`, `commit`, `wait`.
//!
//! Beside the program's threads two work for the store. The committer brings what clients commit to
//! the disk, and sleeps while nothing is pending; the checkpointer writes an image of the store
//! before the journal has filled the area.
//!
//! A file is locked (`flock`) for as long as it is open (`LockedFile`), so one run at a time has a
//! store that it may write. A new file gets its content under another name in its folder, and then
//! its own (`Making`): so a stop leaves what was there, or all of the new one. No contract can say
//! what a file holds: nothing is claimed of that.
#![tactic(auto)]

mod burst;
mod checkpoints;
mod committing;
mod file_access;
mod filling;
mod locked;
mod making;
mod new_file;
mod opening;
mod pause;
mod read_ahead;
mod running;
mod seeking;
mod streams;
mod transacting;
mod values;
mod watched;

pub use calls::limits::{MAX_AREA, MIN_AREA};
pub use calls::{Bytes, Call, Kind, Refusal, Reply, When};
pub use disk_model::{FileDisk, Unknown};
pub use file_access::{Access, FileError, open};
pub use locked::LockedFile;
pub use making::open_or_make;
pub use new_file::{Making, Place};
pub use opening::{OpenError, open_or_format};
pub use running::{Closed, Work, all_ended, run};
pub use seeking::{NOTHING_FOUND, Patience, keep_waiting, transact_waiting};
pub use std::alloc::AllocGlobal;
pub use std::rt::Clock;
pub use std::sync::Wait;
pub use store::{Attempt, Client, Extent, Fill, Measured, Naming, Status, Ticket, Transaction};
pub use transacting::{keep, keep_within, transact, transact_within};
pub use values::{number_of, text_of, value_of_number, value_of_text};
pub use watched::{Watch, Watched};

/// The disk of a store in a file, which this program alone has.
pub type StoreFile = FileDisk<Unknown, LockedFile>;
