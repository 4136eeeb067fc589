//! What a store knows of a disk: what a read gives, what a stop may leave, and what a stop at each
//! moment since an earlier one might have left. A disk in memory does all that a stop may do to a
//! disk; a file is one by a premise.
//!
//! **What it promises.** The trait `Disk` is the model: a sync that succeeded reaches the device, a
//! stop leaves any value in a byte written since, and every other byte alone (`specs/Disk`).
//! `MemDisk` keeps it, with faults and stops where a case asks for them; `FileDisk` does by the
//! premise that its file does.
//!
//! **Where its argument stands.** Calls are noted in proofs alone (`specs/Events`, `Log`), and what
//! a stop may leave is what the noted calls allow (`proofs/Calls`, `Stops`).
//!
//! **To change it.** A disk of your own implements `Disk`. A weaker device is a change of the
//! trait, on which all stands.
#![tactic(auto)]

mod call;
mod disk;
mod faults;
mod file_disk;
mod log;
mod mem_disk;
mod past;
mod through;

pub use disk::{Disk, Fault};
pub use file_disk::{Content, DeviceFile, FileDisk, Unknown};
pub use mem_disk::MemDisk;
pub use past::Past;
pub use through::{read, write_and_sync};
