//! What a journal and a checkpoint image say, record by record, the one spelling of each record,
//! and collections that records tell of.
//!
//! **What it promises.** `decode` reads the one record that bytes begin with, and answers what is
//! behind it, or says that they begin with none; so a body spells one list of records at most
//! (`same_records` of `proofs/RecordUnique`). `Coded` is what the layers above ask of collections
//! that images tell of: their items, in an order from which they are loaded again. `Pending` holds
//! the records that wait for the disk, and hands them over in blocks.
//!
//! **Where its argument stands.** The grammar is `specs/Records`; `writing.rt` writes it,
//! `reading.rt` reads it, and `proofs/RecordLaws` has the laws that each spelling is read back.
//! `specs/Told` and `specs/Images` tie records to contents, and `sound.rt` says which replies and
//! inverses a record may pair with its call.
//!
//! **To change it.** A new record has a tag and a spelling in `specs/Records`, `writing.rt` and
//! `lengths.rt`, a reader in `reading.rt`, and a row in `replay`. A call of a new kind has the same
//! places, and `fitting.rt`.
#![tactic(auto)]

mod block;
mod coded;
mod decoding;
mod draft;
mod fitting;
mod lengths;
mod noted;
mod packing;
mod pending;
mod reading;
mod record;
mod sound;
mod unread;
mod writing;

pub use block::{Block, Image, Outbox};
pub use coded::Coded;
pub use decoding::decode;
pub use draft::{Handed, NextBlock};
pub use fitting::{fits_call, fits_item, fits_reply, is_reached, is_short_item, is_short_reply};
pub use lengths::{call_len, encoded_len};
pub use packing::Packer;
pub use pending::Pending;
pub use reading::read_record;
pub use record::{CallRecord, LaterRecord, Record};
pub use unread::Unread;
pub use writing::{encode, encode_call};
