//! The machine over records: collections with the live transactions on them, one step a record. The
//! book runs it forward, and recovery repeats it, so both mean the same by a record.
//!
//! **What it promises.** Each method takes a row of the machine (`specs/Machine`), and leaves a
//! sound state (`specs/Sound`): the needs are those of the live calls, the content is what the
//! settled transactions give with the live calls behind them. The steps stand once, in
//! `TransactionTable`, over a shelf of any collections: `Machine` has one shelf, which is all of
//! them, and the book has four (`specs/Wholes`).
//!
//! **Where its argument stands.** `specs/Theory` is the machine without any structure of memory:
//! numbers, calls, needs and a content that only the laws of `Boosted` are known of.
//! `proofs/Theory` has the theorems: a history of records is transactions that run whole; an image
//! stands for what it was taken of; undoing what is live gives the settled content.
//! `proofs/TheoryRows` says that each row is one of the theory's, `proofs/BookLaws` that the laws
//! of the collections are what the theory asks. `proofs/Joining` says that a step on one of four
//! shelves is a row of the whole, whatever the others are.
//!
//! **To change it.** A new record has a row in `specs/Machine` and in `specs/Theory`, and a case in
//! `InvariantRows`, `Rows`, `TheoryRows`, `Steps`, `AlikeStates` and `RecordRuns`. A new kind or
//! call touches nothing here: what it needs is in the laws of `boosted`.
#![tactic(auto)]

mod laters;
mod looked;
mod shelf;
mod transaction_table;

pub use looked::Looked;
pub use shelf::Shelf;
pub use transaction_table::{TransactionTable, has_place, has_room};
