//! The book: transactions on shared collections, one step at a time, in memory. It calls no device.
//!
//! **What it promises.** Each step has an answer, and each answer its row (`specs/Rows`): when a
//! refusal comes, in which order, and what is left. A history of steps is legal where each has the
//! answer that the ones before allow (`specs/Histories`), and a legal history is transactions that
//! run whole, one after another, in the order of their commits, with the replies that clients got
//! (`history` of `proofs/BookHistory`). What was handed over in blocks is a beginning of the
//! records of the history (`specs/Handing`), and an image that is packed of a frozen book stands
//! for such a beginning.
//!
//! A book is four shelves and a journal. A step is a method of the journal that takes one shelf,
//! and is a step of the book whatever the other shelves are (`specs/Shelved`).
//!
//! **Where its argument stands.** `specs/Books` is the state that contracts see. That each step
//! leaves a book a book is in `proofs/BookInvariant`; that a row on one shelf is a step of the book
//! in `proofs/JournalSteps`; that it takes its row in `proofs/Takings`; what a history comes to in
//! `proofs/BookHistory`, over the theory of `steps`. The needs and the table of live transactions
//! are those of `steps`, the spelling of records is that of `records`.
//!
//! **To change it.** A new step is a method of `Journal` and one of `Book`, an `Action` in
//! `actions.rt`, a row in `specs/Rows` and in `specs/Histories`, and a case in `Takings`,
//! `LiveCalls`, `BookHistory`, `Readings` and `BookInvariant`; one that stands apart from the
//! table, as a cut does, has one in `Handings` too. A new refusal of a step is a line of its row. A
//! new kind or mode touches nothing here.
#![tactic(auto)]

mod actions;
mod asks;
mod book;
mod ends;
mod gathers;
mod journal;
mod makes;
mod parts;
mod undoing;

pub use actions::{Action, BookStep, Target};
pub use book::Book;
pub use journal::Journal;
pub use records::{Block, Outbox};
