//! Clients of a store that threads share.
//!
//! A `Client` has one transaction or none. Each of its calls picks the locks that it needs, those
//! of shelves and then the journal's, and has what lies under them take a step (`Desk` of `desks`).
//! What a client has seen of the history, and loaded of the mark, is what its contracts speak of.
//! The crate `store` makes clients, and hands on what its users name.
//!
//! **What it promises.** Each call of a `Client` says what steps the client took, with the very
//! answer that it got (`specs/Calls`), and that what it has seen is a legal history from the opened
//! content (`specs/Seen` of `desks`).
//!
//! **Where its argument stands.** `specs/Known` is what a client knows. `proofs/Seeing` has what it
//! has seen go on, `proofs/Visits` what it knows behind one visit to the locks.
//!
//! **To change it.** A new step of a client is a method of `Desk`, which notes it, and one of
//! `Client`, with its definition in `specs/Calls`. Who waits for work is `src/awaiting.rt`.
#![tactic(auto)]

mod asking;
mod attempt;
mod awaiting;
mod client;
mod ending;
mod hints;
mod making;
mod miss;
mod phase;
mod request;
mod seen;
mod ticket;
mod watching;

pub use attempt::{Attempt, Transaction};
pub use client::Client;
pub use desks::Moment;
pub use phase::Phase;
pub use seen::Seen;
pub use ticket::Ticket;
