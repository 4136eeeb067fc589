//! A script: what its lines ask for, and what a client's lines ask for that talks with an open store;
//! and of a line that is not understood where it goes wrong, and what was expected there.
#![tactic(auto)]

mod action;
mod addresses;
mod doubts;
mod line;
mod operations;
mod phrases;
mod reading;
mod reviewing;
mod seconds;
mod things;
mod wishes;
mod words;

pub use action::{Action, Operation, Request};
pub use addresses::addressed;
pub use doubts::{Why, doubt, doubt_wish};
pub use line::{Line, ScriptError};
pub use operations::Verb;
pub use reading::parse;
pub use reviewing::{Finding, Findings, review};
pub use seconds::Limit;
pub use things::Thing;
pub use wishes::{Wish, wish_of};
