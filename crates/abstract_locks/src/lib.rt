//! The needs that live transactions hold, and which other owner stands in the way of a need.
#![tactic(auto)]

mod bounds;
mod needs;
mod owners;
mod segment;
mod table;

pub use table::NeedTable;
