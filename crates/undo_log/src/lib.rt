//! What the live transactions asked for and did not undo: by transaction, and all in the order
//! asked.
#![tactic(auto)]

mod left_calls;
mod live;
mod logged;

pub use live::{Handle, Live};
pub use logged::{Entry, Later, Logged, Owned, Stamped};
