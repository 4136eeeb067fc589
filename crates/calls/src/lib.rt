//! The calls of a store's collections and their replies, the needs that keep two transactions
//! apart, the refusals and the limits of the store.
#![tactic(auto)]

mod bytes;
mod call;
mod check;
mod format;
mod item;
mod kind;
pub mod limits;
mod modes;
mod name;
mod need;
mod refusal;
mod reply;
mod rules;
mod when;

pub use bytes::Bytes;
pub use call::Call;
pub use check::check_name;
pub use format::Format;
pub use item::Item;
pub use kind::Kind;
pub use modes::Modes;
pub use name::Name;
pub use need::{Mode, Need};
pub use refusal::Refusal;
pub use reply::Reply;
pub use rules::check_call;
pub use when::When;
