//! The seven kinds of collection: what each answers to a call, and what the call leaves.
#![tactic(auto)]

mod counter;
mod heap;
mod map;
mod pool;
mod queue;
mod quotas;
mod set;
mod stock;

pub use counter::CounterCol;
pub use map::MapCol;
pub use pool::PoolCol;
pub use queue::QueueCol;
pub use quotas::QuotasCol;
pub use set::SetCol;
pub use stock::StockCol;
