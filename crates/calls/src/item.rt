// A part of what a collection holds.
use crate::Bytes;

/// A part of what a collection holds, by the collection's kind. A set, a map, a pool, a queue and
/// quotas have any number of them; a counter and a stock have one.
#[derive(Drop, Debug)]
pub enum Item {
    /// An element of a set, or a taken identifier of a pool.
    Element(u64),
    /// A key of a map and its value.
    Entry(u64, Bytes),
    /// A priority and a tag, in a queue.
    Pair(u64, u64),
    /// The number of a counter, or the amount of a stock.
    Number(i128),
    /// A key of quotas and its amount, which is at least 1.
    Amount(u64, i128),
}
