// What a client did.
use std::alloc::Global;
use std::time::Instant;

/// What a client did that was measured.
#[derive(Drop)]
pub struct Log {
    /// When it began.
    pub start: Instant,
    /// When its last transaction had ended.
    pub end: Instant,
    /// How many of its transactions are counted.
    pub commits: u64,
    /// How long each of them took, in nanoseconds, where it waited for each.
    pub times: Vec<u64>,
    /// The identifiers that it drew, or the tags of the jobs that it took.
    pub taken: Vec<u64>,
    /// How many jobs it put.
    pub put: u64,
}

impl Log {
    /// Of a client that begins now.
    pub fn new(alloc: Global, now: Instant) -> Log {
        Log {
            start: now,
            end: now,
            commits: 0,
            times: Vec::new(alloc),
            taken: Vec::new(alloc),
            put: 0,
        }
    }
}
