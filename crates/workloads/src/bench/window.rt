// What bounds the transactions that are counted.
use crate::bench::log::Log;
use crate::bench::options::Options;
use std::sync::atomic::{AtomicU64, Ordering};
use std::time::Duration;

/// What bounds the transactions that are counted: a number that the clients share, and a time.
#[derive(Drop)]
pub struct Window {
    longest: Duration,
    count: u64,
    begun: AtomicU64,
}

impl Window {
    /// The one that is asked for.
    pub fn new(options: &Options<'_>) -> Window {
        Window {
            longest: options.longest,
            count: options.count,
            begun: AtomicU64::new(0),
        }
    }

    /// Whether a client may begin one more transaction. It is counted.
    pub fn admits(&self, log: &Log) -> bool {
        log.end.duration_since(log.start) < self.longest
            && self.begun.fetch_add(1, Ordering::SeqCst) < self.count
    }

    /// One that began is not counted.
    pub fn give_back(&self) {
        self.begun.fetch_sub(1, Ordering::SeqCst);
    }
}
