// What a disk that is held and a client that calls meanwhile tell each other.
use std::sync::Wait;
use std::sync::atomic::{AtomicBool, Ordering};
use std::thread;

// How many turns the disk waits at most.
const TURNS: u32 = 1_000_000;

/// What a disk that is held and a client that calls meanwhile tell each other.
#[derive(Drop)]
pub struct Signals {
    is_syncing: AtomicBool,
    is_answered: AtomicBool,
    was_answered_in_sync: AtomicBool,
}

impl Signals {
    /// Nothing was told yet.
    pub fn new() -> Signals {
        Signals {
            is_syncing: AtomicBool::new(false),
            is_answered: AtomicBool::new(false),
            was_answered_in_sync: AtomicBool::new(false),
        }
    }

    /// Tells that a sync has begun, and holds it until the client has its answer, for 1,000,000
    /// turns at most, in each of which the thread yields.
    pub fn hold_sync(&self) {
        self.is_syncing.store(true, Ordering::SeqCst);
        for _ in 0..TURNS {
            if self.is_answered.load(Ordering::SeqCst) {
                self.was_answered_in_sync.store(true, Ordering::SeqCst);
                return;
            }
            thread::yield_now();
        }
    }

    /// Waits until a sync has begun.
    pub fn await_sync<R: Wait>(&self, rt: &R) {
        for _ in rt.forever() {
            if self.is_syncing.load(Ordering::SeqCst) {
                return;
            }
            thread::yield_now();
        }
    }

    /// Tells that the client has its answer.
    pub fn tell_answer(&self) {
        self.is_answered.store(true, Ordering::SeqCst);
    }

    /// Whether a sync that was held heard of the answer.
    pub fn was_answered_in_sync(&self) -> bool {
        self.was_answered_in_sync.load(Ordering::SeqCst)
    }
}
