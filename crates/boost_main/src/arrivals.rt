// The threads that come to serve.
use crate::trouble::Trouble;
use std::rt::Clock;
use std::sync::{Condvar, Mutex, Wait};
use std::time::Duration;

// How many seconds a thread waits for the others.
const PATIENCE: u64 = 10;

// How many threads have come.
#[derive(Clone, Copy)]
struct Came {
    count: usize,
    // They are no longer waited for.
    is_given_up: bool,
}

/// Counts the threads that come to serve, each of which waits for the others. Where the system
/// makes fewer, a thread would do the work of several, one after another, and none of it would end.
#[derive(Drop)]
pub struct Arrivals {
    wanted: usize,
    came: Mutex<Came>,
    changes: Condvar,
}

impl Arrivals {
    /// None has come, of so many.
    pub fn new(wanted: usize) -> Self {
        Self {
            wanted,
            came: Mutex::new(Came {
                count: 0,
                is_given_up: false,
            }),
            changes: Condvar::new(),
        }
    }

    /// A thread comes, and waits until all have, up to 10 seconds. Refused where they do not come.
    pub fn wait_for_all<R: Wait + Clock>(&self, rt: &R) -> Result<(), Trouble> {
        let mut came = self.came.lock(rt);
        if !came.is_given_up {
            came.count = came.count.saturating_add(1);
            self.changes.notify_all();
        }
        for _ in rt.forever() {
            if came.count >= self.wanted {
                return Ok(());
            }
            if came.is_given_up {
                break;
            }
            let (guard, result) = self
                .changes
                .wait_timeout(rt, came, Duration::from_secs(PATIENCE));
            came = guard;
            if result.timed_out() && came.count < self.wanted {
                came.is_given_up = true;
                self.changes.notify_all();
            }
        }
        Err(Trouble::Threads {
            wanted: self.wanted,
            came: came.count,
        })
    }
}
