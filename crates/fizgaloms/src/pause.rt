// Pauses that grow.
use crossbeam_utils::Backoff;
use std::rt::Clock;
use std::thread;
use std::time::Duration;

// How often a thread only backs off.
const SNOOZES: u32 = 32;

// The microseconds of the first sleep behind that, and of the longest.
const SHORTEST: u64 = 50;

const LONGEST: u64 = 10_000;

// Between two tries of what may go through later: a thread backs off first, which pays where what
// is in the way is gone at once. Behind that it sleeps, twice as long each time.
#[derive(Drop)]
pub(crate) struct Pause {
    backoff: Backoff,
    snoozes: u32,
    // in microseconds
    sleep: u64,
}

impl Pause {
    pub(crate) fn new() -> Pause {
        Pause {
            backoff: Backoff::new(),
            snoozes: 0,
            sleep: SHORTEST,
        }
    }

    pub(crate) fn pause(&mut self, clock: &impl Clock) {
        if self.snoozes < SNOOZES {
            self.snoozes += 1;
            self.backoff.snooze();
            return;
        }
        thread::sleep(clock, Duration::from_micros(self.sleep));
        self.sleep = self.sleep.saturating_mul(2).min(LONGEST);
    }
}
