// What looks on two shelves tell each other.
use catalog::Four;
use std::sync::atomic::{AtomicBool, Ordering};
use std::thread;

// How many turns a look waits at most.
const TURNS: u32 = 1_000_000;

/// What looks on two shelves tell each other: the first and the second, or the third and the
/// fourth.
#[derive(Drop)]
pub struct Signals {
    has_begun: Four<AtomicBool>,
    saw_the_other: Four<AtomicBool>,
}

impl Signals {
    /// Nothing was told yet.
    pub fn new() -> Signals {
        Signals {
            has_begun: unset(),
            saw_the_other: unset(),
        }
    }

    /// Tells that a look on the shelf of the number has begun, and holds it until one on the other
    /// shelf of the two has, for 1,000,000 turns at most, in each of which the thread yields.
    pub fn hold_look(&self, number: u8) {
        self.has_begun.of(number).store(true, Ordering::SeqCst);
        let other = self.has_begun.of(number ^ 1);
        for _ in 0..TURNS {
            if other.load(Ordering::SeqCst) {
                self.saw_the_other.of(number).store(true, Ordering::SeqCst);
                return;
            }
            thread::yield_now();
        }
    }

    /// Whether looks on the first and the second shelf each saw that the other one had begun.
    pub fn saw_each_other(&self) -> bool {
        self.saw_the_other.first.load(Ordering::SeqCst)
            && self.saw_the_other.second.load(Ordering::SeqCst)
    }
}

// Four flags, none of which is set.
fn unset() -> Four<AtomicBool> {
    Four {
        first: AtomicBool::new(false),
        second: AtomicBool::new(false),
        third: AtomicBool::new(false),
        fourth: AtomicBool::new(false),
    }
}
