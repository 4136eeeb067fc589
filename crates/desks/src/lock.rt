// A lock that counts who waits for it.
ghost use Rattle.std.specs.Prelude.{◌≡◌, ◌<◌};

use crate::order::{Order, Ranked};
use crate::visit::Visit;
use crossbeam_utils::Backoff;
use std::sync::atomic::{AtomicU64, Ordering};
use std::sync::{Mutex, MutexGuard, Wait};

// How often a lock is tried before a sleep. The pause between two tries doubles.
const TRIES: u32 = 7;

/// What lies under a lock, with the count of those who came to wait for it. A lock goes to whoever
/// asks first, and a thread that was woken for it may be late. So one who takes it again and again,
/// and holds it long, lets those who wait go first (`give_way`).
#[derive(Drop)]
pub struct Lock<T> {
    held: Mutex<T>,
    came: AtomicU64,
    served: AtomicU64,
}

impl<T> Lock<T> {
    /// The lock of a value, for which nobody waits. It takes no memory.
    pub fn new(value: T) -> Self {
        Self {
            held: Mutex::new(value),
            came: AtomicU64::new(0),
            served: AtomicU64::new(0),
        }
    }

    // Takes the lock: tries a few times, and then is counted and sleeps.
    fn take<R: Wait>(&self, rt: &R) -> MutexGuard<'_, T> {
        if let Some(held) = self.spin() {
            return held;
        }
        let visit = Visit::begin(&self.came);
        let held = self.held.lock(rt);
        visit.end(&self.served);
        held
    }

    // Tries to take the lock so often, with a pause between two tries that doubles.
    fn spin(&self) -> Option<MutexGuard<'_, T>> {
        let backoff = Backoff::new();
        for _ in 0..TRIES {
            if let Some(held) = self.held.try_lock() {
                return Some(held);
            }
            backoff.spin();
        }
        None
    }

    /// Waits until as many threads have had the lock as wait for it now. Who comes meanwhile and
    /// takes it before one of them stands for it. It takes no memory, and yields the processor.
    pub fn give_way<R: Wait>(&self, rt: &R) {
        let came = self.came.load(Ordering::SeqCst);
        let backoff = Backoff::new();
        for _ in rt.forever() {
            if self.served.load(Ordering::SeqCst) >= came {
                return;
            }
            backoff.snooze();
        }
    }

    /// The value, where no thread shares it any more. It takes no memory.
    pub fn into_inner(self) -> T {
        let Self {
            held,
            came: _came,
            served: _served,
        } = self;
        held.into_inner()
    }
}

impl<T: Ranked> Lock<T> {
    /// Takes the lock, which is behind each that the thread holds. Who has to wait for it tries
    /// again a few times, as most steps take less than a sleep does; and then is counted, as come
    /// and then as served, and sleeps. It takes no memory.
    pub fn lock<R: Wait>(&self, rt: &R, order: &mut Order) -> MutexGuard<'_, T>
        requires { order.old < T.level }
        ensures { order.new ≡ T.level }
    {
        order.rise(T::level());
        self.take(rt)
    }
}
