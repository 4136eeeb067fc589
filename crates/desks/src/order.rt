// The order in which a store's locks are taken.
ghost use Rattle.std.specs.Prelude.{◌≡◌, ◌<◌};

use std::marker::Model;
use std::sync::{Mutex, MutexGuard, Wait};

/// What lies under a lock that has a rank. Who holds a lock takes only those of a greater rank, so
/// no two threads wait for each other.
pub trait Ranked {
    ghost use Rattle.std.specs.Prelude.{ℕ};

    /// The rank, 1 at least.
    ghost level: { ℕ };

    /// The rank.
    fn level() -> u8
        ensures { result ≡ level };
}

/// How far a thread has come in the order of locks: the rank of the last that it took, 0 where it
/// took none. A function that holds one lock as it takes the next has one `Order` for both; behind
/// them it goes on with a copy of the order that it came with. Contracts see the rank.
#[derive(Clone, Copy)]
pub struct Order {
    last: u8,
}

impl Model for Order {
    ghost use Rattle.std.specs.Prelude.{ℕ};

    ghost Value = { ℕ };

    ghost view = { λ o. o.last };

    ghost inverse = { λ n. record { last = n } };
}

impl Order {
    /// Of a thread that holds no lock.
    pub fn new() -> Self
        ensures { result ≡ 0 }
    {
        Self { last: 0 }
    }

    // A lock of the rank is taken.
    pub(crate) fn rise(&mut self, level: u8)
        requires { self.old < level }
        ensures { self.new ≡ level }
    {
        self.last = level;
    }
}

/// Takes a lock that is behind each that the thread holds. It waits for who has it, and takes no
/// memory.
pub fn lock_next<'m, T: Ranked, R: Wait>(
    rt: &R,
    mutex: &'m Mutex<T>,
    order: &mut Order,
) -> MutexGuard<'m, T>
    requires { order.old < T.level }
    ensures { order.new ≡ T.level }
{
    order.rise(T::level());
    mutex.lock(rt)
}
