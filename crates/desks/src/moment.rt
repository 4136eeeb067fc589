// Moments of a clock.
ghost use Rattle.std.specs.Prelude.{◌≡◌, ◌-◌, ◌^◌, ◌↔◌, ◌≤◌, IsTrue, min};
ghost use Rattle.std.specs.Duration.{as_nanos};

use std::time::{Clock, Duration};

/// A moment of a clock, in nanoseconds since its start.
#[derive(Clone, Copy, Default)]
pub struct Moment {
    pub nanos: u64,
}

impl Moment {
    /// The moment so much later than now. Where the clock cannot be read it is one that is over.
    pub fn within(clock: &impl Clock, duration: Duration) -> Moment {
        match clock.monotonic() {
            Ok(now) => Moment {
                nanos: nanos_of(now.saturating_add(duration)),
            },
            Err(_) => Moment { nanos: 0 },
        }
    }

    /// Now. Where the clock cannot be read all moments are over.
    pub fn now(clock: &impl Clock) -> Moment {
        match clock.monotonic() {
            Ok(now) => Moment {
                nanos: nanos_of(now),
            },
            Err(_) => Moment { nanos: u64::MAX },
        }
    }

    /// The nanoseconds from an earlier moment to this one, none where that is later.
    pub fn since(self, earlier: Moment) -> u64
        ensures { result ≡ self.nanos - earlier.nanos }
    {
        self.nanos.saturating_sub(earlier.nanos)
    }

    /// Whether it is now, or over.
    pub fn is_over(self, now: Moment) -> bool
        ensures { IsTrue result ↔ (self.nanos ≤ now.nanos) }
    {
        self.nanos <= now.nanos
    }
}

// Its nanoseconds, or as many as fit.
fn nanos_of(duration: Duration) -> u64
    ensures { result ≡ min (as_nanos duration) (2 ^ 64 - 1) }
{
    u64::try_from(duration.as_nanos()).unwrap_or(u64::MAX)
}
