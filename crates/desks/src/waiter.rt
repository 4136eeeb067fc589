// One who waits.
ghost use Rattle.std.specs.Prelude.{◌≡◌, ◌↔◌, IsTrue, IsFalse, Contains};
ghost use Rattle.desks.specs.declared.waiter.Look.{Look};

use crate::asked::{Asked, Ended, meets};
use crate::moment::Moment;
use crate::recent_ends::Ends;
use crate::served::Served;

/// Who has waited for so many nanoseconds goes first: a tenth of a second.
const TENTH: u64 = 100_000_000;

/// One who waits: at its try, or asleep.
#[derive(Clone, Copy, Default)]
pub(crate) struct Waiter {
    /// Its seat, below 64.
    pub seat: u8,
    /// The number of what it asks for.
    pub alike: u64,
    /// When it joined the line.
    pub since: Moment,
    /// What its last try asked for.
    pub asked: Asked,
    /// The collections that were changed since its try began, and how many transactions had ended
    /// then.
    pub changed: u64,
    pub ended: u64,
    /// Whether it sleeps, and was not called.
    pub is_asleep: bool,
    /// Whether it was called, and has not ended its try.
    pub is_called: bool,
    /// Whether it has waited for a tenth of a second, and whether those who are in its way stand
    /// back for the time.
    pub is_overdue: bool,
    pub is_pressing: bool,
}

/// What one who was asleep is to do.
#[derive(Clone, Copy)]
pub(crate) enum Look {
    /// It was called: it tries.
    Called,
    /// The time is over.
    Over,
    /// It sleeps for so many nanoseconds at most.
    Asleep(u64),
}

impl Waiter {
    /// One who joins the line, before its first try. It sleeps first, where others go before it.
    pub(crate) fn new(seat: u8, alike: u64, since: Moment, ended: u64, is_asleep: bool) -> Waiter
        ensures who { (result.seat ≡ seat) × (result.alike ≡ alike) }
        ensures state { (result.is_asleep ≡ is_asleep) × IsFalse result.is_called }
    {
        Waiter {
            seat,
            alike,
            since,
            asked: Asked::new(),
            changed: 0,
            ended,
            is_asleep,
            is_called: false,
            is_overdue: false,
            is_pressing: false,
        }
    }

    /// A transaction ended. Whether this one is woken: it sleeps, another try may be worth it, and
    /// nobody who asks for the same was woken before it. Who is awake notes it.
    pub(crate) fn hear(&mut self, ended: Ended, served: &mut Served) -> bool
        ensures asleep { IsTrue result → IsTrue self.old.is_asleep }
        ensures called { IsTrue result → IsTrue self.new.is_called × IsFalse self.new.is_asleep }
        ensures first { IsTrue result → Contains served.old.list.items self.old.alike → ⊥ }
        ensures who { (self.new.seat ≡ self.old.seat) × (self.new.alike ≡ self.old.alike) }
    {
        if !self.is_asleep {
            self.changed |= ended.changed;
            return false;
        }
        if served.has(self.alike) || !ended.serves(&self.asked) {
            return false;
        }
        served.add(self.alike);
        self.call();
        true
    }

    /// It is called.
    pub(crate) fn call(&mut self)
        ensures called { IsTrue self.new.is_called × IsFalse self.new.is_asleep }
        ensures who { (self.new.seat ≡ self.old.seat) × (self.new.alike ≡ self.old.alike) }
    {
        self.is_asleep = false;
        self.is_called = true;
    }

    /// Its try has ended, which asked for this. It sleeps, unless another one may be worth it by
    /// what has ended meanwhile.
    pub(crate) fn rest(&mut self, asked: Asked, now: Moment, ends: &Ends)
        ensures { IsFalse self.new.is_asleep → IsTrue self.new.is_called }
    {
        let is_served = self.is_served(&asked, ends);
        self.asked = asked;
        self.is_asleep = !is_served;
        self.is_called = is_served;
        self.see(now);
    }

    // Whether another try may be worth it by what has ended since the last one began, which asked
    // for this.
    fn is_served(&self, asked: &Asked, ends: &Ends) -> bool {
        if asked.is_blocked() {
            return ends.may_have(asked.blocker, self.ended);
        }
        meets(asked.asked, self.changed)
    }

    /// What it is to do now, if it waits until then. Where it tries, its try begins.
    pub(crate) fn look(&mut self, now: Moment, until: Moment, ends: &Ends) -> Look
        ensures { result ≡ Look.Called ↔ IsFalse self.old.is_asleep }
    {
        if !self.is_asleep {
            self.begin(ends);
            return Look::Called;
        }
        if until.is_over(now) {
            self.is_asleep = false;
            self.begin(ends);
            return Look::Over;
        }
        self.see(now);
        Look::Asleep(self.longest(now).min(until.since(now)))
    }

    // Its try begins.
    fn begin(&mut self, ends: &Ends) {
        self.changed = 0;
        self.ended = ends.count();
    }

    // How long it has waited decides whether it goes first, and whether others stand back where
    // somebody is in its way: behind a tenth of a second for one, then for one each time that the
    // time has doubled. So who holds it up for long does not hold up all others.
    fn see(&mut self, now: Moment)
        ensures asleep { self.new.is_asleep ≡ self.old.is_asleep }
        ensures called { self.new.is_called ≡ self.old.is_called }
    {
        let tenths = now.since(self.since) / TENTH;
        self.is_overdue = tenths > 0;
        self.is_pressing = self.asked.is_blocked() && tenths.is_power_of_two();
    }

    // So many nanoseconds it may sleep until that is otherwise.
    fn longest(&self, now: Moment) -> u64 {
        let waited = now.since(self.since);
        let tenths = waited / TENTH;
        if tenths > 0 && !self.asked.is_blocked() {
            return u64::MAX;
        }
        next_change(tenths)
            .saturating_mul(TENTH)
            .saturating_sub(waited)
    }

    /// Whether it goes before those who ask for the same and come now.
    pub(crate) fn goes_first(&self) -> bool {
        self.is_overdue && (self.is_called || self.is_pressing)
    }

    /// Whether all who come now stand back: somebody was in its way.
    pub(crate) fn clears_all(&self) -> bool {
        self.goes_first() && self.asked.is_blocked()
    }

    /// Whether those who come now and may take something out stand back: it was called to take it.
    pub(crate) fn clears_takers(&self) -> bool {
        self.goes_first() && !self.asked.is_blocked()
    }
}

// Behind so many tenths of a second the next time at which others begin to stand back, or do so no
// more.
fn next_change(tenths: u64) -> u64 {
    if tenths.is_power_of_two() {
        return tenths.saturating_add(1);
    }
    tenths.checked_next_power_of_two().unwrap_or(u64::MAX)
}
