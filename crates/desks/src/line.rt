// Those who wait, in their order.
ghost use Rattle.std.specs.Prelude.{◌<◌, IfSome};

use crate::asked::{Asked, Ended, bit_of};
use crate::moment::Moment;
use crate::recent_ends::Ends;
use crate::served::Served;
use crate::waiter::{Look, Waiter};
use arrayvec::ArrayVec;

/// Those who wait, in the order in which they came, the seats that are taken, and what ended while
/// somebody waited.
#[derive(Drop)]
pub(crate) struct Line {
    waiters: ArrayVec<Waiter, 64>,
    taken: u64,
    ends: Ends,
}

impl Line {
    /// Nobody waits.
    pub(crate) fn new() -> Line {
        Line {
            waiters: ArrayVec::new(),
            taken: 0,
            ends: Ends::new(),
        }
    }

    /// How many wait.
    pub(crate) fn count(&self) -> u64 {
        self.waiters.len() as u64
    }

    /// One more waits, who asks for this; asleep, where somebody alike goes first. Its seat, or
    /// None where all are taken.
    pub(crate) fn join(&mut self, alike: u64, now: Moment) -> Option<u8>
        ensures { IfSome result (λ seat. seat < 64) }
    {
        let seat = free_seat(self.taken)?;
        let is_asleep = self.has_first(alike);
        let waiter = Waiter::new(seat, alike, now, self.ends.count(), is_asleep);
        self.waiters.try_push(waiter).ok()?;
        self.taken |= bit_of(seat);
        Some(seat)
    }

    /// A transaction ended, of the one of the seat, if it has one. The seats of those who are
    /// woken: of those who ask for the same the first in line for whom another try may be worth it.
    pub(crate) fn tell(&mut self, seat: Option<u8>, ended: Ended) -> u64 {
        self.ends.add(ended.number);
        let mut served = Served::new();
        let mut woken = 0;
        if let (Some(seat), true) = (seat, ended.is_commit) {
            woken = self.pass_on(seat, &mut served);
        }
        for waiter in self.waiters.as_mut_slice().iter_mut() {
            if Some(waiter.seat) != seat && waiter.hear(ended, &mut served) {
                woken |= bit_of(waiter.seat);
            }
        }
        woken
    }

    // The one of the seat found what it waited for. Where it was called, the next who asks for the
    // same is called in its place: its seat, if it is woken.
    fn pass_on(&mut self, seat: u8, served: &mut Served) -> u64 {
        let Some(waiter) = waiter_of(self.waiters.as_mut_slice(), seat) else {
            return 0;
        };
        let alike = waiter.alike;
        if !waiter.is_called {
            return 0;
        }
        waiter.is_called = false;
        served.add(alike);
        self.call_next(alike)
    }

    // The first in line who asks for this is called, unless one is already. Its seat, if it is
    // woken.
    fn call_next(&mut self, alike: u64) -> u64 {
        for waiter in self.waiters.as_mut_slice().iter_mut() {
            if waiter.alike != alike {
                continue;
            }
            if waiter.is_called {
                return 0;
            }
            if waiter.is_asleep {
                waiter.call();
                return bit_of(waiter.seat);
            }
        }
        0
    }

    // Whether one who asks for this goes before those who come now.
    fn has_first(&self, alike: u64) -> bool {
        for waiter in self.waiters.as_slice() {
            if waiter.alike == alike && waiter.goes_first() {
                return true;
            }
        }
        false
    }

    /// The try of the seat has ended, which asked for this: it sleeps, or is called by what ended
    /// meanwhile.
    pub(crate) fn rest(&mut self, seat: u8, asked: Asked, now: Moment) {
        let ends = &self.ends;
        if let Some(waiter) = waiter_of(self.waiters.as_mut_slice(), seat) {
            waiter.rest(asked, now, ends);
        }
    }

    /// What the one of the seat is to do now, who waits until then, and whether it goes before
    /// newcomers.
    pub(crate) fn look(&mut self, seat: u8, now: Moment, until: Moment) -> (Look, bool) {
        let ends = &self.ends;
        match waiter_of(self.waiters.as_mut_slice(), seat) {
            Some(waiter) => (waiter.look(now, until, ends), waiter.is_overdue),
            None => (Look::Over, false),
        }
    }

    /// The one of the seat waits no more. The seats of those who are woken in its place.
    pub(crate) fn leave(&mut self, seat: u8) -> u64 {
        let Some(waiter) = waiter_of(self.waiters.as_mut_slice(), seat) else {
            return 0;
        };
        let (alike, hands_on) = (waiter.alike, waiter.is_called);
        self.waiters.retain(|waiter| waiter.seat != seat);
        self.taken &= !bit_of(seat);
        if hands_on {
            return self.call_next(alike);
        }
        0
    }

    /// The collections of which all who come now stand back.
    pub(crate) fn cleared(&self) -> u64 {
        let mut cleared = 0;
        for waiter in self.waiters.as_slice() {
            if waiter.clears_all() {
                cleared |= waiter.asked.asked;
            }
        }
        cleared
    }

    /// The collections of which those stand back who may take something out.
    pub(crate) fn kept(&self) -> u64 {
        let mut kept = 0;
        for waiter in self.waiters.as_slice() {
            if waiter.clears_takers() {
                kept |= waiter.asked.asked;
            }
        }
        kept
    }
}

// The one of the seat.
fn waiter_of(waiters: &mut [Waiter], seat: u8) -> Option<&mut Waiter> {
    waiters.iter_mut().find(|waiter| waiter.seat == seat)
}

// The least seat that is not taken.
fn free_seat(taken: u64) -> Option<u8>
    ensures { IfSome result (λ seat. seat < 64) }
{
    let seat = u8::try_from(taken.trailing_ones()).ok()?;
    if seat < 64 { Some(seat) } else { None }
}
