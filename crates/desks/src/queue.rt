// The line of those who wait, which threads share.
use crate::asked::{Asked, Ended, bit_of, meets};
use crate::line::Line;
use crate::moment::Moment;
use crate::waiter::Look;
use std::sync::atomic::{AtomicU64, Ordering};
use std::sync::{Mutex, Wait};
use std::thread::Parker;
use std::time::{Clock, Duration};
use std::{array, thread};

// So often one who stands back sleeps to the end at most, and so long each time: a tenth of a
// second in all. It looks so often at most.
const ROUNDS: u32 = 10;

const LOOKS: u32 = 1_000;

const ROUND: u64 = 10_000_000;

// So long one sleeps who has no seat, and one who comes behind somebody who goes first, at most.
const PAUSE: u64 = 5_000_000;

const LONGEST: u64 = 100_000_000;

/// The line of those who wait for a change, which threads share by `&`. At most 64 have a seat in
/// it; who finds none looks again and again, with a pause. It takes no memory. No clause speaks of
/// who wakes.
#[derive(Drop)]
pub struct WaitQueue {
    line: Mutex<Line>,
    // on which the one of each seat sleeps
    parkers: [Parker; 64],
    // how many wait
    present: AtomicU64,
    // the collections of which all who come stand back, those of which only who may take something
    // out does, and how often these grew less, on which they sleep
    cleared: AtomicU64,
    kept: AtomicU64,
    turns: AtomicU64,
    // the seats of those who went without a word
    gone: AtomicU64,
}

/// The place of one who waits: its seat, if it has one, and whether it goes before newcomers.
#[derive(Clone, Copy)]
pub struct Place {
    seat: Option<u8>,
    is_overdue: bool,
}

impl Place {
    /// The place of one who is not in line.
    pub fn outside() -> Place {
        Place {
            seat: None,
            is_overdue: false,
        }
    }

    /// Whether it goes before newcomers: it has waited for a tenth of a second.
    pub fn is_overdue(&self) -> bool {
        self.is_overdue
    }
}

impl WaitQueue {
    /// Nobody waits.
    pub fn new() -> WaitQueue {
        WaitQueue {
            line: Mutex::new(Line::new()),
            parkers: array::from_fn(|_| Parker::new()),
            present: AtomicU64::new(0),
            cleared: AtomicU64::new(0),
            kept: AtomicU64::new(0),
            turns: AtomicU64::new(0),
            gone: AtomicU64::new(0),
        }
    }

    /// How many wait. It is one load.
    pub fn count(&self) -> u64 {
        self.present.load(Ordering::SeqCst)
    }

    /// Whether anybody waits. It is one load.
    pub fn is_awaited(&self) -> bool {
        self.count() != 0
    }

    /// Joins the line, before the first try. Those who give the same number ask for the same. Where
    /// one of them goes first it sleeps until it is called, for a tenth of a second at most.
    pub fn line_up<R: Wait + Clock>(&self, rt: &R, alike: u64) -> Place {
        let now = Moment::now(rt);
        let mut line = self.line.lock(rt);
        let woken = self.sweep(&mut line);
        let seat = line.join(alike, now);
        self.publish(&line);
        drop(line);
        self.wake(woken);
        let mut place = Place {
            seat,
            is_overdue: false,
        };
        let until = Moment {
            nanos: now.nanos.saturating_add(LONGEST),
        };
        if let Some(seat) = seat {
            let _is_called = self.await_call(rt, seat, &mut place, until);
        }
        place
    }

    /// A transaction ended, of the one of the place: a commit, or a taking back. Where nobody waits
    /// it is one load. Call it under no lock.
    pub fn tell<R: Wait>(&self, rt: &R, place: Place, ended: Ended) {
        if !self.is_awaited() {
            return;
        }
        let mut line = self.line.lock(rt);
        let woken = self.sweep(&mut line) | line.tell(place.seat, ended);
        self.publish(&line);
        drop(line);
        self.wake(woken);
    }

    /// The try has ended, which asked for this: sleeps until somebody else changes that, or gets
    /// out of the way, or until then. Whether another try may be worth it.
    pub fn await_change<R: Wait + Clock>(
        &self,
        rt: &R,
        place: &mut Place,
        asked: Asked,
        until: Moment,
    ) -> bool {
        let Some(seat) = place.seat else {
            return pause(rt, until);
        };
        self.rest(rt, seat, asked);
        self.await_call(rt, seat, place, until)
    }

    // Sleeps until it is called, or until then. Whether it was.
    fn await_call<R: Wait + Clock>(
        &self,
        rt: &R,
        seat: u8,
        place: &mut Place,
        until: Moment,
    ) -> bool {
        for _ in rt.forever() {
            let (look, is_overdue) = self.look(rt, seat, until);
            place.is_overdue = is_overdue;
            match look {
                Look::Called => return true,
                Look::Over => return false,
                Look::Asleep(longest) => self.sleep(rt, seat, longest),
            }
        }
        unreachable!()
    }

    // The try of the seat has ended.
    fn rest<R: Wait + Clock>(&self, rt: &R, seat: u8, asked: Asked) {
        let now = Moment::now(rt);
        let mut line = self.line.lock(rt);
        line.rest(seat, asked, now);
        self.publish(&line);
    }

    // What the one of the seat is to do, and whether it goes before newcomers.
    fn look<R: Wait + Clock>(&self, rt: &R, seat: u8, until: Moment) -> (Look, bool) {
        let now = Moment::now(rt);
        let mut line = self.line.lock(rt);
        let looked = line.look(seat, now, until);
        self.publish(&line);
        looked
    }

    // Sleeps for so many nanoseconds at most, or until it is woken.
    fn sleep<R: Wait>(&self, rt: &R, seat: u8, longest: u64) {
        let parker = &self.parkers[usize::from(seat % 64)];
        parker.park_timeout(rt, Duration::from_nanos(longest));
    }

    /// Waits no more: hands the call on to the next who asks for the same.
    pub fn leave<R: Wait>(&self, rt: &R, place: Place) {
        let Some(seat) = place.seat else {
            return;
        };
        let mut line = self.line.lock(rt);
        let woken = self.sweep(&mut line) | line.leave(seat);
        self.publish(&line);
        drop(line);
        self.wake(woken);
    }

    /// Waits no more, where no lock can be waited for: the next who comes to the line tells it.
    pub fn abandon(&self, place: Place) {
        if let Some(seat) = place.seat {
            self.gone.fetch_or(bit_of(seat), Ordering::SeqCst);
        }
    }

    /// Stands back from the collection of the number while somebody goes first who has waited for a
    /// tenth of a second, for a tenth of a second at most: where somebody was in that one's way;
    /// and, for one who may take something out and is not in line, where that one was called to
    /// take it. Where nobody goes first it is two loads. Call it under no lock, and holding nothing
    /// that others wait for.
    pub fn stand_back<R: Wait>(&self, rt: &R, place: Place, at: u8, may_take: bool) {
        if place.is_overdue {
            return;
        }
        let mut rounds: u32 = 0;
        for _ in 0..LOOKS {
            let turn = self.turns.load(Ordering::SeqCst);
            if rounds >= ROUNDS || !self.has_first(at, may_take && place.seat.is_none()) {
                return;
            }
            self.turns.park_timeout(rt, (turn & 0xffff_ffff) as u32, Duration::from_nanos(ROUND));
            if self.turns.load(Ordering::SeqCst) == turn {
                rounds = rounds.saturating_add(1);
            }
        }
    }

    // Whether somebody goes first at the collection of the number.
    fn has_first(&self, at: u8, may_take: bool) -> bool {
        let bit = bit_of(at);
        meets(self.cleared.load(Ordering::SeqCst), bit)
            || may_take && meets(self.kept.load(Ordering::SeqCst), bit)
    }

    // Those who went without a word leave the line. The seats of those who are woken in their
    // place.
    fn sweep(&self, line: &mut Line) -> u64 {
        let mut woken = 0;
        if self.gone.load(Ordering::SeqCst) == 0 {
            return woken;
        }
        let gone = self.gone.swap(0, Ordering::SeqCst);
        for seat in 0..64 {
            if meets(gone, bit_of(seat)) {
                woken |= line.leave(seat);
            }
        }
        woken
    }

    // Tells how the line stands, to who does not take its lock. Call it under the lock.
    fn publish(&self, line: &Line) {
        let (cleared, kept) = (line.cleared(), line.kept());
        self.present.store(line.count(), Ordering::SeqCst);
        let cleared_before = self.cleared.swap(cleared, Ordering::SeqCst);
        let kept_before = self.kept.swap(kept, Ordering::SeqCst);
        if meets(cleared_before, !cleared) || meets(kept_before, !kept) {
            self.turns.fetch_add(1, Ordering::SeqCst);
            self.turns.wake_all();
        }
    }

    // Wakes those of the seats.
    fn wake(&self, woken: u64) {
        if woken == 0 {
            return;
        }
        for seat in 0..64 {
            if meets(woken, bit_of(seat)) {
                self.parkers[usize::from(seat)].unpark();
            }
        }
    }
}

// The pause of one who has no seat. Whether another try may be worth it.
fn pause<R: Clock>(rt: &R, until: Moment) -> bool {
    let now = Moment::now(rt);
    if until.is_over(now) {
        return false;
    }
    thread::sleep(rt, Duration::from_nanos(until.since(now).min(PAUSE)));
    true
}
