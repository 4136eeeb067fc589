// Waiting for work.
ghost use Rattle.std.specs.Prelude.{◌≡◌};

use crate::client::Client;
use crate::request::Request;
use calls::{Call, Refusal, Reply, When};
use desks::{Asked, Ended, Moment, Naming, Place, WaitQueue};
use records::Coded;
use std::rt::Clock;
use std::sync::Wait;

/// What a client's transaction asked for, also once it has ended, and where the client stands in
/// the line of those who wait. Contracts say nothing of it.
#[derive(Clone, Copy)]
pub(crate) struct Awaiting {
    asked: Asked,
    place: Place,
}

impl Awaiting {
    /// Nothing was asked for, and the client does not wait.
    pub(crate) fn new() -> Awaiting {
        Awaiting {
            asked: Asked::new(),
            place: Place::outside(),
        }
    }

    /// A transaction begins, which has asked for nothing.
    pub(crate) fn forget(&mut self) {
        self.asked = Asked::new();
    }

    /// The collection of the number was asked for this, and answered so.
    pub(crate) fn note(&mut self, request: &Request<'_>, at: u8, answer: &Result<Reply, Refusal>) {
        self.asked.note(at);
        match answer {
            Ok(reply) => {
                if is_change(request, reply) {
                    self.asked.note_change(at);
                }
            }
            Err(Refusal::Busy(number)) => self.asked.note_blocker(*number),
            Err(_) => {}
        }
    }

    /// Others go first who have waited long for the collection, unless this one has.
    pub(crate) fn stand_back<R: Wait>(&self, rt: &R, line: &WaitQueue, at: u8, call: &Call) {
        line.stand_back(rt, self.place, at, may_take(call));
    }

    /// The client goes, and waits no more.
    pub(crate) fn abandon(self, line: &WaitQueue) {
        line.abandon(self.place);
    }
}

// Whether the call may take something that another one waits for.
fn may_take(call: &Call) -> bool {
    matches!(
        call,
        Call::SetRemove(_)
            | Call::Pick
            | Call::MapRemove(_)
            | Call::Take
            | Call::Pluck(_, _)
            | Call::Draw
            | Call::Spend(_)
            | Call::QuotaSpend(_, _)
    )
}

// Whether the call may have changed something, or will at the commit.
fn is_change(request: &Request<'_>, reply: &Reply) -> bool {
    match request.when {
        When::Now => !request.call.reads(reply),
        When::AtCommit => true,
    }
}

impl<J: Naming, B: Coded> Client<'_, J, B> {
    /// Has the client wait in line, before its first try at what it may have to wait for: so a
    /// change is not missed that comes while it tries. Clients that give the same number ask for
    /// the same thing: of those the first in line alone is woken. Where one of them has waited for
    /// a tenth of a second and is called, it sleeps until it is called itself, for a tenth of a
    /// second at most. A line has 64 seats; who finds none tries again and again, with a pause. It
    /// takes no memory.
    ///
    /// ```text
    /// client.line_up(rt, alike);
    /// let found = loop {
    ///     let tried = attempt(&mut client);   // begins, asks, and aborts where it found nothing
    ///     if tried.is_some() || !client.await_change(rt, until) {
    ///         break tried;
    ///     }
    /// };
    /// client.leave_line(rt);
    /// ```
    pub fn line_up<R: Wait + Clock>(&mut self, rt: &R, alike: u64)
        ensures { self.new ≡ self.old }
    {
        self.leave_line(rt);
        self.awaiting.place = self.shared.waiting.line_up(rt, alike);
    }

    /// Sleeps until another try may be worth it, or until then: true where it may be. Where the
    /// last transaction that the client began was refused Busy, it is once the transaction that was
    /// in the way has ended; else once another one that changed a collection which it had asked for
    /// was committed. What ended since the client lined up, or since this call last answered,
    /// counts. It may be true for nothing. Call it of a client without an open transaction, as it
    /// sleeps with its locks else. It takes no memory.
    ///
    /// A client that has waited for a tenth of a second goes before others that begin a
    /// transaction: where somebody was in its way, these stand back before their first call of a
    /// collection that it asked for, for a tenth of a second at most; where it found nothing and is
    /// called, those alone that may take something out.
    pub fn await_change<R: Wait + Clock>(&mut self, rt: &R, until: Moment) -> bool
        ensures { self.new ≡ self.old }
    {
        let Awaiting { asked, mut place } = self.awaiting;
        let is_worth = self
            .shared
            .waiting
            .await_change(rt, &mut place, asked, until);
        self.awaiting.place = place;
        is_worth
    }

    /// The client waits no more: it found what it waited for, or gave up. The next in line who asks
    /// for the same is woken, where the client was woken in its place. It takes no memory.
    pub fn leave_line<R: Wait>(&mut self, rt: &R)
        ensures { self.new ≡ self.old }
    {
        self.shared.waiting.leave(rt, self.awaiting.place);
        self.awaiting.place = Place::outside();
    }

    // A transaction was committed, or not: tells those who wait.
    pub(crate) fn tell_commit<R: Wait>(&self, rt: &R, number: u64, is_done: bool) {
        self.tell(
            rt,
            is_done,
            Ended {
                number,
                changed: self.awaiting.asked.changed,
                is_commit: true,
            },
        );
    }

    // A transaction was taken back, or not: tells those in whose way it was.
    pub(crate) fn tell_taken_back<R: Wait>(&self, rt: &R, number: u64, is_done: bool) {
        self.tell(
            rt,
            is_done,
            Ended {
                number,
                changed: 0,
                is_commit: false,
            },
        );
    }

    // Tells those who wait of the end of a transaction.
    fn tell<R: Wait>(&self, rt: &R, is_done: bool, ended: Ended) {
        if is_done {
            self.shared.waiting.tell(rt, self.awaiting.place, ended);
        }
    }
}
