// A client of a store.
ghost use Rattle.std.specs.Prelude.{◌≡◌, ◌≢◌, ◌↔◌, ◌<◌, [], IsTrue, IfOk, IfErr, IsOkUnless};
ghost use Rattle.calls.specs.declared.refusal.Refusal.{Refusal};
ghost use Rattle.calls.specs.Limits.{number_end};
ghost use Rattle.group_commit.specs.Lines.{IsLonger, steps_of};
ghost use Rattle.group_commit.specs.Numbers.{AreApart};
ghost use Rattle.clients.specs.declared.phase.Phase.{Phase};
ghost use Rattle.desks.specs.Seen.{IsSeen};
ghost use Rattle.clients.specs.Known.{newcomer, left_by};
ghost use Rattle.clients.specs.Calls.{IsOpen, IsWorn, Draws, Enters, number_in};

use crate::awaiting::Awaiting;
use crate::hints::Hints;
use crate::miss::Miss;
use crate::phase::Phase;
use crate::seen::Seen;
use calls::Refusal;
use catalog::{Catalog, Four};
use desks::{Admission, Desk, Footprint, Lock, Naming, Order, Shared, Shelves, Status};
use group_commit::{ClientSeat, Drawer, Watcher};
use records::Coded;
use std::alloc::Global;
use std::marker::Model;
use std::sync::Wait;

/// A client of a store, which one thread has at a time. It has one transaction, or none. Contracts
/// see what it knows.
///
/// Where clients leave records faster than the disk takes them, and a committer's thread is at work
/// (`Signal::set_attended`), each step but `begin` sleeps first while 8,192 records wait. So a
/// client is refused Backlog only where no committer is at work, or keeping has failed.
///
/// While a committer's thread is at work a making, and a call that does not only read, are refused
/// Full where the next image of the store, with the undoing of what is live behind it, would have
/// no room in an area, so that what others do is kept all the same and the store can be opened
/// again. A call that puts an item in is refused where less than an eighth of an area is left, so
/// that what takes items out goes on. What the image may take is known by the last checkpoint, and
/// what came since: where that does not fit, the call sleeps until a checkpoint is taken.
pub struct Client<'s, J: Naming, B: Coded = Catalog> {
    pub(crate) shelves: &'s Shelves<J, B>,
    pub(crate) desk: &'s Lock<Desk<J, B>>,
    pub(crate) shared: &'s Shared<J>,
    pub(crate) line: ClientSeat,
    pub(crate) watcher: Watcher,
    pub(crate) drawer: Drawer,
    pub(crate) phase: Phase,
    // the slot of the transaction, so that the journal does not search for it
    pub(crate) slot: usize,
    // what the transaction asked for, and where the client stands in the line of those who wait
    pub(crate) awaiting: Awaiting,
    // where collections were found, and on which shelves the transaction asked for something
    pub(crate) hints: Hints,
    pub(crate) touched: Four<bool>,
    // how many freezes there were when this call last waited for a checkpoint, if it did
    pub(crate) waited: Option<u64>,
}

// Written out, so that the crates above call it in place of proving it again.
impl<'s, J: Naming, B: Coded> Drop for Client<'s, J, B> {
    fn drop(self) {
        let Self {
            shelves: _shelves,
            desk: _desk,
            shared,
            line,
            watcher,
            drawer,
            phase: _phase,
            slot: _slot,
            awaiting,
            hints: _hints,
            touched: _touched,
            waited: _waited,
        } = self;
        awaiting.abandon(&shared.waiting);
        drop(line);
        drop(watcher);
        drop(drawer);
    }
}

impl<'s, J: Naming, B: Coded> Model for Client<'s, J, B> {
    ghost use Rattle.clients.specs.Known.{Known, known_of};
    ghost use Rattle.clients.specs.Calls.{IsClient};

    ghost Value = { Known };

    ghost view = { λ c. known_of c.line c.watcher c.drawer c.phase };

    ghost invariant = { λ c. IsClient ⟦<J as Naming>⟧ c.line c.watcher c.drawer c.phase };
}

impl<'s, J: Naming, B: Coded> Client<'s, J, B> {
    /// A client with no transaction, of seats that were just made: `Store::client` makes it.
    pub fn new(
        shelves: &'s Shelves<J, B>,
        desk: &'s Lock<Desk<J, B>>,
        shared: &'s Shared<J>,
        line: ClientSeat,
        watcher: Watcher,
        drawer: Drawer,
    ) -> Self
        requires line { (line.table ≡ J.line) × (line.seen ≡ []) }
        requires watcher { (watcher.table ≡ J.mark) × (watcher.counts ≡ []) × (watcher.flags ≡ []) }
        requires drawer { (drawer.table ≡ J.numbers) × (drawer.from ≡ J.origin.next) ×
            (drawer.drawn ≡ []) }
        requires number { drawer.number ≡ line.number }
        ensures { result ≡ newcomer line.number }
    {
        Self {
            shelves,
            desk,
            shared,
            line,
            watcher,
            drawer,
            phase: Phase::Closed,
            slot: 0,
            awaiting: Awaiting::new(),
            hints: Hints::new(),
            touched: each(false),
            waited: None,
        }
    }

    /// A law and no work: what a client has seen is a legal history, steps that one thread alone
    /// could take from the opened content.
    pub fn upheld(&self)
        ensures { IsSeen J.origin self.now.seen }
    {
        let _ = &self.phase;
    }

    /// Whether the client has a transaction.
    pub fn is_open(&self) -> bool
        ensures { IsTrue result ↔ IsOpen self.now.phase }
    {
        !matches!(&self.phase, Phase::Closed)
    }

    /// Begins a transaction, and gives its number, from 1 on and below 2^61. No client was given it
    /// before. Call it only of a client with no transaction. The book learns of the number with the
    /// first call, so 64 live transactions are no limit here. It takes no memory, and waits for
    /// nobody.
    ///
    /// Worn where the client began 2^40 transactions, or the numbers have come to 2^61. It has no
    /// transaction then.
    pub fn begin(&mut self) -> Result<u64, Refusal>
        requires { self.old.phase ≡ Phase.Closed }
        ensures drawn { IfOk result (λ n. (n < number_end) ×
            Draws J.origin.next self.old n self.new ×
            (self.new.phase ≡ Phase.Drawn n)) }
        ensures worn { IfErr result (λ e. (e ≡ Refusal.Worn) ×
            IsWorn J.origin.next self.old self.new) }
    {
        let number = self.shared.numbers.draw(&mut self.drawer)?;
        self.awaiting.forget();
        self.phase = Phase::Drawn(number);
        Ok(number)
    }

    // Comes to a call, as soon as fewer records wait.
    pub(crate) fn arrive<R: Wait>(&mut self, rt: &R)
        ensures { self.new ≡ self.old }
    {
        self.shared.signal.let_drain(rt);
        self.waited = None;
    }

    // Whether a step may be taken, for what it adds to the next image.
    pub(crate) fn check_room(&mut self, desk: &Desk<J, B>, footprint: Footprint) -> Result<(), Miss>
        ensures { self.new ≡ self.old }
    {
        match desk.admit(self.shared, footprint, self.waited) {
            Admission::Fits => Ok(()),
            Admission::AfterCheckpoint(freezes) => {
                self.waited = Some(freezes);
                Err(Miss::NoRoomYet)
            }
            Admission::Refused => Err(Miss::NoRoom),
        }
    }

    // The number of the client's transaction, which is entered if it was only drawn.
    pub(crate) fn enter(&mut self, desk: &mut Desk<J, B>) -> Result<u64, Refusal>
        requires { IsOpen self.old.phase }
        ensures { Enters J.origin self.old.phase self.old result self.new }
    {
        match self.phase {
            Phase::Entered(number) => Ok(number),
            Phase::Drawn(number) => {
                let slot = desk.enter(self.shared, &mut self.line, &mut self.drawer, number)?;
                self.slot = slot;
                self.phase = Phase::Entered(number);
                Ok(number)
            }
            Phase::Closed => unreachable!(),
        }
    }

    // The number of the client's transaction.
    pub(crate) fn number(&self) -> u64
        requires { IsOpen self.now.phase }
        ensures { result ≡ number_in self.now.phase }
    {
        match self.phase {
            Phase::Entered(number) | Phase::Drawn(number) => number,
            Phase::Closed => unreachable!(),
        }
    }

    /// Has two clients of one store meet. Contracts then know that both have seen the longer of
    /// what they had seen, and that no number was given to both. It takes no memory, and waits for
    /// nobody.
    pub fn meet(&mut self, other: &mut Client<'s, J, B>)
        ensures one { self.new ≡ record self.old { seen = self.new.seen } }
        ensures other { other.new ≡ record other.old { seen = self.new.seen } }
        ensures longer { IsLonger self.old.seen other.old.seen self.new.seen }
        ensures mine { steps_of self.new.number self.new.seen ≡
            steps_of self.old.number self.old.seen }
        ensures mine_of_other { steps_of other.new.number other.new.seen ≡
            steps_of other.old.number other.old.seen }
        ensures apart { self.old.number ≢ other.old.number }
        ensures drawn { AreApart self.old.drawn other.old.drawn }
    {
        self.shared.line.meet(&mut self.line, &mut other.line);
        self.shared
            .numbers
            .compare(&mut self.drawer, &mut other.drawer);
    }

    /// Ends the client, and gives what it has seen, for `Store::close`. A transaction that is open
    /// stays live and keeps its locks; it is undone when the disk is opened again. Commit or abort
    /// it before.
    pub fn leave(self) -> Seen<J>
        ensures { result ≡ left_by self.entry }
    {
        let Self {
            shelves: _shelves,
            desk: _desk,
            shared,
            line,
            watcher,
            drawer,
            phase: _phase,
            slot: _slot,
            awaiting,
            hints: _hints,
            touched: _touched,
            waited: _waited,
        } = self;
        awaiting.abandon(&shared.waiting);
        drop(drawer);
        Seen::new(line.into_crowd(), watcher)
    }

    /// How the store stands. It is answered at once, whether the client has a transaction or not:
    /// it takes the locks of all shelves and the journal's, each once, for the time of as many
    /// names as there are collections, and calls no device. The text of the names takes memory.
    ///
    /// `used` and `first` are as the committer last told them, and so behind the disk by a block at
    /// most while it is at work; as the store was opened, where none has told (`Committer::turn`
    /// tells nothing, `Committer::turn` does).
    ///
    /// NoMemory alone is refused. The client is as before in each case.
    pub fn status<R: Wait>(&self, rt: &R, alloc: Global) -> Result<Status, Refusal>
        ensures { IsOkUnless result Refusal.NoMemory }
    {
        let (shelves, mutex) = (self.shelves, self.desk);
        let mut order = Order::new();
        let mut held = shelves.lock_all(rt, &mut order);
        let mut desk = mutex.lock(rt, &mut order);
        desk.status(alloc, shelves, self.shared, &mut held)
    }
}

// The same for each shelf.
pub(crate) fn each(is: bool) -> Four<bool>
    ensures { result ≡ record { first = is; second = is; third = is; fourth = is } }
{
    Four {
        first: is,
        second: is,
        third: is,
        fourth: is,
    }
}

// The client has no transaction any more.
pub(crate) fn close(phase: &mut Phase, touched: &mut Four<bool>)
    ensures { phase.new ≡ Phase.Closed }
{
    *phase = Phase::Closed;
    *touched = each(false);
}
