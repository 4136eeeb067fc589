// What lies under the journal's lock.
ghost use Rattle.std.specs.Prelude.{◌≡◌, [], ◌∷◌, ◌++◌, Some, None, IfOk, IfErr};
ghost use Rattle.std.specs.Prelude.{IsOkUnless, ◌⊎◌, ◌≤◌, Contains};
ghost use Rattle.calls.specs.declared.refusal.Refusal.{Refusal};
ghost use Rattle.catalog.specs.declared.four.Four.{Four};
ghost use Rattle.catalog.specs.Fours.{Which, pick};
ghost use Rattle.steps.specs.Shelves.{ShelfState};
ghost use Rattle.txn.specs.declared.actions.Action.{Action};
ghost use Rattle.txn.specs.Books.{opened, CutAnswers};
ghost use Rattle.txn.specs.Shelved.{book_state, entered, IsBook, IsJournal};
ghost use Rattle.group_commit.specs.Accords.{AccordState};
ghost use Rattle.images.specs.Gathers.{nothing_gathered};
ghost use Rattle.group_commit.specs.Lines.{mine_of, stepped, seeing};
ghost use Rattle.group_commit.specs.Marks.{new_watcher};
ghost use Rattle.group_commit.specs.Orders.{WasFull};
ghost use mathlib.Core.List.{IsPrefix};
ghost use Rattle.desks.specs.Seen.{Steps};
ghost use Rattle.desks.specs.Notes.{IsSent};
ghost use Rattle.desks.specs.Told.{told_book};
ghost use Rattle.engine.specs.Rooms.{IsWhyNone};
ghost use Rattle.desks.specs.Touches.{Leads, IsJournalDesk};

use crate::budget::{Admission, Budget, Fill};
use crate::counts::Counts;
use crate::extent::Extent;
use crate::footprint::{Change, Footprint};
use crate::naming::Naming;
use crate::order::Ranked;
use crate::shared::Shared;
use crate::signal::Signal;
use crate::touch::Touch;
use calls::Refusal;
use catalog::{Four, Parts};
use engine::{Room, undoing_behind};
use group_commit::{
    BookSeat, ClientSeat, Drawer, DrawerMaker, Handoff, Line, Near, OneStep, Outgoing, Sender,
    TwinNear, Watcher,
};
use records::Coded;
use std::marker::{Brand, Model, PhantomData};
use std::snapshot::Snapshot;
use std::sync::Wait;
use steps::Shelf;
use txn::Journal;

/// The journal, with the near ends of the twins by which it knows what the shelves hold, and the
/// seats of its history, of the hand-off's sending end, of what is gathered of the book for an
/// image, and of what makes clients. What lies under a lock is known by its type: contracts see
/// nothing else of it.
pub struct Desk<J: Naming, B: Coded> {
    pub journal: Journal<B>,
    pub nears: Four<TwinNear<Touch<Shelf<B::Shelf>>>>,
    pub seat: BookSeat,
    pub sender: Sender,
    pub near: Near,
    maker: DrawerMaker,
    watcher: Watcher,
    // how many records the undoing takes, at most, of what was live behind the last block
    undoing: u64,
    // how far the area in use was filled when that was last told
    pub(crate) extent: Extent,
    // how much the next image may take
    pub(crate) budget: Budget,
    // what was done since the store was opened
    pub(crate) counts: Counts,
    of: PhantomData<J>,
}

// Written out, so that the crates above call it in place of proving it again.
impl<J: Naming, B: Coded> Drop for Desk<J, B> {
    fn drop(self) {
        let Self {
            journal,
            nears,
            seat,
            sender,
            near,
            maker,
            watcher,
            undoing: _undoing,
            extent: _extent,
            budget: _budget,
            counts: _counts,
            of: _of,
        } = self;
        drop(journal);
        drop(nears);
        drop(seat);
        drop(sender);
        drop(near);
        drop(maker);
        drop(watcher);
    }
}

impl<J: Naming, B: Coded> Model for Desk<J, B> {
    ghost use Rattle.std.specs.Prelude.{◌≡◌};
    ghost use Rattle.catalog.specs.Woven.{names_in};
    ghost use Rattle.desks.specs.Desks.{DeskState, IsDrawn};
    ghost use Rattle.desks.specs.Touches.{IsJournalDesk};

    ghost Value = { DeskState };

    ghost view = { λ d. record {
      names = names_in (B.Names.labels d.journal.names);
      entries = d.journal.transactions.entries;
    } };

    ghost invariant = { λ d.
        IsJournalDesk ⟦<J as Naming>⟧ B.meaning B.making B.collections B.whole B.fits d.journal
        d.nears d.seat d.sender d.near
        × (d.maker.table ≡ J.numbers) × (d.maker.from ≡ J.origin.next) ×
        (d.watcher.table ≡ J.mark) × IsDrawn d.maker d.seat };
}

impl<J: Naming, B: Coded> Ranked for Desk<J, B> {
    ghost level = { 7 };

    fn level() -> u8 {
        7
    }
}

impl<J: Naming, B: Coded> Desk<J, B> {
    /// The desk of a journal that was just opened, with the near ends that know what its shelves
    /// hold, where the area in use is filled so far.
    pub fn new(
        journal: Journal<B>,
        nears: Four<TwinNear<Touch<Shelf<B::Shelf>>>>,
        seat: BookSeat,
        sender: Sender,
        near: Near,
        maker: DrawerMaker,
        watcher: Watcher,
        extent: Extent,
    ) -> Self
        requires parts { (f : Four (ShelfState B.Shelf)) ×
            ((w : Which) → (pick nears w).table ≡ pick J.shelves w) ×
            ((w : Which) → Leads (pick nears w) (pick f w)) ×
            IsBook B.meaning B.making B.collections B.whole B.fits journal f ×
            (told_book B.collections (book_state B.whole journal f) ≡
            opened J.origin.format J.origin.start J.origin.next J.origin.wear) }
        requires seat { seat ≡ record { table = J.line; all = []; clients = 0 } }
        requires sender { sender ≡ record { table = J.handoff; sent = []; noted = [] } }
        requires near { near ≡ record { table = J.gathering; gather = nothing_gathered } }
        requires maker { maker ≡ record {
          table = J.numbers;
          from = J.origin.next;
          made = 0;
          reports = [];
        } }
        requires watcher { watcher.table ≡ J.mark }
    {
        Self {
            journal,
            nears,
            seat,
            sender,
            near,
            maker,
            watcher,
            undoing: 0,
            extent,
            budget: Budget::new(extent.area, extent.used),
            counts: Counts::new(),
            of: PhantomData,
        }
    }

    /// Makes a number live, which the client's drawer drew: a step of the client. It answers the
    /// slot of its transaction, for its handle. The journal's side learns what the drawer drew. It
    /// calls no device.
    ///
    /// The refusals of `Journal::enter`, which leave the journal as before. They are noted.
    pub fn enter(
        &mut self,
        shared: &Shared<J>,
        me: &mut ClientSeat,
        drawer: &mut Drawer,
        number: u64,
    ) -> Result<usize, Refusal>
        requires line { me.old.table ≡ J.line }
        requires drawer { (drawer.old.table ≡ J.numbers) × (drawer.old.number ≡ me.old.number) }
        requires drawn { Contains drawer.old.drawn number }
        ensures step { Steps J.origin me.old (Action.Enter number (entered result)) me.new }
        ensures drawer { drawer.new ≡ drawer.old }
    {
        shared.numbers.report(&mut self.maker, drawer);
        let entered = self.journal.enter(number);
        note::<Brand, _>(&shared.line, &mut self.seat, me, &(number, &entered));
        wake(&shared.signal, &self.journal, false);
        entered
    }

    /// Hands a block over, a step of no client, where the area's image covers it, or where it fits
    /// into the room, and behind it the undoing of all that is live then (`undoing_behind`); none
    /// where four are in transit. It takes no memory. How far the area in use is filled is noted
    /// for `status`.
    ///
    /// Where the block may not go Imaging while an image is being written, as that may cover it,
    /// and else Full. Nothing is handed over then.
    pub fn cut<R: Wait>(
        &mut self,
        rt: &R,
        shared: &Shared<J>,
        room: Room,
        extent: Extent,
    ) -> Result<(), Refusal>
        ensures { IfErr result (IsWhyNone room) }
    {
        self.extent = extent;
        shared.signal.set_filling(self.budget.is_filling());
        if self.journal.waiting() == 0 {
            return Ok(());
        }
        let undoing = undoing_behind(&self.journal, self.undoing, room)?;
        if self.hand_over(rt, shared).is_ok() {
            self.undoing = undoing;
        }
        Ok(())
    }

    // Hands a block over, a step of no client. NotNow, only where four were in transit.
    fn hand_over<R: Wait>(&mut self, rt: &R, shared: &Shared<J>) -> Result<bool, Refusal>
        ensures { IsOkUnless result Refusal.NotNow }
    {
        let before = Snapshot::of(&self.journal);
        let cut = cut_into(rt, &shared.handoff, &mut self.journal, &mut self.sender);
        shared.signal.cut(self.journal.waiting());
        self.counts.note_cut(&cut);
        note_alone::<Brand, _>(
            &shared.line,
            &mut self.seat,
            &(&before, &self.journal, &cut),
        );
        cut
    }

    /// The seats of a new client.
    ///
    /// Worn where 65,536 were made.
    pub fn client(&mut self, shared: &Shared<J>) -> Result<(ClientSeat, Watcher, Drawer), Refusal>
        ensures line { IfOk result (λ r. (r.0.table ≡ J.line) × (r.0.seen ≡ [])) }
        ensures watcher { IfOk result (λ r. r.1 ≡ new_watcher J.mark) }
        ensures drawer { IfOk result (λ r. (r.2.table ≡ J.numbers) × (r.2.from ≡ J.origin.next) ×
            (r.2.drawn ≡ [])) }
        ensures number { IfOk result (λ r. r.2.number ≡ r.0.number) }
        ensures worn { IsOkUnless result Refusal.Worn }
    {
        let drawer = shared.numbers.drawer(&mut self.maker)?;
        let line = shared.line.client(&mut self.seat);
        let watcher = shared.mark.watcher(&mut self.watcher);
        Ok((line, watcher, drawer))
    }

    /// How many records the undoing of all that is live takes. It takes no memory.
    pub fn undoing(&self) -> u64 {
        self.journal.undoing()
    }

    /// Whether a step may be taken, for what it adds to the next image. `waited` is how many
    /// freezes there were when its client last waited for a checkpoint, if it did. Each one fits
    /// where no committer is at work, as nobody takes checkpoints then.
    pub fn admit(
        &self,
        shared: &Shared<J>,
        footprint: Footprint,
        waited: Option<u64>,
    ) -> Admission {
        if !shared.signal.is_attended() {
            return Admission::Fits;
        }
        self.budget.admit(footprint, waited)
    }

    /// How full the store is.
    pub fn fill(&self) -> Fill {
        self.budget.fill()
    }

    /// A step changed so much in the next image.
    pub fn note_change(&mut self, change: Change) {
        self.budget.note(change);
    }

    /// The book was frozen, and the undoing of all that is live takes so many records.
    pub fn note_freeze(&mut self, undoing: u64) {
        self.budget.freeze(undoing);
    }

    /// The image of the newest freeze is the store, and fills the area so far.
    pub fn note_image(&mut self, extent: Extent) {
        self.extent = extent;
        self.budget.flip(extent.used);
        self.counts.note_checkpoint();
    }

    /// The journal with the near ends, its seat and the sending end, where no thread shares the
    /// desk any more, and how many clients were made. It takes no memory.
    pub fn into_parts(
        self,
    ) -> (
        Journal<B>,
        Four<TwinNear<Touch<Shelf<B::Shelf>>>>,
        BookSeat,
        Sender,
        u64,
    )
        ensures desk { (near : AccordState) × IsJournalDesk ⟦<J as Naming>⟧ B.meaning B.making
            B.collections B.whole B.fits result.0 result.1 result.2 result.3 near }
        ensures clients { result.4 ≡ result.2.clients }
    {
        let Self {
            journal,
            nears,
            seat,
            sender,
            near,
            maker,
            watcher,
            undoing: _undoing,
            extent: _extent,
            budget: _budget,
            counts: _counts,
            of: _of,
        } = self;
        let clients = maker.made();
        drop(near);
        drop(maker);
        drop(watcher);
        (journal, nears, seat, sender, clients)
    }

    /// A new watcher of the mark.
    pub fn watcher(&mut self, shared: &Shared<J>) -> Watcher
        ensures { result ≡ new_watcher J.mark }
    {
        shared.mark.watcher(&mut self.watcher)
    }
}

/// The step that W names stands at the end of the history, a step of no client. Its parts are there
/// for who picks W.
pub fn note_alone<W: OneStep, T>(line: &Line, seat: &mut BookSeat, parts: &T)
    requires book { seat.old.table ≡ line.now }
    requires step { W.step.client ≡ None }
    ensures book { seat.new ≡ stepped seat.old W.step }
{
    let _ = parts;
    line.tally_alone::<W>(seat);
}

// Wakes the committer behind a step of a client: one that committed or made something, and each one
// behind which many records wait, also where it was refused for that.
pub(crate) fn wake<B: Coded>(signal: &Signal, journal: &Journal<B>, is_placed: bool) {
    signal.left(journal.waiting());
    if is_placed {
        signal.committed();
    }
}

// Hands a block of the journal over at the sending end.
fn cut_into<B: Coded, R: Wait>(
    rt: &R,
    handoff: &Handoff,
    journal: &mut Journal<B>,
    sender: &mut Sender,
) -> Result<bool, Refusal>
    requires table { sender.old.table ≡ handoff.now }
    requires kept { IsJournal B.meaning B.making B.collections B.whole B.fits journal.old }
    ensures answer { (f : Four (ShelfState B.Shelf)) →
        IsBook B.meaning B.making B.collections B.whole B.fits journal.old f →
        CutAnswers (book_state B.whole journal.old f) (λ bs. IsSent sender.old bs sender.new)
        (WasFull sender.old.sent) result (book_state B.whole journal.new f) }
    ensures kept { (f : Four (ShelfState B.Shelf)) →
        IsBook B.meaning B.making B.collections B.whole B.fits journal.old f →
        IsBook B.meaning B.making B.collections B.whole B.fits journal.new f }
{
    let mut out = Outgoing {
        rt,
        handoff,
        sender,
    };
    journal.cut(&mut out)
}

// The step that W names stands at the end of the history. Its parts are there for who picks W.
pub(crate) fn note<W: OneStep, T>(line: &Line, seat: &mut BookSeat, me: &mut ClientSeat, parts: &T)
    requires book { seat.old.table ≡ line.now }
    requires client { me.old.table ≡ line.now }
    requires step { W.step.client ≡ Some me.old.number }
    ensures book { seat.new ≡ stepped seat.old W.step }
    ensures client { me.new ≡ seeing me.old seat.new.all }
    ensures seen { IsPrefix me.old.seen seat.old.all }
    ensures mine { mine_of me.new ≡ mine_of me.old ++ W.step ∷ [] }
{
    let _ = parts;
    line.tally::<W>(seat, me);
}
