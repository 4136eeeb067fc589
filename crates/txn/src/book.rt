// The book: transactions on shared collections, one step at a time.
ghost use Rattle.std.specs.Prelude.{◌≡◌, ◌≤◌, ◌↔◌, [], IfOk, IfErr, OnOk, IsNone, IfSome, length};
ghost use Rattle.std.specs.Prelude.{slice_get, map};
ghost use Rattle.std.specs.FinMap as maps;
ghost use Rattle.std.specs.Option.{option_map};
ghost use Rattle.calls.specs.Contents.{kind_of_content};
ghost use Rattle.calls.specs.Names.{IsName};
ghost use Rattle.calls.specs.declared.reply.Reply.{Reply};
ghost use Rattle.calls.specs.declared.when.When.{When};
ghost use Rattle.calls.specs.Transactions.{Whole, own, laters_of};
ghost use Rattle.undo_log.specs.Entries.{stamped_entry};
ghost use Rattle.calls.specs.Limits.{max_collections, number_end, max_wear};
ghost use Rattle.catalog.specs.Making.{IsPlaceOf, FindRefused};
ghost use Rattle.catalog.specs.Fours.{Which, rank, pick};
ghost use Rattle.catalog.specs.declared.four.Four.{Four};
ghost use Rattle.steps.specs.Shelves.{CanRun, Settles, ShelfState, on_quarter};
ghost use Rattle.records.specs.Short.{AreShort};
ghost use Rattle.steps.specs.Machine.{IsSettled};
ghost use Rattle.steps.specs.Transactions.{RunsWhole};
ghost use Rattle.steps.specs.Sound.{IsSound};
ghost use Rattle.images.specs.Gatherings.{GoesAlong};
ghost use Rattle.records.specs.Cuts.{IsNextBlock};
ghost use Rattle.txn.specs.declared.actions.Action.{Action};
ghost use Rattle.txn.specs.declared.actions.Target.{Target};
ghost use Rattle.txn.specs.Books.{opened, lsn, IsKept, Takes, GoesOn, Notes, CutAnswers};
ghost use Rattle.txn.specs.Freezing.{IsGatheredOf, BookGathers, FreezeAnswers};
ghost use Rattle.txn.specs.Shelved.{book_state, IsBook};
ghost use Rattle.txn.specs.Undoings.{undo_count};

use crate::Journal;
use boosted::Boosted;
use calls::{Call, Format, Kind, Refusal, Reply, When};
use catalog::{Four, Parts};
use images::Gather;
use records::{Coded, NextBlock, Outbox};
use std::alloc::Global;
use std::marker::Model;
use steps::Shelf;
use undo_log::{Handle, Stamped};

/// The collections with the live transactions on them, and the records of the steps that were not
/// handed over yet (transactional boosting: Herlihy and Koskinen, PPoPP 2008).
///
/// The collections lie on four shelves, each with the needs that are held on it, and all else is in
/// a journal. Contracts see what the collections hold now, the live transactions with what they
/// asked for and the needs that they hold, the wear, and the records that wait. A refused step
/// changes nothing of that.
pub struct Book<B: Parts + Coded> {
    pub(crate) shelves: Four<Shelf<B::Shelf>>,
    pub(crate) journal: Journal<B>,
}

// Written out, so that the crates above call it in place of proving it again.
impl<B: Parts + Coded> Drop for Book<B> {
    fn drop(self) {
        let Self { shelves, journal } = self;
        drop(shelves);
        drop(journal);
    }
}

impl<B: Parts + Coded> Model for Book<B> {
    ghost use Rattle.txn.specs.Books.{BookState};
    ghost use Rattle.txn.specs.Shelved.{book_state, IsBook};
    ghost use Rattle.std.specs.FinMap as maps;
    ghost use Rattle.std.specs.Ordering.{nat_cmp};
    ghost use Rattle.std.specs.Coded.{codes, coded_ℕ, coded_bool};

    ghost Value = { BookState B };

    ghost coded = { Prim.hlevel (codes, maps.code {R = nat_cmp} coded_ℕ coded_bool) };

    ghost view = { λ b. book_state B.whole b.journal b.shelves };

    ghost invariant = { λ b. IsBook B.meaning B.making B.collections B.whole B.fits b.journal
        b.shelves };
}

impl<B: Parts + Coded> Book<B> {
    /// The journal and the four shelves that it is. It takes no memory, and nothing is copied.
    pub fn into_shelves(self) -> (Journal<B>, Four<Shelf<B::Shelf>>)
        ensures book { IsBook B.meaning B.making B.collections B.whole B.fits result.0 result.1 }
        ensures whole { self ≡ book_state B.whole result.0 result.1 }
    {
        let Self { shelves, journal } = self;
        (journal, shelves)
    }

    /// The book that a journal and four shelves are. It takes no memory, and nothing is copied.
    pub fn of_shelves(journal: Journal<B>, shelves: Four<Shelf<B::Shelf>>) -> Self
        requires { IsBook B.meaning B.making B.collections B.whole B.fits journal shelves }
        ensures { result ≡ book_state B.whole journal shelves }
    {
        Self { shelves, journal }
    }

    /// The journal, which is the book beside its four shelves. This is no step.
    pub fn journal(&self) -> &Journal<B>
        ensures { (f : Four (ShelfState B.Shelf)) ×
            IsBook B.meaning B.making B.collections B.whole B.fits result.now f ×
            (self.now ≡ book_state B.whole result.now f) }
    {
        &self.journal
    }

    /// The kind of the collection of the number, if there is one. One index; this is no step.
    pub fn kind(&self, at: u8) -> Option<Kind>
        ensures { result ≡ option_map (λ x. kind_of_content x.content)
            (slice_get (B.collections self.now.state.now) at) }
    {
        self.journal.kind(at)
    }

    /// A number above every number that was entered: the greater of the one that the book was made
    /// with and one more than the greatest entered since. This is no step.
    pub fn next(&self) -> u64
        ensures { result ≡ self.now.next }
    {
        self.journal.next()
    }

    /// The format of the store. This is no step.
    pub fn format(&self) -> Format
        ensures { result ≡ self.now.state.format }
    {
        self.journal.format()
    }

    /// How many transactions are live. This is no step.
    pub fn count_live(&self) -> usize
        ensures { result ≡ maps.len self.now.state.live }
    {
        self.journal.count_live()
    }

    /// How much the store is worn: how often anything was entered, called, deferred, run in a
    /// commit or undone over its life, up to 2^61. This is no step.
    pub fn wear(&self) -> u64
        ensures { result ≡ self.now.state.wear }
    {
        self.journal.wear()
    }

    /// How many records wait to be handed over. This is no step.
    pub fn waiting(&self) -> usize
        ensures { result ≡ length self.now.pending }
    {
        self.journal.waiting()
    }

    /// The block that `cut` hands over next: how many records it has, and how many bytes spell
    /// them. None where no record waits. It takes no memory, and is no step.
    pub fn next_block(&self) -> Option<NextBlock>
        ensures none { IsNone result ↔ (self.now.pending ≡ []) }
        ensures next { IfSome result (IsNextBlock self.now.pending self.now.freezes self.now.end) }
    {
        self.journal.next_block()
    }

    /// The LSN behind the last record, counted since the book was opened: how many records were
    /// handed over or wait. This is no step.
    pub fn lsn(&self) -> u64
        ensures { result ≡ lsn self.now }
    {
        self.journal.lsn()
    }

    /// How many records the undoing of all that is live takes: a Back for each live call that does
    /// not only read, and an Ended for each live transaction. It looks at what each live
    /// transaction asked for, takes no memory, and is no step.
    pub fn undoing(&self) -> u64
        ensures { result ≡ undo_count self.now.state }
    {
        self.journal.undoing()
    }

    /// What holds of every book: its records have a spelling, its counts and numbers are in range,
    /// and what the laws of the collections give. It does nothing.
    pub fn upheld(&self)
        ensures { IsKept B.meaning B.making (λ f s. AreShort f (B.collections s))
            (IsSound B.meaning B.making) self.now }
    {
        let _ = &self.shelves;
    }

    /// The collection of the name, as `Parts::find` answers. This is no step.
    pub fn find(&self, name: &str) -> Result<u8, Refusal>
        ensures ok { IfOk result (λ at. IsName name.now ×
            IsPlaceOf (B.making.names self.now.state.now) name.now at) }
        ensures err { IfErr result (FindRefused (B.making.names self.now.state.now) name.now) }
    {
        self.journal.find(name)
    }

    /// Makes the number live.
    ///
    /// BadArg for 0 and from 2^61 on, AlreadyLive, TooManyLive where 64 are live, Worn where the
    /// wear is 2^61 or more, Backlog, NoMemory.
    pub fn enter(&mut self, number: u64) -> Result<(), Refusal>
        ensures answer { Takes B.meaning B.making self.old (Action.Enter number result) self.new }
        ensures settled { (c : B) → IsSettled B.meaning self.old.state c →
            IsSettled B.meaning self.new.state c }
        ensures goes { OnOk result (GoesOn B.meaning B.making B.collections self.old self.new) }
        ensures notes { OnOk result (Notes B.meaning self.old (Action.Enter number result)
            self.new) }
    {
        self.journal.enter(number)?;
        Ok(())
    }

    /// What the transaction asks of a collection, under the need that the call has with its reply:
    /// at once, or deferred to its commit, where it is Done. A call that only reads is not
    /// journalled: no record waits for it, and it does not wear. Its need is held to the end as
    /// that of another. Until the commit a deferred call shows in no reply, not even to its own
    /// transaction.
    ///
    /// NoSuchTxn, Falling, NoSuchCollection, WrongKind, BadArg for a call that no client can ask
    /// so, TooLong, Worn, TooManyCalls where the transaction asked for 1,024, Backlog, NoMemory in
    /// the look-up for a value, AlreadyGoing where the transaction left to its commit already what
    /// this call would leave, Busy with the least other transaction that holds a need in the way,
    /// NoMemory.
    pub fn ask(&mut self, number: u64, at: u8, call: &Call, when: When) -> Result<Reply, Refusal>
        ensures answer { Takes B.meaning B.making self.old
            (Action.Ask number (Target.Number at) call.now when result) self.new }
        ensures settled { (c : B) → IsSettled B.meaning self.old.state c →
            IsSettled B.meaning self.new.state c }
        ensures goes { OnOk result (GoesOn B.meaning B.making B.collections self.old self.new) }
        ensures notes { OnOk result (Notes B.meaning self.old
            (Action.Ask number (Target.Number at) call.now when result) self.new) }
        ensures deferred { IfOk result (λ reply. when ≡ When.AtCommit → reply ≡ Reply.Done) }
    {
        let Self { shelves, journal } = self;
        let shelf = shelves.of_mut(at);
        let slot = journal.slot(number);
        let looked = shelf.look(journal.format(), number, at, call, when);
        journal.ask(shelf, Handle { number, slot }, at, call, when, looked)
    }

    /// Commits the transaction: what it deferred, and what its calls left, runs in the order asked,
    /// all that it asked for stays, and its needs go. Answers the count of commits and makes since
    /// the book was opened, this one included. Nothing that was deferred can refuse it.
    ///
    /// NoSuchTxn, Falling, Backlog, NoMemory.
    pub fn commit(&mut self, number: u64) -> Result<u64, Refusal>
        ensures answer { Takes B.meaning B.making self.old (Action.Commit number result) self.new }
        ensures settled { OnOk result ((c : B) → IsSettled B.meaning self.old.state c →
            (d : B) × RunsWhole B.meaning B.making c (Whole (own number self.old.state.entries)) d ×
            IsSettled B.meaning self.new.state d) }
        ensures goes { OnOk result (GoesOn B.meaning B.making B.collections self.old self.new) }
        ensures notes { OnOk result (Notes B.meaning self.old (Action.Commit number result)
            self.new) }
    {
        let Self { shelves, journal } = self;
        let slot = journal.slot(number);
        let handle = Handle { number, slot };
        let place = journal.prepare_commit(handle)?;
        let ran = settle_all(shelves, number, journal.entries_of(handle));
        journal.finish(number, ran);
        Ok(place)
    }

    /// Undoes the newest call of the transaction that is not undone, and answers true; false where
    /// none is left. From then on the transaction is falling. It holds its needs until `ended`. No
    /// record tells of the undoing of a call that only read, and it does not wear.
    ///
    /// NoSuchTxn, Backlog, NoMemory.
    pub fn back(&mut self, number: u64) -> Result<bool, Refusal>
        ensures answer { Takes B.meaning B.making self.old (Action.Back number result) self.new }
        ensures settled { (c : B) → IsSettled B.meaning self.old.state c →
            IsSettled B.meaning self.new.state c }
        ensures goes { OnOk result (GoesOn B.meaning B.making B.collections self.old self.new) }
        ensures notes { OnOk result (Notes B.meaning self.old (Action.Back number result)
            self.new) }
    {
        let Self { shelves, journal } = self;
        let slot = journal.slot(number);
        let handle = Handle { number, slot };
        let Some(at) = journal.newest(handle) else {
            return journal.back_none(handle);
        };
        journal.back(shelves.of_mut(at), handle, at)
    }

    /// Ends a transaction whose calls are all undone: its needs go, and what it deferred is never
    /// run.
    ///
    /// NoSuchTxn, Unfinished where a call is not undone, Backlog, NoMemory.
    pub fn ended(&mut self, number: u64) -> Result<(), Refusal>
        ensures answer { Takes B.meaning B.making self.old (Action.Ended number result) self.new }
        ensures settled { (c : B) → IsSettled B.meaning self.old.state c →
            IsSettled B.meaning self.new.state c }
        ensures goes { OnOk result (GoesOn B.meaning B.making B.collections self.old self.new) }
        ensures notes { OnOk result (Notes B.meaning self.old (Action.Ended number result)
            self.new) }
    {
        let Self { shelves, journal } = self;
        let slot = journal.slot(number);
        journal.prepare_end(Handle { number, slot })?;
        give_up_all(shelves, number);
        journal.finish(number, 0);
        Ok(())
    }

    /// Hands the first pending records over as one block, as many whole ones as fit in 65,535 bytes
    /// and as come before the next freeze, and answers true; false where nothing is pending. No
    /// record is copied, and no memory is taken.
    ///
    /// NotNow, only where a record waits and the outbox was full at a moment of the call.
    pub fn cut<O: Outbox>(&mut self, out: &mut O) -> Result<bool, Refusal>
        ensures answer { CutAnswers self.old (λ bs. O.sends out.old bs out.new)
            (O.was_full out.old out.new) result self.new }
        ensures settled { (c : B) → IsSettled B.meaning self.old.state c →
            IsSettled B.meaning self.new.state c }
    {
        self.journal.cut(out)
    }
}

// Runs on each shelf what these entries of the transaction deferred or left there, and gives its
// needs up. How many calls ran.
fn settle_all<C: Boosted<At = u8>>(
    shelves: &mut Four<Shelf<C>>,
    number: u64,
    entries: &[Stamped],
) -> u64
    requires can { (w : Which) → CanRun C.meaning
        (on_quarter (rank w) (laters_of (map stamped_entry entries.now))) (pick shelves.old w).now }
    ensures settled { (w : Which) → Settles C.meaning (pick shelves.old w) number
        (on_quarter (rank w) (laters_of (map stamped_entry entries.now))) (pick shelves.new w) }
    ensures count { result ≡ length (laters_of (map stamped_entry entries.now)) }
{
    shelves.first.settle_quarter(number, entries, 0)
        + shelves.second.settle_quarter(number, entries, 1)
        + shelves.third.settle_quarter(number, entries, 2)
        + shelves.fourth.settle_quarter(number, entries, 3)
}

// Gives the needs of the transaction up on each shelf.
fn give_up_all<C: Boosted<At = u8>>(shelves: &mut Four<Shelf<C>>, number: u64)
    ensures { (w : Which) → Settles C.meaning (pick shelves.old w) number [] (pick
        shelves.new w) }
{
    shelves.first.give_up(number);
    shelves.second.give_up(number);
    shelves.third.give_up(number);
    shelves.fourth.give_up(number);
}
