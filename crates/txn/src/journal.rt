// The journal: what a book keeps beside its shelves, and the steps that touch none of them.
ghost use Rattle.std.specs.Prelude.{◌≡◌, ◌↔◌, ◌+◌, ◌<◌, ◌≤◌, [], Some, IsTrue, IsNone, IfSome};
ghost use Rattle.std.specs.Prelude.{IfOk};
ghost use Rattle.std.specs.Prelude.{IfErr, OnOk, length, slice_get};
ghost use Rattle.std.specs.FinMap as maps;
ghost use Rattle.std.specs.Option.{option_map};
ghost use Rattle.calls.specs.Limits.{max_pending, number_end, max_wear};
ghost use Rattle.calls.specs.Names.{IsName};
ghost use Rattle.undo_log.specs.Logs.{Lives};
ghost use Rattle.catalog.specs.Making.{IsPlaceOf, FindRefused};
ghost use Rattle.catalog.specs.Woven.{names_in};
ghost use Rattle.records.specs.Cuts.{IsNextBlock};
ghost use Rattle.steps.specs.Machine.{IsRunning};
ghost use Rattle.txn.specs.declared.actions.Action.{Action};
ghost use Rattle.txn.specs.Books.{CutAnswers};
ghost use Rattle.txn.specs.Rows.{RunRefused, CanEnter, EnterRefused};
ghost use Rattle.txn.specs.Shelved.{opened_journal, journal_lsn, standing_of, IsJournal};
ghost use Rattle.txn.specs.Shelved.{LeadsBeside, Serves, Settles, entered};
ghost use Rattle.txn.specs.Undoings.{undo_count};

use crate::undoing::count_journalled;
use calls::limits::{MAX_COLLECTIONS, MAX_LIVE, MAX_PENDING, NUMBER_END};
use calls::{Format, Kind, Refusal};
use catalog::{Named, Parts};
use images::Gathering;
use records::{Coded, NextBlock, Outbox, Pending, Record};
use std::alloc::Global;
use std::marker::Model;
use steps::TransactionTable;
use undo_log::Handle;

// The bytes of a record of a transaction's number alone.
pub(crate) const MARK_LEN: usize = 9;

/// What a book keeps beside its shelves: the names of the collections, the live transactions with
/// what they asked for, the wear, and the records of the steps that were not handed over yet.
///
/// A step on a shelf says what it is of the book whatever the other shelves are; so it can be taken
/// where only this shelf and the journal are at hand.
pub struct Journal<B: Parts + Coded> {
    pub(crate) alloc: Global,
    pub(crate) names: B::Names,
    pub(crate) transactions: TransactionTable,
    pub(crate) pending: Pending,
    // the commits and makes since the book was opened
    pub(crate) places: u64,
    // above every number that was entered
    pub(crate) next: u64,
    pub(crate) gathering: Gathering,
}

// Written out, so that the crates above call it in place of proving it again.
impl<B: Parts + Coded> Drop for Journal<B> {
    fn drop(self) {
        let Self {
            alloc: _alloc,
            names,
            transactions,
            pending,
            places: _places,
            next: _next,
            gathering,
        } = self;
        drop(names);
        drop(transactions);
        drop(pending);
        drop(gathering);
    }
}

impl<B: Parts + Coded> Model for Journal<B> {
    ghost use Rattle.txn.specs.Shelved.{JournalState};
    ghost use Rattle.txn.specs.Views.{journal_of};
    ghost use Rattle.std.specs.FinMap as maps;
    ghost use Rattle.std.specs.Ordering.{nat_cmp};
    ghost use Rattle.std.specs.Coded.{codes, coded_ℕ, coded_bool};

    ghost Value = { JournalState B.Names };

    ghost coded = { Prim.hlevel (codes, maps.code {R = nat_cmp} coded_ℕ coded_bool) };

    ghost view = { λ j. journal_of j.names j.transactions j.pending j.places j.next j.gathering };
}

impl<B: Parts + Coded> Journal<B> {
    /// The journal of collections under these names, that were opened in a store of the format: no
    /// transaction is live, and nothing pending. `next` is above every number that was entered
    /// before. It takes no memory.
    pub fn new(alloc: Global, format: Format, names: B::Names, next: u64, wear: u64) -> Self
        ensures { result ≡ opened_journal format names next wear }
    {
        Self {
            alloc,
            names,
            transactions: TransactionTable::new(alloc, format, wear),
            pending: Pending::new(alloc),
            places: 0,
            next,
            gathering: Gathering::new(alloc),
        }
    }

    /// The names of the collections, where the journal is no more needed.
    pub fn into_names(self) -> B::Names
        ensures { result ≡ self.names }
    {
        let Self {
            alloc: _alloc,
            names,
            transactions,
            pending,
            places: _places,
            next: _next,
            gathering,
        } = self;
        drop(transactions);
        drop(pending);
        drop(gathering);
        names
    }

    /// A number above every number that was entered. This is no step.
    pub fn next(&self) -> u64
        ensures { result ≡ self.now.next }
    {
        self.next
    }

    /// The format of the store. This is no step.
    pub fn format(&self) -> Format
        ensures { result ≡ self.now.transactions.format }
    {
        self.transactions.format()
    }

    /// How many transactions are live. This is no step.
    pub fn count_live(&self) -> usize
        ensures { result ≡ maps.len self.now.transactions.live }
    {
        self.transactions.live().count_live()
    }

    /// How much the store is worn. This is no step.
    pub fn wear(&self) -> u64
        ensures { result ≡ self.now.transactions.wear }
    {
        self.transactions.wear()
    }

    /// How many records wait to be handed over. This is no step.
    pub fn waiting(&self) -> usize
        ensures { result ≡ length self.now.pending }
    {
        self.pending.len()
    }

    /// The block that `cut` hands over next, or None where no record waits. It takes no memory, and
    /// is no step.
    pub fn next_block(&self) -> Option<NextBlock>
        ensures none { IsNone result ↔ (self.now.pending ≡ []) }
        ensures next { IfSome result (IsNextBlock self.now.pending self.now.freezes self.now.end) }
    {
        self.pending.next_block()
    }

    /// The LSN behind the last record, counted since the book was opened. This is no step.
    pub fn lsn(&self) -> u64
        requires { IsJournal B.meaning B.making B.collections B.whole B.fits self.now }
        ensures { result ≡ journal_lsn self.now }
    {
        self.pending.lsn()
    }

    /// How many records the undoing of all that is live takes. It looks at what each live
    /// transaction asked for, takes no memory, and is no step.
    pub fn undoing(&self) -> u64
        requires { IsJournal B.meaning B.making B.collections B.whole B.fits self.now }
        ensures { result ≡ undo_count (standing_of self.now).state }
    {
        let live = self.transactions.live();
        count_journalled(live) + live.count_live() as u64
    }

    /// The slot of the number's transaction, for its handle; any where it is not live. One search;
    /// this is no step.
    pub fn slot(&self, number: u64) -> usize {
        self.transactions.live().slot(number)
    }

    /// The number of the collection of the name, as `Named::find` answers. This is no step.
    pub fn find(&self, name: &str) -> Result<u8, Refusal>
        ensures ok { IfOk result (λ at. IsName name.now ×
            IsPlaceOf (names_in (B.Names.labels self.now.names)) name.now at) }
        ensures err { IfErr result (FindRefused (names_in (B.Names.labels self.now.names))
            name.now) }
    {
        self.names.find(name)
    }

    /// Whether the collection of the number has the name. One index; this is no step.
    pub fn is_at(&self, name: &str, at: u8) -> bool
        ensures there { IsTrue result ↔
            (slice_get (names_in (B.Names.labels self.now.names)) at ≡ Some name.now) }
        ensures place { IsTrue result → IsName name.now ×
            IsPlaceOf (names_in (B.Names.labels self.now.names)) name.now at }
    {
        prove!(self.names.count() <= MAX_COLLECTIONS);
        let Some(_) = self.names.name(at) else {
            return false;
        };
        self.names.is_at(name, at)
    }

    /// The kind of the collection of the number, if there is one. One index; this is no step.
    pub fn kind(&self, at: u8) -> Option<Kind>
        ensures { result ≡ option_map (λ x. x.kind) (slice_get (B.Names.labels self.now.names)
            at) }
    {
        self.names.kind(at)
    }

    /// Makes the number live, and answers the slot of its transaction, for its handle.
    ///
    /// BadArg for 0 and from 2^61 on, AlreadyLive, TooManyLive where 64 are live, Worn where the
    /// wear is 2^61 or more, Backlog, NoMemory.
    pub fn enter(&mut self, number: u64) -> Result<usize, Refusal>
        requires kept { IsJournal B.meaning B.making B.collections B.whole B.fits self.old }
        ensures { LeadsBeside B.meaning B.making B.collections B.whole B.fits
            (Serves B.meaning B.making B.collections (Action.Enter number) (entered result))
            self.old self.new }
    {
        self.check_enter(number)?;
        self.pending.reserve(MARK_LEN)?;
        let handle = self.transactions.begin(number)?;
        self.pending.push(Record::Begin(number));
        self.next = self.next.max(number + 1);
        Ok(handle.slot)
    }

    /// Hands the first pending records over as one block, as many whole ones as fit in 65,535 bytes
    /// and as come before the next freeze, and answers true; false where nothing is pending. No
    /// record is copied, and no memory is taken.
    ///
    /// NotNow, only where a record waits and the outbox was full at a moment of the call.
    pub fn cut<O: Outbox>(&mut self, out: &mut O) -> Result<bool, Refusal>
        requires kept { IsJournal B.meaning B.making B.collections B.whole B.fits self.old }
        ensures { LeadsBeside B.meaning B.making B.collections B.whole B.fits
            (λ b c. CutAnswers b (λ bs. O.sends out.old bs out.new) (O.was_full out.old out.new)
            result c × Settles B.meaning b c) self.old self.new }
    {
        self.pending.cut(out)
    }

    // The LSN behind the next record.
    pub(crate) fn next_lsn(&self) -> u64
        requires { IsJournal B.meaning B.making B.collections B.whole B.fits self.now }
        ensures { result ≡ journal_lsn self.now + 1 }
    {
        self.lsn() + 1
    }

    // Whether a record more may wait.
    pub(crate) fn check_backlog(&self) -> Result<(), Refusal>
        ensures ok { OnOk result (length self.now.pending < max_pending) }
        ensures err { IfErr result (λ e. (e ≡ Refusal.Backlog) ×
            (max_pending ≤ length self.now.pending)) }
    {
        if self.pending.len() >= MAX_PENDING {
            return Err(Refusal::Backlog);
        }
        Ok(())
    }

    // Whether the transaction is live.
    pub(crate) fn check_live(&self, handle: Handle) -> Result<(), Refusal>
        ensures ok { OnOk result (Lives self.now.transactions.live handle.number) }
        ensures err { IfErr result (λ e. (e ≡ Refusal.NoSuchTxn) ×
            (Lives self.now.transactions.live handle.number → ⊥)) }
    {
        if self.transactions.live().is_live(handle) {
            Ok(())
        } else {
            Err(Refusal::NoSuchTxn)
        }
    }

    // Whether the transaction is live, and nothing of it was undone.
    pub(crate) fn check_running(&self, handle: Handle) -> Result<(), Refusal>
        ensures ok { OnOk result (IsRunning (standing_of self.now).state handle.number) }
        ensures err { IfErr result (RunRefused (standing_of self.now) handle.number) }
    {
        self.check_live(handle)?;
        if self.transactions.live().is_falling(handle) {
            return Err(Refusal::Falling);
        }
        Ok(())
    }

    // Whether the number may begin.
    fn check_enter(&self, number: u64) -> Result<(), Refusal>
        ensures ok { OnOk result (CanEnter (standing_of self.now) number) }
        ensures err { IfErr result (EnterRefused (standing_of self.now) number) }
    {
        if number == 0 || number >= NUMBER_END {
            return Err(Refusal::BadArg);
        }
        let live = self.transactions.live();
        if live.contains(number) {
            return Err(Refusal::AlreadyLive);
        }
        if live.count_live() >= MAX_LIVE {
            return Err(Refusal::TooManyLive);
        }
        if self.transactions.wear() >= NUMBER_END {
            return Err(Refusal::Worn);
        }
        self.check_backlog()
    }
}
