// Ends of transactions: undoing, commits, and what is done with.
ghost use Rattle.std.specs.Prelude.{◌≡◌, ◌+◌, ◌<◌, ◌^◌, ◌∷◌, [], map, length, IfOk, IfErr, IfSome};
ghost use Rattle.std.specs.Prelude.{IfNone, OnOk, OnErr, IsOkUnless, IsTrue, ◌↔◌, Ok, true};
ghost use Rattle.std.specs.Prelude.{◌≢◌, ◌%◌, false};
ghost use Rattle.std.specs.List.{AllByRecursion};
ghost use Rattle.calls.specs.Limits.{max_pending};
ghost use Rattle.calls.specs.Transactions.{own, laters_of};
ghost use Rattle.undo_log.specs.Entries.{stamped_entry, HasNoCall};
ghost use Rattle.undo_log.specs.Logs.{Lives};
ghost use Rattle.catalog.specs.Fours.{Which, which_of, pick};
ghost use Rattle.records.specs.declared.record.Record.{Record};
ghost use Rattle.steps.specs.Machine.{IsRunning, HasNewestRead};
ghost use Rattle.undo_log.specs.Entries.{place_of};
ghost use Rattle.steps.specs.TransactionTables.{finished};
ghost use Rattle.images.specs.Gatherings.{noted, effect_at};
ghost use Rattle.txn.specs.declared.actions.Action.{Action};
ghost use Rattle.txn.specs.Rows.{CommitRefused, EndedRefused};
ghost use Rattle.txn.specs.Shelved.{standing_of, journal_lsn, IsJournal, IsOfBook, LeadsOn};
ghost use Rattle.txn.specs.Shelved.{LeadsBeside, Serves, Writes, HasNewestAt, IsUntouched};

use crate::Journal;
use crate::journal::MARK_LEN;
use calls::Refusal;
use catalog::{Four, Parts};
use records::{Coded, Record};
use steps::Shelf;
use undo_log::{Handle, Stamped};

impl<B: Parts + Coded> Journal<B> {
    /// The number of the collection of the transaction's newest call that is not undone, if there
    /// is one. This is no step.
    pub fn newest(&self, handle: Handle) -> Option<u8>
        ensures some { IfSome result (HasNewestAt handle.number self.now.transactions.entries) }
        ensures none { IfNone result (HasNoCall handle.number self.now.transactions.entries) }
    {
        match self.transactions.live().newest(handle) {
            Some(newest) => Some(newest.at),
            None => None,
        }
    }

    /// Undoes the newest call of the transaction that is not undone, which is on this shelf, and
    /// answers true. From then on the transaction is falling. It holds its needs until it ends. No
    /// record tells of the undoing of a call that only read, and it does not wear.
    ///
    /// NoSuchTxn, Backlog, NoMemory. Each leaves journal and shelf as before.
    pub fn back(
        &mut self,
        shelf: &mut Shelf<B::Shelf>,
        handle: Handle,
        at: u8,
    ) -> Result<bool, Refusal>
        requires kept { IsOfBook B.meaning B.making B.collections B.whole B.fits (which_of at)
            self.old shelf.old }
        requires newest { HasNewestAt handle.number self.old.transactions.entries at }
        ensures { LeadsOn B.meaning B.making B.collections B.whole B.fits
            (Serves B.meaning B.making B.collections (Action.Back handle.number) result)
            (which_of at)
            self.old shelf.old self.new shelf.new }
    {
        self.check_live(handle)?;
        self.check_backlog()?;
        if self.newest_reads(handle) {
            self.transactions.unread(handle);
            return Ok(true);
        }
        self.write_back(shelf, handle, at)?;
        Ok(true)
    }

    /// Answers the undoing of a transaction of which no call is left: false, and it is falling from
    /// then on.
    ///
    /// NoSuchTxn, Backlog. Each leaves the journal as before.
    pub fn back_none(&mut self, handle: Handle) -> Result<bool, Refusal>
        requires kept { IsJournal B.meaning B.making B.collections B.whole B.fits self.old }
        requires none { HasNoCall handle.number self.old.transactions.entries }
        ensures { LeadsBeside B.meaning B.making B.collections B.whole B.fits
            (Serves B.meaning B.making B.collections (Action.Back handle.number) result) self.old
            self.new }
    {
        self.check_live(handle)?;
        self.check_backlog()?;
        self.transactions.fall(handle);
        Ok(false)
    }

    /// The first part of a commit, and the one that can be refused: the record waits, what the
    /// commit runs is noted, and the answer is the count of commits and makes since the book was
    /// opened, this one included. The transaction's shelves are settled next, and then it is
    /// finished.
    ///
    /// NoSuchTxn, Falling, Backlog, NoMemory. Each leaves the journal as before.
    pub fn prepare_commit(&mut self, handle: Handle) -> Result<u64, Refusal>
        requires kept { IsJournal B.meaning B.making B.collections B.whole B.fits self.old }
        ensures running { OnOk result (IsRunning (standing_of self.old).state handle.number) }
        ensures written { OnOk result (Writes self.old (Record.Commit handle.number) self.new) }
        ensures place { IfOk result (λ place. place ≡ self.new.places) }
        ensures transactions { OnOk result (self.new.transactions ≡ self.old.transactions) }
        ensures names { OnOk result (self.new.names ≡ self.old.names) }
        ensures noted { OnOk result (self.new.gathering ≡ noted self.old.gathering
            (map (effect_at (journal_lsn self.old + 1))
            (laters_of (own handle.number self.old.transactions.entries)))) }
        ensures same { OnErr result (self.new ≡ self.old) }
        ensures err { IfErr result (CommitRefused (standing_of self.old) handle.number) }
    {
        self.check_running(handle)?;
        self.check_backlog()?;
        let lsn = self.next_lsn();
        self.pending.reserve(MARK_LEN)?;
        let entries = self.transactions.live().entries_of(handle);
        let effects = self.gathering.effects_of_commit(entries, lsn)?;
        self.gathering.note_all(effects);
        self.pending.push(Record::Commit(handle.number));
        self.places += 1;
        Ok(self.places)
    }

    /// The first part of an end, and the one that can be refused: the record waits. The
    /// transaction's needs are given up next, and then it is finished.
    ///
    /// NoSuchTxn, Unfinished where a call is not undone, Backlog, NoMemory. Each leaves the journal
    /// as before.
    pub fn prepare_end(&mut self, handle: Handle) -> Result<(), Refusal>
        requires kept { IsJournal B.meaning B.making B.collections B.whole B.fits self.old }
        ensures live { OnOk result (Lives self.old.transactions.live handle.number) }
        ensures undone { OnOk result (HasNoCall handle.number self.old.transactions.entries) }
        ensures written { OnOk result (Writes self.old (Record.Ended handle.number) self.new) }
        ensures transactions { OnOk result (self.new.transactions ≡ self.old.transactions) }
        ensures names { OnOk result (self.new.names ≡ self.old.names) }
        ensures noted { OnOk result (self.new.gathering ≡ self.old.gathering) }
        ensures same { OnErr result (self.new ≡ self.old) }
        ensures err { IfErr result (EndedRefused (standing_of self.old) handle.number) }
    {
        self.check_live(handle)?;
        if self.newest(handle).is_some() {
            return Err(Refusal::Unfinished);
        }
        self.check_backlog()?;
        self.pending.reserve(MARK_LEN)?;
        self.pending.push(Record::Ended(handle.number));
        Ok(())
    }

    /// What the transaction asked for and did not undo, in the order asked. This is no step.
    pub fn entries_of(&self, handle: Handle) -> &[Stamped]
        ensures { map stamped_entry result.now ≡ own handle.number self.now.transactions.entries }
    {
        self.transactions.live().entries_of(handle)
    }

    /// Of each shelf, whether the transaction asked for something there and did not undo it. It
    /// looks at what the transaction asked for, and takes no memory. This is no step.
    pub fn shelves_of(&self, handle: Handle) -> Four<bool>
        ensures { (w : Which) → (pick result w ≡ false) ↔
            IsUntouched w handle.number self.now.transactions.entries }
    {
        let entries = self.entries_of(handle);
        Four {
            first: has_entry(entries, 0),
            second: has_entry(entries, 1),
            third: has_entry(entries, 2),
            fourth: has_entry(entries, 3),
        }
    }

    /// The last part of a commit or an end: the transaction is taken out, for which so many calls
    /// ran on its shelves. It takes no memory.
    pub fn finish(&mut self, number: u64, ran: u64)
        requires { self.old.transactions.wear + ran < 2 ^ 64 }
        ensures { self.new ≡ record self.old {
          transactions = finished number ran self.old.transactions;
        } }
    {
        self.transactions.finish(number, ran);
    }

    // Undoes the newest call, which does not only read, under its record.
    fn write_back(
        &mut self,
        shelf: &mut Shelf<B::Shelf>,
        handle: Handle,
        at: u8,
    ) -> Result<(), Refusal>
        requires kept { IsOfBook B.meaning B.making B.collections B.whole B.fits (which_of at)
            self.old shelf.old }
        requires live { Lives self.old.transactions.live handle.number }
        requires newest { HasNewestAt handle.number self.old.transactions.entries at }
        requires written { HasNewestRead handle.number self.old.transactions.entries → ⊥ }
        requires room { length self.old.pending < max_pending }
        ensures ok { OnOk result (LeadsOn B.meaning B.making B.collections B.whole B.fits
            (Serves B.meaning B.making B.collections (Action.Back handle.number) (Ok true))
            (which_of at)
            self.old shelf.old self.new shelf.new) }
        ensures same { OnErr result ((self.new ≡ self.old) × (shelf.new ≡ shelf.old)) }
        ensures refusal { IsOkUnless result Refusal.NoMemory }
    {
        let lsn = self.next_lsn();
        self.pending.reserve(MARK_LEN)?;
        let Some(newest) = self.transactions.live().newest(handle) else {
            unreachable!();
        };
        let effect = self
            .gathering
            .effect_of_undoing(shelf.collections(), newest, lsn)?;
        self.transactions.back(shelf, handle)?;
        self.gathering.note(effect);
        self.pending.push(Record::Back(handle.number));
        Ok(())
    }

    // Whether the newest call of the transaction is there and only reads.
    fn newest_reads(&self, handle: Handle) -> bool
        ensures { IsTrue result ↔ HasNewestRead handle.number self.now.transactions.entries }
    {
        match self.transactions.live().newest(handle) {
            Some(newest) => newest.call.reads(&newest.reply),
            None => false,
        }
    }
}

// Whether one of the entries is of a collection whose number leaves the quarter on division by 4.
fn has_entry(entries: &[Stamped], quarter: u8) -> bool
    ensures { (result ≡ false) ↔
        AllByRecursion (λ s. place_of (stamped_entry s) % 4 ≢ quarter) entries.now }
{
    !entries.iter().all(|stamped| is_elsewhere(stamped, quarter))
}

// Whether the entry is of a collection whose number does not.
fn is_elsewhere(stamped: &Stamped, quarter: u8) -> bool
    ensures { IsTrue result ↔ (place_of (stamped_entry stamped.now) % 4 ≢ quarter) }
{
    stamped.entry.at() % 4 != quarter
}
