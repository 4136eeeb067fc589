// A shelf: collections, with the needs that live transactions hold on them. Of each step it does
ghost use Rattle.std.specs.Prelude.{◌≡◌, [], map, length, IfOk, IfErr, OnOk, OnErr, IsOk};
ghost use Rattle.std.specs.Prelude.{IsOkUnless};
ghost use Rattle.std.specs.Borrow.{Lends, sem};
ghost use Rattle.calls.specs.Rules.{Askable, IsUndoneInPlace};
ghost use Rattle.calls.specs.Transactions.{Leads, laters_of};
ghost use Rattle.abstract_locks.specs.Holds.{hold, IsClear, IsBusyRefusal, IsAdded, IsGivenUp};
ghost use Rattle.undo_log.specs.Entries.{entry_of, stamped_entry, place_of, need_to_take};
ghost use Rattle.boosted.specs.Meaning.{CanAsk, AskRefused, Undoes, HasRoom};
ghost use Rattle.steps.specs.Looks.{IsLooked, IsTold, CanTake, TakeRefused};
ghost use Rattle.steps.specs.Shelves.{Does, CanRun, IsAnswered, taken, on_quarter};
ghost use Rattle.steps.specs.contracts.shelf.Shelf.{the_row};

use crate::laters::run_laters;
use crate::looked::Looked;
use abstract_locks::NeedTable;
use boosted::Boosted;
use calls::{Call, Format, Need, Refusal, Reply, When};
use std::alloc::Global;
use std::marker::Model;
use undo_log::{Entry, Logged, Stamped};

/// Collections, with the needs that live transactions hold on them.
///
/// Contracts see what the collections hold now, and the needs.
pub struct Shelf<C: Boosted<At = u8>> {
    collections: C,
    needs: NeedTable,
}

// Written out, so that the crates above call it in place of proving it again.
impl<C: Boosted<At = u8> + Drop> Drop for Shelf<C> {
    fn drop(self) {
        let Self { collections, needs } = self;
        drop(collections);
        drop(needs);
    }
}

impl<C: Boosted<At = u8>> Model for Shelf<C> {
    ghost use Rattle.steps.specs.Shelves.{ShelfState};

    ghost Value = { ShelfState C };

    ghost view = { λ s. record { now = s.collections; holds = s.needs.holds } };
}

impl<C: Boosted<At = u8>> Shelf<C> {
    /// The collections, with no need held on them. It takes no memory.
    pub fn new(alloc: Global, collections: C) -> Self
        ensures now { result.now ≡ collections }
        ensures holds { result.holds ≡ [] }
    {
        Self {
            collections,
            needs: NeedTable::new(alloc),
        }
    }

    /// The collections.
    pub fn collections(&self) -> &C
        ensures { result.now ≡ self.now.now }
    {
        &self.collections
    }

    /// The collections, for what is no call of a transaction: to make or to load one, and to take
    /// an image's calls back. The needs stay.
    pub fn collections_mut(&mut self) -> &mut C
        ensures* lends { sem 𝓛 (Lends (the_row C.row ⟦<C as Boosted>⟧) C.row self.entry result
            (λ w. record self.old { now = w })) }
        ensures now { result.now ≡ self.old.now }
    {
        &mut self.collections
    }

    /// The collections, where the needs are no more needed.
    pub fn into_collections(self) -> C
        ensures { result ≡ self.now }
    {
        let Self { collections, needs } = self;
        drop(needs);
        collections
    }

    /// Whether no other transaction holds a need in the way: Busy with the least that does, and no
    /// other refusal. It costs what `NeedTable::test` does, and takes no memory.
    pub fn test(&self, number: u64, at: u8, need: &Need) -> Result<(), Refusal>
        ensures clear { OnOk result (IsClear self.now.holds number at need.now) }
        ensures busy { IfErr result (IsBusyRefusal self.now.holds number at need.now) }
    {
        self.needs.test(number, at, need)
    }

    /// What it comes to here that the transaction asks for the call, in a store of the format: at
    /// once, or deferred to its commit, where it is Done. It changes nothing, and costs what
    /// `Boosted::askable`, `Boosted::look` and `NeedTable::test` do. Of a deferred call it takes no
    /// memory.
    ///
    /// Refused as `Boosted::askable` says, and then with TooLong for a value that the format does
    /// not have; of a deferred call as `Boosted::deferrable` says. Starved where there is no memory
    /// for the reply.
    pub fn look(&self, format: Format, number: u64, at: u8, call: &Call, when: When) -> Looked
        ensures { IsLooked C.meaning when format self.now number at call.now result }
    {
        let reply = match self.reply(format, at, call, when) {
            Ok(Some(reply)) => reply,
            Ok(None) => return Looked::Starved,
            Err(refusal) => return Looked::Refused(refusal),
        };
        let need = call.need(&reply);
        let clear = self.test(number, at, &need);
        Looked::Answered { reply, need, clear }
    }

    /// Takes what the transaction asks for, and lets it hold the need that this has: a call,
    /// answered so, is made; one that is deferred does nothing yet. The need is free, and there is
    /// room in the wear.
    ///
    /// NoMemory leaves all as before. It costs what `NeedTable::reserve` and `NeedTable::grant` do,
    /// and `Boosted::run` for a call.
    pub fn take(&mut self, number: u64, entry: &Entry, need: Need) -> Result<(), Refusal>
        requires answered { IsAnswered C.meaning self.old.now (entry_of entry.now) }
        requires room { HasRoom C.meaning self.old.now }
        requires need { need ≡ need_to_take (entry_of entry.now) }
        requires clear { IsClear self.old.holds number (place_of (entry_of entry.now)) need }
        ensures taken { OnOk result
            (self.new.now ≡ taken C.meaning self.old.now (entry_of entry.now)) }
        ensures held { OnOk result (IsAdded self.old.holds self.new.holds
            (hold number (place_of (entry_of entry.now)) need)) }
        ensures same { OnErr result (self.new ≡ self.old) }
        ensures refusal { IsOkUnless result Refusal.NoMemory }
    {
        let at = entry.at();
        self.needs.reserve(at)?;
        make_asked(&mut self.collections, entry)?;
        self.needs.grant(number, at, need);
        Ok(())
    }

    /// Lets the transaction hold the need, which is free: that of a call that only reads, or that
    /// the collections show as done.
    ///
    /// NoMemory leaves all as before. It costs what `NeedTable::reserve` and `NeedTable::grant` do.
    pub fn hold(&mut self, number: u64, at: u8, need: Need) -> Result<(), Refusal>
        requires { IsClear self.old.holds number at need }
        ensures held { OnOk result (IsAdded self.old.holds self.new.holds (hold number at need)) }
        ensures now { self.new.now ≡ self.old.now }
        ensures same { OnErr result (self.new ≡ self.old) }
        ensures refusal { IsOkUnless result Refusal.NoMemory }
    {
        let needs = &mut self.needs;
        needs.reserve(at)?;
        needs.grant(number, at, need);
        Ok(())
    }

    /// Takes a call back, which can be. The needs stay.
    ///
    /// NoMemory leaves all as before, and comes only for a call that is not undone in place: its
    /// inverse puts something in, or may be answered a value. It costs what `Boosted::look` and
    /// `Boosted::run` do, and a copy of the value that the call put in or took out.
    pub fn undo(&mut self, newest: &Logged) -> Result<(), Refusal>
        requires askable { Askable newest.now.call }
        requires undoes { (before : C) ×
            Undoes C.meaning self.old.now newest.now.at newest.now.call newest.now.reply before }
        requires room { HasRoom C.meaning self.old.now }
        ensures ok { OnOk result (Undoes C.meaning self.old.now newest.now.at newest.now.call
            newest.now.reply self.new.now) }
        ensures holds { self.new.holds ≡ self.old.holds }
        ensures same { OnErr result (self.new ≡ self.old) }
        ensures refusal { IsOkUnless result Refusal.NoMemory }
        ensures in_place { IsUndoneInPlace newest.now.call newest.now.reply → IsOk result }
    {
        let Some(call) = newest.call.inverse(&newest.reply)? else {
            return Ok(());
        };
        let reply = self.collections.look(newest.at, &call)?;
        self.collections.run(newest.at, &call, &reply)
    }

    /// Runs what these entries of the transaction deferred or left, in the order asked, and gives
    /// its needs up. How many calls ran.
    ///
    /// It takes no memory. It costs what `Boosted::run` does for each, and `NeedTable::give_up`.
    pub fn settle(&mut self, number: u64, entries: &[Stamped]) -> u64
        requires { CanRun C.meaning (laters_of (map stamped_entry entries.now)) self.old.now }
        ensures runs { Leads (Does C.meaning) (laters_of (map stamped_entry entries.now))
            self.old.now self.new.now }
        ensures count { result ≡ length (laters_of (map stamped_entry entries.now)) }
        ensures holds { IsGivenUp self.old.holds self.new.holds number }
    {
        let ran = run_laters(&mut self.collections, entries, None);
        self.give_up(number);
        ran
    }

    /// The same of those entries alone whose collection's number leaves `quarter` on division by 4.
    pub fn settle_quarter(&mut self, number: u64, entries: &[Stamped], quarter: u8) -> u64
        requires { CanRun C.meaning (on_quarter quarter (laters_of (map stamped_entry entries.now)))
            self.old.now }
        ensures runs { Leads (Does C.meaning)
            (on_quarter quarter (laters_of (map stamped_entry entries.now))) self.old.now
            self.new.now }
        ensures count { result ≡
            length (on_quarter quarter (laters_of (map stamped_entry entries.now))) }
        ensures holds { IsGivenUp self.old.holds self.new.holds number }
    {
        let ran = run_laters(&mut self.collections, entries, Some(quarter));
        self.give_up(number);
        ran
    }

    /// Gives the needs of the transaction up. It costs what `NeedTable::give_up` does, and takes no
    /// memory.
    pub fn give_up(&mut self, number: u64)
        ensures holds { IsGivenUp self.old.holds self.new.holds number }
        ensures now { self.new.now ≡ self.old.now }
    {
        self.needs.give_up(number);
    }

    // The reply to the call, if a client can ask for it so. None where there is no memory for it.
    fn reply(
        &self,
        format: Format,
        at: u8,
        call: &Call,
        when: When,
    ) -> Result<Option<Reply>, Refusal>
        ensures ok { IfOk result (IsTold C.meaning when format self.now.now at call.now) }
        ensures err { IfErr result (TakeRefused C.meaning when format self.now.now at call.now) }
    {
        match when {
            When::Now => {
                self.check(format, at, call)?;
                Ok(self.collections.look(at, call).ok())
            }
            When::AtCommit => {
                self.collections.deferrable(at, call)?;
                Ok(Some(Reply::Done))
            }
        }
    }

    // Whether a client can ask for the call, in a store of the format.
    fn check(&self, format: Format, at: u8, call: &Call) -> Result<(), Refusal>
        ensures ok { OnOk result (CanAsk C.meaning format self.now.now at call.now) }
        ensures err { IfErr result (AskRefused C.meaning format self.now.now at call.now) }
    {
        self.collections.askable(at, call)?;
        if !call.is_short(format) {
            return Err(Refusal::TooLong);
        }
        Ok(())
    }
}

// Makes the call that was asked for; one that is deferred does nothing yet. NoMemory leaves all as
// before.
fn make_asked<C: Boosted<At = u8>>(collections: &mut C, entry: &Entry) -> Result<(), Refusal>
    requires answered { IsAnswered C.meaning collections.old (entry_of entry.now) }
    requires room { HasRoom C.meaning collections.old }
    ensures taken { OnOk result
        (collections.new ≡ taken C.meaning collections.old (entry_of entry.now)) }
    ensures same { OnErr result (collections.new ≡ collections.old) }
    ensures refusal { IsOkUnless result Refusal.NoMemory }
{
    match entry {
        Entry::Asked(asked) => collections.run(asked.at, &asked.call, &asked.reply),
        Entry::Deferred(_) => Ok(()),
    }
}
