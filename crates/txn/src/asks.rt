// What transactions ask of one shelf, at once and deferred.
ghost use Rattle.std.specs.Prelude.{◌≡◌, ◌↔◌, true, false, Ok, OnOk, OnErr, IfOk, IfErr};
ghost use Rattle.std.specs.Prelude.{IsOkUnless, IsTrue};
ghost use Rattle.calls.specs.Reads.{reads};
ghost use Rattle.calls.specs.Rules.{need_of};
ghost use Rattle.calls.specs.declared.reply.Reply.{Reply};
ghost use Rattle.calls.specs.declared.when.When.{When};
ghost use Rattle.undo_log.specs.Entries.{event_of};
ghost use Rattle.catalog.specs.Fours.{which_of};
ghost use Rattle.undo_log.specs.LeftCalls.{GoesTwice};
ghost use Rattle.steps.specs.Looks.{IsLooked};
ghost use Rattle.steps.specs.Machine.{IsRunning, CanCall, CanDeferCall};
ghost use Rattle.steps.specs.Wholes.{state_on};
ghost use Rattle.txn.specs.declared.actions.Action.{Action};
ghost use Rattle.txn.specs.declared.actions.Target.{Target};
ghost use Rattle.txn.specs.Rows.{later_record, CanGet, IsOpen, OpenRefused};
ghost use Rattle.txn.specs.Shelved.{standing_of, IsOfBook, LeadsOn, Serves};

use crate::Journal;
use calls::limits::{MAX_CALLS, NUMBER_END};
use calls::{Call, Need, Refusal, Reply, When};
use catalog::Parts;
use records::{Coded, LaterRecord, Record, call_len, encoded_len, fits_call, fits_reply};
use steps::{Looked, Shelf};
use undo_log::{Entry, Handle, Later, Logged};

impl<B: Parts + Coded> Journal<B> {
    /// What the transaction asks of the collection of a number, under the need that the call has
    /// with its reply: at once, or deferred to its commit, where it is Done. It is what
    /// `Shelf::look` came to on the shelf of the number, which has not changed since. A call that
    /// only reads is not journalled: no record waits for it, and it does not wear. Its need is held
    /// to the end as that of another. Until the commit a deferred call shows in no reply, not even
    /// to its own transaction.
    ///
    /// NoSuchTxn, Falling, what the look was refused with, Worn, TooManyCalls where the transaction
    /// asked for 1,024, Backlog, NoMemory where the look starved, AlreadyGoing where the
    /// transaction left to its commit already what this call would leave, Busy as the look says,
    /// NoMemory. Each leaves journal and shelf as before.
    pub fn ask(
        &mut self,
        shelf: &mut Shelf<B::Shelf>,
        handle: Handle,
        at: u8,
        call: &Call,
        when: When,
        looked: Looked,
    ) -> Result<Reply, Refusal>
        requires kept { IsOfBook B.meaning B.making B.collections B.whole B.fits (which_of at)
            self.old shelf.old }
        requires looked { IsLooked B.Shelf.meaning when self.old.transactions.format shelf.old
            handle.number at
            call.now looked }
        ensures step { LeadsOn B.meaning B.making B.collections B.whole B.fits
            (Serves B.meaning B.making B.collections
            (Action.Ask handle.number (Target.Number at) call.now when) result) (which_of at)
            self.old
            shelf.old self.new shelf.new }
        ensures deferred { IfOk result (λ reply. when ≡ When.AtCommit → reply ≡ Reply.Done) }
    {
        self.check_running(handle)?;
        match looked {
            Looked::Refused(refusal) => Err(refusal),
            Looked::Starved => {
                self.check_room(handle)?;
                Err(Refusal::NoMemory)
            }
            Looked::Answered { reply, need, clear } => {
                self.check_room(handle)?;
                if self.goes_twice(handle, at, call, when, &reply) {
                    return Err(Refusal::AlreadyGoing);
                }
                clear?;
                self.take(shelf, handle, at, call, when, &reply, need)?;
                Ok(reply)
            }
        }
    }

    // Whether the call, answered so, would leave to the commit what is going already.
    fn goes_twice(&self, handle: Handle, at: u8, call: &Call, when: When, reply: &Reply) -> bool
        ensures { IsTrue result ↔ (when ≡ When.Now) ×
            GoesTwice self.now.transactions.entries handle.number
            (record { at = at; call = call.now; reply = reply.now }) }
    {
        match when {
            When::Now => self.transactions.live().goes_twice(handle, at, call, reply),
            When::AtCommit => false,
        }
    }

    // Takes the call that can get the reply: makes it, or defers it, under its record unless it
    // only reads.
    fn take(
        &mut self,
        shelf: &mut Shelf<B::Shelf>,
        handle: Handle,
        at: u8,
        call: &Call,
        when: When,
        reply: &Reply,
        need: Need,
    ) -> Result<(), Refusal>
        requires kept { IsOfBook B.meaning B.making B.collections B.whole B.fits (which_of at)
            self.old shelf.old }
        requires open { IsOpen (Unit {0}) (standing_of self.old) handle.number }
        requires can { CanGet B.Shelf.meaning when (state_on self.old.transactions shelf.old)
            handle.number
            (record { at = at; call = call.now; reply = reply.now }) }
        requires needed { need ≡ need_of call.now reply.now }
        ensures ok { OnOk result (LeadsOn B.meaning B.making B.collections B.whole B.fits
            (Serves B.meaning B.making B.collections
            (Action.Ask handle.number (Target.Number at) call.now when) (Ok reply.now))
            (which_of at)
            self.old shelf.old self.new shelf.new) }
        ensures same { OnErr result ((self.new ≡ self.old) × (shelf.new ≡ shelf.old)) }
        ensures refusal { IsOkUnless result Refusal.NoMemory }
    {
        match when {
            When::Now => {
                if call.reads(reply) {
                    self.note_read(shelf, handle, at, call, reply, need)
                } else {
                    self.note_call(shelf, handle, at, call, reply, need)
                }
            }
            When::AtCommit => self.defer(shelf, handle, at, call, need),
        }
    }

    // Notes the call, which only reads.
    fn note_read(
        &mut self,
        shelf: &mut Shelf<B::Shelf>,
        handle: Handle,
        at: u8,
        call: &Call,
        reply: &Reply,
        need: Need,
    ) -> Result<(), Refusal>
        requires kept { IsOfBook B.meaning B.making B.collections B.whole B.fits (which_of at)
            self.old shelf.old }
        requires open { IsOpen (Unit {0}) (standing_of self.old) handle.number }
        requires can { CanCall B.Shelf.meaning (state_on self.old.transactions shelf.old)
            handle.number
            (record { at = at; call = call.now; reply = reply.now }) }
        requires needed { need ≡ need_of call.now reply.now }
        requires only_reads { reads call.now reply.now ≡ true }
        ensures ok { OnOk result (LeadsOn B.meaning B.making B.collections B.whole B.fits
            (Serves B.meaning B.making B.collections
            (Action.Ask handle.number (Target.Number at) call.now When.Now) (Ok reply.now))
            (which_of at)
            self.old shelf.old self.new shelf.new) }
        ensures same { OnErr result ((self.new ≡ self.old) × (shelf.new ≡ shelf.old)) }
        ensures refusal { IsOkUnless result Refusal.NoMemory }
    {
        let asked = logged(at, call, reply)?;
        self.transactions.read(shelf, handle, asked, need)
    }

    // Makes the call, which does not only read, under its record, from its parts.
    fn note_call(
        &mut self,
        shelf: &mut Shelf<B::Shelf>,
        handle: Handle,
        at: u8,
        call: &Call,
        reply: &Reply,
        need: Need,
    ) -> Result<(), Refusal>
        requires kept { IsOfBook B.meaning B.making B.collections B.whole B.fits (which_of at)
            self.old shelf.old }
        requires open { IsOpen (Unit {0}) (standing_of self.old) handle.number }
        requires can { CanCall B.Shelf.meaning (state_on self.old.transactions shelf.old)
            handle.number
            (record { at = at; call = call.now; reply = reply.now }) }
        requires needed { need ≡ need_of call.now reply.now }
        requires written { reads call.now reply.now ≡ false }
        ensures ok { OnOk result (LeadsOn B.meaning B.making B.collections B.whole B.fits
            (Serves B.meaning B.making B.collections
            (Action.Ask handle.number (Target.Number at) call.now When.Now) (Ok reply.now))
            (which_of at)
            self.old shelf.old self.new shelf.new) }
        ensures same { OnErr result ((self.new ≡ self.old) × (shelf.new ≡ shelf.old)) }
        ensures refusal { IsOkUnless result Refusal.NoMemory }
    {
        prove!(fits_call(call));
        prove!(fits_reply(reply));
        let lsn = self.next_lsn();
        self.pending.reserve(call_len(call, reply))?;
        let asked = logged(at, call, reply)?;
        let effect = self.gathering.effect_of_call(&asked, lsn)?;
        self.transactions
            .take(shelf, handle, Entry::Asked(asked), need)?;
        self.gathering.note(effect);
        self.pending.push_call(handle.number, at, call, reply);
        Ok(())
    }

    // Defers the call, under its record.
    fn defer(
        &mut self,
        shelf: &mut Shelf<B::Shelf>,
        handle: Handle,
        at: u8,
        call: &Call,
        need: Need,
    ) -> Result<(), Refusal>
        requires kept { IsOfBook B.meaning B.making B.collections B.whole B.fits (which_of at)
            self.old shelf.old }
        requires open { IsOpen (Unit {0}) (standing_of self.old) handle.number }
        requires can { CanDeferCall B.Shelf.meaning (state_on self.old.transactions shelf.old)
            handle.number at
            call.now }
        requires needed { need ≡ need_of call.now Reply.Done }
        ensures ok { OnOk result (LeadsOn B.meaning B.making B.collections B.whole B.fits
            (Serves B.meaning B.making B.collections
            (Action.Ask handle.number (Target.Number at) call.now When.AtCommit) (Ok Reply.Done))
            (which_of at) self.old shelf.old self.new shelf.new) }
        ensures same { OnErr result ((self.new ≡ self.old) × (shelf.new ≡ shelf.old)) }
        ensures refusal { IsOkUnless result Refusal.NoMemory }
    {
        let put = Later {
            at,
            call: call.copy()?,
        };
        let entry = later_record(handle.number, at, call)?;
        self.pending.reserve(encoded_len(&entry))?;
        self.transactions
            .take(shelf, handle, Entry::Deferred(put), need)?;
        self.pending.push(entry);
        Ok(())
    }

    // Whether the running transaction has room for what it can ask.
    fn check_room(&self, handle: Handle) -> Result<(), Refusal>
        requires { IsRunning (standing_of self.now).state handle.number }
        ensures ok { OnOk result (IsOpen (Unit {0}) (standing_of self.now) handle.number) }
        ensures err { IfErr result (OpenRefused (Unit {0}) (standing_of self.now) handle.number) }
    {
        if self.transactions.wear() >= NUMBER_END {
            return Err(Refusal::Worn);
        }
        if self.transactions.live().count(handle) >= MAX_CALLS {
            return Err(Refusal::TooManyCalls);
        }
        self.check_backlog()
    }
}

// The call with its reply once more, for the log.
fn logged(at: u8, call: &Call, reply: &Reply) -> Result<Logged, Refusal>
    ensures ok { IfOk result (λ asked. event_of asked ≡
        record { at = at; call = call.now; reply = reply.now }) }
    ensures refusal { IsOkUnless result Refusal.NoMemory }
{
    Ok(Logged {
        at,
        call: call.copy()?,
        reply: reply.copy()?,
    })
}

// The record of a deferred call.
fn later_record(number: u64, at: u8, call: &Call) -> Result<Record, Refusal>
    ensures ok { IfOk result (λ entry. entry ≡ later_record number at call.now) }
    ensures refusal { IsOkUnless result Refusal.NoMemory }
{
    Ok(Record::Later(LaterRecord {
        number,
        collection: at,
        call: call.copy()?,
    }))
}
