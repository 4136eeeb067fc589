// What a machine keeps beside its collections, and its steps: the same for all collections on one
// shelf and for a quarter of them.
ghost use Rattle.std.specs.Prelude.{◌≡◌, ◌↔◌, ◌+◌, ◌<◌, ◌≤◌, ◌^◌, true, length};
ghost use Rattle.std.specs.Prelude.{IsTrue, IfOk, OnOk, OnErr, IsOkUnless};
ghost use Rattle.calls.specs.Formats.{widest};
ghost use Rattle.calls.specs.Limits.{max_calls, max_wear};
ghost use Rattle.calls.specs.Reads.{reads};
ghost use Rattle.calls.specs.Rules.{need_of};
ghost use Rattle.calls.specs.Transactions.{own};
ghost use Rattle.undo_log.specs.Entries.{entry_of, event_of, need_to_take, HasNoCall};
ghost use Rattle.undo_log.specs.Logs.{Lives};
ghost use Rattle.boosted.specs.Meaning.{HasRoom};
ghost use Rattle.steps.specs.Machine.{CanBegin, BeginRow, FallRow, UnreadRow, HasNewestRead};
ghost use Rattle.steps.specs.Machine.{UndoingTakesMemory};
ghost use Rattle.steps.specs.Machine.{CanCall, ReadRow, CanAccept, AcceptRow, BackRow};
ghost use Rattle.steps.specs.Machines.{HasRoomFor};
ghost use Rattle.steps.specs.Wholes.{state_on};
ghost use Rattle.steps.specs.TransactionTables.{transactions_of, alone, rested, finished, CanUndo};

use crate::Shelf;
use boosted::Boosted;
use calls::limits::{MAX_CALLS, MAX_WEAR};
use calls::{Format, Need, Refusal};
use std::alloc::Global;
use std::marker::Model;
use undo_log::{Entry, Handle, Live, Logged};

/// What a machine keeps beside its collections and the needs on them: the live transactions with
/// what they asked for, the wear, and the format of the store.
///
/// A step on collections takes the shelf that they lie on, of which nothing else is asked.
pub struct TransactionTable {
    live: Live,
    wear: u64,
    format: Format,
}

// Written out, so that the crates above call it in place of proving it again.
impl Drop for TransactionTable {
    fn drop(self) {
        let Self {
            live,
            wear: _wear,
            format: _format,
        } = self;
        drop(live);
    }
}

impl Model for TransactionTable {
    ghost use Rattle.std.specs.FinMap as maps;
    ghost use Rattle.std.specs.Ordering.{nat_cmp};
    ghost use Rattle.std.specs.Coded.{codes, coded_ℕ, coded_bool};
    ghost use Rattle.steps.specs.Wholes.{TransactionsState};
    ghost use Rattle.steps.specs.TransactionTables.{transactions_of};

    ghost Value = { TransactionsState };

    ghost coded = { Prim.hlevel (codes, maps.code {R = nat_cmp} coded_ℕ coded_bool) };

    ghost view = { λ a. transactions_of a.format a.live a.wear };
}

impl TransactionTable {
    /// Of a store of the format, with no live transaction, and so much wear. It takes no memory.
    pub fn new(alloc: Global, format: Format, wear: u64) -> Self
        ensures { result ≡ rested format wear }
    {
        Self {
            live: Live::new(alloc),
            wear,
            format,
        }
    }

    /// Of a store of the format, with these live transactions and so much wear.
    pub fn of_live(format: Format, live: Live, wear: u64) -> Self
        ensures { result ≡ transactions_of format live wear }
    {
        Self { live, wear, format }
    }

    /// The live transactions, and what they asked for and did not undo.
    pub fn live(&self) -> &Live
        ensures live { result.now.live ≡ self.now.live }
        ensures entries { result.now.entries ≡ self.now.entries }
    {
        &self.live
    }

    /// How often anything was entered, called, deferred, run in a commit or undone. What `read`
    /// noted and `unread` undid does not count.
    pub fn wear(&self) -> u64
        ensures { result ≡ self.now.wear }
    {
        self.wear
    }

    /// The format of the store.
    pub fn format(&self) -> Format
        ensures { result ≡ self.now.format }
    {
        self.format
    }

    /// Begins a transaction, and answers its handle.
    ///
    /// NoMemory leaves all as before.
    pub fn begin(&mut self, number: u64) -> Result<Handle, Refusal>
        requires can { CanBegin (alone self.old) number }
        requires room { HasRoomFor (alone self.old) 0 }
        ensures handle { IfOk result (λ handle. handle.number ≡ number) }
        ensures ok { OnOk result (BeginRow (alone self.old) number (alone self.new)) }
        ensures same { OnErr result (self.new ≡ self.old) }
        ensures refusal { IsOkUnless result Refusal.NoMemory }
    {
        let handle = self.live.enter(number)?;
        self.wear += 1;
        Ok(handle)
    }

    /// Takes what the transaction asks for on the shelf, and notes it with the need that it has: a
    /// call, answered so, is made; one that is deferred does nothing yet.
    ///
    /// NoMemory leaves all as before.
    pub fn take<C: Boosted<At = u8>>(
        &mut self,
        shelf: &mut Shelf<C>,
        handle: Handle,
        entry: Entry,
        need: Need,
    ) -> Result<(), Refusal>
        requires can { CanAccept C.meaning (state_on self.old shelf.old) handle.number
            (entry_of entry) }
        requires room { HasRoomFor (state_on self.old shelf.old) 1 }
        requires reach { HasRoom C.meaning shelf.old.now }
        requires need { need ≡ need_to_take (entry_of entry) }
        ensures ok { OnOk result (AcceptRow C.meaning (state_on self.old shelf.old) handle.number
            (entry_of entry) (state_on self.new shelf.new)) }
        ensures same { OnErr result ((self.new ≡ self.old) × (shelf.new ≡ shelf.old)) }
        ensures refusal { IsOkUnless result Refusal.NoMemory }
    {
        self.live.reserve(handle)?;
        shelf.take(handle.number, &entry, need)?;
        self.live.push(handle, entry);
        self.wear += 1;
        Ok(())
    }

    /// Notes a call that only reads on the shelf, answered so, with the need that it has. No record
    /// tells of it, so it does not wear.
    ///
    /// NoMemory leaves all as before.
    pub fn read<C: Boosted<At = u8>>(
        &mut self,
        shelf: &mut Shelf<C>,
        handle: Handle,
        asked: Logged,
        need: Need,
    ) -> Result<(), Refusal>
        requires can { CanCall C.meaning (state_on self.old shelf.old) handle.number
            (event_of asked) }
        requires only_reads { reads asked.call asked.reply ≡ true }
        requires room { HasRoomFor (state_on self.old shelf.old) 1 }
        requires need { need ≡ need_of asked.call asked.reply }
        ensures ok { OnOk result (ReadRow C.meaning (state_on self.old shelf.old) handle.number
            (event_of asked) (state_on self.new shelf.new)) }
        ensures same { OnErr result ((self.new ≡ self.old) × (shelf.new ≡ shelf.old)) }
        ensures refusal { IsOkUnless result Refusal.NoMemory }
    {
        self.live.reserve(handle)?;
        shelf.hold(handle.number, asked.at, need)?;
        self.live.push(handle, Entry::Asked(asked));
        Ok(())
    }

    /// Undoes the newest call of the transaction, which is on the shelf. From then on it is
    /// falling. It holds its needs still.
    ///
    /// NoMemory leaves all as before, and comes only for a call that is not undone in place.
    pub fn back<C: Boosted<At = u8>>(
        &mut self,
        shelf: &mut Shelf<C>,
        handle: Handle,
    ) -> Result<(), Refusal>
        requires live { Lives self.old.live handle.number }
        requires call { HasNoCall handle.number self.old.entries → ⊥ }
        requires undoes { CanUndo C.meaning self.old shelf.old handle.number }
        requires reach { HasRoom C.meaning shelf.old.now }
        requires room { self.old.wear + 1 < 2 ^ 64 }
        ensures ok { OnOk result (BackRow C.meaning (state_on self.old shelf.old) handle.number
            (state_on self.new shelf.new)) }
        ensures same { OnErr result ((self.new ≡ self.old) × (shelf.new ≡ shelf.old)) }
        ensures refusal { IsOkUnless result Refusal.NoMemory }
        ensures in_place { OnErr result (UndoingTakesMemory handle.number self.old.entries) }
    {
        let Some(newest) = self.live.newest(handle) else {
            unreachable!();
        };
        shelf.undo(newest)?;
        let _undone = self.live.pop(handle);
        self.live.fall(handle);
        self.wear += 1;
        Ok(())
    }

    /// Undoes the newest call of the transaction, which only reads. From then on it is falling. It
    /// holds its needs still. It takes no memory and does not wear.
    pub fn unread(&mut self, handle: Handle)
        requires live { Lives self.old.live handle.number }
        requires newest { HasNewestRead handle.number self.old.entries }
        ensures { UnreadRow (alone self.old) handle.number (alone self.new) }
    {
        let _read = self.live.pop(handle);
        self.live.fall(handle);
    }

    /// Makes a transaction falling of which nothing is left to undo. It takes no memory.
    pub fn fall(&mut self, handle: Handle)
        requires live { Lives self.old.live handle.number }
        requires undone { HasNoCall handle.number self.old.entries }
        ensures { FallRow (alone self.old) handle.number (alone self.new) }
    {
        self.live.fall(handle);
    }

    /// Takes a transaction out that was settled on its shelves, where so many calls ran for it, or
    /// that gave up its needs there. It takes no memory.
    pub fn finish(&mut self, number: u64, ran: u64)
        requires { self.old.wear + ran < 2 ^ 64 }
        ensures { self.new ≡ finished number ran self.old }
    {
        self.live.remove(number);
        self.wear += ran;
    }
}

/// Whether the wear has room for so many runs more, and then for the undoing of all entries and of
/// so many more.
pub fn has_room(live: &Live, wear: u64, runs: u64, more: usize) -> bool
    requires { wear + runs + (length live.now.entries + more) < 2 ^ 64 }
    ensures { IsTrue result ↔ (wear + runs + (length live.now.entries + more) ≤ max_wear) }
{
    wear + runs + (live.len() + more) as u64 <= MAX_WEAR
}

/// Whether the transaction is live, and one entry more of it can be noted, behind so many runs
/// more.
pub fn has_place(live: &Live, wear: u64, handle: Handle, runs: u64) -> bool
    requires { wear + runs + (length live.now.entries + 1) < 2 ^ 64 }
    ensures { IsTrue result ↔ (Lives live.now.live handle.number ×
        (length (own handle.number live.now.entries) < max_calls) ×
        (wear + runs + (length live.now.entries + 1) ≤ max_wear)) }
{
    live.is_live(handle) && live.count(handle) < MAX_CALLS && has_room(live, wear, runs, 1)
}
