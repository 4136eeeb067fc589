// The machine over records: the same steps as the book's, of records that stand already.
ghost use Rattle.std.specs.Prelude.{◌≡◌, ◌↔◌, ℕ, ◌+◌, ◌<◌, ◌≤◌, true, false, None, List};
ghost use Rattle.std.specs.Prelude.{IsTrue, IsOk};
ghost use Rattle.std.specs.Prelude.{IfSome, IfNone, IfErr, Ok, OnOk, OnErr, IsOkUnless, length};
ghost use Rattle.std.specs.FinMap as maps;
ghost use Rattle.calls.specs.Names.{IsName};
ghost use Rattle.calls.specs.Transactions.{Leads, Serial, committed, own};
ghost use Rattle.undo_log.specs.Entries as logs;
ghost use Rattle.undo_log.specs.Entries.{HasNoCall};
ghost use Rattle.catalog.specs.Making as naming;
ghost use Rattle.undo_log.specs.Logs.{Lives, IsLeastLive};
ghost use Rattle.boosted.specs.Meaning.{CanAsk, AskRefused};
ghost use Rattle.calls.specs.declared.reply.Reply.{Reply};
ghost use Rattle.abstract_locks.specs.Holds.{IsClear, IsBusyRefusal};
ghost use Rattle.records.specs.declared.record.Record.{Record};
ghost use Rattle.records.specs.Acts.{acts_of, event_of};
ghost use Rattle.records.specs.Records.{IsRecord, IsNumber};
ghost use Rattle.records.specs.Short.{AreShort, IsShortReply};
ghost use Rattle.calls.specs.declared.format.Format.{Format};
ghost use Rattle.calls.specs.Formats.{widest};
ghost use Rattle.steps.specs.Machine.{IsRunning, CanBegin, BeginRow, CommitRow, EndedRow};
ghost use Rattle.steps.specs.Machine.{FallRow, MakeRow, CanCall, CanDeferCall, CanAccept};
ghost use Rattle.steps.specs.Machine.{AcceptRow};
ghost use Rattle.steps.specs.Machine.{BackRow, ReadRow, UnreadRow, HasNewestRead, Steps};
ghost use Rattle.steps.specs.Machine.{UndoingTakesMemory};
ghost use Rattle.undo_log.specs.LeftCalls.{GoesTwice};
ghost use Rattle.steps.specs.Machines.{resting, unmade, HasRoomFor, IsUpheld, StepAnswers};
ghost use Rattle.steps.specs.Machines.{RepeatAnswers};
ghost use Rattle.steps.specs.Sound.{IsSound};
ghost use Rattle.steps.specs.Wholes.{state_on};
ghost use Rattle.calls.specs.Rules.{need_of};
ghost use Rattle.calls.specs.Reads.{reads};
ghost use Rattle.calls.specs.Limits.{max_collections, max_calls, max_wear};

use calls::limits::MAX_LIVE;
use calls::{Call, Format, Kind, Name, Need, Refusal, Reply};
use catalog::Parts;
use records::{CallRecord, Coded, LaterRecord, Record, is_short_reply};
use std::alloc::Global;
use std::marker::Model;
use steps::{Shelf, TransactionTable, has_place, has_room};
use undo_log::{Entry, Handle, Later, Live, Logged};

/// The collections with the live transactions on them: the state that records lead to, one step a
/// record.
///
/// Contracts see what the collections hold now, the live transactions with what they asked for and
/// did not undo, the needs that they hold, and the wear.
pub struct Machine<B: Parts + Coded> {
    // all of the collections
    shelf: Shelf<B>,
    transactions: TransactionTable,
}

// Written out, so that the crates above call it in place of proving it again.
impl<B: Parts + Coded + Drop> Drop for Machine<B> {
    fn drop(self) {
        let Self {
            shelf,
            transactions,
        } = self;
        drop(shelf);
        drop(transactions);
    }
}

impl<B: Parts + Coded> Model for Machine<B> {
    ghost use Rattle.steps.specs.Machine.{State};
    ghost use Rattle.steps.specs.Machines.{IsUpheld};
    ghost use Rattle.steps.specs.Sound.{IsSound};
    ghost use Rattle.steps.specs.Wholes.{state_on};
    ghost use Rattle.records.specs.Short.{AreShort};
    ghost use Rattle.std.specs.FinMap as maps;
    ghost use Rattle.std.specs.Ordering.{nat_cmp};
    ghost use Rattle.std.specs.Coded.{codes, coded_ℕ, coded_bool};

    ghost Value = { State B };

    ghost coded = { Prim.hlevel (codes, maps.code {R = nat_cmp} coded_ℕ coded_bool) };

    ghost view = { λ m. state_on m.transactions m.shelf };

    ghost invariant = { λ m. IsUpheld B.meaning B.making (λ f s. AreShort f (B.collections s))
        (IsSound B.meaning B.making) (state_on m.transactions m.shelf) };
}

impl<B: Parts + Coded> Machine<B> {
    /// The collections of a store of the format, with no live transaction. `wear` is what they are
    /// within. It takes no memory.
    pub fn new(alloc: Global, format: Format, parts: B, wear: u64) -> Self
        requires within { B.meaning.within parts wear }
        requires worn { wear ≤ max_wear }
        requires short { AreShort format (B.collections parts) }
        requires few { length (B.making.names parts) ≤ max_collections }
        ensures { result ≡ resting format parts wear }
    {
        Self {
            shelf: Shelf::new(alloc, parts),
            transactions: TransactionTable::new(alloc, format, wear),
        }
    }

    /// The collections.
    pub fn parts(&self) -> &B
        ensures { result.now ≡ self.now.now }
    {
        self.shelf.collections()
    }

    /// The format of the store.
    pub fn format(&self) -> Format
        ensures { result ≡ self.now.format }
    {
        self.transactions.format()
    }

    /// Whether a client can ask for the call.
    ///
    /// The refusals of `Boosted::askable`, in its order, and then TooLong for a value that the
    /// format of the store does not have. It takes no memory.
    pub fn askable(&self, at: u8, call: &Call) -> Result<(), Refusal>
        ensures ok { IsOk result ↔ CanAsk B.meaning self.now.format self.now.now at call.now }
        ensures err { IfErr result (AskRefused B.meaning self.now.format self.now.now at call.now) }
    {
        self.parts().askable(at, call)?;
        if !call.is_short(self.format()) {
            return Err(Refusal::TooLong);
        }
        Ok(())
    }

    /// How often anything was entered, called, deferred, run in a commit or undone. What `read`
    /// noted and `unread` undid does not count.
    pub fn wear(&self) -> u64
        ensures { result ≡ self.now.wear }
    {
        self.transactions.wear()
    }

    /// What holds of every machine: the limits, that each call may still be undone, and what the
    /// laws of the collections give. It does nothing.
    pub fn upheld(&self)
        ensures { IsUpheld B.meaning B.making (λ f s. AreShort f (B.collections s))
            (IsSound B.meaning B.making) self.now }
    {
        let _ = &self.transactions;
    }

    /// How many transactions are live.
    pub fn count_live(&self) -> usize
        ensures { result ≡ maps.len self.now.live }
    {
        self.live().count_live()
    }

    /// The least number that is live.
    pub fn least(&self) -> Option<u64>
        ensures found { IfSome result (IsLeastLive self.now.live) }
        ensures none { IfNone result (self.now.live ≡ maps.empty) }
    {
        self.live().least()
    }

    /// Whether a call of the transaction is not undone.
    pub fn has_call(&self, number: u64) -> bool
        ensures some { IsTrue result ↔ (HasNoCall number self.now.entries → ⊥) }
        ensures none { result ≡ false → HasNoCall number self.now.entries }
    {
        let live = self.live();
        let slot = live.slot(number);
        live.newest(Handle { number, slot }).is_some()
    }

    /// Takes the record's step, where it is one from here, and answers true; false, with nothing
    /// changed, where it is none.
    ///
    /// NoMemory leaves all as before.
    pub fn repeat(&mut self, entry: Record) -> Result<bool, Refusal>
        requires { IsRecord None entry }
        ensures { RepeatAnswers (Steps B.meaning B.making) self.old entry result self.new }
    {
        self.upheld();
        self.step(entry)
    }

    /// Undoes the newest call of the transaction. From then on it is falling. It holds its needs
    /// until `ended`.
    ///
    /// NoMemory leaves all as before, and comes only for a call that is not undone in place.
    pub fn back(&mut self, number: u64) -> Result<(), Refusal>
        requires live { Lives self.old.live number }
        requires call { HasNoCall number self.old.entries → ⊥ }
        ensures ok { OnOk result (BackRow B.meaning self.old number self.new) }
        ensures err { OnErr result (self.new ≡ self.old) }
        ensures refusal { IsOkUnless result Refusal.NoMemory }
        ensures in_place { OnErr result (UndoingTakesMemory number self.old.entries) }
    {
        let slot = self.transactions.live().slot(number);
        self.transactions
            .back(&mut self.shelf, Handle { number, slot })
    }

    /// Ends a transaction whose calls are all undone: its needs go. It takes no memory.
    pub fn ended(&mut self, number: u64)
        requires live { Lives self.old.live number }
        requires undone { HasNoCall number self.old.entries }
        ensures { EndedRow self.old number self.new }
    {
        self.shelf.give_up(number);
        self.transactions.finish(number, 0);
    }

    /// The collections, where the machine is no more needed.
    pub fn into_parts(self) -> B
        ensures parts { result ≡ self.now }
        ensures within { B.meaning.within result self.wear }
        ensures worn { self.wear ≤ max_wear }
        ensures short { AreShort self.format (B.collections result) }
        ensures few { length (B.making.names result) ≤ max_collections }
        ensures history { (format : Format) (start : B) (wear : ℕ) (rs : List Record) →
            Leads (Steps B.meaning B.making) rs (resting format start wear) self →
            self.live ≡ maps.empty → Serial (committed (acts_of rs)) (B.collections start)
            (B.collections result) }
    {
        let Self {
            shelf,
            transactions,
        } = self;
        drop(transactions);
        shelf.into_collections()
    }

    /// The machine of its parts, for which holds what holds of every machine.
    pub fn of_parts(shelf: Shelf<B>, transactions: TransactionTable) -> Self
        requires { IsUpheld B.meaning B.making (λ f s. AreShort f (B.collections s))
            (IsSound B.meaning B.making) (state_on transactions shelf) }
        ensures { result ≡ state_on transactions shelf }
    {
        Self {
            shelf,
            transactions,
        }
    }

    /// Makes an empty collection at the end.
    ///
    /// The refusals of `Parts::make`, in its order: BadName, TooLong, NameTaken,
    /// TooManyCollections, NoMemory. Each leaves all as before.
    pub fn make(&mut self, name: &str, kind: Kind) -> Result<(), Refusal>
        ensures ok { OnOk result (MakeRow B.making self.old name.now kind self.new) }
        ensures same { OnErr result (self.new ≡ self.old) }
        ensures err { IfErr result (naming.MakeRefused (B.making.names self.old.now) name.now) }
    {
        let at = self.shelf.collections_mut().make(name, kind)?;
        prove!(at <= u8::MAX);
        Ok(())
    }

    /// Begins a transaction.
    ///
    /// NoMemory leaves all as before.
    pub fn begin(&mut self, number: u64) -> Result<(), Refusal>
        requires can { CanBegin self.old number }
        requires room { HasRoomFor self.old 0 }
        ensures ok { OnOk result (BeginRow self.old number self.new) }
        ensures same { OnErr result (self.new ≡ self.old) }
        ensures refusal { IsOkUnless result Refusal.NoMemory }
    {
        self.transactions.begin(number)?;
        Ok(())
    }

    /// Takes what the transaction asks for, and notes it with the need that it has: a call,
    /// answered so, is made; one that is deferred does nothing yet.
    ///
    /// NoMemory leaves all as before.
    pub fn take(&mut self, number: u64, entry: Entry) -> Result<(), Refusal>
        requires can { CanAccept B.meaning self.old number (logs.entry_of entry) }
        requires room { HasRoomFor self.old 1 }
        ensures ok { OnOk result (AcceptRow B.meaning self.old number (logs.entry_of entry)
            self.new) }
        ensures same { OnErr result (self.new ≡ self.old) }
        ensures refusal { IsOkUnless result Refusal.NoMemory }
    {
        let need = entry.need();
        let slot = self.transactions.live().slot(number);
        let handle = Handle { number, slot };
        self.transactions.take(&mut self.shelf, handle, entry, need)
    }

    /// Commits a transaction: what it deferred, and what its calls left, runs in the order asked.
    /// All that it asked for stays done, and its needs go. It takes no memory.
    pub fn commit(&mut self, number: u64)
        requires { IsRunning self.old number }
        ensures { CommitRow B.meaning self.old number self.new }
    {
        let live = self.transactions.live();
        let slot = live.slot(number);
        let entries = live.entries_of(Handle { number, slot });
        let ran = self.shelf.settle(number, entries);
        self.transactions.finish(number, ran);
    }

    /// The live transactions, and what they asked for and did not undo.
    pub fn live(&self) -> &Live
        ensures live { result.now.live ≡ self.now.live }
        ensures entries { result.now.entries ≡ self.now.entries }
    {
        self.transactions.live()
    }

    /// Whether the transaction is live.
    pub fn is_live(&self, number: u64) -> bool
        ensures { IsTrue result ↔ Lives self.now.live number }
    {
        self.live().contains(number)
    }

    /// Whether the transaction is live, and nothing of it was undone.
    pub fn is_running(&self, number: u64) -> bool
        ensures { IsTrue result ↔ IsRunning self.now number }
    {
        let live = self.live();
        let slot = live.slot(number);
        let handle = Handle { number, slot };
        live.is_live(handle) && !live.is_falling(handle)
    }

    // The record's step, from this very state.
    fn step(&mut self, entry: Record) -> Result<bool, Refusal>
        requires { IsRecord None entry }
        ensures { StepAnswers (Steps B.meaning B.making) self.old entry result self.new }
    {
        match entry {
            Record::Make(kind, name) => self.repeat_make(kind, &name),
            Record::Begin(number) => self.repeat_begin(number),
            Record::Call(called) => self.repeat_call(called),
            Record::Later(later) => self.repeat_later(later),
            Record::Commit(number) => Ok(self.repeat_commit(number)),
            Record::Back(number) => self.repeat_back(number),
            Record::Ended(number) => Ok(self.repeat_ended(number)),
            _ => Ok(false),
        }
    }

    fn repeat_make(&mut self, kind: Kind, name: &Name) -> Result<bool, Refusal>
        requires { IsName name.now }
        ensures { StepAnswers (Steps B.meaning B.making) self.old (Record.Make kind name.now) result
            self.new }
    {
        match self.make(name.as_str(), kind) {
            Ok(()) => Ok(true),
            Err(refusal) => unmade(refusal),
        }
    }

    fn repeat_begin(&mut self, number: u64) -> Result<bool, Refusal>
        requires { IsNumber number }
        ensures { StepAnswers (Steps B.meaning B.making) self.old (Record.Begin number) result
            self.new }
    {
        if !self.can_begin(number) {
            return Ok(false);
        }
        self.begin(number)?;
        Ok(true)
    }

    fn repeat_call(&mut self, called: CallRecord) -> Result<bool, Refusal>
        requires { IsRecord None (Record.Call called) }
        ensures { StepAnswers (Steps B.meaning B.making) self.old (Record.Call called) result
            self.new }
    {
        if !self.can_call(&called) {
            return Ok(false);
        }
        let CallRecord {
            number,
            collection,
            call,
            reply,
            ..
        } = called;
        let asked = Logged {
            at: collection,
            call,
            reply,
        };
        self.take(number, Entry::Asked(asked))?;
        Ok(true)
    }

    fn repeat_later(&mut self, later: LaterRecord) -> Result<bool, Refusal>
        ensures { StepAnswers (Steps B.meaning B.making) self.old (Record.Later later) result
            self.new }
    {
        if !self.can_defer(&later) {
            return Ok(false);
        }
        let LaterRecord {
            number,
            collection,
            call,
        } = later;
        let put = Later {
            at: collection,
            call,
        };
        self.take(number, Entry::Deferred(put))?;
        Ok(true)
    }

    fn repeat_commit(&mut self, number: u64) -> bool
        ensures { StepAnswers (Steps B.meaning B.making) self.old (Record.Commit number) (Ok result)
            self.new }
    {
        if !self.is_running(number) {
            return false;
        }
        self.commit(number);
        true
    }

    fn repeat_back(&mut self, number: u64) -> Result<bool, Refusal>
        ensures { StepAnswers (Steps B.meaning B.making) self.old (Record.Back number) result
            self.new }
    {
        if !self.is_live(number) || !self.has_call(number) {
            return Ok(false);
        }
        self.back(number)?;
        Ok(true)
    }

    fn repeat_ended(&mut self, number: u64) -> bool
        ensures { StepAnswers (Steps B.meaning B.making) self.old (Record.Ended number) (Ok result)
            self.new }
    {
        if !self.is_live(number) || self.has_call(number) {
            return false;
        }
        self.ended(number);
        true
    }

    // Whether the number may begin.
    fn can_begin(&self, number: u64) -> bool
        requires { IsNumber number }
        ensures { IsTrue result ↔ (CanBegin self.now number × HasRoomFor self.now 0) }
    {
        !self.is_live(number)
            && self.count_live() < MAX_LIVE
            && has_room(self.transactions.live(), self.transactions.wear(), 1, 0)
    }

    // Whether the transaction can make the call and get the reply.
    fn can_call(&self, called: &CallRecord) -> bool
        ensures { IsTrue result ↔ (CanCall B.meaning self.now called.now.number
            (event_of called.now) × HasRoomFor self.now 1) }
    {
        self.can_ask(called) && self.is_answered(called)
    }

    // Whether the transaction can ask for the call.
    fn can_ask(&self, called: &CallRecord) -> bool
        ensures { IsTrue result ↔ (IsRunning self.now called.now.number ×
            CanAsk B.meaning self.now.format self.now.now called.now.collection called.now.call ×
            (length (own called.now.number self.now.entries) < max_calls) × HasRoomFor self.now 1) }
    {
        self.has_place(called.number) && self.askable(called.collection, &called.call).is_ok()
    }

    // Whether one call more of the transaction can be noted.
    fn has_place(&self, number: u64) -> bool
        ensures { IsTrue result ↔ (IsRunning self.now number ×
            (length (own number self.now.entries) < max_calls) × HasRoomFor self.now 1) }
    {
        let live = self.transactions.live();
        let slot = live.slot(number);
        let handle = Handle { number, slot };
        has_place(live, self.transactions.wear(), handle, 1) && !live.is_falling(handle)
    }

    // Whether the call can get the reply, which has no value too long for the format, leaves
    // nothing that is going already, and has no other transaction in the way.
    fn is_answered(&self, called: &CallRecord) -> bool
        ensures { IsTrue result ↔ (B.meaning.answers self.now.now called.now.collection
            called.now.call called.now.reply ×
            IsShortReply self.now.format called.now.reply ×
            (GoesTwice self.now.entries called.now.number (event_of called.now) → ⊥) ×
            IsClear self.now.holds called.now.number called.now.collection
            (need_of called.now.call called.now.reply)) }
    {
        self.parts()
            .fits(called.collection, &called.call, &called.reply)
            && is_short_reply(self.format(), &called.reply)
            && self.is_apart(called)
    }

    // Whether the call leaves nothing that is going already, and has no other transaction in the
    // way.
    fn is_apart(&self, called: &CallRecord) -> bool
        ensures { IsTrue result ↔ ((GoesTwice self.now.entries called.now.number
            (event_of called.now) → ⊥) ×
            IsClear self.now.holds called.now.number called.now.collection
            (need_of called.now.call called.now.reply)) }
    {
        let live = self.live();
        let number = called.number;
        let slot = live.slot(number);
        !live.goes_twice(
            Handle { number, slot },
            called.collection,
            &called.call,
            &called.reply,
        ) && self.is_clear(number, called.collection, called.call.need(&called.reply))
    }

    // Whether no other transaction holds a need in the way.
    fn is_clear(&self, number: u64, at: u8, need: Need) -> bool
        ensures { IsTrue result ↔ IsClear self.now.holds number at need }
    {
        self.shelf.test(number, at, &need).is_ok()
    }

    // Whether the transaction can put the call off.
    fn can_defer(&self, later: &LaterRecord) -> bool
        ensures { IsTrue result ↔ (CanDeferCall B.meaning self.now later.now.number
            later.now.collection later.now.call × HasRoomFor self.now 1) }
    {
        self.has_place(later.number)
            && self
                .parts()
                .deferrable(later.collection, &later.call)
                .is_ok()
            && self.is_clear(
                later.number,
                later.collection,
                later.call.need(&Reply::Done),
            )
    }
}

/// What is answered of a making that was refused: false, as it is no step, unless memory alone was
/// wanted.
pub fn unmade(refusal: Refusal) -> Result<bool, Refusal>
    ensures { result ≡ unmade refusal }
{
    match refusal {
        Refusal::NoMemory => Err(Refusal::NoMemory),
        _ => Ok(false),
    }
}
