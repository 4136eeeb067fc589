// Reading an image into a machine: its collections, the transactions that were live, and what these
// had asked for.
ghost use Rattle.std.specs.Prelude.{◌≡◌, ◌↔◌, ◌+◌, ◌<◌, ◌≤◌, None, IsTrue, IfOk, IfSome};
ghost use Rattle.std.specs.Prelude.{IfNone, OnOk, OnErr, IsOkUnless, Ok, length};
ghost use Rattle.std.specs.FinMap as maps;
ghost use Rattle.std.specs.List.{AllByRecursion};
ghost use Rattle.calls.specs.declared.reply.Reply.{Reply};
ghost use Rattle.calls.specs.declared.refusal.Refusal.{Refusal};
ghost use Rattle.undo_log.specs.Entries as logs;
ghost use Rattle.boosted.specs.Meaning.{CanAsk};
ghost use Rattle.abstract_locks.specs.Holds.{IsClear};
ghost use Rattle.records.specs.declared.record.Record.{Record};
ghost use Rattle.records.specs.Acts.{event_of};
ghost use Rattle.records.specs.Reached.{IsReached};
ghost use Rattle.calls.specs.Rules.{need_of};
ghost use Rattle.calls.specs.Limits.{max_collections, max_wear};
ghost use Rattle.records.specs.Records.{IsRecord, IsNumber};
ghost use Rattle.records.specs.Short.{AreShort, IsShortItem, IsShortReply};
ghost use Rattle.steps.specs.Machine.{IsSettled};
ghost use Rattle.undo_log.specs.LeftCalls.{GoesTwice};
ghost use Rattle.steps.specs.Machines.{resting, StepAnswers, RepeatAnswers};
ghost use Rattle.replay.specs.Loading.{LoadRow, LoadAnswers, CanHoldCall, CanHoldLater};
ghost use Rattle.replay.specs.Loading.{CanHold};
ghost use Rattle.replay.specs.Loading.{HeldRow, IsPaired, LiveSteps};

use crate::machine::{Machine, unmade};
use crate::redoing::redo;
use calls::limits::MAX_LIVE;
use calls::{Format, Item, Kind, Need, Refusal, Reply};
use catalog::Parts;
use records::{CallRecord, Coded, LaterRecord, Record, is_reached, is_short_reply};
use std::alloc::Global;
use std::marker::Model;
use steps::{Shelf, TransactionTable, has_place};
use undo_log::{Entry, Handle, Later, Live, Logged};

/// An image that is read, one record after another, and becomes a machine. Each record is tested.
///
/// Contracts see the state that was told so far, as a machine's.
#[derive(Drop)]
pub struct Loader<B: Parts + Coded> {
    // all of the collections
    shelf: Shelf<B>,
    live: Live,
    wear: u64,
    format: Format,
    // the greatest number that is live, 0 where none is
    last: u64,
}

impl<B: Parts + Coded> Model for Loader<B> {
    ghost use Rattle.steps.specs.Machine.{State};
    ghost use Rattle.steps.specs.Machines.{IsUpheld};
    ghost use Rattle.replay.specs.Loading.{IsLast};
    ghost use Rattle.steps.specs.Sound.{IsLoaded};
    ghost use Rattle.steps.specs.Views.{state_of};
    ghost use Rattle.records.specs.Short.{AreShort};
    ghost use Rattle.std.specs.FinMap as maps;
    ghost use Rattle.std.specs.Ordering.{nat_cmp};
    ghost use Rattle.std.specs.Coded.{codes, coded_ℕ, coded_bool};

    ghost Value = { State B };

    ghost coded = { Prim.hlevel (codes, maps.code {R = nat_cmp} coded_ℕ coded_bool) };

    ghost view = { λ l. state_of l.format l.shelf.now l.shelf.holds l.live l.wear };

    ghost invariant = { λ l. IsUpheld B.meaning B.making (λ f s. AreShort f (B.collections s))
        (IsLoaded B.meaning B.making)
        (state_of l.format l.shelf.now l.shelf.holds l.live l.wear) × IsLast l.live.live l.last };
}

impl<B: Parts + Coded> Loader<B> {
    /// The collections of a store of the format, with no live transaction. `wear` is what they are
    /// within. It takes no memory.
    pub fn new(alloc: Global, format: Format, parts: B, wear: u64) -> Self
        requires within { B.meaning.within parts wear }
        requires worn { wear ≤ max_wear }
        requires short { AreShort format (B.collections parts) }
        requires few { length (B.making.names parts) ≤ max_collections }
        ensures { result ≡ resting format parts wear }
    {
        Self {
            shelf: Shelf::new(alloc, parts),
            live: Live::new(alloc),
            wear,
            format,
            last: 0,
        }
    }

    /// The collections.
    pub fn parts(&self) -> &B
        ensures { result.now ≡ self.now.now }
    {
        self.shelf.collections()
    }

    /// The format of the store.
    pub fn format(&self) -> Format
        ensures { result ≡ self.now.format }
    {
        self.format
    }

    /// The wear that it was made with.
    pub fn wear(&self) -> u64
        ensures { result ≡ self.now.wear }
    {
        self.wear
    }

    /// Puts a collection of the name, the kind and these items at the end, where the wear reaches
    /// it, and answers true; false, with nothing changed, where that cannot be: the name is none or
    /// is taken, there are 256, no collection of the kind has these items in this order, or the
    /// wear does not reach one of them.
    ///
    /// NoMemory leaves all as before.
    pub fn load(&mut self, name: &str, kind: Kind, items: Vec<Item>) -> Result<bool, Refusal>
        requires none_live { self.old.live ≡ maps.empty }
        requires short { AllByRecursion (IsShortItem self.old.format) items.items }
        ensures { LoadAnswers (LoadRow B.collections B.meaning B.making self.old name.now kind
            items.items) self.old result self.new }
    {
        if !are_reached(items.as_slice(), self.wear) {
            return Ok(false);
        }
        match self.shelf.collections_mut().load(name, kind, items) {
            Ok(loaded) => Ok(loaded),
            Err(refusal) => unmade(refusal),
        }
    }

    /// Takes what the record tells of a live transaction, where it can be so, and answers true;
    /// false, with nothing changed, where it cannot.
    ///
    /// NoMemory leaves all as before.
    pub fn hold(&mut self, entry: Record) -> Result<bool, Refusal>
        requires { IsRecord None entry }
        ensures { RepeatAnswers (LiveSteps B.meaning) self.old entry result self.new }
    {
        self.step(entry)
    }

    /// The machine of what was told, where the live calls lead from some content to what the
    /// collections hold; none where they lead there from nowhere.
    ///
    /// NoMemory for values, which are copied one at a time, and for what the collections need to
    /// take them.
    pub fn finish(self) -> Result<Option<Machine<B>>, Refusal>
        ensures machine { IfOk result (λ m. IfSome m
            (λ machine. (machine ≡ self) × ((c : B) × IsSettled B.meaning self c))) }
        ensures none { IfOk result (λ m. IfNone m ((c : B) → IsSettled B.meaning self c → ⊥)) }
        ensures refusal { IsOkUnless result Refusal.NoMemory }
    {
        let _ = &self.format;
        let Self {
            mut shelf,
            live,
            wear,
            format,
            ..
        } = self;
        if !redo(shelf.collections_mut(), &live)? {
            return Ok(None);
        }
        Ok(Some(Machine::of_parts(shelf, TransactionTable::of_live(format, live, wear))))
    }

    // The record's step, from this very state.
    fn step(&mut self, entry: Record) -> Result<bool, Refusal>
        requires { IsRecord None entry }
        ensures { StepAnswers (LiveSteps B.meaning) self.old entry result self.new }
    {
        match entry {
            Record::Begin(number) => self.hold_begin(number),
            Record::LiveCall(called) => self.hold_call(called),
            Record::LiveLater(later) => self.hold_later(later),
            _ => Ok(false),
        }
    }

    fn hold_begin(&mut self, number: u64) -> Result<bool, Refusal>
        requires { IsNumber number }
        ensures { StepAnswers (LiveSteps B.meaning) self.old (Record.Begin number) result self.new }
    {
        if self.live.count_live() >= MAX_LIVE || number <= self.last {
            return Ok(false);
        }
        self.live.enter(number)?;
        self.last = number;
        Ok(true)
    }

    fn hold_call(&mut self, called: CallRecord) -> Result<bool, Refusal>
        requires { IsRecord None (Record.LiveCall called) }
        ensures { StepAnswers (LiveSteps B.meaning) self.old (Record.LiveCall called) result
            self.new }
    {
        if !self.can_hold_call(&called) {
            return Ok(false);
        }
        let CallRecord {
            number,
            collection,
            call,
            reply,
            ..
        } = called;
        let asked = Logged {
            at: collection,
            call,
            reply,
        };
        self.note(number, Entry::Asked(asked))?;
        Ok(true)
    }

    fn hold_later(&mut self, later: LaterRecord) -> Result<bool, Refusal>
        ensures { StepAnswers (LiveSteps B.meaning) self.old (Record.LiveLater later) result
            self.new }
    {
        if !self.can_hold_later(&later) {
            return Ok(false);
        }
        let LaterRecord {
            number,
            collection,
            call,
        } = later;
        let put = Later {
            at: collection,
            call,
        };
        self.note(number, Entry::Deferred(put))?;
        Ok(true)
    }

    // Notes what the transaction asked for, with its need. NoMemory leaves all as before.
    fn note(&mut self, number: u64, entry: Entry) -> Result<(), Refusal>
        requires can { CanHold B.meaning self.old number (logs.entry_of entry) }
        requires pairs { IsPaired (logs.entry_of entry) }
        ensures ok { OnOk result (HeldRow B.meaning self.old number (logs.entry_of entry)
            self.new) }
        ensures same { OnErr result (self.new ≡ self.old) }
        ensures refusal { IsOkUnless result Refusal.NoMemory }
    {
        let slot = self.live.slot(number);
        let handle = Handle { number, slot };
        self.live.reserve(handle)?;
        self.shelf.hold(number, entry.at(), entry.need())?;
        self.live.push(handle, entry);
        Ok(())
    }

    // Whether the transaction can have made the call and got the reply.
    fn can_hold_call(&self, called: &CallRecord) -> bool
        ensures { IsTrue result ↔ CanHoldCall B.meaning self.now called.now.number
            (event_of called.now) }
    {
        let number = called.number;
        let slot = self.live.slot(number);
        has_place(&self.live, self.wear, Handle { number, slot }, 0)
            && self.can_ask(called)
            && self.is_apart(called)
    }

    // Whether a client can ask for the call, and no value of the reply is too long for the format.
    fn can_ask(&self, called: &CallRecord) -> bool
        ensures { IsTrue result ↔ (CanAsk B.meaning self.now.format self.now.now
            called.now.collection
            called.now.call ×
            IsShortReply self.now.format called.now.reply) }
    {
        self.parts()
            .askable(called.collection, &called.call)
            .is_ok()
            && called.call.is_short(self.format)
            && is_short_reply(self.format, &called.reply)
    }

    // Whether the call leaves nothing that is going already, and has no other transaction in the
    // way.
    fn is_apart(&self, called: &CallRecord) -> bool
        ensures { IsTrue result ↔ ((GoesTwice self.now.entries called.now.number
            (event_of called.now) → ⊥) ×
            IsClear self.now.holds called.now.number called.now.collection
            (need_of called.now.call called.now.reply)) }
    {
        let number = called.number;
        let slot = self.live.slot(number);
        !self.live.goes_twice(
            Handle { number, slot },
            called.collection,
            &called.call,
            &called.reply,
        ) && self.is_clear(number, called.collection, called.call.need(&called.reply))
    }

    // Whether no other transaction holds a need in the way.
    fn is_clear(&self, number: u64, at: u8, need: Need) -> bool
        ensures { IsTrue result ↔ IsClear self.now.holds number at need }
    {
        self.shelf.test(number, at, &need).is_ok()
    }

    // Whether the transaction can have put the call off.
    fn can_hold_later(&self, later: &LaterRecord) -> bool
        ensures { IsTrue result ↔ CanHoldLater B.meaning self.now later.now.number
            later.now.collection later.now.call }
    {
        let number = later.number;
        let slot = self.live.slot(number);
        has_place(&self.live, self.wear, Handle { number, slot }, 0)
            && self
                .parts()
                .deferrable(later.collection, &later.call)
                .is_ok()
            && self.is_clear(
                later.number,
                later.collection,
                later.call.need(&Reply::Done),
            )
    }
}

// Whether so many runs can reach each of the items.
fn are_reached(items: &[Item], wear: u64) -> bool
    ensures { IsTrue result ↔ AllByRecursion (IsReached wear) items.now }
{
    items.iter().all(|item| is_reached(item, wear))
}
