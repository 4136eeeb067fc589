// The live transactions in the slots of a slab, and a plain list of what they asked for.
ghost use Rattle.std.specs.Prelude.{◌≡◌, ◌↔◌, ◌≤◌, ℕ, [], ◌∷◌, ◌++◌, Some, false, map};
ghost use Rattle.std.specs.Prelude.{IsTrue, IsOk, IsOkUnless, IfSome, IfNone, IfOk, OnOk, OnErr};
ghost use Rattle.std.specs.Prelude.{length, ◌<◌, ◌≢◌, ◌⊎◌, All, Contains, IfErr, HoldsAt, vec_len};
ghost use Rattle.std.specs.Prelude.{vec_capacity, take, drop};
ghost use Rattle.std.specs.FinMap as maps;
ghost use Rattle.slab.specs.Slab.{get};
ghost use Rattle.calls.specs.Transactions as transactions;
ghost use Rattle.calls.specs.Transactions.{own, others, calls_of};
ghost use Rattle.undo_log.specs.Entries.{event_of, entry_of, stamped_entry, owned_entry, HasNoCall};
ghost use Rattle.undo_log.specs.Entries.{HasNewestCall, IsNewestCall, IsNewestPlace};
ghost use Rattle.undo_log.specs.Logs.{Log, IsLive, IsFalling, HasRoom, KeepsRoom, fallen, live_of};
ghost use Rattle.undo_log.specs.Logs.{EachOnce, IsSlotOf, IsLeastLive, IsLeastSlot, IsNextLive};
ghost use Rattle.undo_log.specs.Logs.{IsNextSlot, Lives};
ghost use Rattle.undo_log.specs.Stamps.{marks, mark_of};
ghost use Rattle.undo_log.specs.Index.{AreRising, IsIndex, IsGapFor};
ghost use Rattle.undo_log.specs.LeftCalls.{GoesTwice};
ghost use Rattle.undo_log.specs.declared.live.Transaction.{Transaction};
ghost use Rattle.undo_log.specs.declared.live.Handle.{Handle};

use crate::left_calls::is_going;
use crate::{Entry, Logged, Owned, Stamped};
use calls::{Call, Refusal, Reply};
use slab::Slab;
use std::alloc::Global;
use std::marker::Model;

/// A live transaction, with what it asked for and did not undo, in the order asked.
#[derive(Drop)]
struct Transaction {
    number: u64,
    falling: bool,
    entries: Vec<Stamped>,
}

/// A transaction's number, and the slot in which it was last seen. Where the transaction is live
/// and there still, it is found without a search.
#[derive(Clone, Copy)]
pub struct Handle {
    /// The transaction's number.
    pub number: u64,
    /// The slot, as `Live::slot` told it.
    pub slot: usize,
}

/// The live transactions in their slots, and the slot of each number in an index that rises by
/// number.
#[derive(Drop)]
struct Table {
    slots: Slab<Transaction>,
    index: Vec<Handle>,
}

/// The live transactions. Contracts see which numbers are live and which of them are falling; what
/// they asked for and did not undo, in the order asked; and which have room for one entry more.
///
/// Each transaction has its own entries, and each entry a stamp that tells its place in the order
/// asked. So what a call costs does not depend on what other transactions asked for, but for
/// `in_order`. A search is a halving of the live numbers, and there is none for a `Handle` whose
/// transaction is in its slot.
pub struct Live {
    alloc: Global,
    table: Table,
    // the stamp of the next entry
    next: u64,
    // how many entries there are
    count: usize,
}

// Written out, so that the crates above call it in place of proving it again.
impl Drop for Live {
    fn drop(self) {
        let Self {
            alloc: _alloc,
            table,
            next: _next,
            count: _count,
        } = self;
        drop(table);
    }
}

impl Model for Live {
    ghost use Rattle.std.specs.Prelude.{map};
    ghost use Rattle.std.specs.FinMap as maps;
    ghost use Rattle.std.specs.Ordering.{nat_cmp};
    ghost use Rattle.std.specs.Coded.{codes, coded_ℕ, coded_bool};
    ghost use Rattle.undo_log.specs.Logs.{Log, live_of, rooms_of, EachOnce};
    ghost use Rattle.undo_log.specs.Stamps.{merged, AreStamped};
    ghost use Rattle.undo_log.specs.Index.{IsIndex};

    ghost Value = { Log };

    ghost coded = { Prim.hlevel (codes, maps.code {R = nat_cmp} coded_ℕ coded_bool) };

    ghost view = { λ log. record {
      live = live_of log.table.slots.slots;
      entries = map (λ m. m.1) (merged log.table.slots.slots);
      rooms = rooms_of log.next log.table.slots.slots;
    } };

    ghost invariant = { λ log. EachOnce log.table.slots ×
        AreStamped log.table.slots log.next log.count ×
        IsIndex log.table.slots log.table.index.items };
}

impl Live {
    /// With no live transaction. It takes no memory.
    pub fn new(alloc: Global) -> Self
        ensures live { result.live ≡ maps.empty }
        ensures entries { result.entries ≡ [] }
    {
        Self {
            alloc,
            table: Table {
                slots: Slab::new(alloc),
                index: Vec::new(alloc),
            },
            next: 0,
            count: 0,
        }
    }

    /// How many transactions are live. The count is kept.
    pub fn count_live(&self) -> usize
        ensures { result ≡ maps.len self.now.live }
    {
        self.table.slots.len()
    }

    /// The least number that is live. It stands first in the index; it takes no memory.
    pub fn least(&self) -> Option<u64>
        ensures found { IfSome result (IsLeastLive self.now.live) }
        ensures none { IfNone result (self.now.live ≡ maps.empty) }
    {
        least_of(&self.table)
    }

    /// The least number above another that is live. One search; it takes no memory.
    pub fn next_live(&self, after: u64) -> Option<u64>
        ensures found { IfSome result (IsNextLive self.now.live after) }
        ensures none { IfNone result ((n : ℕ) → Lives self.now.live n → n ≤ after) }
    {
        next_of(&self.table, after)
    }

    /// Whether a transaction of the number is live. One search.
    pub fn contains(&self, number: u64) -> bool
        ensures { IsTrue result ↔ IsLive self.now number }
    {
        matches!(search(&self.table, number), Some(_))
    }

    /// The slot of the number's transaction, for its handle; any where it is not live. One search.
    pub fn slot(&self, number: u64) -> usize {
        search(&self.table, number).unwrap_or(0)
    }

    /// Whether the transaction is live.
    pub fn is_live(&self, handle: Handle) -> bool
        ensures { IsTrue result ↔ IsLive self.now handle.number }
    {
        matches!(slot_of(&self.table, handle), Some(_))
    }

    /// Whether the transaction is live and falling.
    pub fn is_falling(&self, handle: Handle) -> bool
        ensures { IsTrue result ↔ IsFalling self.now handle.number }
    {
        match slot_of(&self.table, handle) {
            Some(key) => self.table.slots[key].falling,
            None => false,
        }
    }

    /// How many calls and laters there are, of all transactions together. The count is kept.
    pub fn len(&self) -> usize
        ensures { result ≡ length self.now.entries }
    {
        self.count
    }

    /// What the transaction asked for and did not undo, in the order asked: nothing where it is not
    /// live.
    pub fn entries_of(&self, handle: Handle) -> &[Stamped]
        ensures { map stamped_entry result.now ≡ own handle.number self.now.entries }
    {
        match slot_of(&self.table, handle) {
            Some(key) => &self.table.slots[key].entries,
            None => &[],
        }
    }

    /// How many calls and laters of the transaction there are together.
    pub fn count(&self, handle: Handle) -> usize
        ensures { result ≡ length (own handle.number self.now.entries) }
    {
        self.entries_of(handle).len()
    }

    /// Whether the transaction has left to its commit already what this call, answered so, would
    /// leave. Where it would leave one, each entry of the transaction is looked at.
    pub fn goes_twice(&self, handle: Handle, at: u8, call: &Call, reply: &Reply) -> bool
        ensures { IsTrue result ↔ GoesTwice self.now.entries handle.number
            (record { at = at; call = call.now; reply = reply.now }) }
    {
        match call.after(reply) {
            Some(left) => is_going(self.entries_of(handle), at, &left),
            None => false,
        }
    }

    /// Makes the transaction live and running, with nothing asked for. NoMemory leaves all as
    /// before. It takes a slot, and moves the others where there is room for no more; in the index
    /// the greater numbers move. One search.
    pub fn enter(&mut self, number: u64) -> Result<Handle, Refusal>
        requires { IsLive self.old number → ⊥ }
        ensures handle { IfOk result (λ handle. handle.number ≡ number) }
        ensures live { OnOk result (self.new.live ≡ maps.insert self.old.live number false) }
        ensures entries { self.new.entries ≡ self.old.entries }
        ensures rooms { KeepsRoom self.old self.new }
        ensures refusal { IsOkUnless result Refusal.NoMemory }
        ensures unchanged { OnErr result (self.new ≡ self.old) }
    {
        self.table.index.reserve(1)?;
        let slot = self.table.slots.insert(Transaction {
            number,
            falling: false,
            entries: Vec::new(self.alloc),
        })?;
        let handle = Handle { number, slot };
        list(&mut self.table.index, handle);
        Ok(handle)
    }

    /// Makes room for one more entry of the transaction, if it is live. NoMemory, which leaves all
    /// as before, only where it had no room: where there is no memory, or no stamp is left of 2^64.
    /// Where there is no room, the transaction's entries move.
    pub fn reserve(&mut self, handle: Handle) -> Result<(), Refusal>
        ensures room { OnOk result (IsLive self.old handle.number →
            HasRoom self.new handle.number) }
        ensures rooms { KeepsRoom self.old self.new }
        ensures live { self.new.live ≡ self.old.live }
        ensures entries { self.new.entries ≡ self.old.entries }
        ensures refusal { IsOkUnless result Refusal.NoMemory }
        ensures succeeds { HasRoom self.old handle.number → IsOk result }
        ensures unchanged { OnErr result (self.new ≡ self.old) }
    {
        if self.next == u64::MAX {
            return Err(Refusal::NoMemory);
        }
        if let Some(key) = slot_of(&self.table, handle) {
            self.table.slots[key].entries.reserve(1)?;
        }
        Ok(())
    }

    /// Notes what the transaction asks for as the newest entry, for which there is room. It takes
    /// no memory.
    pub fn push(&mut self, handle: Handle, entry: Entry)
        requires live { IsLive self.old handle.number }
        requires room { HasRoom self.old handle.number }
        ensures entries { self.new.entries ≡
            self.old.entries ++ (handle.number, entry_of entry) ∷ [] }
        ensures live { self.new.live ≡ self.old.live }
    {
        let Some(key) = slot_of(&self.table, handle) else {
            unreachable!();
        };
        let stamp = self.next;
        self.table.slots[key]
            .entries
            .push_reserved(Stamped { stamp, entry });
        self.next += 1;
        self.count += 1;
    }

    /// The newest call of the transaction, those that it deferred not counted. It looks at what the
    /// transaction deferred since that call.
    pub fn newest(&self, handle: Handle) -> Option<&Logged>
        ensures found { IfSome result (λ logged. HasNewestCall handle.number self.now.entries
            (event_of logged.now)) }
        ensures none { IfNone result (HasNoCall handle.number self.now.entries) }
    {
        let entries = self.entries_of(handle);
        let place = newest_place(entries)?;
        match &entries[place].entry {
            Entry::Asked(logged) => Some(logged),
            Entry::Deferred(_) => unreachable!(),
        }
    }

    /// Takes the newest call of the transaction out; the other entries stay in their order. Nothing
    /// changes where it has no call. What the transaction deferred since that call moves.
    pub fn pop(&mut self, handle: Handle) -> Option<Logged>
        ensures found { IfSome result (λ logged. IsNewestCall handle.number self.old.entries
            (event_of logged) self.new.entries) }
        ensures none { IfNone result (HasNoCall handle.number self.old.entries) }
        ensures unchanged { IfNone result (self.new ≡ self.old) }
        ensures live { self.new.live ≡ self.old.live }
        ensures rooms { KeepsRoom self.old self.new }
    {
        let key = slot_of(&self.table, handle)?;
        let place = newest_place(&self.table.slots[key].entries)?;
        let Stamped { entry, .. } = self.table.slots[key].entries.remove(place);
        self.count -= 1;
        match entry {
            Entry::Asked(logged) => Some(logged),
            Entry::Deferred(_) => unreachable!(),
        }
    }

    /// Makes the transaction falling, from now on. Nothing changes where it is not live.
    pub fn fall(&mut self, handle: Handle)
        ensures live { self.new.live ≡ fallen self.old.live handle.number }
        ensures entries { self.new.entries ≡ self.old.entries }
        ensures rooms { KeepsRoom self.old self.new }
    {
        if let Some(key) = slot_of(&self.table, handle) {
            self.table.slots[key].falling = true;
        }
    }

    /// Takes the transaction with all its entries out; the other entries stay in their order. One
    /// search; what the transaction asked for is let go, and in the index the greater numbers move.
    pub fn remove(&mut self, number: u64)
        ensures live { self.new.live ≡ maps.remove self.old.live number }
        ensures entries { self.new.entries ≡ others number self.old.entries }
        ensures rooms { KeepsRoom self.old self.new }
    {
        if let Ok(place) = place_of(&self.table.index, number) {
            let handle = self.table.index.remove(place);
            let gone = self.table.slots.remove(handle.slot);
            self.count -= gone.entries.len();
        }
    }

    /// All entries, each with the number of its transaction, in the order asked. It takes memory
    /// for a reference to each, and sorts these by their stamps.
    ///
    /// NoMemory.
    pub fn in_order(&self) -> Result<Vec<Owned<'_>>, Refusal>
        ensures ok { IfOk result (λ all. map owned_entry all.items ≡ self.now.entries) }
        ensures refusal { IsOkUnless result Refusal.NoMemory }
    {
        let mut all = Vec::with_capacity(self.alloc, self.count)?;
        for (_, transaction) in self.table.slots.iter() {
            push_all(&mut all, transaction)?;
        }
        all.sort_unstable_by_key(|owned| owned.stamp);
        Ok(all)
    }
}

// Lists what the transaction asked for behind the others.
fn push_all<'a>(all: &mut Vec<Owned<'a>>, transaction: &'a Transaction) -> Result<(), Refusal>
    ensures told { OnOk result (map mark_of all.new.items ≡ map mark_of all.old.items ++
        marks transaction.now) }
    ensures refusal { IsOkUnless result Refusal.NoMemory }
{
    for stamped in &transaction.entries {
        all.push(Owned {
            owner: transaction.number,
            stamp: stamped.stamp,
            entry: &stamped.entry,
        })?;
    }
    Ok(())
}

// Where the number stands in the index, or would stand. The greatest is looked at first, since the
// newest transaction makes most calls; then halving.
fn place_of(index: &[Handle], number: u64) -> Result<usize, usize>
    requires { AreRising index.now }
    ensures found { IfOk result (λ i. (i < length index.now) ×
        HoldsAt (λ handle. handle.number ≡ number) index.now i) }
    ensures absent { IfErr result (IsGapFor number index.now) }
{
    match index.last() {
        Some(greatest) if greatest.number == number => Ok(index.len() - 1),
        _ => index.binary_search_by_key(&number, |handle| handle.number),
    }
}

// Puts a number that is not in the index into it. It takes no memory.
fn list(index: &mut Vec<Handle>, handle: Handle)
    requires rising { AreRising index.old.items }
    requires room { vec_len index.old < vec_capacity index.old }
    requires fresh { All (λ other. other.number ≢ handle.number) index.old.items }
    ensures rising { AreRising index.new.items }
    ensures listed { (s : Handle) → Contains index.new.items s ↔
        (Contains index.old.items s ⊎ (s ≡ handle)) }
{
    let Err(place) = place_of(index, handle.number) else {
        unreachable!();
    };
    let Ok(()) = index.insert(place, handle) else {
        unreachable!();
    };
}

// The slot of a transaction: the one of its handle, and a search where it is not there.
fn slot_of(table: &Table, handle: Handle) -> Option<usize>
    requires { IsIndex table.now.slots table.now.index.items }
    ensures found { IfSome result (IsSlotOf table.now.slots handle.number) }
    ensures none { IfNone result ((key : ℕ) → IsSlotOf table.now.slots handle.number key → ⊥) }
{
    if is_at(&table.slots, handle) {
        Some(handle.slot)
    } else {
        search(table, handle.number)
    }
}

// Whether the transaction is in the slot of its handle.
fn is_at(slots: &Slab<Transaction>, handle: Handle) -> bool
    ensures { IsTrue result → IsSlotOf slots.now handle.number handle.slot }
{
    match slots.get(handle.slot) {
        Some(transaction) => transaction.number == handle.number,
        None => false,
    }
}

// The slot of a transaction's number, by the index.
fn search(table: &Table, number: u64) -> Option<usize>
    requires { IsIndex table.now.slots table.now.index.items }
    ensures found { IfSome result (IsSlotOf table.now.slots number) }
    ensures none { IfNone result ((key : ℕ) → IsSlotOf table.now.slots number key → ⊥) }
{
    match place_of(&table.index, number) {
        Ok(place) => Some(table.index[place].slot),
        Err(_) => None,
    }
}

// The least number in the slots.
fn least_of(table: &Table) -> Option<u64>
    requires { IsIndex table.now.slots table.now.index.items }
    ensures found { IfSome result (IsLeastSlot table.now.slots) }
    ensures none { IfNone result ((key : ℕ) (t : Transaction) →
        get table.now.slots key ≡ Some t → ⊥) }
{
    let handle = table.index.first()?;
    Some(handle.number)
}

// The least number above another in the slots.
fn next_of(table: &Table, after: u64) -> Option<u64>
    requires { IsIndex table.now.slots table.now.index.items }
    ensures found { IfSome result (IsNextSlot table.now.slots after) }
    ensures none { IfNone result ((key : ℕ) (t : Transaction) →
        get table.now.slots key ≡ Some t → t.number ≤ after) }
{
    let place = place_above(&table.index, after);
    Some(table.index.get(place)?.number)
}

// Where the numbers above another begin in the index. Halving.
fn place_above(index: &[Handle], after: u64) -> usize
    requires { AreRising index.now }
    ensures below { All (λ handle. handle.number ≤ after) (take result index.now) }
    ensures above { All (λ handle. after < handle.number) (drop result index.now) }
{
    match place_of(index, after) {
        Ok(place) => place + 1,
        Err(place) => place,
    }
}

// Where the newest call of a transaction's entries stands.
fn newest_place(entries: &[Stamped]) -> Option<usize>
    ensures found { IfSome result (IsNewestPlace entries.now) }
    ensures none { IfNone result (calls_of (map stamped_entry entries.now) ≡ []) }
{
    let mut place = entries.len();
    while place > 0 {
        place -= 1;
        if entries[place].is_call() {
            return Some(place);
        }
    }
    None
}
