// Some of the holds on one collection.
ghost use Rattle.std.specs.Prelude.{◌≡◌, ◌≢◌, ◌==◌, ◌↔◌, ◌<◌, ◌≤◌, [], ◌++◌, length, All, IsTrue};
ghost use Rattle.std.specs.Prelude.{IfOk, Contains, vec_capacity};
ghost use Rattle.abstract_locks.specs.Bounds.{IsWithin};
ghost use Rattle.abstract_locks.specs.Holds.{IsAdded, IsRemoved};
ghost use Rattle.abstract_locks.specs.Order.{compare, compare_rest, Rises, IsPlace};
ghost use Rattle.abstract_locks.specs.Segments.{segment_size, begins_by, begins_to, IsLeast};
ghost use Rattle.abstract_locks.specs.Segments.{lesser};

use crate::bounds::Bounds;
use crate::table::Hold;
use calls::Need;
use std::alloc::{AllocError, Global};
use std::cmp::Ordering;
use std::marker::Model;

// How many holds a segment has at most.
const SEGMENT_SIZE: usize = 128;

/// A stretch of the holds on one collection, in their order, with bounds of them. Contracts see the
/// holds. It has room for as many as there may be from the start, so that no call but `new` takes
/// memory.
#[derive(Drop)]
pub struct Segment {
    holds: Vec<Hold>,
    bounds: Bounds,
    // how many were taken out since the bounds were made from what is left
    removed: usize,
}

impl Model for Segment {
    ghost use Rattle.std.specs.Prelude.{List, vec_capacity};
    ghost use Rattle.abstract_locks.specs.declared.table.Hold.{Hold};

    ghost Value = { List Hold };

    ghost view = { λ own. own.holds.items };

    ghost use Rattle.abstract_locks.specs.Segments.{IsSegment};

    ghost invariant = { λ own. IsSegment own.bounds own.holds.items (vec_capacity own.holds) };
}

impl Segment {
    /// One with no hold.
    pub fn new(alloc: Global) -> Result<Self, AllocError>
        ensures { IfOk result (λ s. s ≡ []) }
    {
        Ok(Self {
            holds: Vec::with_capacity(alloc, SEGMENT_SIZE)?,
            bounds: Bounds::none(),
            removed: 0,
        })
    }

    /// Whether it has no hold.
    pub fn is_empty(&self) -> bool
        ensures { result ≡ (length self.now == 0) }
    {
        self.holds.is_empty()
    }

    /// Whether no more hold goes into it.
    pub fn is_full(&self) -> bool
        ensures { IsTrue result ↔ (length self.now ≡ segment_size) }
    {
        self.holds.len() == SEGMENT_SIZE
    }

    /// Whether it begins with a hold that does not stand behind this one, or has none.
    pub fn begins_by(&self, hold: &Hold) -> bool
        ensures { result ≡ begins_by hold.now self.now }
    {
        match self.holds.first() {
            Some(first) => compare(first, hold).is_le(),
            None => true,
        }
    }

    /// Whether it begins with a hold whose lowest key is at most this one, or has none.
    pub fn begins_to(&self, key: u64) -> bool
        ensures { result ≡ begins_to key self.now }
    {
        match self.holds.first() {
            Some(first) => first.need.low <= key,
            None => true,
        }
    }

    /// Puts the hold in its place among the others, where it does not stand there. Answers whether
    /// it is new. One halving; those behind it move.
    pub fn add(&mut self, hold: Hold) -> bool
        requires { length self.old ≢ segment_size }
        ensures held { IsAdded self.old self.new hold }
        ensures fresh { IsTrue result ↔ (Contains self.old hold → ⊥) }
        ensures order { Rises self.new }
    {
        let Err(place) = find(&self.holds, &hold) else {
            return false;
        };
        self.bounds = self.bounds.with(&Bounds::of(&hold));
        let Ok(()) = self.holds.insert(place, hold) else {
            unreachable!();
        };
        true
    }

    /// Moves the upper half of its holds to the spare segment, and puts the hold into the half that
    /// it belongs to. Answers whether the hold is new. One look at each hold, for the bounds.
    pub fn split(&mut self, spare: &mut Self, hold: Hold) -> bool
        requires full { length self.old ≡ segment_size }
        requires spare { spare.old ≡ [] }
        ensures held { IsAdded self.old (self.new ++ spare.new) hold }
        ensures fresh { IsTrue result ↔ (Contains self.old hold → ⊥) }
        ensures order { Rises (self.new ++ spare.new) }
        ensures filled { (0 < length self.new) × (0 < length spare.new) }
    {
        move_upper_half(&mut self.holds, &mut spare.holds);
        self.bounds = bounds_of(&self.holds);
        spare.bounds = bounds_of(&spare.holds);
        if spare.begins_by(&hold) {
            spare.add(hold)
        } else {
            self.add(hold)
        }
    }

    /// Takes the hold out, where it is there. One halving; those behind it move. Now and then each
    /// that is left is looked at, for the bounds.
    pub fn remove(&mut self, hold: &Hold)
        ensures holds { IsRemoved self.old self.new hold.now }
        ensures order { Rises self.new }
    {
        if let Ok(place) = find(&self.holds, hold) {
            self.holds.remove(place);
            let (bounds, removed) = narrowed(self.bounds, self.removed, &self.holds);
            self.bounds = bounds;
            self.removed = removed;
        }
    }

    /// The least other owner of a hold that keeps the need from the owner. One look at each hold,
    /// or none where the bounds tell that none is in the way.
    #[inline]
    pub fn least_blocker(&self, owner: u64, at: u8, need: &Need) -> Option<u64>
        ensures { IsLeast self.now owner at need.now result }
    {
        if !self.bounds.may_block(owner, need) {
            return None;
        }
        least_of(&self.holds, owner, at, need)
    }
}

// The least other owner of a hold that keeps the need from the owner.
fn least_of(holds: &[Hold], owner: u64, at: u8, need: &Need) -> Option<u64>
    ensures { IsLeast holds.now owner at need.now result }
{
    let mut least = None;
    for hold in holds {
        if hold.blocks(owner, at, need) {
            least = lesser(least, Some(hold.owner));
        }
    }
    least
}

// Where the hold stands, or else the place where it belongs.
fn find(holds: &[Hold], hold: &Hold) -> Result<usize, usize>
    requires { Rises holds.now }
    ensures { IsPlace holds.now hold.now result }
{
    holds.binary_search_by(|other| compare(other, hold))
}

// Moves the last holds to the other list, half as many as a segment has.
fn move_upper_half(holds: &mut Vec<Hold>, upper: &mut Vec<Hold>)
    requires full { length holds.old.items ≡ segment_size }
    requires empty { upper.old.items ≡ [] }
    requires room { segment_size ≤ vec_capacity upper.old }
    ensures all { holds.old.items ≡ holds.new.items ++ upper.new.items }
    ensures lower { (0 < length holds.new.items) × (length holds.new.items < segment_size) }
    ensures upper { (0 < length upper.new.items) × (length upper.new.items < segment_size) }
    ensures capacity { vec_capacity holds.new ≡ vec_capacity holds.old }
    ensures upper_capacity { vec_capacity upper.old ≤ vec_capacity upper.new }
{
    let middle = holds.len() - SEGMENT_SIZE / 2;
    let Ok(()) = upper.extend_from_slice(&holds[middle..]) else {
        unreachable!();
    };
    holds.truncate(middle);
}

// Bounds of the holds that are left where one more was taken out, and how many were since bounds
// were made. Once that is more than are left they are made anew, so that a removal costs two looks
// at most, taken together; until then the wide ones serve.
fn narrowed(bounds: Bounds, removed: usize, holds: &[Hold]) -> (Bounds, usize)
    requires { All (IsWithin bounds) holds.now }
    ensures { All (IsWithin result.0) holds.now }
{
    if removed < holds.len() {
        (bounds, removed + 1)
    } else {
        (bounds_of(holds), 0)
    }
}

// Bounds of the holds.
fn bounds_of(holds: &[Hold]) -> Bounds
    ensures { All (IsWithin result) holds.now }
{
    let mut bounds = Bounds::none();
    for hold in holds {
        bounds = bounds.with(&Bounds::of(hold));
    }
    bounds
}

/// The lesser of the numbers, where there are any.
pub fn lesser(one: Option<u64>, other: Option<u64>) -> Option<u64>
    ensures { result ≡ lesser one other }
{
    match (one, other) {
        (Some(a), Some(b)) => Some(a.min(b)),
        (Some(a), None) => Some(a),
        (None, b) => b,
    }
}

// How the two stand in the order of a collection: by the lowest key, then the owner and the rest.
fn compare(one: &Hold, other: &Hold) -> Ordering
    ensures { result ≡ compare one.now other.now }
{
    match one.need.low.cmp(&other.need.low) {
        Ordering::Less => Ordering::Less,
        Ordering::Equal => compare_rest(one, other),
        Ordering::Greater => Ordering::Greater,
    }
}

// How two with the same lowest key stand.
fn compare_rest(one: &Hold, other: &Hold) -> Ordering
    ensures { result ≡ compare_rest one.now other.now }
{
    one.owner
        .cmp(&other.owner)
        .then(one.need.high.cmp(&other.need.high))
        .then(one.need.mode.rank().cmp(&other.need.mode.rank()))
        .then(one.at.cmp(&other.at))
}
