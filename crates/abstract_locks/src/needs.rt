// What is held on one collection.
ghost use Rattle.std.specs.Prelude.{◌≡◌, ◌<◌, ◌≤◌, ◌↔◌, IsOk, IsOkUnless, IfErr, OnOk, OnErr};
ghost use Rattle.std.specs.Prelude.{◌≢◌, [], length, All, HoldsAt, IsTrue, vec_len, vec_capacity};
ghost use Rattle.std.specs.Prelude.{true, false, Contains, take};
ghost use Rattle.std.specs.List.Sorted.{IsPartitionPoint};
ghost use Rattle.abstract_locks.specs.Claimed.{nothing};
ghost use Rattle.abstract_locks.specs.Holds.{IsClear, IsBusyRefusal, IsAdded, IsRemoved};
ghost use Rattle.abstract_locks.specs.Segments.{segment_size, all_holds, AreOrdered, IsSegmentOf};
ghost use Rattle.abstract_locks.specs.Segments.{begins_by, begins_to, AreNarrow, AreInReach};
ghost use Rattle.abstract_locks.specs.Segments.{IsLeast};

use crate::bounds::Bounds;
use crate::segment::{Segment, lesser};
use crate::table::Hold;
use calls::{Need, Refusal};
use std::alloc::Global;
use std::marker::Model;

/// The needs that live transactions hold on one collection. Contracts see the holds, and for how
/// many more there is room.
///
/// The holds of all owners stand in one list, in the order of their lowest keys, then of their
/// owners, kept in segments with bounds of what is in each. So two halvings find a hold, and two
/// the stretch of segments in which one may overlap a need. A test looks at the bounds of each
/// segment of the stretch, and at the holds of those alone where one may be in the way; and at none
/// where bounds of all holds tell so. Those grow with each hold, and stay as wide as they are until
/// no hold is left; so does the span of the widest hold, by which the stretch begins in front of
/// the need.
#[derive(Drop)]
pub struct Needs {
    segments: Vec<Segment>,
    // what the upper half of a segment that is full moves to
    spare: Option<Segment>,
    bounds: Bounds,
}

impl Model for Needs {
    ghost use Rattle.std.specs.Prelude.{◌-◌, vec_len, vec_capacity};
    ghost use Rattle.abstract_locks.specs.Claimed.{Claimed};

    ghost Value = { Claimed };

    ghost use Rattle.abstract_locks.specs.Segments.{all_holds, room_with, AreSegments};

    ghost view = { λ needs. record {
      holds = all_holds needs.segments.items;
      room = room_with needs.spare (vec_capacity needs.segments - vec_len needs.segments);
    } };

    ghost invariant = { λ needs. AreSegments needs.bounds needs.segments.items needs.spare };
}

impl Needs {
    /// Nobody holds a need, and there is no room. It takes no memory.
    pub fn new(alloc: Global) -> Self
        ensures { result ≡ nothing }
    {
        Self {
            segments: Vec::new(alloc),
            spare: None,
            bounds: Bounds::none(),
        }
    }

    /// Puts the hold beside the others, where it does not stand in its place. Answers whether it is
    /// new. Two halvings, one for its segment and one in it, where those behind it move; a segment
    /// that is full is split. It takes no memory.
    pub fn add(&mut self, hold: Hold) -> bool
        requires { 0 < self.old.room }
        ensures held { IsAdded self.old.holds self.new.holds hold }
        ensures fresh { IsTrue result ↔ (Contains self.old.holds hold → ⊥) }
    {
        self.bounds = self.bounds.with(&Bounds::of(&hold));
        let place = place_of(&self.segments, &hold);
        if is_open(&self.segments, place) {
            self.segments[place].add(hold)
        } else {
            let Some(spare) = self.spare.take() else {
                unreachable!();
            };
            add_with(&mut self.segments, place, spare, hold)
        }
    }

    /// Takes the hold out, where it is there. Room stays. It takes no memory. Two halvings, one for
    /// its segment and one in it, where those behind it move; a segment that is empty then is let
    /// go, where it is not the only one.
    pub fn remove(&mut self, hold: &Hold)
        ensures holds { IsRemoved self.old.holds self.new.holds hold.now }
        ensures room { self.old.room ≤ self.new.room }
    {
        let place = place_of(&self.segments, hold);
        remove_at(&mut self.segments, place, hold);
        if is_free(&self.segments) {
            self.bounds = Bounds::none();
        }
    }

    /// Whether no other owner has a hold on the collection that conflicts with the need: Busy with
    /// the least such owner where there is one, and no other refusal. It takes no memory. Two
    /// halvings, a look at the bounds of each segment between, and at the holds of those in which
    /// one may be in the way; one look in all where bounds of all holds tell that none is.
    pub fn test(&self, owner: u64, at: u8, need: &Need) -> Result<(), Refusal>
        ensures clear { OnOk result (IsClear self.now.holds owner at need.now) }
        ensures busy { IfErr result (IsBusyRefusal self.now.holds owner at need.now) }
    {
        match self.least_blocker(owner, at, need) {
            Some(number) => Err(Refusal::Busy(number)),
            None => Ok(()),
        }
    }

    /// Makes room for one more hold. NoMemory, which leaves all as it was, only where there was
    /// none. Where the list of segments was full it moves.
    pub fn reserve(&mut self) -> Result<(), Refusal>
        ensures room { OnOk result (0 < self.new.room) }
        ensures more { self.old.room ≤ self.new.room }
        ensures holds { self.new.holds ≡ self.old.holds }
        ensures refusal { IsOkUnless result Refusal.NoMemory }
        ensures succeeds { 0 < self.old.room → IsOk result }
        ensures unchanged { OnErr result (self.new ≡ self.old) }
    {
        self.segments.reserve(1)?;
        if self.spare.is_none() {
            let alloc = *self.segments.allocator();
            self.spare = Some(Segment::new(alloc)?);
        }
        Ok(())
    }

    // The least other owner of a hold that keeps the need from the owner.
    fn least_blocker(&self, owner: u64, at: u8, need: &Need) -> Option<u64>
        ensures { IsLeast self.now.holds owner at need.now result }
    {
        if !self.bounds.may_block(owner, need) {
            return None;
        }
        let mut least = None;
        for segment in within_reach(&self.segments, self.bounds.widest(), need) {
            least = lesser(least, segment.least_blocker(owner, at, need));
        }
        least
    }
}

// The place of the segment that the hold belongs to: the last that begins at its place or before
// it, the first of all where none does. One halving.
fn place_of(segments: &[Segment], hold: &Hold) -> usize
    requires { AreOrdered segments.now }
    ensures { IsSegmentOf segments.now hold.now result }
{
    count_before(segments, hold).saturating_sub(1)
}

// How many segments begin at the place of the hold or before it.
fn count_before(segments: &[Segment], hold: &Hold) -> usize
    requires { AreOrdered segments.now }
    ensures parted { IsPartitionPoint (λ s. begins_by hold.now s ≡ true)
        (λ s. begins_by hold.now s ≡ false) segments.now result }
    ensures bound { result ≤ length segments.now }
{
    segments.partition_point(|segment| segment.begins_by(hold))
}

// The segments in which a hold may overlap the need, where none spans farther than the widest. Two
// halvings: one for the first that begins behind the need, and one among those in front of it.
fn within_reach<'s>(segments: &'s [Segment], widest: u64, need: &Need) -> &'s [Segment]
    requires order { AreOrdered segments.now }
    requires narrow { AreNarrow widest (all_holds segments.now) }
    ensures { AreInReach (all_holds segments.now) need.now (all_holds result.now) }
{
    let begun = &segments[..count_to(segments, need.high)];
    &begun[count_short(begun, widest, need)..]
}

// How many segments at the front have no hold that reaches the need: all but the last of those that
// begin too far below it for the widest. One halving.
fn count_short(segments: &[Segment], widest: u64, need: &Need) -> usize
    requires order { AreOrdered segments.now }
    requires narrow { AreNarrow widest (all_holds segments.now) }
    ensures short { All (λ h. h.need.high < need.now.low) (all_holds (take result segments.now)) }
    ensures bound { result ≤ length segments.now }
{
    if need.low <= widest {
        return 0;
    }
    count_to(segments, need.low - widest - 1).saturating_sub(1)
}

// How many segments begin with a hold whose lowest key is at most this one, or have none. One
// halving.
fn count_to(segments: &[Segment], key: u64) -> usize
    requires { AreOrdered segments.now }
    ensures parted { IsPartitionPoint (λ s. begins_to key s ≡ true)
        (λ s. begins_to key s ≡ false) segments.now result }
    ensures bound { result ≤ length segments.now }
{
    segments.partition_point(|segment| segment.begins_to(key))
}

// Whether there is a segment at the place that one more hold goes into.
fn is_open(segments: &[Segment], place: usize) -> bool
    ensures room { IsTrue result → (place < length segments.now) ×
        HoldsAt (λ s. length s ≢ segment_size) segments.now place }
    ensures full { result ≡ false → place < length segments.now →
        HoldsAt (λ s. length s ≡ segment_size) segments.now place }
{
    match segments.get(place) {
        Some(segment) => !segment.is_full(),
        None => false,
    }
}

// Puts the hold where the segment at the place is full, which is split, or there is none at all.
fn add_with(segments: &mut Vec<Segment>, place: usize, mut spare: Segment, hold: Hold) -> bool
    requires full { 0 < length segments.old.items → (place < length segments.old.items) ×
        HoldsAt (λ s. length s ≡ segment_size) segments.old.items place }
    requires spare { spare ≡ [] }
    requires room { vec_len segments.old < vec_capacity segments.old }
    requires order { AreOrdered segments.old.items }
    requires place { IsSegmentOf segments.old.items hold place }
    ensures held { IsAdded (all_holds segments.old.items) (all_holds segments.new.items) hold }
    ensures fresh { IsTrue result ↔ (Contains (all_holds segments.old.items) hold → ⊥) }
    ensures order { AreOrdered segments.new.items }
{
    if segments.is_empty() {
        let fresh = spare.add(hold);
        segments.push_reserved(spare);
        return fresh;
    }
    let fresh = segments[place].split(&mut spare, hold);
    let Ok(()) = segments.insert(place + 1, spare) else {
        unreachable!();
    };
    fresh
}

// Takes the hold out of the segment at the place, where it is there. A segment that is empty then
// is let go, but not the only one, so that an owner alone on a collection takes no memory for its
// next hold.
fn remove_at(segments: &mut Vec<Segment>, place: usize, hold: &Hold)
    requires order { AreOrdered segments.old.items }
    requires place { IsSegmentOf segments.old.items hold.now place }
    ensures holds { IsRemoved (all_holds segments.old.items) (all_holds segments.new.items)
        hold.now }
    ensures order { AreOrdered segments.new.items }
    ensures len { vec_len segments.new ≤ vec_len segments.old }
    ensures capacity { vec_capacity segments.new ≡ vec_capacity segments.old }
{
    if segments.is_empty() {
        return;
    }
    segments[place].remove(hold);
    if segments.len() > 1 && segments[place].is_empty() {
        segments.remove(place);
    }
}

// Whether there is no hold: no segment, or a single one that is empty.
fn is_free(segments: &[Segment]) -> bool
    ensures { IsTrue result → all_holds segments.now ≡ [] }
{
    match segments.first() {
        Some(first) => segments.len() == 1 && first.is_empty(),
        None => true,
    }
}
