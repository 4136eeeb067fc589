// The four shelves of a store, each under a lock of its own.
ghost use Rattle.std.specs.Prelude.{◌≡◌, ◌<◌, ◌≤◌, [], IsFalse, IsNone, IsSome, IsTrue};
ghost use Rattle.catalog.specs.Fours.{Which, pick};
ghost use Rattle.desks.specs.Touches.{Leads};

use crate::lock::Lock;
use crate::naming::Naming;
use crate::order::{Order, Ranked};
use crate::quarter::{FirstShelf, FourthShelf, SecondShelf, ThirdShelf};
use crate::shelf_desk::ShelfDesk;
use crate::touch::Touch;
use catalog::{Four, Parts};
use group_commit::{Twin, TwinFar, TwinNear};
use records::Coded;
use std::sync::{MutexGuard, Wait};
use steps::Shelf;

/// The four shelves, each under a lock of its own, and the twins by which the journal's lock knows
/// what they hold. Locks are taken in this order: the gatherer's, the keeper's, those of the
/// shelves by rising number, the journal's.
#[derive(Drop)]
pub struct Shelves<J: Naming, B: Coded> {
    pub first: Lock<ShelfDesk<J, B, FirstShelf>>,
    pub second: Lock<ShelfDesk<J, B, SecondShelf>>,
    pub third: Lock<ShelfDesk<J, B, ThirdShelf>>,
    pub fourth: Lock<ShelfDesk<J, B, FourthShelf>>,
    pub twins: Four<Twin<Touch<Shelf<B::Shelf>>>>,
    pub ghost twins_are: { twins ≡ J.shelves },
}

/// The guards of all four.
#[derive(Drop)]
pub struct HeldAll<'s, J: Naming, B: Coded> {
    pub first: MutexGuard<'s, ShelfDesk<J, B, FirstShelf>>,
    pub second: MutexGuard<'s, ShelfDesk<J, B, SecondShelf>>,
    pub third: MutexGuard<'s, ShelfDesk<J, B, ThirdShelf>>,
    pub fourth: MutexGuard<'s, ShelfDesk<J, B, FourthShelf>>,
}

/// The guards of those that are held.
#[derive(Drop)]
pub struct Held<'s, J: Naming, B: Coded> {
    pub first: Option<MutexGuard<'s, ShelfDesk<J, B, FirstShelf>>>,
    pub second: Option<MutexGuard<'s, ShelfDesk<J, B, SecondShelf>>>,
    pub third: Option<MutexGuard<'s, ShelfDesk<J, B, ThirdShelf>>>,
    pub fourth: Option<MutexGuard<'s, ShelfDesk<J, B, FourthShelf>>>,
}

impl<J: Naming, B: Coded> Shelves<J, B> {
    /// The shelves of a store that was just opened, whose twins have no touch yet. It takes no
    /// memory.
    pub fn new(
        twins: Four<Twin<Touch<Shelf<B::Shelf>>>>,
        nears: &mut Four<TwinNear<Touch<Shelf<B::Shelf>>>>,
        fars: Four<TwinFar<Touch<Shelf<B::Shelf>>>>,
        shelves: Four<Shelf<B::Shelf>>,
    ) -> Self
        requires twins { twins ≡ J.shelves }
        requires nears { (w : Which) →
            pick nears.old w ≡ record { table = pick twins w; list = [] } }
        requires fars { (w : Which) → pick fars w ≡ record { table = pick twins w; list = [] } }
        ensures tables { (w : Which) → (pick nears.new w).table ≡ pick J.shelves w }
        ensures known { (w : Which) → Leads (pick nears.new w) (pick shelves w) }
    {
        let (twin, near) = (&twins.first, &mut nears.first);
        let first = ShelfDesk::new(twin, near, fars.first, shelves.first);
        let (twin, near) = (&twins.second, &mut nears.second);
        let second = ShelfDesk::new(twin, near, fars.second, shelves.second);
        let (twin, near) = (&twins.third, &mut nears.third);
        let third = ShelfDesk::new(twin, near, fars.third, shelves.third);
        let (twin, near) = (&twins.fourth, &mut nears.fourth);
        let fourth = ShelfDesk::new(twin, near, fars.fourth, shelves.fourth);
        Self {
            first: Lock::new(first),
            second: Lock::new(second),
            third: Lock::new(third),
            fourth: Lock::new(fourth),
            twins,
        }
    }

    /// Takes the lock of each shelf, in their order. It takes no memory.
    pub fn lock_all<R: Wait>(&self, rt: &R, order: &mut Order) -> HeldAll<'_, J, B>
        requires { order.old < 3 }
        ensures { order.new ≡ 6 }
    {
        HeldAll {
            first: self.first.lock(rt, order),
            second: self.second.lock(rt, order),
            third: self.third.lock(rt, order),
            fourth: self.fourth.lock(rt, order),
        }
    }

    /// Takes the locks of the shelves that are wanted, in their order. It takes no memory.
    pub fn lock_some<R: Wait>(
        &self,
        rt: &R,
        wanted: &Four<bool>,
        order: &mut Order,
    ) -> Held<'_, J, B>
        requires { order.old < 3 }
        ensures order { order.new < 7 }
        ensures first { IsTrue wanted.now.first → IsSome result.first }
        ensures second { IsTrue wanted.now.second → IsSome result.second }
        ensures third { IsTrue wanted.now.third → IsSome result.third }
        ensures fourth { IsTrue wanted.now.fourth → IsSome result.fourth }
    {
        Held {
            first: lock_wanted(rt, &self.first, wanted.first, order),
            second: lock_wanted(rt, &self.second, wanted.second, order),
            third: lock_wanted(rt, &self.third, wanted.third, order),
            fourth: lock_wanted(rt, &self.fourth, wanted.fourth, order),
        }
    }
}

impl<J: Naming, B: Coded> Held<'_, J, B> {
    /// Whether all of these are held.
    pub(crate) fn covers(&self, needed: &Four<bool>) -> bool
        ensures first { IsTrue result → IsNone self.now.first → IsFalse needed.now.first }
        ensures second { IsTrue result → IsNone self.now.second → IsFalse needed.now.second }
        ensures third { IsTrue result → IsNone self.now.third → IsFalse needed.now.third }
        ensures fourth { IsTrue result → IsNone self.now.fourth → IsFalse needed.now.fourth }
        ensures all { IsSome self.now.first → IsSome self.now.second → IsSome self.now.third →
            IsSome self.now.fourth → IsTrue result }
    {
        (self.first.is_some() || !needed.first)
            && (self.second.is_some() || !needed.second)
            && (self.third.is_some() || !needed.third)
            && (self.fourth.is_some() || !needed.fourth)
    }
}

// Takes the lock where it is wanted.
fn lock_wanted<'s, T: Ranked, R: Wait>(
    rt: &R,
    lock: &'s Lock<T>,
    wanted: bool,
    order: &mut Order,
) -> Option<MutexGuard<'s, T>>
    requires { order.old < T.level }
    ensures order { order.new ≤ T.level }
    ensures held { IsTrue wanted → IsSome result }
{
    if !wanted {
        return None;
    }
    Some(lock.lock(rt, order))
}
