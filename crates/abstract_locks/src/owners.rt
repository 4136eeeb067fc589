// What each owner holds, on all collections.
ghost use Rattle.std.specs.Prelude.{◌≡◌, ◌<◌, ◌≤◌, ◌↔◌, [], ◌∷◌, ◌++◌, length, All, IsTrue, IsOk};
ghost use Rattle.std.specs.Prelude.{IfOk, IsOkUnless, OnOk, OnErr, Contains, vec_len, vec_capacity};
ghost use Rattle.std.specs.List.{insert};
ghost use Rattle.abstract_locks.specs.Holds.{IsAdded, IsGivenUp};
ghost use Rattle.abstract_locks.specs.Owners.{blank, IsSpare, AreRising, IsPlaceFor};
ghost use Rattle.abstract_locks.specs.Owners.{IsKept, AreKept};

use crate::table::Hold;
use calls::Refusal;
use std::alloc::{AllocError, Global};
use std::marker::Model;

// For how many holds a new list has room.
const FIRST_ROOM: usize = 16;

// Below so many spare lists one is made: with two, an owner that comes takes one and leaves one, so
// that owners who come and go need no look at the lists of others.
const FEW_SPARES: usize = 2;

// What one owner holds.
#[derive(Drop)]
struct Owned {
    owner: u64,
    holds: Vec<Hold>,
}

impl Model for Owned {
    ghost use Rattle.std.specs.Prelude.{◌<◌, ◌-◌, vec_len, vec_capacity};
    ghost use Rattle.abstract_locks.specs.Owners.{Listed};

    ghost Value = { Listed };

    ghost view = { λ list. record {
      owner = list.owner;
      holds = list.holds.items;
      room = vec_capacity list.holds - vec_len list.holds;
    } };

    ghost invariant = { λ list. 0 < vec_capacity list.holds };
}

impl Owned {
    // An empty one, with room.
    fn new(alloc: Global) -> Result<Self, AllocError>
        ensures { IfOk result IsSpare }
    {
        Ok(Self {
            owner: 0,
            holds: Vec::with_capacity(alloc, FIRST_ROOM)?,
        })
    }

    // Whose holds they are.
    fn owner(&self) -> u64
        ensures { result ≡ self.now.owner }
    {
        self.owner
    }

    // Its holds.
    fn holds(&self) -> &[Hold]
        ensures { result.now ≡ self.now.holds }
    {
        &self.holds
    }

    // Whether there is room for one more.
    fn has_room(&self) -> bool
        ensures { IsTrue result ↔ (0 < self.now.room) }
    {
        self.holds.len() < self.holds.capacity()
    }

    // Puts the hold behind the others, which are of the same owner. Answers whether there is room
    // for one more.
    fn add(&mut self, hold: Hold) -> bool
        requires { 0 < self.old.room }
        ensures owner { self.new.owner ≡ hold.owner }
        ensures holds { self.new.holds ≡ self.old.holds ++ hold ∷ [] }
        ensures room { IsTrue result → 0 < self.new.room }
    {
        self.owner = hold.owner;
        self.holds.push_reserved(hold);
        self.has_room()
    }

    // Makes room for one more hold. Where the list was full it moves.
    fn reserve(&mut self) -> Result<(), AllocError>
        ensures kept { IsKept self.old self.new }
        ensures room { OnOk result (0 < self.new.room) }
    {
        self.holds.reserve(1)
    }

    // Lets the holds go. The memory stays.
    fn clear(&mut self)
        ensures { IsSpare self.new }
    {
        self.holds.clear();
    }
}

/// What each owner holds, on all collections. Contracts see the holds of all, and whether there is
/// room for one more of any owner.
///
/// Each owner that holds something has a list of its own, and the lists stand in the order of their
/// owners, so that a halving finds one. Where an owner gives up, its list becomes a spare, with its
/// memory, for an owner that comes later; it is let go where that would take memory. So where
/// owners come one after another, their lists soon take no memory.
pub struct Owners {
    // by their owners
    lists: Vec<Owned>,
    // empty ones
    spares: Vec<Owned>,
    is_ready: bool,
}

// Written out, so that others call it in place of proving it again.
impl Drop for Owners {
    fn drop(self) {
        let Self {
            lists,
            spares,
            is_ready: _,
        } = self;
        drop(spares);
        drop(lists);
    }
}

impl Model for Owners {
    ghost use Rattle.std.specs.Prelude.{◌-◌, vec_len, vec_capacity};
    ghost use Rattle.abstract_locks.specs.Owners.{Noted, all_noted, AreListed};

    ghost Value = { Noted };

    ghost view = { λ owners. record {
      holds = all_noted owners.lists.items;
      ready = owners.is_ready;
    } };

    ghost invariant = { λ owners. AreListed owners.lists.items owners.spares.items
        (vec_capacity owners.lists - vec_len owners.lists) owners.is_ready };
}

impl Owners {
    /// Nobody holds anything, and there is no room. It takes no memory.
    pub fn new(alloc: Global) -> Self
        ensures { result ≡ blank }
    {
        Self {
            lists: Vec::new(alloc),
            spares: Vec::new(alloc),
            is_ready: false,
        }
    }

    /// Makes room for one more hold of any owner. NoMemory, which leaves all as it was, only where
    /// there was none. Where the last hold took the last room of its list, the last spare list or
    /// the last place for one, a look at each list; else at none. What is full moves, and a list is
    /// made where none is spare.
    pub fn reserve(&mut self) -> Result<(), Refusal>
        ensures ready { OnOk result (IsTrue self.new.ready) }
        ensures holds { self.new.holds ≡ self.old.holds }
        ensures refusal { IsOkUnless result Refusal.NoMemory }
        ensures succeeds { IsTrue self.old.ready → IsOk result }
        ensures unchanged { OnErr result (self.new ≡ self.old) }
    {
        if self.is_ready {
            return Ok(());
        }
        make_room(&mut self.lists)?;
        make_spare(&mut self.spares)?;
        self.is_ready = true;
        Ok(())
    }

    /// Puts the hold behind the others of its owner. It takes no memory. One halving of the lists;
    /// where the owner is new, those of greater owners move.
    pub fn add(&mut self, hold: Hold)
        requires { IsTrue self.old.ready }
        ensures { IsAdded self.old.holds self.new.holds hold }
    {
        match place_of(&self.lists, hold.owner) {
            Ok(place) => self.is_ready = self.lists[place].add(hold),
            Err(place) => {
                let list = take_spare(&mut self.spares, hold);
                let has_room = put_in(&mut self.lists, place, list);
                self.is_ready = has_room && !self.spares.is_empty();
            }
        }
    }

    /// All holds of the owner, and none of another. One halving of the lists.
    pub fn of(&self, owner: u64) -> &[Hold]
        ensures { (h : Hold) → Contains result.now h ↔
            (Contains self.now.holds h × (h.owner ≡ owner)) }
    {
        match place_of(&self.lists, owner) {
            Ok(place) => self.lists[place].holds(),
            Err(_) => &[],
        }
    }

    /// Lets all holds of the owner go. Room stays. It takes no memory. One halving of the lists;
    /// where the owner has one, those of greater owners move.
    pub fn give_up(&mut self, owner: u64)
        ensures holds { IsGivenUp self.old.holds self.new.holds owner }
        ensures ready { self.new.ready ≡ self.old.ready }
    {
        if let Ok(place) = place_of(&self.lists, owner) {
            let list = self.lists.remove(place);
            keep(&mut self.spares, list);
        }
    }
}

// Where the owner's list stands, or else the place where it belongs.
fn place_of(lists: &[Owned], owner: u64) -> Result<usize, usize>
    requires { AreRising lists.now }
    ensures { IsPlaceFor owner lists.now result }
{
    lists.binary_search_by_key(&owner, |list| list.owner())
}

// Takes a spare list for the hold.
fn take_spare(spares: &mut Vec<Owned>, hold: Hold) -> Owned
    requires some { 0 < length spares.old.items }
    requires spare { All IsSpare spares.old.items }
    ensures owner { result.owner ≡ hold.owner }
    ensures holds { result.holds ≡ hold ∷ [] }
    ensures left { All IsSpare spares.new.items }
{
    let Some(mut list) = spares.pop() else {
        unreachable!();
    };
    list.add(hold);
    list
}

// Puts the list in at the place. Answers whether there is room for one more hold in it, and for one
// more list beside it.
fn put_in(lists: &mut Vec<Owned>, place: usize, list: Owned) -> bool
    requires within { place ≤ length lists.old.items }
    requires room { vec_len lists.old < vec_capacity lists.old }
    ensures items { lists.new.items ≡ insert lists.old.items place list }
    ensures room { IsTrue result → (0 < list.room) × (vec_len lists.new < vec_capacity lists.new) }
{
    let has_room = list.has_room();
    let Ok(()) = lists.insert(place, list) else {
        unreachable!();
    };
    has_room && lists.len() < lists.capacity()
}

// Keeps the list as a spare, without its holds; or lets it go, where there is no room for it.
fn keep(spares: &mut Vec<Owned>, mut list: Owned)
    requires { All IsSpare spares.old.items }
    ensures spare { All IsSpare spares.new.items }
    ensures more { length spares.old.items ≤ length spares.new.items }
{
    if spares.len() < spares.capacity() {
        list.clear();
        spares.push_reserved(list);
    }
}

// Makes room for one more hold in each list, and for one more list.
fn make_room(lists: &mut Vec<Owned>) -> Result<(), AllocError>
    ensures kept { AreKept lists.old.items lists.new.items }
    ensures len { length lists.new.items ≡ length lists.old.items }
    ensures room { OnOk result (All (λ list. 0 < list.room) lists.new.items) }
    ensures place { OnOk result (vec_len lists.new < vec_capacity lists.new) }
{
    reserve_each(lists)?;
    lists.reserve(1)
}

// Makes room for one more hold in each list.
fn reserve_each(lists: &mut [Owned]) -> Result<(), AllocError>
    ensures kept { AreKept lists.old lists.new }
    ensures len { length lists.new ≡ length lists.old }
    ensures room { OnOk result (All (λ list. 0 < list.room) lists.new) }
{
    for list in lists.iter_mut() {
        list.reserve()?;
    }
    Ok(())
}

// Makes one more spare list, where there are few.
fn make_spare(spares: &mut Vec<Owned>) -> Result<(), AllocError>
    requires { All IsSpare spares.old.items }
    ensures spare { All IsSpare spares.new.items }
    ensures some { OnOk result (0 < length spares.new.items) }
{
    if spares.len() < FEW_SPARES {
        let alloc = *spares.allocator();
        spares.push(Owned::new(alloc)?)?;
    }
    Ok(())
}
