// The table of needs: what each owner holds on each collection.
ghost use Rattle.std.specs.Prelude.{◌≡◌, ◌<◌, ◌↔◌, [], length, IsTrue, IsOk, IsOkUnless, IfErr};
ghost use Rattle.std.specs.Prelude.{OnOk, OnErr};
ghost use Rattle.abstract_locks.specs.Collections.{AreOnTheirOwn, AreAlike, AreWithout};
ghost use Rattle.abstract_locks.specs.Holds.{hold, Blocks, IsClear, IsBusyRefusal};
ghost use Rattle.abstract_locks.specs.Holds.{IsAskRefusal, HasRoom, KeepsRoom, IsAdded, IsGivenUp};

use crate::needs::Needs;
use crate::owners::Owners;
use calls::{Need, Refusal};
use std::alloc::Global;
use std::marker::Model;

/// A need that a transaction holds on a collection.
#[derive(Clone, Copy, PartialEq, Eq)]
pub struct Hold {
    pub owner: u64,
    pub at: u8,
    pub need: Need,
}

impl Hold {
    /// Whether it keeps the need on the collection from the owner.
    pub fn blocks(&self, owner: u64, at: u8, need: &Need) -> bool
        ensures { IsTrue result ↔ Blocks owner at need.now self.now }
    {
        self.owner != owner && self.at == at && self.need.conflicts(need)
    }
}

/// The needs that live transactions hold. Contracts see the holds, and for how many more there is
/// room.
///
/// Each collection has a list of its own, which all owners share, in segments of some 100 holds. So
/// what is held on other collections costs a call nothing. What is held on its own collection costs
/// it halvings, and a look at the segments in which what it looks for may be.
///
/// Each owner has a list of its own besides, of what it holds on all of them. So to give up costs
/// it what it holds itself, whatever others hold.
pub struct NeedTable {
    // by the number of the collection, up to the greatest that room was asked for
    collections: Vec<Needs>,
    owners: Owners,
}

// Written out, so that the crates above call it in place of proving it again.
impl Drop for NeedTable {
    fn drop(self) {
        let Self {
            collections,
            owners,
        } = self;
        drop(owners);
        drop(collections);
    }
}

impl Model for NeedTable {
    ghost use Rattle.abstract_locks.specs.Holds.{Holdings};

    ghost Value = { Holdings };

    ghost use Rattle.abstract_locks.specs.Collections.{all_held, rooms, AreInTable};

    ghost view = { λ table. record {
      holds = all_held table.collections.items;
      rooms = rooms table.collections.items table.owners.ready;
    } };

    ghost invariant = { λ table. AreInTable table.collections.items table.owners.holds };
}

impl NeedTable {
    /// A table in which nobody holds a need. It takes no memory.
    pub fn new(alloc: Global) -> Self
        ensures { result.holds ≡ [] }
    {
        Self {
            collections: Vec::new(alloc),
            owners: Owners::new(alloc),
        }
    }

    /// Lets the owner hold the need on the collection, beside what is held. Refusals, in their
    /// order, each of which leaves the table as it was: Busy with the least other owner of a need
    /// on the collection that conflicts, exactly where there is one; NoMemory, only where no room
    /// is reserved for the collection. It costs what `test`, `reserve` and `grant` do.
    pub fn ask(&mut self, owner: u64, collection: u8, need: Need) -> Result<(), Refusal>
        ensures clear { OnOk result (IsClear self.old.holds owner collection need) }
        ensures held { OnOk result (IsAdded self.old.holds self.new.holds
            (hold owner collection need)) }
        ensures refused { IfErr result (IsAskRefusal self.old owner collection need) }
        ensures unchanged { OnErr result (self.new ≡ self.old) }
    {
        self.test(owner, collection, &need)?;
        self.reserve(collection)?;
        self.grant(owner, collection, need);
        Ok(())
    }

    /// Lets the owner hold the need on the collection, beside what is held, where the need is free
    /// and room is reserved. It tests neither, and takes no memory. Two halvings; the holds behind
    /// it in its segment move, and a segment that is full is split. Then one halving for the list
    /// of the owner; where that is new, those of greater owners move. A hold that the owner has
    /// already is not kept twice.
    pub fn grant(&mut self, owner: u64, collection: u8, need: Need)
        requires room { HasRoom self.old collection }
        requires clear { IsClear self.old.holds owner collection need }
        ensures held { IsAdded self.old.holds self.new.holds (hold owner collection need) }
    {
        let hold = Hold {
            owner,
            at: collection,
            need,
        };
        if self.collections[usize::from(collection)].add(hold) {
            self.owners.add(hold);
        }
    }

    /// Whether `ask` would find the need free: Busy as there, and no other refusal. It takes no
    /// memory. Two halvings of the collection's segments, a look at the bounds of each between, and
    /// at the holds of those in which one may be in the way; one look in all where bounds of all
    /// its holds tell that none is.
    pub fn test(&self, owner: u64, collection: u8, need: &Need) -> Result<(), Refusal>
        ensures clear { OnOk result (IsClear self.now.holds owner collection need.now) }
        ensures busy { IfErr result (IsBusyRefusal self.now.holds owner collection need.now) }
    {
        match self.collections.get(usize::from(collection)) {
            Some(needs) => needs.test(owner, collection, need),
            None => Ok(()),
        }
    }

    /// Makes room for one more hold on the collection. NoMemory, which leaves the table as it was,
    /// only where no room was reserved for the collection. It takes memory for a segment where the
    /// spare one was used, and its list of segments moves where that is full. The first for a
    /// collection makes a place for it and for those of lesser numbers, 256 at most. Where the last
    /// hold took the last room of its owner's list, or the last spare list or place for one, it
    /// looks at each owner's list once more: what is full moves, and a list is made where none is
    /// spare.
    pub fn reserve(&mut self, collection: u8) -> Result<(), Refusal>
        ensures room { OnOk result (HasRoom self.new collection) }
        ensures rooms { KeepsRoom self.old self.new }
        ensures holds { self.new.holds ≡ self.old.holds }
        ensures refusal { IsOkUnless result Refusal.NoMemory }
        ensures succeeds { HasRoom self.old collection → IsOk result }
        ensures unchanged { OnErr result (self.new ≡ self.old) }
    {
        let place = usize::from(collection);
        reach(&mut self.collections, place)?;
        self.collections[place].reserve()?;
        self.owners.reserve()
    }

    /// Takes all holds of the owner out of the table. Reserved room stays. It takes no memory. Two
    /// halvings for each hold of the owner, where those behind it in its segment move. What others
    /// hold is met in the halvings alone, and where the bounds of a segment are made anew. Two
    /// halvings more for the list of the owner; those of greater owners move.
    pub fn give_up(&mut self, owner: u64)
        ensures holds { IsGivenUp self.old.holds self.new.holds owner }
        ensures rooms { KeepsRoom self.old self.new }
    {
        remove_each(&mut self.collections, self.owners.of(owner));
        self.owners.give_up(owner);
    }
}

// Makes a place for the collection, and for those of lesser numbers.
fn reach(collections: &mut Vec<Needs>, place: usize) -> Result<(), Refusal>
    ensures alike { AreAlike collections.old.items collections.new.items }
    ensures reached { OnOk result (place < length collections.new.items) }
    ensures refusal { IsOkUnless result Refusal.NoMemory }
    ensures succeeds { place < length collections.old.items → IsOk result }
{
    let alloc = *collections.allocator();
    while collections.len() <= place {
        collections.push(Needs::new(alloc))?;
    }
    Ok(())
}

// Takes the holds out, each of its collection.
fn remove_each(collections: &mut [Needs], holds: &[Hold])
    requires { AreOnTheirOwn collections.old }
    ensures without { AreWithout holds.now collections.old collections.new }
    ensures len { length collections.new ≡ length collections.old }
{
    for hold in holds {
        let place = usize::from(hold.at);
        if place < collections.len() {
            collections[place].remove(hold);
        }
    }
}
