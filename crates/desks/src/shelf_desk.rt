// What lies under a shelf's lock.
ghost use Rattle.std.specs.Prelude.{◌≡◌, [], IfOk, IfErr, IsNone, length, map, string_bytes};
ghost use Rattle.std.specs.Sync.Mutex.{mutex_guard_value};
ghost use Rattle.calls.specs.Names.{IsName};
ghost use Rattle.calls.specs.Transactions.{laters_of};
ghost use Rattle.undo_log.specs.Entries.{stamped_entry};
ghost use Rattle.catalog.specs.Fours.{rank, pick};
ghost use Rattle.catalog.specs.Shelving.{CopyRefused};
ghost use Rattle.steps.specs.Shelves.{ShelfState, CanRun, Settles, on_quarter};
ghost use Rattle.steps.specs.Looks.{IsLooked};
ghost use Rattle.txn.specs.Shelved.{IsIdle};
ghost use Rattle.desks.specs.Touches.{Leads, IsShelf};

use crate::naming::Naming;
use crate::order::Ranked;
use crate::quarter::Quarter;
use crate::touch::{Touch, note_touch};
use calls::{Call, Format, Refusal, When};
use catalog::{Parts, Shelved};
use group_commit::{Twin, TwinFar, TwinNear};
use records::Coded;
use std::marker::{Brand, Model, PhantomData};
use std::sync::MutexGuard;
use steps::{Looked, Shelf};
use undo_log::Stamped;

/// One of the four shelves, with the far end of its twin. Contracts see what the shelf holds, and
/// the needs.
pub struct ShelfDesk<J: Naming, B: Coded, Q: Quarter> {
    pub(crate) shelf: Shelf<B::Shelf>,
    pub(crate) far: TwinFar<Touch<Shelf<B::Shelf>>>,
    pub(crate) of: PhantomData<J>,
    pub(crate) quarter: PhantomData<Q>,
}

// Written out, so that the crates above call it in place of proving it again.
impl<J: Naming, B: Coded, Q: Quarter> Drop for ShelfDesk<J, B, Q> {
    fn drop(self) {
        let Self {
            shelf,
            far,
            of: _of,
            quarter: _quarter,
        } = self;
        drop(shelf);
        drop(far);
    }
}

impl<J: Naming, B: Coded, Q: Quarter> Model for ShelfDesk<J, B, Q> {
    ghost use Rattle.steps.specs.Shelves.{ShelfState};
    ghost use Rattle.desks.specs.Touches.{IsShelf};

    ghost Value = { ShelfState B.Shelf };

    ghost view = { λ d. d.shelf };

    ghost invariant = { λ d. IsShelf J.shelves Q.which d.shelf d.far };
}

impl<J: Naming, B: Coded, Q: Quarter> Ranked for ShelfDesk<J, B, Q> {
    ghost use Rattle.std.specs.Prelude.{◌+◌};
    ghost use Rattle.catalog.specs.Fours.{rank};

    ghost level = { 3 + rank Q.which };

    fn level() -> u8 {
        3 + Q::place()
    }
}

impl<J: Naming, B: Coded, Q: Quarter> ShelfDesk<J, B, Q> {
    /// The shelf of a store that was just opened. Both ends of its twin know what it holds. It
    /// takes no memory.
    pub(crate) fn new(
        twin: &Twin<Touch<Shelf<B::Shelf>>>,
        near: &mut TwinNear<Touch<Shelf<B::Shelf>>>,
        mut far: TwinFar<Touch<Shelf<B::Shelf>>>,
        shelf: Shelf<B::Shelf>,
    ) -> Self
        requires twin { twin.now ≡ pick J.shelves Q.which }
        requires near { near.old ≡ record { table = twin.now; list = [] } }
        requires far { far ≡ record { table = twin.now; list = [] } }
        ensures table { near.new.table ≡ pick J.shelves Q.which }
        ensures known { Leads near.new shelf }
    {
        note_touch::<Brand, _, _>(twin, near, &mut far, &shelf, &());
        Self {
            shelf,
            far,
            of: PhantomData,
            quarter: PhantomData,
        }
    }

    /// The shelf.
    pub(crate) fn shelf(&self) -> &Shelf<B::Shelf>
        ensures { result.now ≡ self.now }
    {
        &self.shelf
    }

    /// What it comes to here that the transaction asks for the call: `Shelf::look`. It changes
    /// nothing.
    pub fn look(&self, format: Format, number: u64, at: u8, call: &Call, when: When) -> Looked
        ensures { IsLooked B.Shelf.meaning when format self.now number at call.now result }
    {
        self.shelf.look(format, number, at, call, when)
    }

    /// A copy of the collection of the number, under the name: `Shelved::copy`.
    ///
    /// NoSuchCollection where it is not on the shelf, then NoMemory.
    pub fn copy(&self, at: u8, name: &String) -> Result<B::Part, Refusal>
        requires { IsName (string_bytes name.now) }
        ensures ok { IfOk result
            (λ part. B.Shelf.holds self.now.now at (B.Part.collection part).content) }
        ensures name { IfOk result
            (λ part. (B.Part.collection part).name ≡ string_bytes name.now) }
        ensures err { IfErr result (CopyRefused (B.Shelf.holds self.now.now at)) }
    {
        self.shelf.collections().copy(at, name)
    }

    /// Both ends know what the shelf holds. It changes nothing, and waits for nobody.
    pub fn compare(
        &mut self,
        twin: &Twin<Touch<Shelf<B::Shelf>>>,
        near: &mut TwinNear<Touch<Shelf<B::Shelf>>>,
    )
        requires twin { twin.now ≡ pick J.shelves Q.which }
        requires near { near.old.table ≡ twin.now }
        ensures near { near.new ≡ near.old }
        ensures same { self.new ≡ self.old }
        ensures known { Leads near.old self.old }
    {
        twin.compare(near, &mut self.far);
    }

    /// Runs what these entries of the transaction deferred or left on this shelf, and gives its
    /// needs up, as `Shelf::settle_quarter` does. Both ends know it. How many calls ran. It takes
    /// no memory.
    pub(crate) fn settle(
        &mut self,
        twin: &Twin<Touch<Shelf<B::Shelf>>>,
        near: &mut TwinNear<Touch<Shelf<B::Shelf>>>,
        number: u64,
        entries: &[Stamped],
    ) -> u64
        requires twin { twin.now ≡ pick J.shelves Q.which }
        requires near { near.old.table ≡ twin.now }
        requires can { (s : ShelfState B.Shelf) → Leads near.old s →
            CanRun B.Shelf.meaning (on_quarter (rank Q.which)
            (laters_of (map stamped_entry entries.now)))
            s.now }
        ensures table { near.new.table ≡ near.old.table }
        ensures count { result ≡
            length (on_quarter (rank Q.which) (laters_of (map stamped_entry entries.now))) }
        ensures settled { (s : ShelfState B.Shelf) → Leads near.old s →
            (t : ShelfState B.Shelf) × Leads near.new t × Settles B.Shelf.meaning s number
            (on_quarter (rank Q.which) (laters_of (map stamped_entry entries.now))) t }
    {
        twin.compare(near, &mut self.far);
        let ran = self.shelf.settle_quarter(number, entries, Q::place());
        note_touch::<Brand, _, _>(twin, near, &mut self.far, &self.shelf, &());
        ran
    }

    /// Gives the needs of the transaction up on this shelf. Both ends know it. It takes no memory.
    pub(crate) fn give_up(
        &mut self,
        twin: &Twin<Touch<Shelf<B::Shelf>>>,
        near: &mut TwinNear<Touch<Shelf<B::Shelf>>>,
        number: u64,
    )
        requires twin { twin.now ≡ pick J.shelves Q.which }
        requires near { near.old.table ≡ twin.now }
        ensures table { near.new.table ≡ near.old.table }
        ensures settled { (s : ShelfState B.Shelf) → Leads near.old s →
            (t : ShelfState B.Shelf) × Leads near.new t ×
            Settles B.Shelf.meaning s number [] t }
    {
        twin.compare(near, &mut self.far);
        self.shelf.give_up(number);
        note_touch::<Brand, _, _>(twin, near, &mut self.far, &self.shelf, &());
    }

    /// The shelf, where no thread shares the desk any more. It takes no memory.
    pub fn into_shelf(self) -> Shelf<B::Shelf>
        ensures { result ≡ self }
    {
        let Self {
            shelf,
            far,
            of: _of,
            quarter: _quarter,
        } = self;
        drop(far);
        shelf
    }
}

// Settles the transaction on the shelf, where that is held. Where it is not, nothing is to be run
// there, and the transaction has no need there.
pub(crate) fn settle_held<J: Naming, B: Coded, Q: Quarter>(
    twin: &Twin<Touch<Shelf<B::Shelf>>>,
    near: &mut TwinNear<Touch<Shelf<B::Shelf>>>,
    held: &mut Option<MutexGuard<'_, ShelfDesk<J, B, Q>>>,
    number: u64,
    entries: &[Stamped],
) -> u64
    requires twin { twin.now ≡ pick J.shelves Q.which }
    requires near { near.old.table ≡ twin.now }
    requires can { (s : ShelfState B.Shelf) → Leads near.old s →
        CanRun B.Shelf.meaning (on_quarter (rank Q.which)
        (laters_of (map stamped_entry entries.now))) s.now }
    requires idle { IsNone held.old → (s : ShelfState B.Shelf) × Leads near.old s ×
        IsIdle s number (on_quarter (rank Q.which) (laters_of (map stamped_entry entries.now))) }
    ensures table { near.new.table ≡ near.old.table }
    ensures count { result ≡ length
        (on_quarter (rank Q.which) (laters_of (map stamped_entry entries.now))) }
    ensures settled { (s : ShelfState B.Shelf) → Leads near.old s →
        (t : ShelfState B.Shelf) × Leads near.new t × Settles B.Shelf.meaning s number
        (on_quarter (rank Q.which) (laters_of (map stamped_entry entries.now))) t }
{
    let Some(desk) = held else {
        return 0;
    };
    desk.settle(twin, near, number, entries)
}
