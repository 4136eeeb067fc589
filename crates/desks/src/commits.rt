// Commits under the locks of those shelves that the transaction needs, and of the journal.
ghost use Rattle.std.specs.Prelude.{◌≡◌, IfSome, IsNone, IsSome, OnOk, length, map};
ghost use Rattle.calls.specs.Transactions.{laters_of};
ghost use Rattle.undo_log.specs.Entries.{stamped_entry};
ghost use Rattle.catalog.specs.declared.four.Four.{Four};
ghost use Rattle.catalog.specs.Fours.{Which, First, Second, Third, Fourth, rank, pick};
ghost use Rattle.steps.specs.Shelves.{ShelfState, CanRun, Settles, on_quarter};
ghost use Rattle.txn.specs.declared.actions.Action.{Action};
ghost use Rattle.txn.specs.Shelved.{IsIdle, IsServed, IsUntouched, SettlesWhole};
ghost use Rattle.desks.specs.Seen.{Steps};
ghost use Rattle.desks.specs.Owners.{HasEntered};
ghost use Rattle.desks.specs.Touches.{Leads, IsKnown, LeadsKnown};

use crate::desk::{Desk, note, wake};
use crate::naming::Naming;
use crate::shared::Shared;
use crate::shelf_desk::settle_held;
use crate::shelves::{Held, Shelves};
use crate::touch::Touch;
use calls::Refusal;
use catalog::{Four, Parts};
use group_commit::{ClientSeat, TwinNear};
use records::Coded;
use std::marker::Brand;
use steps::Shelf;
use txn::Journal;
use undo_log::{Handle, Stamped};

impl<J: Naming, B: Coded> Desk<J, B> {
    /// Commits a transaction, under the locks of the shelves that are held: a step of the client,
    /// which gives the count of commits and makings since the store was opened, this one included.
    /// None, with nothing changed, where it asked for something on a shelf that is not among them;
    /// so never where all are held. It calls no device.
    ///
    /// The refusals of `Journal::prepare_commit`, which leave journal and shelves as before. They
    /// are noted.
    pub fn commit(
        &mut self,
        shelves: &Shelves<J, B>,
        shared: &Shared<J>,
        me: &mut ClientSeat,
        held: &mut Held<'_, J, B>,
        handle: Handle,
    ) -> Option<Result<u64, Refusal>>
        requires line { me.old.table ≡ J.line }
        requires own { HasEntered me.old handle.number }
        ensures some { IfSome result (λ r. Steps J.origin me.old (Action.Commit handle.number r)
            me.new) }
        ensures none { IsNone result → me.new ≡ me.old }
        ensures all { IsSome held.old.first → IsSome held.old.second → IsSome held.old.third →
            IsSome held.old.fourth → IsSome result }
    {
        let needed = self.journal.shelves_of(handle);
        if !held.covers(&needed) {
            return None;
        }
        let Self {
            journal,
            nears,
            seat,
            counts,
            ..
        } = self;
        let committed = commit_over(shelves, journal, nears, held, handle);
        counts.note_commit(committed.is_ok());
        note::<Brand, _>(&shared.line, seat, me, &(handle.number, &committed));
        wake(&shared.signal, journal, committed.is_ok());
        Some(committed)
    }
}

// Commits the transaction, which asked for nothing on a shelf that is not held: its record waits
// before any need is given up.
fn commit_over<J: Naming, B: Coded>(
    shelves: &Shelves<J, B>,
    journal: &mut Journal<B>,
    nears: &mut Four<TwinNear<Touch<Shelf<B::Shelf>>>>,
    held: &mut Held<'_, J, B>,
    handle: Handle,
) -> Result<u64, Refusal>
    requires known { (f : Four (ShelfState B.Shelf)) × IsKnown ⟦<J as Naming>⟧ B.meaning B.making
        B.collections B.whole B.fits journal.old nears.old f }
    requires first { IsNone held.old.first →
        IsUntouched First handle.number journal.old.transactions.entries }
    requires second { IsNone held.old.second →
        IsUntouched Second handle.number journal.old.transactions.entries }
    requires third { IsNone held.old.third →
        IsUntouched Third handle.number journal.old.transactions.entries }
    requires fourth { IsNone held.old.fourth →
        IsUntouched Fourth handle.number journal.old.transactions.entries }
    ensures { LeadsKnown ⟦<J as Naming>⟧ B.meaning B.making B.collections B.whole B.fits
        (λ b c. IsServed B.meaning B.making B.collections (Action.Commit handle.number) result
        (OnOk result (SettlesWhole B.meaning B.making handle.number b c)) b c)
        journal.old nears.old journal.new nears.new }
{
    let place = journal.prepare_commit(handle)?;
    let ran = settle_all(
        shelves,
        nears,
        held,
        handle.number,
        journal.entries_of(handle),
    );
    journal.finish(handle.number, ran);
    Ok(place)
}

// Runs on each shelf what these entries of the transaction deferred or left there, and gives its
// needs up. A shelf that is not held stays, as there is nothing to settle on it. How many calls
// ran.
fn settle_all<J: Naming, B: Coded>(
    shelves: &Shelves<J, B>,
    nears: &mut Four<TwinNear<Touch<Shelf<B::Shelf>>>>,
    held: &mut Held<'_, J, B>,
    number: u64,
    entries: &[Stamped],
) -> u64
    requires tables { (w : Which) → (pick nears.old w).table ≡ pick J.shelves w }
    requires known { (f : Four (ShelfState B.Shelf)) ×
        ((w : Which) → Leads (pick nears.old w) (pick f w)) ×
        ((w : Which) → CanRun B.Shelf.meaning
        (on_quarter (rank w) (laters_of (map stamped_entry entries.now))) (pick f w).now) ×
        (IsNone held.old.first → IsIdle f.first number
        (on_quarter 0 (laters_of (map stamped_entry entries.now)))) ×
        (IsNone held.old.second → IsIdle f.second number
        (on_quarter 1 (laters_of (map stamped_entry entries.now)))) ×
        (IsNone held.old.third → IsIdle f.third number
        (on_quarter 2 (laters_of (map stamped_entry entries.now)))) ×
        (IsNone held.old.fourth → IsIdle f.fourth number
        (on_quarter 3 (laters_of (map stamped_entry entries.now)))) }
    ensures tables { (w : Which) → (pick nears.new w).table ≡ pick J.shelves w }
    ensures count { result ≡ length (laters_of (map stamped_entry entries.now)) }
    ensures settled { (f : Four (ShelfState B.Shelf)) →
        ((w : Which) → Leads (pick nears.old w) (pick f w)) → (g : Four (ShelfState B.Shelf)) ×
        ((w : Which) → Leads (pick nears.new w) (pick g w)) ×
        ((w : Which) → Settles B.Shelf.meaning (pick f w) number
        (on_quarter (rank w) (laters_of (map stamped_entry entries.now))) (pick g w)) }
{
    let (near, shelf) = (&mut nears.first, &mut held.first);
    let first = settle_held(&shelves.twins.first, near, shelf, number, entries);
    let (near, shelf) = (&mut nears.second, &mut held.second);
    let second = settle_held(&shelves.twins.second, near, shelf, number, entries);
    let (near, shelf) = (&mut nears.third, &mut held.third);
    let third = settle_held(&shelves.twins.third, near, shelf, number, entries);
    let (near, shelf) = (&mut nears.fourth, &mut held.fourth);
    let fourth = settle_held(&shelves.twins.fourth, near, shelf, number, entries);
    first + second + third + fourth
}
