// The ends of aborted transactions, under the locks of all shelves and of the journal.
ghost use Rattle.std.specs.Prelude.{◌≡◌, []};
ghost use Rattle.catalog.specs.declared.four.Four.{Four};
ghost use Rattle.catalog.specs.Fours.{Which, pick, put};
ghost use Rattle.steps.specs.Shelves.{ShelfState, Settles};
ghost use Rattle.txn.specs.declared.actions.Action.{Action};
ghost use Rattle.txn.specs.Shelved.{Serves};
ghost use Rattle.desks.specs.Seen.{Steps};
ghost use Rattle.desks.specs.Owners.{HasEntered};
ghost use Rattle.desks.specs.Touches.{Leads, IsKnown, LeadsKnown};

use crate::desk::{Desk, note, wake};
use crate::naming::Naming;
use crate::quarter::Quarter;
use crate::shared::Shared;
use crate::shelf_desk::ShelfDesk;
use crate::shelves::{HeldAll, Shelves};
use crate::touch::Touch;
use calls::Refusal;
use catalog::{Four, Parts};
use group_commit::{ClientSeat, Twin, TwinNear};
use records::Coded;
use std::marker::Brand;
use steps::Shelf;
use txn::Journal;
use undo_log::Handle;

impl<J: Naming, B: Coded> Desk<J, B> {
    /// Ends a transaction whose calls are all undone, under the locks of all shelves: a step of the
    /// client.
    ///
    /// The refusals of `Journal::prepare_end`, which leave journal and shelves as before. They are
    /// noted.
    pub(crate) fn ended(
        &mut self,
        shelves: &Shelves<J, B>,
        shared: &Shared<J>,
        me: &mut ClientSeat,
        held: &mut HeldAll<'_, J, B>,
        handle: Handle,
    ) -> Result<(), Refusal>
        requires line { me.old.table ≡ J.line }
        requires own { HasEntered me.old handle.number }
        ensures { Steps J.origin me.old (Action.Ended handle.number result) me.new }
    {
        let Self {
            journal,
            nears,
            seat,
            counts,
            ..
        } = self;
        let ended = end_over(&shelves.twins, journal, nears, held, handle);
        counts.note_abort(ended.is_ok());
        note::<Brand, _>(&shared.line, seat, me, &(handle.number, &ended));
        wake(&shared.signal, journal, false);
        ended
    }
}

// Ends the transaction: its record waits before any need is given up.
fn end_over<J: Naming, B: Coded>(
    twins: &Four<Twin<Touch<Shelf<B::Shelf>>>>,
    journal: &mut Journal<B>,
    nears: &mut Four<TwinNear<Touch<Shelf<B::Shelf>>>>,
    held: &mut HeldAll<'_, J, B>,
    handle: Handle,
) -> Result<(), Refusal>
    requires twins { twins.now ≡ J.shelves }
    requires known { (f : Four (ShelfState B.Shelf)) × IsKnown ⟦<J as Naming>⟧ B.meaning B.making
        B.collections B.whole B.fits journal.old nears.old f }
    ensures { LeadsKnown ⟦<J as Naming>⟧ B.meaning B.making B.collections B.whole B.fits
        (λ b c. Serves B.meaning B.making B.collections (Action.Ended handle.number) result b c)
        journal.old nears.old journal.new nears.new }
{
    journal.prepare_end(handle)?;
    give_up_all(twins, nears, held, handle.number);
    journal.finish(handle.number, 0);
    Ok(())
}

// Gives the needs of the transaction up on each shelf.
fn give_up_all<J: Naming, B: Coded>(
    twins: &Four<Twin<Touch<Shelf<B::Shelf>>>>,
    nears: &mut Four<TwinNear<Touch<Shelf<B::Shelf>>>>,
    held: &mut HeldAll<'_, J, B>,
    number: u64,
)
    requires twins { twins.now ≡ J.shelves }
    requires tables { (w : Which) → (pick nears.old w).table ≡ pick J.shelves w }
    ensures tables { (w : Which) → (pick nears.new w).table ≡ pick J.shelves w }
    ensures settled { (f : Four (ShelfState B.Shelf)) →
        ((w : Which) → Leads (pick nears.old w) (pick f w)) → (g : Four (ShelfState B.Shelf)) ×
        ((w : Which) → Leads (pick nears.new w) (pick g w)) ×
        ((w : Which) → Settles B.Shelf.meaning (pick f w) number [] (pick g w)) }
{
    give_up_on(twins, nears, &mut held.first, number);
    give_up_on(twins, nears, &mut held.second, number);
    give_up_on(twins, nears, &mut held.third, number);
    give_up_on(twins, nears, &mut held.fourth, number);
}

// Gives the needs of the transaction up on this shelf.
fn give_up_on<J: Naming, B: Coded, Q: Quarter>(
    twins: &Four<Twin<Touch<Shelf<B::Shelf>>>>,
    nears: &mut Four<TwinNear<Touch<Shelf<B::Shelf>>>>,
    held: &mut ShelfDesk<J, B, Q>,
    number: u64,
)
    requires twins { twins.now ≡ J.shelves }
    requires tables { (w : Which) → (pick nears.old w).table ≡ pick J.shelves w }
    ensures tables { (w : Which) → (pick nears.new w).table ≡ pick J.shelves w }
    ensures settled { (f : Four (ShelfState B.Shelf)) →
        ((w : Which) → Leads (pick nears.old w) (pick f w)) → (s : ShelfState B.Shelf) ×
        ((w : Which) → Leads (pick nears.new w) (pick (put f Q.which s) w)) ×
        Settles B.Shelf.meaning (pick f Q.which) number [] s }
{
    let place = Q::place();
    let (twin, near) = (twins.of(place), nears.of_mut(place));
    held.give_up(twin, near, number);
}
