// The making of a collection under the locks of all shelves and of the journal.
ghost use Rattle.std.specs.Prelude.{◌≡◌, OnOk, length};
ghost use Rattle.catalog.specs.declared.four.Four.{Four};
ghost use Rattle.catalog.specs.Fours.{which_of};
ghost use Rattle.steps.specs.Shelves.{ShelfState};
ghost use Rattle.txn.specs.declared.actions.Action.{Action};
ghost use Rattle.txn.specs.Shelved.{IsServed, SettlesMade};
ghost use Rattle.desks.specs.Seen.{Steps};
ghost use Rattle.desks.specs.Touches.{IsKnown, LeadsKnown};

use crate::desk::{Desk, note, wake};
use crate::naming::Naming;
use crate::quarter::Quarter;
use crate::shared::Shared;
use crate::shelf_desk::ShelfDesk;
use crate::shelves::{HeldAll, Shelves};
use crate::touch::{Touch, note_touch};
use calls::{Kind, Refusal};
use catalog::{Four, Parts};
use group_commit::{ClientSeat, Twin, TwinNear};
use records::Coded;
use std::marker::Brand;
use steps::Shelf;
use txn::Journal;

impl<J: Naming, B: Coded> Desk<J, B> {
    /// Makes a collection, on the shelf of the next number: a step of the client, which gives the
    /// count of commits and makings since the store was opened, this one included. It calls no
    /// device.
    ///
    /// The refusals of `Journal::make`, which leave journal and shelves as before. They are noted.
    pub fn make(
        &mut self,
        shelves: &Shelves<J, B>,
        shared: &Shared<J>,
        me: &mut ClientSeat,
        held: &mut HeldAll<'_, J, B>,
        name: &str,
        kind: Kind,
    ) -> Result<u64, Refusal>
        requires { me.old.table ≡ J.line }
        ensures { Steps J.origin me.old (Action.Make name.now kind result) me.new }
    {
        let Self {
            journal,
            nears,
            seat,
            counts,
            ..
        } = self;
        let made = make_over(&shelves.twins, journal, nears, me, held, name, kind);
        counts.note_commit(made.is_ok());
        note::<Brand, _>(&shared.line, seat, me, &(name, kind, &made));
        wake(&shared.signal, journal, made.is_ok());
        made
    }
}

// Makes a collection on the shelf of the next number.
fn make_over<J: Naming, B: Coded>(
    twins: &Four<Twin<Touch<Shelf<B::Shelf>>>>,
    journal: &mut Journal<B>,
    nears: &mut Four<TwinNear<Touch<Shelf<B::Shelf>>>>,
    me: &ClientSeat,
    held: &mut HeldAll<'_, J, B>,
    name: &str,
    kind: Kind,
) -> Result<u64, Refusal>
    requires twins { twins.now ≡ J.shelves }
    requires known { (f : Four (ShelfState B.Shelf)) × IsKnown ⟦<J as Naming>⟧ B.meaning B.making
        B.collections B.whole B.fits journal.old nears.old f }
    ensures { LeadsKnown ⟦<J as Naming>⟧ B.meaning B.making B.collections B.whole B.fits
        (λ b c. IsServed B.meaning B.making B.collections (Action.Make name.now kind) result
        (OnOk result (SettlesMade B.meaning B.making name.now kind b c)) b c)
        journal.old nears.old journal.new nears.new }
{
    let at = journal.count() % 4;
    if at == 0 {
        return make_on(twins, journal, nears, me, &mut held.first, name, kind);
    }
    if at == 1 {
        return make_on(twins, journal, nears, me, &mut held.second, name, kind);
    }
    if at == 2 {
        return make_on(twins, journal, nears, me, &mut held.third, name, kind);
    }
    make_on(twins, journal, nears, me, &mut held.fourth, name, kind)
}

// Makes a collection on this shelf, which is that of the next number.
fn make_on<J: Naming, B: Coded, Q: Quarter>(
    twins: &Four<Twin<Touch<Shelf<B::Shelf>>>>,
    journal: &mut Journal<B>,
    nears: &mut Four<TwinNear<Touch<Shelf<B::Shelf>>>>,
    me: &ClientSeat,
    held: &mut ShelfDesk<J, B, Q>,
    name: &str,
    kind: Kind,
) -> Result<u64, Refusal>
    requires twins { twins.now ≡ J.shelves }
    requires known { (f : Four (ShelfState B.Shelf)) × IsKnown ⟦<J as Naming>⟧ B.meaning B.making
        B.collections B.whole B.fits journal.old nears.old f }
    requires turn { which_of (length (B.Names.labels journal.old.names)) ≡ Q.which }
    ensures { LeadsKnown ⟦<J as Naming>⟧ B.meaning B.making B.collections B.whole B.fits
        (λ b c. IsServed B.meaning B.making B.collections (Action.Make name.now kind) result
        (OnOk result (SettlesMade B.meaning B.making name.now kind b c)) b c)
        journal.old nears.old journal.new nears.new }
{
    let at = Q::place();
    let twin = twins.of(at);
    let near = nears.of_mut(at);
    twin.compare(near, &mut held.far);
    let made = journal.make(&mut held.shelf, name, kind);
    note_touch::<Brand, _, _>(
        twin,
        near,
        &mut held.far,
        &held.shelf,
        &(me, name, kind, &made),
    );
    made
}
