// Aborts under the locks of all shelves and of the journal: undoing, call by call, and the end.
ghost use Rattle.std.specs.Prelude.{◌≡◌, ◌+◌, true, false, length, IfErr, IfOk, OnOk};
ghost use Rattle.catalog.specs.Fours.{which_of};
ghost use Rattle.txn.specs.declared.actions.Action.{Action};
ghost use Rattle.txn.specs.Shelved.{HasNewestAt};
ghost use Rattle.desks.specs.Seen.{Steps};
ghost use Rattle.desks.specs.Owners.{HasEntered};
ghost use Rattle.desks.specs.TakenBack.{Undoes, TakesBack};

use crate::desk::{Desk, note, wake};
use crate::naming::Naming;
use crate::quarter::Quarter;
use crate::shared::Shared;
use crate::shelf_desk::ShelfDesk;
use crate::shelves::{HeldAll, Shelves};
use crate::touch::note_touch;
use calls::Refusal;
use calls::limits::{MAX_LIVE, MAX_PENDING};
use group_commit::ClientSeat;
use records::Coded;
use std::marker::Brand;
use undo_log::Handle;

impl<J: Naming, B: Coded> Desk<J, B> {
    /// Takes back a transaction, under the locks of all shelves: undoes its calls, the newest
    /// first, each a step of the client, and then ends it, one step more. It takes as long as the
    /// undoing of its calls, of which it has at most 1,024, and calls no device.
    ///
    /// The refusals of `Journal::back`, of `Journal::back_none` and of `Journal::prepare_end`,
    /// which leave journal and shelves as the step before left them: what was undone stays so, and
    /// the next call goes on from there. They are noted.
    pub fn abort(
        &mut self,
        shelves: &Shelves<J, B>,
        shared: &Shared<J>,
        me: &mut ClientSeat,
        held: &mut HeldAll<'_, J, B>,
        handle: Handle,
    ) -> Result<(), Refusal>
        requires line { me.old.table ≡ J.line }
        requires own { HasEntered me.old handle.number }
        ensures { TakesBack J.origin me.old handle.number result me.new }
    {
        self.undo(shelves, shared, me, held, handle)?;
        self.ended(shelves, shared, me, held, handle)
    }

    /// Whether the records of the transaction's undoing and of its end have room behind those that
    /// wait, with one left for each of 64 clients; or no committer is at work, so that it waits for
    /// none. It takes no memory.
    pub fn has_room_to_abort(&self, shared: &Shared<J>, handle: Handle) -> bool {
        let room = (MAX_PENDING - MAX_LIVE).saturating_sub(self.journal.waiting());
        self.journal.entries_of(handle).len() < room || !shared.signal.is_attended()
    }

    // Undoes the calls of the transaction, the newest first, until none is left.
    fn undo(
        &mut self,
        shelves: &Shelves<J, B>,
        shared: &Shared<J>,
        me: &mut ClientSeat,
        held: &mut HeldAll<'_, J, B>,
        handle: Handle,
    ) -> Result<(), Refusal>
        requires line { me.old.table ≡ J.line }
        requires own { HasEntered me.old handle.number }
        ensures { Undoes J.origin me.old handle.number result me.new }
    {
        loop {
            match self.find_newest(shared, me, handle) {
                Ok(at) => {
                    self.back_at(shelves, shared, me, held, handle, at)?;
                }
                Err(none_left) => {
                    none_left?;
                    return Ok(());
                }
            }
        }
    }

    // The number of the collection of the transaction's newest call that is not undone. Where none
    // is, what the undoing answers, a step of the client: false, or the refusals of
    // `Journal::back_none`.
    fn find_newest(
        &mut self,
        shared: &Shared<J>,
        me: &mut ClientSeat,
        handle: Handle,
    ) -> Result<u8, Result<bool, Refusal>>
        requires line { me.old.table ≡ J.line }
        requires own { HasEntered me.old handle.number }
        ensures newest { IfOk result (HasNewestAt handle.number self.new.entries) }
        ensures same { OnOk result (self.new ≡ self.old) }
        ensures ok { OnOk result (me.new ≡ me.old) }
        ensures err { IfErr result (λ r. Steps J.origin me.old (Action.Back handle.number r)
            me.new) }
        ensures none { IfErr result (λ r. IfOk r (λ undone. undone ≡ false)) }
    {
        match self.journal.newest(handle) {
            Some(at) => Ok(at),
            None => {
                let undone = self.journal.back_none(handle);
                note::<Brand, _>(&shared.line, &mut self.seat, me, &(handle.number, &undone));
                wake(&shared.signal, &self.journal, false);
                Err(undone)
            }
        }
    }

    // Undoes the newest call of the transaction, which is on the collection of the number.
    fn back_at(
        &mut self,
        shelves: &Shelves<J, B>,
        shared: &Shared<J>,
        me: &mut ClientSeat,
        held: &mut HeldAll<'_, J, B>,
        handle: Handle,
        at: u8,
    ) -> Result<bool, Refusal>
        requires line { me.old.table ≡ J.line }
        requires own { HasEntered me.old handle.number }
        requires newest { HasNewestAt handle.number self.old.entries at }
        ensures step { Steps J.origin me.old (Action.Back handle.number result) me.new }
        ensures fewer { IfOk result (λ undone. (undone ≡ true) ×
            (length self.new.entries + 1 ≡ length self.old.entries)) }
    {
        if at % 4 == 0 {
            return self.back(shelves, shared, me, &mut held.first, handle, at);
        }
        if at % 4 == 1 {
            return self.back(shelves, shared, me, &mut held.second, handle, at);
        }
        if at % 4 == 2 {
            return self.back(shelves, shared, me, &mut held.third, handle, at);
        }
        self.back(shelves, shared, me, &mut held.fourth, handle, at)
    }

    // Undoes it on this shelf, which is that of the number: a step of the client, behind which the
    // journal has one call less. The refusals of `Journal::back`, which leave journal and shelf as
    // before, are noted.
    fn back<Q: Quarter>(
        &mut self,
        shelves: &Shelves<J, B>,
        shared: &Shared<J>,
        me: &mut ClientSeat,
        held: &mut ShelfDesk<J, B, Q>,
        handle: Handle,
        at: u8,
    ) -> Result<bool, Refusal>
        requires line { me.old.table ≡ J.line }
        requires own { HasEntered me.old handle.number }
        requires place { which_of at ≡ Q.which }
        requires newest { HasNewestAt handle.number self.old.entries at }
        ensures step { Steps J.origin me.old (Action.Back handle.number result) me.new }
        ensures fewer { IfOk result (λ undone. (undone ≡ true) ×
            (length self.new.entries + 1 ≡ length self.old.entries)) }
    {
        let Self {
            journal,
            nears,
            seat,
            ..
        } = self;
        let twin = shelves.twins.of(at);
        let near = nears.of_mut(at);
        twin.compare(near, &mut held.far);
        let undone = journal.back(&mut held.shelf, handle, at);
        let parts = &(handle.number, &undone);
        note_touch::<Brand, _, _>(twin, near, &mut held.far, &held.shelf, &(&*me, parts));
        note::<Brand, _>(&shared.line, seat, me, parts);
        wake(&shared.signal, journal, false);
        undone
    }
}
