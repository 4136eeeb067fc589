// What clients ask of collections under the journal's lock, at once and deferred.
ghost use Rattle.std.specs.Prelude.{◌≡◌, ℕ, Err, Option, None, Some, IfOk, IfErr, IfSome, IsNone};
ghost use Rattle.std.specs.Prelude.{IsSome};
ghost use Rattle.std.specs.Prelude.{OnOk, slice_get};
ghost use Rattle.calls.specs.declared.reply.Reply.{Reply};
ghost use Rattle.calls.specs.declared.when.When.{When};
ghost use Rattle.catalog.specs.Fours.{which_of};
ghost use Rattle.steps.specs.Looks.{IsLooked};
ghost use Rattle.txn.specs.declared.actions.Action.{Action};
ghost use Rattle.txn.specs.declared.actions.Target.{Target};
ghost use Rattle.desks.specs.Seen.{Steps};
ghost use Rattle.desks.specs.Owners.{HasEntered};

use crate::desk::{Desk, note, wake};
use crate::naming::Naming;
use crate::quarter::Quarter;
use crate::shared::Shared;
use crate::shelf_desk::ShelfDesk;
use crate::shelves::{HeldAll, Shelves};
use crate::touch::note_touch;
use calls::{Call, Refusal, Reply, When};
use group_commit::ClientSeat;
use records::Coded;
use std::marker::Brand;
use steps::Looked;
use undo_log::Handle;

impl<J: Naming, B: Coded> Desk<J, B> {
    /// The number of the collection of the name, which is asked for a call. It takes no memory.
    ///
    /// The refusals of `Journal::find`, each a step of the client that is noted.
    pub fn find_for_ask(
        &mut self,
        shared: &Shared<J>,
        me: &mut ClientSeat,
        number: u64,
        name: &str,
        call: &Call,
        when: When,
    ) -> Result<u8, Refusal>
        requires line { me.old.table ≡ J.line }
        requires own { HasEntered me.old number }
        ensures found { IfOk result (λ at. slice_get self.new.names at ≡ Some name.now) }
        ensures ok { OnOk result (me.new ≡ me.old) }
        ensures err { IfErr result (λ e. Steps J.origin me.old
            (Action.Ask number (Target.Named name.now None) call.now when (Err e)) me.new) }
    {
        match self.journal.find(name) {
            Ok(at) => Ok(at),
            Err(refusal) => {
                note::<Brand, _>(
                    &shared.line,
                    &mut self.seat,
                    me,
                    &(number, name, call, when, refusal),
                );
                Err(refusal)
            }
        }
    }

    /// The collection of a name is asked for a call, which was looked for at this number, and
    /// looked at on the shelf of it, which is held: a step of the client. The call is made at once,
    /// or deferred to the commit, where it is Done. None, with nothing changed, where the
    /// collection of the number does not have the name; so never where `find_for_ask` has found it
    /// there under the same hold. It calls no device.
    ///
    /// The refusals of `Journal::ask`, which leave journal and shelf as before. They are noted.
    pub fn ask<Q: Quarter>(
        &mut self,
        shelves: &Shelves<J, B>,
        shared: &Shared<J>,
        me: &mut ClientSeat,
        held: &mut ShelfDesk<J, B, Q>,
        handle: Handle,
        name: &str,
        at: u8,
        call: &Call,
        when: When,
        looked: Looked,
    ) -> Option<Result<Reply, Refusal>>
        requires line { me.old.table ≡ J.line }
        requires own { HasEntered me.old handle.number }
        requires place { which_of at ≡ Q.which }
        requires looked { IsLooked B.Shelf.meaning when J.origin.format held.old handle.number at
            call.now looked }
        ensures some { IfSome result (λ r. (found : Option ℕ) × Steps J.origin me.old
            (Action.Ask handle.number (Target.Named name.now found) call.now when r) me.new) }
        ensures none { IsNone result → me.new ≡ me.old }
        ensures there { slice_get self.old.names at ≡ Some name.now → IsSome result }
        ensures deferred { IfSome result (λ r.
            IfOk r (λ reply. when ≡ When.AtCommit → reply ≡ Reply.Done)) }
    {
        if !self.journal.is_at(name, at) {
            return None;
        }
        let Self {
            journal,
            nears,
            seat,
            counts,
            ..
        } = self;
        let twin = shelves.twins.of(at);
        let near = nears.of_mut(at);
        twin.compare(near, &mut held.far);
        let replied = journal.ask(&mut held.shelf, handle, at, call, when, looked);
        counts.note_answer(call, &replied);
        let parts = &(handle.number, name, at, call, when, &replied);
        note_touch::<Brand, _, _>(twin, near, &mut held.far, &held.shelf, &(&*me, parts));
        note::<Brand, _>(&shared.line, seat, me, parts);
        wake(&shared.signal, journal, false);
        Some(replied)
    }

    /// The collection of a name is asked for a call, which the journal has found at this number
    /// under this hold of its lock, and of those of all shelves: a step of the client, as `ask` has
    /// it. It is looked at first. It calls no device.
    ///
    /// The refusals of `Journal::ask`, which leave journal and shelf as before. They are noted.
    pub fn ask_found(
        &mut self,
        shelves: &Shelves<J, B>,
        shared: &Shared<J>,
        me: &mut ClientSeat,
        held: &mut HeldAll<'_, J, B>,
        handle: Handle,
        name: &str,
        at: u8,
        call: &Call,
        when: When,
    ) -> Result<Reply, Refusal>
        requires line { me.old.table ≡ J.line }
        requires own { HasEntered me.old handle.number }
        requires there { slice_get self.old.names at ≡ Some name.now }
        ensures step { (found : Option ℕ) × Steps J.origin me.old
            (Action.Ask handle.number (Target.Named name.now found) call.now when result) me.new }
        ensures deferred { IfOk result (λ reply. when ≡ When.AtCommit → reply ≡ Reply.Done) }
    {
        let first = &mut held.first;
        if at % 4 == 0 {
            return self.look_and_ask(shelves, shared, me, first, handle, name, at, call, when);
        }
        let second = &mut held.second;
        if at % 4 == 1 {
            return self.look_and_ask(shelves, shared, me, second, handle, name, at, call, when);
        }
        let third = &mut held.third;
        if at % 4 == 2 {
            return self.look_and_ask(shelves, shared, me, third, handle, name, at, call, when);
        }
        let fourth = &mut held.fourth;
        self.look_and_ask(shelves, shared, me, fourth, handle, name, at, call, when)
    }

    // Looks at the collection on this shelf, which is that of the number, and asks it.
    fn look_and_ask<Q: Quarter>(
        &mut self,
        shelves: &Shelves<J, B>,
        shared: &Shared<J>,
        me: &mut ClientSeat,
        held: &mut ShelfDesk<J, B, Q>,
        handle: Handle,
        name: &str,
        at: u8,
        call: &Call,
        when: When,
    ) -> Result<Reply, Refusal>
        requires line { me.old.table ≡ J.line }
        requires own { HasEntered me.old handle.number }
        requires place { which_of at ≡ Q.which }
        requires there { slice_get self.old.names at ≡ Some name.now }
        ensures step { (found : Option ℕ) × Steps J.origin me.old
            (Action.Ask handle.number (Target.Named name.now found) call.now when result) me.new }
        ensures deferred { IfOk result (λ reply. when ≡ When.AtCommit → reply ≡ Reply.Done) }
    {
        let looked = held.look(shared.format, handle.number, at, call, when);
        match self.ask(
            shelves, shared, me, held, handle, name, at, call, when, looked,
        ) {
            Some(answer) => answer,
            None => unreachable!(),
        }
    }
}
