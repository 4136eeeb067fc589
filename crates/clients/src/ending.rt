// Ends of a client's transactions: commits and aborts.
ghost use Rattle.std.specs.Prelude.{◌≡◌, ℕ, [], ◌∷◌, ◌++◌, Ok, Err, ◌⊎◌, false, IfErr, IfSome};
ghost use Rattle.std.specs.Prelude.{IsNone, IsSome, IsTrue};
ghost use Rattle.calls.specs.declared.refusal.Refusal.{Refusal};
ghost use Rattle.txn.specs.declared.actions.Action.{Action};
ghost use Rattle.clients.specs.declared.phase.Phase.{Phase};
ghost use Rattle.clients.specs.Calls.{IsOpen, IsEnded, Acts, Does, Aborts, IsEntering};
ghost use Rattle.clients.specs.Calls.{ended_by, placed, back, backs};

use crate::client::{Client, close, each};
use crate::phase::Phase;
use crate::ticket::Ticket;
use calls::Refusal;
use catalog::Four;
use desks::{Desk, Handle, Held, HeldAll, Naming, Order};
use records::Coded;
use std::sync::Wait;

impl<'s, J: Naming, B: Coded> Client<'s, J, B> {
    /// Commits the client's transaction, and gives its ticket. What was deferred runs now, and the
    /// locks go. It is in effect for all at once, and kept through a stop a moment later: `kept`
    /// and `wait` tell. It wakes the store's committer. Call it only of a client with a
    /// transaction. It takes the locks of the shelves on which the transaction asked for something
    /// and then the journal's, each once; all of them where that was not enough. It calls no
    /// device.
    ///
    /// Falling where an abort was begun, Backlog, NoMemory. Of a transaction without a call also
    /// TooManyLive and Worn. The transaction stays open then, and can be committed again.
    ///
    /// ```text
    /// let ticket = client.commit(rt)?;
    /// ```
    pub fn commit<R: Wait>(&mut self, rt: &R) -> Result<Ticket, Refusal>
        requires { IsOpen self.old.phase }
        ensures step { Does J.origin self.old.phase self.old
            (λ n a. a ≡ Action.Commit n (placed result)) (λ e. result ≡ Err e) (ended_by result)
            self.new }
        ensures phase { IsEnded result self.new.phase }
    {
        self.shared.signal.let_drain(rt);
        let number = self.number();
        let placed = self.commit_on_few(rt);
        self.tell_commit(rt, number, placed.is_ok());
        placed
    }

    // Commits the transaction under the locks of the shelves on which it is known to have asked for
    // something, and where these were not enough, of all.
    fn commit_on_few<R: Wait>(&mut self, rt: &R) -> Result<Ticket, Refusal>
        requires { IsOpen self.old.phase }
        ensures step { Does J.origin self.old.phase self.old
            (λ n a. a ≡ Action.Commit n (placed result)) (λ e. result ≡ Err e) (ended_by result)
            self.new }
        ensures phase { IsEnded result self.new.phase }
    {
        let wanted = self.wanted();
        match self.commit_on(rt, &wanted) {
            Some(placed) => placed,
            None => self.commit_on_all(rt),
        }
    }

    // Commits the transaction under the locks of all shelves and the journal's.
    fn commit_on_all<R: Wait>(&mut self, rt: &R) -> Result<Ticket, Refusal>
        requires { IsOpen self.old.phase }
        ensures step { Does J.origin self.old.phase self.old
            (λ n a. a ≡ Action.Commit n (placed result)) (λ e. result ≡ Err e) (ended_by result)
            self.new }
        ensures phase { IsEnded result self.new.phase }
    {
        let Some(placed) = self.commit_on(rt, &each(true)) else {
            unreachable!();
        };
        placed
    }

    // Commits the transaction under the locks of these shelves and the journal's. None where it
    // asked for something on another shelf.
    fn commit_on<R: Wait>(&mut self, rt: &R, wanted: &Four<bool>) -> Option<Result<Ticket, Refusal>>
        requires { IsOpen self.old.phase }
        ensures step { IfSome result (λ r. Does J.origin self.old.phase self.old
            (λ n a. a ≡ Action.Commit n (placed r)) (λ e. r ≡ Err e) (ended_by r) self.new) }
        ensures phase { IfSome result (λ r. IsEnded r self.new.phase) }
        ensures none { IsNone result →
            IsEntering J.origin self.old.phase self.old self.new }
        ensures all { IsTrue wanted.now.first → IsTrue wanted.now.second →
            IsTrue wanted.now.third → IsTrue wanted.now.fourth → IsSome result }
    {
        let (shelves, mutex) = (self.shelves, self.desk);
        let mut order = Order::new();
        let mut held = shelves.lock_some(rt, wanted, &mut order);
        let mut desk = mutex.lock(rt, &mut order);
        self.commit_held(&mut desk, &mut held)
    }

    // Commits it where the locks are held.
    fn commit_held(
        &mut self,
        desk: &mut Desk<J, B>,
        held: &mut Held<'_, J, B>,
    ) -> Option<Result<Ticket, Refusal>>
        requires { IsOpen self.old.phase }
        ensures step { IfSome result (λ r. Does J.origin self.old.phase self.old
            (λ n a. a ≡ Action.Commit n (placed r)) (λ e. r ≡ Err e) (ended_by r) self.new) }
        ensures phase { IfSome result (λ r. IsEnded r self.new.phase) }
        ensures none { IsNone result →
            IsEntering J.origin self.old.phase self.old self.new }
        ensures all { IsSome held.old.first → IsSome held.old.second → IsSome held.old.third →
            IsSome held.old.fourth → IsSome result }
    {
        let number = match self.enter(desk) {
            Ok(number) => number,
            Err(refusal) => return Some(Err(refusal)),
        };
        let slot = self.slot;
        let handle = Handle { number, slot };
        match desk.commit(self.shelves, self.shared, &mut self.line, held, handle)? {
            Ok(place) => {
                close(&mut self.phase, &mut self.touched);
                Some(Ok(Ticket { place }))
            }
            Err(refusal) => Some(Err(refusal)),
        }
    }

    /// Aborts the client's transaction: takes its calls back one by one, the newest first, and then
    /// ends it, so that its locks go. Call it only of a client with a transaction. It takes the
    /// locks of all shelves and then the journal's, each once, for the time that the undoing of its
    /// calls takes, of which it has at most 1,024; once more where it has found no room for its
    /// records behind those that wait, and has slept until the committer made some; none where the
    /// transaction has asked for nothing. It calls no device.
    ///
    /// Backlog, NoMemory. The transaction stays open then. Once a call was taken back it can do
    /// nothing but be aborted again, which goes on from there.
    pub fn abort<R: Wait>(&mut self, rt: &R) -> Result<(), Refusal>
        requires { IsOpen self.old.phase }
        ensures step { Aborts J.origin self.old.phase self.old result self.new }
        ensures phase { IsEnded result self.new.phase }
    {
        match self.phase {
            Phase::Entered(number) => self.end_and_tell(rt, number),
            Phase::Drawn(_) => {
                close(&mut self.phase, &mut self.touched);
                Ok(())
            }
            Phase::Closed => unreachable!(),
        }
    }

    // Undoes a transaction's calls, ends it, and tells those in whose way it was.
    fn end_and_tell<R: Wait>(&mut self, rt: &R, number: u64) -> Result<(), Refusal>
        requires { self.old.phase ≡ Phase.Entered number }
        ensures step { (count : ℕ) ×
            (Acts J.origin self.old (backs number count ++ back number (Ok false) ∷ [])
            (Action.Ended number result) self.new
            ⊎ ((e : Refusal) × (result ≡ Err e) ×
            Acts J.origin self.old (backs number count) (back number (Err e)) self.new)) }
        ensures phase { self.new.phase ≡ ended_by result number }
    {
        let ended = self.end(rt, number);
        self.tell_taken_back(rt, number, ended.is_ok());
        ended
    }

    // Undoes a transaction's calls and ends it, and waits for the committer before, where too many
    // records wait.
    fn end<R: Wait>(&mut self, rt: &R, number: u64) -> Result<(), Refusal>
        requires { self.old.phase ≡ Phase.Entered number }
        ensures step { (count : ℕ) ×
            (Acts J.origin self.old (backs number count ++ back number (Ok false) ∷ [])
            (Action.Ended number result) self.new
            ⊎ ((e : Refusal) × (result ≡ Err e) ×
            Acts J.origin self.old (backs number count) (back number (Err e)) self.new)) }
        ensures phase { self.new.phase ≡ ended_by result number }
    {
        for _ in rt.forever() {
            self.shared.signal.let_drain(rt);
            if let Some(ended) = self.end_in_room(rt, number) {
                return ended;
            }
        }
        unreachable!()
    }

    // Undoes a transaction's calls and ends it, under the locks of all shelves and the journal's.
    // None, with nothing changed, where its records have no room behind those that wait.
    fn end_in_room<R: Wait>(&mut self, rt: &R, number: u64) -> Option<Result<(), Refusal>>
        requires { self.old.phase ≡ Phase.Entered number }
        ensures step { IfSome result (λ r. (count : ℕ) ×
            (Acts J.origin self.old (backs number count ++ back number (Ok false) ∷ [])
            (Action.Ended number r) self.new
            ⊎ ((e : Refusal) × (r ≡ Err e) ×
            Acts J.origin self.old (backs number count) (back number (Err e)) self.new))) }
        ensures phase { IfSome result (λ r. self.new.phase ≡ ended_by r number) }
        ensures none { IsNone result → self.new ≡ self.old }
    {
        let (shelves, mutex) = (self.shelves, self.desk);
        let mut order = Order::new();
        let mut held = shelves.lock_all(rt, &mut order);
        let mut desk = mutex.lock(rt, &mut order);
        let slot = self.slot;
        let handle = Handle { number, slot };
        if !desk.has_room_to_abort(self.shared, handle) {
            return None;
        }
        Some(self.end_held(&mut desk, &mut held, handle))
    }

    // Undoes its calls and ends it where the locks are held.
    fn end_held(
        &mut self,
        desk: &mut Desk<J, B>,
        held: &mut HeldAll<'_, J, B>,
        handle: Handle,
    ) -> Result<(), Refusal>
        requires { self.old.phase ≡ Phase.Entered handle.number }
        ensures step { (count : ℕ) ×
            (Acts J.origin self.old (backs handle.number count ++
            back handle.number (Ok false) ∷ []) (Action.Ended handle.number result) self.new
            ⊎ ((e : Refusal) × (result ≡ Err e) × Acts J.origin self.old
            (backs handle.number count) (back handle.number (Err e)) self.new)) }
        ensures phase { self.new.phase ≡ ended_by result handle.number }
    {
        desk.abort(self.shelves, self.shared, &mut self.line, held, handle)?;
        close(&mut self.phase, &mut self.touched);
        Ok(())
    }

    // The shelves on which the transaction asked for something.
    fn wanted(&self) -> Four<bool> {
        Four {
            first: self.touched.first,
            second: self.touched.second,
            third: self.touched.third,
            fourth: self.touched.fourth,
        }
    }
}
