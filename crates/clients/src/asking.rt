// What a client asks of collections, at once and deferred.
ghost use Rattle.std.specs.Prelude.{◌≡◌, Err, Some, IfOk, IfErr, IfSome, IsNone, OnErr, OnOk};
ghost use Rattle.std.specs.Prelude.{slice_get};
ghost use Rattle.catalog.specs.Fours.{which_of};
ghost use Rattle.calls.specs.declared.reply.Reply.{Reply};
ghost use Rattle.calls.specs.declared.when.When.{When};
ghost use Rattle.steps.specs.Looks.{IsLooked};
ghost use Rattle.clients.specs.declared.phase.Phase.{Phase};
ghost use Rattle.clients.specs.Calls.{IsOpen, Does, DoesInRoom, IsEntering, number_in};
ghost use Rattle.clients.specs.Calls.{replied};
ghost use Rattle.clients.specs.Calls.{AsksFor};

use crate::client::Client;
use crate::miss::Miss;
use crate::phase::Phase;
use crate::request::Request;
use calls::{Call, Refusal, Reply, When};
use desks::{Change, Desk, Footprint, Handle, HeldAll, Lock, Naming, Order, Quarter, ShelfDesk};
use records::Coded;
use std::sync::Wait;
use steps::Looked;

impl<'s, J: Naming, B: Coded> Client<'s, J, B> {
    /// Makes a call of the client's transaction on the collection of the name at once, and gives
    /// the reply. Call it only of a client with a transaction.
    ///
    /// The refusals of `ask`, which leave what those leave.
    ///
    /// ```text
    /// match client.call(rt, "jobs", &Call::Take)? {
    ///     Reply::Item(priority, tag) => work(priority, tag),
    ///     _ => rest(),
    /// }
    /// ```
    pub fn call<R: Wait>(&mut self, rt: &R, name: &str, call: &Call) -> Result<Reply, Refusal>
        requires { IsOpen self.old.phase }
        ensures step { DoesInRoom J.origin self.old.phase self.old
            (AsksFor name.now call.now When.Now result) result self.new }
        ensures open { IsOpen self.new.phase }
    {
        self.ask(rt, name, call, When::Now)
    }

    /// Defers a bump or a fill to the commit of the client's transaction. Call it only of a client
    /// with a transaction.
    ///
    /// The refusals of `ask`, which leave what those leave.
    pub fn later<R: Wait>(&mut self, rt: &R, name: &str, call: &Call) -> Result<(), Refusal>
        requires { IsOpen self.old.phase }
        ensures step { DoesInRoom J.origin self.old.phase self.old
            (AsksFor name.now call.now When.AtCommit (replied result)) result self.new }
        ensures open { IsOpen self.new.phase }
    {
        self.ask(rt, name, call, When::AtCommit)?;
        Ok(())
    }

    /// Asks the collection of the name for a call of the client's transaction, and gives the reply.
    /// The call is made at once, or deferred to the commit: then its reply is Done, it shows in no
    /// reply until the commit, and an abort drops it. As soon as it is accepted, calls of other
    /// transactions that conflict with it are answered Busy, until this one ends. Call it only of a
    /// client with a transaction. It takes the lock of the shelf of the collection and then the
    /// journal's, each once; the journal's once before where the client does not know the
    /// collection's number, and those of all shelves and the journal's once behind where it was
    /// mistaken in it. It takes them again where it has waited for a checkpoint (see `Client`). It
    /// calls no device. Before the first call of a transaction it stands back, for a tenth of a
    /// second at most, where another client goes first (see `await_change`).
    ///
    /// Full where what the call adds has no room (see `Client`). At the first call of a transaction
    /// TooManyLive, Worn, Backlog, NoMemory, and then the book does not know the transaction yet.
    /// After that BadName, TooLong, NoSuchCollection, Falling, WrongKind, BadArg, TooLong of a
    /// value, Worn, TooManyCalls, Backlog, NoMemory, AlreadyGoing, Busy, NoMemory. BadArg is also
    /// what a deferred call is refused that `Call::is_deferrable` does not take. The collections
    /// and the transaction's locks are as before then, and the transaction goes on.
    pub fn ask<R: Wait>(
        &mut self,
        rt: &R,
        name: &str,
        call: &Call,
        when: When,
    ) -> Result<Reply, Refusal>
        requires { IsOpen self.old.phase }
        ensures step { DoesInRoom J.origin self.old.phase self.old
            (AsksFor name.now call.now when result) result self.new }
        ensures deferred { IfOk result (λ reply. when ≡ When.AtCommit → reply ≡ Reply.Done) }
        ensures open { IsOpen self.new.phase }
    {
        self.arrive(rt);
        let request = Request { name, call, when };
        let hint = self.hints.told(name);
        self.stand_back(rt, &request, hint);
        self.ask_in_room(rt, &request, hint)
    }

    // Asks, and where what the call adds fits behind a checkpoint, perhaps, waits for who takes
    // that, and asks again.
    fn ask_in_room<R: Wait>(
        &mut self,
        rt: &R,
        request: &Request<'_>,
        hint: Option<u8>,
    ) -> Result<Reply, Refusal>
        requires { IsOpen self.old.phase }
        ensures step { DoesInRoom J.origin self.old.phase self.old
            (AsksFor request.now.name.now request.now.call.now request.now.when result) result
            self.new }
        ensures deferred { IfOk result
            (λ reply. request.now.when ≡ When.AtCommit → reply ≡ Reply.Done) }
        ensures open { IsOpen self.new.phase }
    {
        for _ in rt.forever() {
            match self.ask_once(rt, request, hint) {
                Ok(answer) => return answer,
                Err(Miss::NoRoomYet) => self.shared.signal.await_room(rt),
                Err(Miss::NoRoom) => return Err(Refusal::Full),
            }
        }
        unreachable!()
    }

    // Asks under the locks of the collection's shelf and the journal's, and where it is not on that
    // shelf, under those of all shelves and the journal's.
    fn ask_once<R: Wait>(
        &mut self,
        rt: &R,
        request: &Request<'_>,
        hint: Option<u8>,
    ) -> Result<Result<Reply, Refusal>, Miss>
        requires { IsOpen self.old.phase }
        ensures done { IfOk result (λ r. Does J.origin self.old.phase self.old
            (AsksFor request.now.name.now request.now.call.now request.now.when r)
            (λ e. r ≡ Err e) Phase.Entered self.new) }
        ensures deferred { IfOk result (λ r.
            IfOk r (λ reply. request.now.when ≡ When.AtCommit → reply ≡ Reply.Done)) }
        ensures miss { OnErr result (IsEntering J.origin self.old.phase self.old self.new) }
    {
        let at = match self.place_of(rt, request, hint) {
            Ok(at) => at,
            Err(refusal) => return Ok(Err(refusal)),
        };
        match self.ask_at(rt, request, at)? {
            Some(answer) => {
                self.remember(request, at, &answer);
                Ok(answer)
            }
            None => self.ask_on_all(rt, request),
        }
    }

    // The number of the collection of the name: the one that is told, or the one that the journal
    // finds, for which the transaction is entered first.
    fn place_of<R: Wait>(
        &mut self,
        rt: &R,
        request: &Request<'_>,
        hint: Option<u8>,
    ) -> Result<u8, Refusal>
        requires { IsOpen self.old.phase }
        ensures ok { OnOk result (IsEntering J.origin self.old.phase self.old self.new) }
        ensures err { IfErr result (λ e. Does J.origin self.old.phase self.old
            (AsksFor request.now.name.now request.now.call.now request.now.when (Err e))
            (λ d. e ≡ d) Phase.Entered self.new) }
    {
        if let Some(at) = hint {
            return Ok(at);
        }
        let mutex = self.desk;
        let mut desk = mutex.lock(rt, &mut Order::new());
        self.find(&mut desk, request)
    }

    // The number that the journal finds.
    fn find(&mut self, desk: &mut Desk<J, B>, request: &Request<'_>) -> Result<u8, Refusal>
        requires { IsOpen self.old.phase }
        ensures ok { OnOk result (IsEntering J.origin self.old.phase self.old self.new) }
        ensures entered { OnOk result (self.new.phase ≡ Phase.Entered (number_in self.new.phase)) }
        ensures found { IfOk result (λ at. slice_get desk.new.names at ≡
            Some request.now.name.now) }
        ensures err { IfErr result (λ e. Does J.origin self.old.phase self.old
            (AsksFor request.now.name.now request.now.call.now request.now.when (Err e))
            (λ d. e ≡ d) Phase.Entered self.new) }
    {
        let number = self.enter(desk)?;
        desk.find_for_ask(
            self.shared,
            &mut self.line,
            number,
            request.name,
            request.call,
            request.when,
        )
    }

    // Asks the collection of the number, under the locks of its shelf and of the journal. None
    // where that has another name; not where what the call adds has no room.
    fn ask_at<R: Wait>(
        &mut self,
        rt: &R,
        request: &Request<'_>,
        at: u8,
    ) -> Result<Option<Result<Reply, Refusal>>, Miss>
        requires { IsOpen self.old.phase }
        ensures done { IfOk result (λ o. IfSome o (λ r. Does J.origin self.old.phase self.old
            (AsksFor request.now.name.now request.now.call.now request.now.when r)
            (λ e. r ≡ Err e) Phase.Entered self.new)) }
        ensures deferred { IfOk result (λ o. IfSome o (λ r.
            IfOk r (λ reply. request.now.when ≡ When.AtCommit → reply ≡ Reply.Done))) }
        ensures elsewhere { IfOk result (λ o. IsNone o →
            IsEntering J.origin self.old.phase self.old self.new) }
        ensures miss { OnErr result (self.new ≡ self.old) }
    {
        let shelves = self.shelves;
        if at % 4 == 0 {
            return self.ask_on(rt, &shelves.first, request, at);
        }
        if at % 4 == 1 {
            return self.ask_on(rt, &shelves.second, request, at);
        }
        if at % 4 == 2 {
            return self.ask_on(rt, &shelves.third, request, at);
        }
        self.ask_on(rt, &shelves.fourth, request, at)
    }

    // Asks it under the lock of this shelf, which is that of the number, and then the journal's.
    fn ask_on<Q: Quarter, R: Wait>(
        &mut self,
        rt: &R,
        lock: &Lock<ShelfDesk<J, B, Q>>,
        request: &Request<'_>,
        at: u8,
    ) -> Result<Option<Result<Reply, Refusal>>, Miss>
        requires going { IsOpen self.old.phase }
        requires place { which_of at ≡ Q.which }
        ensures done { IfOk result (λ o. IfSome o (λ r. Does J.origin self.old.phase self.old
            (AsksFor request.now.name.now request.now.call.now request.now.when r)
            (λ e. r ≡ Err e) Phase.Entered self.new)) }
        ensures deferred { IfOk result (λ o. IfSome o (λ r.
            IfOk r (λ reply. request.now.when ≡ When.AtCommit → reply ≡ Reply.Done))) }
        ensures elsewhere { IfOk result (λ o. IsNone o →
            IsEntering J.origin self.old.phase self.old self.new) }
        ensures miss { OnErr result (self.new ≡ self.old) }
    {
        let mut order = Order::new();
        let mut held = lock.lock(rt, &mut order);
        let looked = held.look(
            self.shared.format,
            self.number(),
            at,
            request.call,
            request.when,
        );
        let mutex = self.desk;
        let mut desk = mutex.lock(rt, &mut order);
        self.check_room(&desk, Footprint::of_ask(request.call, request.when))?;
        let answer = self.ask_held(&mut desk, &mut held, request, at, looked);
        if let Some(answer) = &answer {
            note_answer(&mut desk, request, answer);
        }
        Ok(answer)
    }

    // Asks it where both locks are held, with what the look came to under the shelf's.
    fn ask_held<Q: Quarter>(
        &mut self,
        desk: &mut Desk<J, B>,
        held: &mut ShelfDesk<J, B, Q>,
        request: &Request<'_>,
        at: u8,
        looked: Looked,
    ) -> Option<Result<Reply, Refusal>>
        requires going { IsOpen self.old.phase }
        requires place { which_of at ≡ Q.which }
        requires looked { IsLooked B.Shelf.meaning request.now.when J.origin.format held.old
            (number_in self.old.phase) at request.now.call.now looked }
        ensures some { IfSome result (λ r. Does J.origin self.old.phase self.old
            (AsksFor request.now.name.now request.now.call.now request.now.when r)
            (λ e. r ≡ Err e) Phase.Entered self.new) }
        ensures deferred { IfSome result (λ r.
            IfOk r (λ reply. request.now.when ≡ When.AtCommit → reply ≡ Reply.Done)) }
        ensures none { IsNone result →
            IsEntering J.origin self.old.phase self.old self.new }
    {
        match self.enter(desk) {
            Ok(number) => desk.ask(
                self.shelves,
                self.shared,
                &mut self.line,
                held,
                Handle {
                    number,
                    slot: self.slot,
                },
                request.name,
                at,
                request.call,
                request.when,
                looked,
            ),
            Err(refusal) => {
                drop(looked);
                Some(Err(refusal))
            }
        }
    }

    // Asks the collection of the name under the locks of all shelves and the journal's, where the
    // journal finds it and it is asked under one hold. Not where what the call adds has no room.
    fn ask_on_all<R: Wait>(
        &mut self,
        rt: &R,
        request: &Request<'_>,
    ) -> Result<Result<Reply, Refusal>, Miss>
        requires { IsOpen self.old.phase }
        ensures done { IfOk result (λ r. Does J.origin self.old.phase self.old
            (AsksFor request.now.name.now request.now.call.now request.now.when r)
            (λ e. r ≡ Err e) Phase.Entered self.new) }
        ensures deferred { IfOk result (λ r.
            IfOk r (λ reply. request.now.when ≡ When.AtCommit → reply ≡ Reply.Done)) }
        ensures miss { OnErr result (self.new ≡ self.old) }
    {
        let (shelves, mutex) = (self.shelves, self.desk);
        let mut order = Order::new();
        let mut held = shelves.lock_all(rt, &mut order);
        let mut desk = mutex.lock(rt, &mut order);
        self.check_room(&desk, Footprint::of_ask(request.call, request.when))?;
        let answer = self.find_and_ask(&mut desk, &mut held, request);
        note_answer(&mut desk, request, &answer);
        Ok(answer)
    }

    // Has the journal find the collection of the name, and asks it where that is.
    fn find_and_ask(
        &mut self,
        desk: &mut Desk<J, B>,
        held: &mut HeldAll<'_, J, B>,
        request: &Request<'_>,
    ) -> Result<Reply, Refusal>
        requires { IsOpen self.old.phase }
        ensures done { Does J.origin self.old.phase self.old
            (AsksFor request.now.name.now request.now.call.now request.now.when result)
            (λ e. result ≡ Err e) Phase.Entered self.new }
        ensures deferred { IfOk result
            (λ reply. request.now.when ≡ When.AtCommit → reply ≡ Reply.Done) }
    {
        let at = self.find(desk, request)?;
        let answer = self.ask_found(desk, held, request, at);
        self.remember(request, at, &answer);
        answer
    }

    // Asks it where the journal has found it under this hold.
    fn ask_found(
        &mut self,
        desk: &mut Desk<J, B>,
        held: &mut HeldAll<'_, J, B>,
        request: &Request<'_>,
        at: u8,
    ) -> Result<Reply, Refusal>
        requires entered { self.old.phase ≡ Phase.Entered (number_in self.old.phase) }
        requires there { slice_get desk.old.names at ≡ Some request.now.name.now }
        ensures done { Does J.origin self.old.phase self.old
            (AsksFor request.now.name.now request.now.call.now request.now.when result)
            (λ e. result ≡ Err e) Phase.Entered self.new }
        ensures deferred { IfOk result
            (λ reply. request.now.when ≡ When.AtCommit → reply ≡ Reply.Done) }
    {
        let number = self.number();
        let slot = self.slot;
        desk.ask_found(
            self.shelves,
            self.shared,
            &mut self.line,
            held,
            Handle { number, slot },
            request.name,
            at,
            request.call,
            request.when,
        )
    }

    // The transaction asked for something of the collection of the name, which is at the number,
    // and was answered so.
    fn remember(&mut self, request: &Request<'_>, at: u8, answer: &Result<Reply, Refusal>)
        ensures { self.new ≡ self.old }
    {
        self.hints.tell(request.name, at);
        *self.touched.of_mut(at) = true;
        self.awaiting.note(request, at, answer);
    }

    // Before the first call of a transaction, which holds nothing yet, others go first who have
    // waited long for the collection that is told.
    fn stand_back<R: Wait>(&self, rt: &R, request: &Request<'_>, hint: Option<u8>) {
        if let (Phase::Drawn(_), Some(at)) = (self.phase, hint) {
            self.awaiting
                .stand_back(rt, &self.shared.waiting, at, request.call);
        }
    }
}

// What the call changed, where it was accepted.
fn note_answer<J: Naming, B: Coded>(
    desk: &mut Desk<J, B>,
    request: &Request<'_>,
    answer: &Result<Reply, Refusal>,
) {
    if let Ok(reply) = answer {
        desk.note_change(Change::of_ask(request.call, request.when, reply));
    }
}
