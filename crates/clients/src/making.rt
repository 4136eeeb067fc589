// The making of collections by a client.
ghost use Rattle.std.specs.Prelude.{◌≡◌, [], IfOk, OnErr};
ghost use Rattle.txn.specs.declared.actions.Action.{Action};
ghost use Rattle.clients.specs.Calls.{Acts, IsMade};

use crate::client::Client;
use crate::miss::Miss;
use crate::ticket::Ticket;
use calls::{Kind, Refusal};
use desks::{Change, Footprint, Naming, Order};
use records::Coded;
use std::sync::Wait;

impl<'s, J: Naming, B: Coded> Client<'s, J, B> {
    /// Makes an empty collection under the name, and gives its ticket. It is a committed
    /// transaction of its own, whether the client has one or not. It takes the locks of all shelves
    /// and then the journal's, each once, and calls no device.
    ///
    /// Full; then Backlog, BadName, TooLong, NameTaken, TooManyCollections, NoMemory. Everything is
    /// as before then.
    pub fn make<R: Wait>(&mut self, rt: &R, name: &str, kind: Kind) -> Result<Ticket, Refusal>
        ensures step { IsMade J.origin self.old name.now kind result self.new }
        ensures phase { self.new.phase ≡ self.old.phase }
    {
        self.arrive(rt);
        for _ in rt.forever() {
            match self.make_held(rt, name, kind) {
                Ok(Ok(place)) => return Ok(Ticket { place }),
                Ok(Err(refusal)) => return Err(refusal),
                Err(Miss::NoRoom) => return Err(Refusal::Full),
                Err(Miss::NoRoomYet) => self.shared.signal.await_room(rt),
            }
        }
        unreachable!()
    }

    // Makes the collection, under all locks.
    fn make_held<R: Wait>(
        &mut self,
        rt: &R,
        name: &str,
        kind: Kind,
    ) -> Result<Result<u64, Refusal>, Miss>
        ensures step { IfOk result (λ made. Acts J.origin self.old []
            (Action.Make name.now kind made) self.new) }
        ensures miss { OnErr result (self.new ≡ self.old) }
        ensures phase { self.new.phase ≡ self.old.phase }
    {
        let (shelves, mutex) = (self.shelves, self.desk);
        let mut order = Order::new();
        let mut held = shelves.lock_all(rt, &mut order);
        let mut desk = mutex.lock(rt, &mut order);
        let footprint = Footprint::of_making();
        self.check_room(&desk, footprint)?;
        let made = desk.make(shelves, self.shared, &mut self.line, &mut held, name, kind);
        if made.is_ok() {
            desk.note_change(Change::of(footprint));
        }
        Ok(made)
    }
}
