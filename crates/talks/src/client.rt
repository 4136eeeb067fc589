// What a script's client does, one request at a time.
ghost use Rattle.std.specs.Prelude.{◌≡◌, ◌↔◌, ℕ, List, Some, IsTrue};
ghost use Rattle.calls.specs.declared.kind.Kind.{Kind};
ghost use Rattle.calls.specs.Contents.{Collection};
ghost use Rattle.talks.specs.declared.client.Client.{Client};
ghost use Rattle.talks.specs.Plays.{Runs};
ghost use Rattle.talks.specs.Clients.{Makes, Begins, Enters, Asks, Commits};
ghost use Rattle.talks.specs.Clients.{UndoesAll, Ends, Aborts, kind_at, AskedFor, Looks};

use calls::limits::MAX_CALLS;
use calls::{Call, Kind, Name, Refusal, Reply, When};
use disk_model::Disk;
use script::Operation;
use world::World;

/// A client's open transaction: its number, and whether the book knows it.
#[derive(Clone, Copy)]
pub struct Begun {
    pub number: u64,
    pub is_entered: bool,
}

/// A client of a script: its open transaction, if any, and the place of what it last committed or
/// made.
///
/// Each request takes steps of a world.
#[derive(Clone, Copy)]
pub struct Client {
    pub begun: Option<Begun>,
    pub ticket: Option<u64>,
}

impl Client {
    /// A client that has done nothing yet.
    pub const NEW: Client = Client {
        begun: None,
        ticket: None,
    };

    /// Makes a collection, as `Book::make` does. Its place is the client's ticket then; a refusal
    /// leaves the client as before.
    pub fn make<D: Disk>(
        &mut self,
        world: &mut World<D>,
        kind: Kind,
        name: &Name,
    ) -> Result<u64, Refusal>
        ensures { Runs ⟦<D as Disk>⟧ world.old
            (λ steps. Makes self.old name.now kind result steps self.new) world.new }
    {
        let place = world.make(name, kind)?;
        self.ticket = Some(place);
        Ok(place)
    }

    /// Begins a transaction under the next number, which is drawn. The book learns of it with the
    /// first call, or with the commit.
    ///
    /// AlreadyLive where one is open, then Worn where the next number is 2^61; both leave all as
    /// before.
    pub fn begin<D: Disk>(&mut self, world: &mut World<D>) -> Result<u64, Refusal>
        ensures { Runs ⟦<D as Disk>⟧ world.old (λ steps. Begins self.old result steps self.new)
            world.new }
    {
        if self.begun.is_some() {
            return Err(Refusal::AlreadyLive);
        }
        let number = world.draw()?;
        self.begun = Some(Begun {
            number,
            is_entered: false,
        });
        Ok(number)
    }

    // The number of the open transaction, which the book knows then.
    fn enter<D: Disk>(&mut self, world: &mut World<D>) -> Result<u64, Refusal>
        ensures { Runs ⟦<D as Disk>⟧ world.old (λ steps. Enters self.old result steps self.new)
            world.new }
    {
        let Some(begun) = self.begun else {
            return Err(Refusal::NoSuchTxn);
        };
        let number = begun.number;
        if begun.is_entered {
            return Ok(number);
        }
        world.enter(number)?;
        self.begun = Some(Begun {
            number,
            is_entered: true,
        });
        Ok(number)
    }

    /// Asks for an operation on the collection of the name, at once or deferred to the commit.
    ///
    /// NoSuchTxn where no transaction is open; where the book does not know it yet, the refusals of
    /// `Book::enter`; then those of `Book::find`, and of `Book::ask`. The transaction stays open.
    pub fn ask<D: Disk>(
        &mut self,
        world: &mut World<D>,
        name: &Name,
        operation: Operation,
        when: When,
    ) -> Result<Reply, Refusal>
        ensures { Asks ⟦<D as Disk>⟧ self.old world.old name.now operation when result self.new
            world.new }
    {
        let number = self.enter(world)?;
        let collection = world.book().find(name.as_str())?;
        let call = call_of(world.book().kind(collection), operation);
        world.ask(number, collection, &call, when)
    }

    /// Commits the open transaction, which is none then. Its place is the client's ticket.
    ///
    /// NoSuchTxn where no transaction is open; where the book does not know it yet, the refusals of
    /// `Book::enter`; then those of `Book::commit`. At a refusal the transaction stays open.
    pub fn commit<D: Disk>(&mut self, world: &mut World<D>) -> Result<u64, Refusal>
        ensures { Runs ⟦<D as Disk>⟧ world.old (λ steps. Commits self.old result steps self.new)
            world.new }
    {
        let number = self.enter(world)?;
        let place = world.commit(number)?;
        *self = Client {
            begun: None,
            ticket: Some(place),
        };
        Ok(place)
    }

    /// Takes the open transaction back: its calls are undone, the newest first, and it is none
    /// then. Where the book does not know it, there is nothing to undo.
    ///
    /// NoSuchTxn where no transaction is open, then the refusals of `Book::back` and `Book::ended`.
    /// At a refusal the transaction stays open.
    pub fn abort<D: Disk>(&mut self, world: &mut World<D>) -> Result<(), Refusal>
        ensures { Runs ⟦<D as Disk>⟧ world.old (λ steps. Aborts self.old result steps self.new)
            world.new }
    {
        let Some(begun) = self.begun else {
            return Err(Refusal::NoSuchTxn);
        };
        if begun.is_entered {
            undo(world, begun.number)?;
        }
        self.begun = None;
        Ok(())
    }

    /// Whether the mark has reached the client's ticket, if it has one: then it looks at the mark.
    pub fn is_kept<D: Disk>(&self, world: &World<D>) -> Option<bool>
        ensures { Runs ⟦<D as Disk>⟧ world.now (Looks self.now.ticket result) world.now }
    {
        let ticket = self.ticket?;
        let mark = world.look();
        Some(ticket <= mark)
    }
}

// Undoes the calls of a transaction, the newest first: it has at most so many.
fn undo_all<D: Disk>(world: &mut World<D>, number: u64) -> Result<(), Refusal>
    ensures { Runs ⟦<D as Disk>⟧ world.old (UndoesAll number result) world.new }
{
    for _ in 0..=MAX_CALLS {
        if !world.back(number)? {
            return Ok(());
        }
    }
    Ok(())
}

// Undoes the calls of a transaction, and ends it.
fn undo<D: Disk>(world: &mut World<D>, number: u64) -> Result<(), Refusal>
    ensures { Runs ⟦<D as Disk>⟧ world.old (Ends number result) world.new }
{
    undo_all(world, number)?;
    world.ended(number)
}

// The call that is asked for of a collection of the kind, if there is one. A removal is one of a
// map where a client can ask for that, and else one of a set.
fn call_of(kind: Option<Kind>, operation: Operation) -> Call
    ensures { (s : List Collection) (at : ℕ) → kind ≡ kind_at s at →
        AskedFor s at operation result }
{
    match operation {
        Operation::Call(call) => call,
        Operation::Remove(key) => {
            if is_map(kind) {
                Call::MapRemove(key)
            } else {
                Call::SetRemove(key)
            }
        }
    }
}

// Whether there is a collection, and it is a map.
fn is_map(kind: Option<Kind>) -> bool
    ensures { IsTrue result ↔ (kind ≡ Some Kind.Map) }
{
    matches!(kind, Some(Kind::Map))
}
