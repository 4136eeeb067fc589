// The two threads on one store.
ghost use Rattle.std.specs.Prelude.{◌≡◌};
ghost use Rattle.clients.specs.declared.phase.Phase.{Phase};
ghost use Rattle.store.specs.Openings.{IsNamed};

use calls::{Call, Kind, Refusal};
use disk_model::Disk;
use records::Coded;
use std::marker::Brand;
use std::sync::Wait;
use std::thread::{Threads, join};
use store::{Client, Naming, Opened, Store};

// A store that two threads use.
trait Serves {
    // A transaction of one call of the counter, by a client of its own.
    fn bump<R: Wait>(&self, rt: &R, counter: &str) -> Result<(), Refusal>;
}

impl<D: Disk, J: Naming, B: Coded> Serves for Store<D, J, B> {
    fn bump<R: Wait>(&self, rt: &R, counter: &str) -> Result<(), Refusal> {
        commit_call(rt, &mut self.client(rt)?, counter)
    }
}

// Bumps both counters, each in a thread of its own.
fn bump_both<S: Serves + Sync, R: Threads + Wait + Sync>(rt: &R, store: &S) -> Result<(), Refusal> {
    let (first, second) = join(rt, || store.bump(rt, "first"), || store.bump(rt, "second"));
    first.and(second)
}

// A transaction of one call of the counter.
fn commit_call<R: Wait, J: Naming, B: Coded>(
    rt: &R,
    client: &mut Client<'_, J, B>,
    counter: &str,
) -> Result<(), Refusal>
    requires { client.old.phase ≡ Phase.Closed }
{
    let _number = client.begin()?;
    let _done = client.call(rt, counter, &Call::Bump(1))?;
    let _ticket = client.commit(rt)?;
    Ok(())
}

// Makes the counters, which come to the first and the second shelf.
fn make_both<R: Wait, J: Naming, B: Coded>(
    rt: &R,
    client: &mut Client<'_, J, B>,
) -> Result<(), Refusal>
    requires { client.old.phase ≡ Phase.Closed }
{
    let _ticket = client.make(rt, "first", Kind::Counter)?;
    let _ticket = client.make(rt, "second", Kind::Counter)?;
    Ok(())
}

// The same, on the store of that name.
fn serve<J: Naming + Send + Sync, D: Disk + Drop + Send, B: Coded + Send, R: Threads + Wait + Sync>(
    rt: &R,
    opened: Opened<D, B>,
) -> Result<(), Refusal>
where
    B::Part: Send,
    B::Names: Send,
    B::Shelf: Send,
    requires { IsNamed ⟦<J as Naming>⟧ ⟦<D as Disk>⟧ opened }
{
    let store = opened.named::<J>();
    make_both(rt, &mut store.client(rt)?)?;
    bump_both(rt, &store)
}

/// Two clients call at once, each a counter of a shelf of its own.
///
/// The refusals of the store.
pub fn serve_any<D: Disk + Drop + Send, B: Coded + Send, R: Threads + Wait + Sync>(
    rt: &R,
    opened: Opened<D, B>,
) -> Result<(), Refusal>
where
    B::Part: Send,
    B::Names: Send,
    B::Shelf: Send,
{
    serve::<Brand, _, _, _>(rt, opened)
}
