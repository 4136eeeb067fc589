// The two threads on one store.
ghost use Rattle.std.specs.Prelude.{◌≡◌};
ghost use Rattle.clients.specs.declared.phase.Phase.{Phase};
ghost use Rattle.store.specs.Openings.{IsNamed};

use crate::threads::second_call_during_sync::signals::Signals;
use calls::{Call, Kind, Refusal};
use disk_model::Disk;
use std::marker::Brand;
use std::sync::Wait;
use std::thread::{Threads, join};
use store::{Client, Naming, Opened, Store};

// A store that two threads use.
trait Serves {
    // A turn of a committer, which syncs the disk.
    fn keep<R: Wait>(&self, rt: &R) -> Result<(), Refusal>;

    // A client's call and its commit, once a sync has begun. That it has its answer is told.
    fn call_in_sync<R: Wait>(&self, rt: &R, signals: &Signals) -> Result<(), Refusal>;
}

impl<D: Disk, J: Naming> Serves for Store<D, J> {
    fn keep<R: Wait>(&self, rt: &R) -> Result<(), Refusal> {
        let _turn = self.committer(rt).turn(rt)?;
        Ok(())
    }

    fn call_in_sync<R: Wait>(&self, rt: &R, signals: &Signals) -> Result<(), Refusal> {
        let mut client = self.client(rt)?;
        signals.await_sync(rt);
        let called = commit_call(rt, &mut client);
        signals.tell_answer();
        called
    }
}

// Does both at once, each in a thread of its own.
fn keep_and_call<S: Serves + Sync, R: Threads + Wait + Sync>(
    rt: &R,
    store: &S,
    signals: &Signals,
) -> Result<(), Refusal> {
    let (kept, called) = join(rt, || store.keep(rt), || store.call_in_sync(rt, signals));
    kept.and(called)
}

// A transaction of one call of the counter.
fn commit_call<R: Wait, J: Naming>(rt: &R, client: &mut Client<'_, J>) -> Result<(), Refusal>
    requires { client.old.phase ≡ Phase.Closed }
{
    let _number = client.begin()?;
    let _done = client.call(rt, "hits", &Call::Bump(1))?;
    let _ticket = client.commit(rt)?;
    Ok(())
}

// Makes the counter, and calls it.
fn prepare<R: Wait, J: Naming>(rt: &R, client: &mut Client<'_, J>) -> Result<(), Refusal>
    requires { client.old.phase ≡ Phase.Closed }
{
    let _ticket = client.make(rt, "hits", Kind::Counter)?;
    commit_call(rt, client)
}

// The same, on the store of that name.
fn serve<J: Naming + Send + Sync, D: Disk + Drop + Send, R: Threads + Wait + Sync>(
    rt: &R,
    opened: Opened<D>,
    signals: &Signals,
) -> Result<(), Refusal>
    requires { IsNamed ⟦<J as Naming>⟧ ⟦<D as Disk>⟧ opened }
{
    let store = opened.named::<J>();
    prepare(rt, &mut store.client(rt)?)?;
    keep_and_call(rt, &store, signals)
}

/// Client 1 commits. A committer brings that to the disk, and client 2 calls once a sync has begun.
///
/// The refusals of the store.
pub fn serve_any<D: Disk + Drop + Send, R: Threads + Wait + Sync>(
    rt: &R,
    opened: Opened<D>,
    signals: &Signals,
) -> Result<(), Refusal> {
    serve::<Brand, _, _>(rt, opened, signals)
}
