// A program's work on the store of a disk.
ghost use Rattle.std.specs.Prelude.{◌≡◌, ◌++◌, All, Contains, Err, None, IfOk, IsOk, IsOkUnless};
ghost use Rattle.std.specs.Prelude.{MatchResult, length, vec_len};
ghost use Rattle.std.specs.Thread.{IsSend, IsSync};
ghost use Rattle.calls.specs.declared.refusal.Refusal.{Refusal};
ghost use Rattle.clients.specs.Known.{newcomer, all_left, both_left};
ghost use Rattle.store.specs.Openings.{IsNamed};
ghost use Rattle.fizgaloms.specs.Works.{IsLeftByWork, WasOpened, IsClosed, AreTold, IsSaid};
ghost use Rattle.fizgaloms.specs.Works.{AreSaid, AreParts, GoesToRest};
ghost use Rattle.disk_model.specs.Disk.{IsAtRest};

use crate::checkpoints::Checkpoints;
use crate::committing::{Commits, start};
use crate::transacting::take_back_at_last;
use calls::Refusal;
use disk_model::Disk;
use std::alloc::{AllocGlobal, Global};
use std::marker::Brand;
use std::rt::Clock;
use std::sync::Wait;
use std::thread::{self, Threads};
use std::time::Duration;
use store::{Client, Naming, Opened, Seen, Store};

/// What each of a program's threads does with a store.
pub trait Work {
    ghost use Rattle.std.specs.Prelude.{ℕ, ⊤};
    ghost use Rattle.clients.specs.Known.{Known};
    ghost use Rattle.desks.specs.Origins.{Origin};

    type Output: Send + Drop;

    /// What the answer of the thread of this number, on a store that was opened so, says of what
    /// its client knows at the end, of the history and of the mark.
    ghost says: { Self → Origin → ℕ → Self.Output → Known → Type 0 } = { λ _ _ _ _ _. ⊤ };

    /// What the thread of this number does; they are counted from 0. The client is its own. What it
    /// leaves open is taken back behind the work, so a `?` leaves no lock.
    fn work<J: Naming, R: Wait + Clock + AllocGlobal>(
        &self,
        rt: &R,
        client: &mut Client<'_, J>,
        thread: usize,
    ) -> Self::Output
        requires { client.old ≡ newcomer client.old.number }
        ensures { says self.now J.origin thread result client.new };

    /// Keeping has ended early, for this refusal: Full, NoMemory or Fault, as `Closed::ended_by`
    /// tells them. It is called once, by a thread that keeps, while the threads work, so that they
    /// can be told to end. It is to return soon: where it is Full or NoMemory, who waits until
    /// something is kept is told Lost behind it.
    fn keeping_ended<R: Wait + AllocGlobal>(&self, _rt: &R, _refusal: Refusal) {}

    /// A checkpoint became the store, and took so long: zero where the clock cannot be read. It is
    /// called by the thread that takes checkpoints, while the threads work, and is to return soon.
    fn checkpoint_taken<R: Wait + AllocGlobal>(&self, _rt: &R, _took: Duration) {}

    /// The store is nearly full, or all but full: `full` hundredths, from 80 on, of what calls may
    /// fill that add something (`Fill::full`). It is called once from 80 on and once from 95 on, by
    /// the thread that takes checkpoints, behind one, while the threads work. It is to return soon.
    fn nearly_full<R: Wait + AllocGlobal>(&self, _rt: &R, _full: u64) {}
}

/// The disk of a store that was worked on and closed.
#[derive(Drop)]
pub struct Closed<D> {
    pub disk: D,
    /// The commits and makings up to this place are kept through a stop: all whose tickets have a
    /// place that is not above it. 0 where the store was not opened.
    pub kept: u64,
    /// What ended keeping early, if something did: who waited from then on was told Lost. Full
    /// where no checkpoint made room, NoMemory where none found memory, Fault where the disk
    /// failed, also at the last sync. Where nothing did, the disk was synced behind its last write.
    pub ended_by: Option<Refusal>,
}

// A store that is open, as its clients see it: what threads share of it.
trait Clients<J: Naming> {
    // A new client, as `Store::client` makes it, with its refusal.
    fn client<R: Wait>(&self, rt: &R) -> Result<Client<'_, J>, Refusal>
        ensures client { IfOk result (λ c. c ≡ newcomer c.number) }
        ensures worn { IsOkUnless result Refusal.Worn };
}

impl<D: Disk, J: Naming> Clients<J> for Store<D, J> {
    fn client<R: Wait>(&self, rt: &R) -> Result<Client<'_, J>, Refusal> {
        Store::client(self, rt)
    }
}

// What a thread answered, and what its client had seen.
type Ended<O, J> = Result<(O, Seen<J>), Refusal>;

/// Opens the store of a disk, works on it in so many threads, beside one that brings what is
/// committed to the disk and one that takes checkpoints, and closes it once all work has ended and
/// all that it committed is there. Answers what the threads answered, in their order, with the disk
/// and how much of what was committed is kept there. Where the system makes no more threads, a
/// thread does the work of several, one after another.
///
/// A checkpoint is begun once the journal has filled half of what the last one left free, while
/// commits go on being kept; from its freeze until it is the store they are kept later. On the disk
/// there is always room for the undoing of what is live: a block behind which there would be none
/// waits for a checkpoint. Where that makes no room either keeping ends, and who waits is told Lost
/// (`Closed::ended_by`). That does not come of what clients add: a call that would leave no room
/// for the image of the next checkpoint waits for one, and is refused Full where that does not help
/// (`Client`).
///
/// On a disk at rest that reads true until it is open, and whose bytes stand for a content, a stop
/// in the opening leaves the content, and one behind the call a beginning of what was committed,
/// which has all commits up to `kept`. One at any moment since the opening began leaves a beginning
/// too, and from the moment on at which a thread could be told that so many commits are kept, it
/// has them. What a thread's client has seen begins the history of these commits, and no count of
/// kept commits that it was told is past `kept`: so a commit that a thread was told is kept is
/// there, from then on. Each answer says of its client what `Work::says` says. Each thread has a
/// client of its own, and each step of the history that has a client is of one of these: so no
/// commit is a stranger's.
///
/// Where nothing ended keeping early (`Closed::ended_by`) the disk is at rest, as its last call is
/// a sync, and so it may be opened and worked on again: what a read gives stands for what was kept.
///
/// The refusals of `Opened::open`, and NoMemory where the committer's thread or the checkpointer's
/// cannot be started: no work is begun then. NoMemory also where the answers take more than there
/// is, and Worn where a thread above the 65,536th wants a client: then some of the work may be
/// done. Failed where another number of clients was made than there are threads. That does not
/// come, as each thread makes one and nothing else makes any; but clients are made in threads, so
/// no proof sees it, and the count is compared behind the work.
pub fn run<D: Disk + Drop + Send, W: Work + Sync, R: Threads + Wait + Clock + AllocGlobal + Sync>(
    rt: &R,
    disk: D,
    work: &W,
    threads: usize,
) -> (Result<Vec<W::Output>, Refusal>, Closed<D>)
    ensures answers { IfOk result.0 (λ answers. vec_len answers ≡ threads) }
    ensures opened { IfOk result.0 (λ answers. WasOpened ⟦<D as Disk>⟧
        (λ o. AreTold (W.says work.now o) answers.items result.1.kept) disk result.1.disk
        result.1.kept) }
    ensures left { IsLeftByWork ⟦<D as Disk>⟧ disk result.1.disk result.1.kept }
    ensures rest { IfOk result.0 (λ answers. result.1.ended_by ≡ None →
        IsAtRest D.seen D.may_leave result.1.disk) }
{
    match Opened::open(rt.alloc(), disk) {
        Ok(opened) => run_opened::<Brand, D, W, R>(rt, opened, work, threads),
        Err((refusal, disk)) => (
            Err(refusal),
            Closed {
                disk,
                kept: 0,
                ended_by: None,
            },
        ),
    }
}

// Works on a store that was opened, and closes it.
fn run_opened<
    J: Naming + Send + Sync,
    D: Disk + Drop + Send,
    W: Work + Sync,
    R: Threads + Wait + Clock + AllocGlobal + Sync,
>(
    rt: &R,
    opened: Opened<D>,
    work: &W,
    threads: usize,
) -> (Result<Vec<W::Output>, Refusal>, Closed<D>)
    requires { IsNamed ⟦<J as Naming>⟧ ⟦<D as Disk>⟧ opened }
    ensures answers { IfOk result.0 (λ answers. vec_len answers ≡ threads) }
    ensures closed { IsClosed ⟦<J as Naming>⟧ ⟦<D as Disk>⟧ (λ left made. IfOk result.0
        (λ answers. AreParts (W.says work.now J.origin) answers.items left ×
        (made ≡ length answers.items))) result.1.disk result.1.kept }
    ensures rest { result.1.ended_by ≡ None → IsAtRest D.seen D.may_leave result.1.disk }
{
    let store = opened.named::<J>();
    let checkpoints = Checkpoints::new();
    let ended = run_beside::<J, Store<D, J>, W, R>(rt, &store, &checkpoints, work, threads);
    let ended_by = checkpoints.ended_by();
    match ended {
        Ok(ended) => match join::<J, D, W>(rt.alloc(), &store, work, ended) {
            Ok((answers, last)) => {
                let (closed, clients) = close(store, last, ended_by);
                (of_all(answers, clients, threads), closed)
            }
            Err(refusal) => (Err(refusal), close(store, None, ended_by).0),
        },
        Err(refusal) => (Err(refusal), close(store, None, ended_by).0),
    }
}

// What the threads answered, where so many clients were made as there are threads, and else Failed.
fn of_all<T: Drop>(answers: Vec<T>, clients: u64, threads: usize) -> Result<Vec<T>, Refusal>
    ensures { IfOk result (λ all. (all ≡ answers) × (clients ≡ threads)) }
{
    if clients == threads as u64 {
        Ok(answers)
    } else {
        Err(Refusal::Failed)
    }
}

// Closes a store whose clients had seen so much, and whose keeping this has ended early. Where
// nothing has, the disk is synced at last. It tells how many clients were made.
fn close<J: Naming, D: Disk + Drop>(
    store: Store<D, J>,
    last: Option<Seen<J>>,
    ended_by: Option<Refusal>,
) -> (Closed<D>, u64)
    ensures closed { IsClosed ⟦<J as Naming>⟧ ⟦<D as Disk>⟧
        (λ left made. (left ≡ all_left last) × (made ≡ result.1)) result.0.disk result.0.kept }
    ensures rest { result.0.ended_by ≡ None → IsAtRest D.seen D.may_leave result.0.disk }
{
    let (_, keeper, clients) = store.close(last);
    let kept = keeper.mark();
    let (disk, ended_by) = rest(keeper.into_disk(), ended_by);
    let closed = Closed {
        disk,
        kept,
        ended_by,
    };
    (closed, clients)
}

// Brings a disk to rest, where nothing has ended keeping early. What has: Fault where the disk
// cannot be synced.
fn rest<D: Disk>(disk: D, ended_by: Option<Refusal>) -> (D, Option<Refusal>)
    ensures goes { GoesToRest ⟦<D as Disk>⟧ disk result.0 }
    ensures rest { result.1 ≡ None → IsAtRest D.seen D.may_leave result.0 }
{
    if ended_by.is_some() {
        return (disk, ended_by);
    }
    let mut disk = disk;
    match disk.sync() {
        Ok(_) => (disk, None),
        Err(_) => (disk, Some(Refusal::Fault)),
    }
}

// Takes what the threads answered, in their order, from what their clients had seen, which is put
// together.
fn join<J: Naming, D: Disk, W: Work>(
    alloc: Global,
    store: &Store<D, J>,
    work: &W,
    ended: Vec<Ended<W::Output, J>>,
) -> Result<(Vec<W::Output>, Option<Seen<J>>), Refusal>
    requires { AreSaid (W.says work.now J.origin) ended.items (vec_len ended) }
    ensures len { IfOk result (λ r. vec_len r.0 ≡ vec_len ended) }
    ensures parts { IfOk result (λ r.
        AreParts (W.says work.now J.origin) r.0.items (all_left r.1)) }
{
    let _ = work;
    let mut answers = Vec::new(alloc);
    let mut last = None;
    for one in ended {
        let (answer, seen) = one?;
        last = Some(put_together(store, last, seen));
        answers.push(answer)?;
    }
    Ok((answers, last))
}

// What others had seen, if there are any, and then what a client had.
fn put_together<J: Naming, D: Disk>(
    store: &Store<D, J>,
    others: Option<Seen<J>>,
    seen: Seen<J>,
) -> Seen<J>
    ensures { result ≡ both_left (all_left others) seen }
{
    match others {
        Some(others) => store.together(others, seen),
        None => seen,
    }
}

// Works on a store beside the threads that keep what is committed.
fn run_beside<
    J: Naming + Send + Sync,
    S: Commits + Clients<J> + Sync,
    W: Work + Sync,
    R: Threads + Wait + Clock + AllocGlobal + Sync,
>(
    rt: &R,
    store: &S,
    checkpoints: &Checkpoints,
    work: &W,
    threads: usize,
) -> Result<Vec<Ended<W::Output, J>>, Refusal>
    ensures len { IfOk result (λ ended. vec_len ended ≡ threads) }
    ensures said { IfOk result (λ ended. AreSaid (W.says work.now J.origin) ended.items threads) }
{
    thread::scope(
        thread::scope_env(),
        rt,
        move |scope| -> Result<Vec<Ended<W::Output, J>>, Refusal>
            requires { IsSend J.row × IsSync J.row × IsSync S.row × IsSync W.row × IsSync R.row }
            ensures len { IfOk result (λ ended. vec_len ended ≡ threads) }
            ensures said { IfOk result (λ ended.
                AreSaid (W.says work.entry.now J.origin) ended.items threads) }
        {
            let keeping = start(scope, rt, store, checkpoints, work)?;
            let done = work_all::<J, S, W, R>(rt, store, work, threads);
            store.end();
            keeping.join(rt);
            done
        },
    )
}

// Works on a store in so many threads.
fn work_all<
    J: Naming + Send + Sync,
    S: Clients<J> + Sync,
    W: Work + Sync,
    R: Threads + Wait + Clock + AllocGlobal + Sync,
>(rt: &R, store: &S, work: &W, threads: usize) -> Result<Vec<Ended<W::Output, J>>, Refusal>
    ensures len { IfOk result (λ ended. vec_len ended ≡ threads) }
    ensures said { IfOk result (λ ended. AreSaid (W.says work.now J.origin) ended.items threads) }
{
    let one = |thread: usize| -> Ended<W::Output, J>
        ensures { IfOk result (λ e. IsSaid (W.says work.entry.now J.origin) thread e.0 e.1) }
    { work_one::<J, S, W, R>(rt, store, work, thread) };
    Ok(thread::map_indices(rt, rt.alloc(), threads, &one)?)
}

// Does the work of one thread, with a client of its own, and takes back what it left open.
fn work_one<J: Naming, S: Clients<J>, W: Work, R: Wait + Clock + AllocGlobal>(
    rt: &R,
    store: &S,
    work: &W,
    thread: usize,
) -> Ended<W::Output, J>
    ensures { IfOk result (λ e. IsSaid (W.says work.now J.origin) thread e.0 e.1) }
{
    let mut client = store.client(rt)?;
    let answer = work.work::<J, R>(rt, &mut client, thread);
    take_back_at_last(rt, &mut client);
    Ok((answer, client.leave()))
}

/// Refused with the first refusal that threads answered, if there is one.
pub fn all_ended<T>(ended: &[Result<T, Refusal>]) -> Result<(), Refusal>
    ensures { MatchResult result (λ _. All IsOk ended.now) (λ e. Contains ended.now (Err e)) }
{
    for end in ended {
        if let Err(refusal) = end {
            return Err(*refusal);
        }
    }
    Ok(())
}
