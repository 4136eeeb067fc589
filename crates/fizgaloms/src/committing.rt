// The threads of a store's committer and of its checkpointer.
ghost use Rattle.std.specs.Prelude.{IsOkUnless};
ghost use Rattle.calls.specs.declared.refusal.Refusal.{Refusal};

use crate::burst::Burst;
use crate::checkpoints::Checkpoints;
use crate::filling::Filling;
use crate::pause::Pause;
use crate::running::Work;
use calls::Refusal;
use checkpoint::Turn;
use disk_model::Disk;
use std::alloc::AllocGlobal;
use std::io;
use std::rt::Clock;
use std::sync::Wait;
use std::thread::{self, JoinHandle, Scope, Threads};
use std::time::{Duration, Instant};
use store::{Checkpoint, Checkpointer, Committer, Naming, Signal, Store};

// How many microseconds the committer sleeps before it asks again whether an image is the store.
const MOMENT: u64 = 100;

// From so many hundredths on a store is nearly full, and from so many on it is all but full. Each
// is told once.
const NEARLY: u64 = 80;

const ALL_BUT: u64 = 95;

// How often a checkpoint that finds no memory is tried again once no more commits come.
const LAST_TRIES: u32 = 100;

/// A checkpoint that was taken.
#[derive(Clone, Copy)]
pub(crate) struct Taken {
    /// How long it took.
    took: Duration,
    /// How full it leaves the store, in hundredths.
    full: u64,
}

/// A store whose commits threads bring to the disk.
pub(crate) trait Commits {
    /// Brings what clients commit to the disk until the store's signal says that no more comes, and
    /// all is there; sleeps while nothing is pending. Before it cuts a block it waits for a moment
    /// where clients whose commits were just kept come back with more, so that a burst gets into
    /// one. Where the journal has filled a part of the area it asks for a checkpoint, and goes on.
    /// Where a block does not fit, with the undoing of all that is live behind it, it waits for
    /// one.
    ///
    /// Refused early where the disk fails, and where a checkpoint makes no room.
    fn commit_all<R: Wait + Clock>(&self, rt: &R, checkpoints: &Checkpoints) -> Result<(), Refusal>;

    /// Takes the checkpoint that is asked for next, and tells of it; none once no more are asked
    /// for. One that finds no memory is tried again later, and one that makes no room is passed
    /// over. Who waits for room goes on behind each. It is to be called again behind one.
    ///
    /// Fault behind one at which the disk failed, and then those that are asked for are to be
    /// answered still: it is to be called again.
    fn next_checkpoint<R: Wait + Clock>(
        &self,
        rt: &R,
        checkpoints: &Checkpoints,
    ) -> Result<Option<Taken>, Refusal>;

    /// The committer takes no more turns: who waits until something is kept is told Lost.
    fn stop<R: Wait>(&self, rt: &R);

    /// No committer is at work any more.
    fn leave(&self);

    /// Clients are to wait for the committer where they leave records faster than it takes them.
    fn begin(&self);

    /// No more commits come.
    fn end(&self);
}

impl<D: Disk, J: Naming> Commits for Store<D, J> {
    fn commit_all<R: Wait + Clock>(
        &self,
        rt: &R,
        checkpoints: &Checkpoints,
    ) -> Result<(), Refusal> {
        commit_until_over(rt, &mut self.committer(rt), self.signal(), checkpoints)
    }

    fn next_checkpoint<R: Wait + Clock>(
        &self,
        rt: &R,
        checkpoints: &Checkpoints,
    ) -> Result<Option<Taken>, Refusal> {
        let mut checkpointer = self.checkpointer(rt);
        for _ in rt.forever() {
            let Some(asked) = checkpoints.next(rt) else {
                return Ok(None);
            };
            let wishes = self.signal().wishes();
            let start = Instant::now(rt);
            let made = checkpoint(rt, &mut checkpointer, self.signal(), checkpoints);
            checkpoints.answer(asked, made.is_ok());
            self.signal().grant(wishes);
            if made == Err(Refusal::Fault) {
                return Err(Refusal::Fault);
            }
            if made.is_ok() {
                return Ok(Some(Taken {
                    took: elapsed(rt, start),
                    full: checkpointer.fill(rt).full,
                }));
            }
        }
        unreachable!()
    }

    fn stop<R: Wait>(&self, rt: &R) {
        self.committer(rt).stop();
    }

    fn leave(&self) {
        self.signal().set_attended(false);
    }

    fn begin(&self) {
        self.signal().set_attended(true);
    }

    fn end(&self) {
        self.signal().end();
    }
}

// Commits until all work is over. Where that ends early the refusal is noted, and the work and who
// waits are told.
fn keep_committing<S: Commits, W: Work, R: Wait + Clock + AllocGlobal>(
    rt: &R,
    store: &S,
    checkpoints: &Checkpoints,
    work: &W,
) {
    if let Err(refusal) = store.commit_all(rt, checkpoints) {
        end_keeping(rt, checkpoints, work, refusal);
        store.stop(rt);
    }
    store.leave();
    checkpoints.end();
}

// Takes checkpoints until no more are asked for. The work is told of each, and where it leaves the
// store nearly full, and all but full. A fault of the disk is noted, and the work is told.
fn keep_checkpointing<S: Commits, W: Work, R: Wait + Clock + AllocGlobal>(
    rt: &R,
    store: &S,
    checkpoints: &Checkpoints,
    work: &W,
) {
    let mut warned = 0;
    for _ in rt.forever() {
        match store.next_checkpoint(rt, checkpoints) {
            Ok(None) => return,
            Ok(Some(Taken { took, full })) => {
                work.checkpoint_taken(rt, took);
                let due = due_warning(full);
                if due > warned {
                    work.nearly_full(rt, full);
                }
                warned = warned.max(due);
            }
            Err(refusal) => end_keeping(rt, checkpoints, work, refusal),
        }
    }
}

// From how many hundredths on a store that is so full is to be told; 0 where it is not.
fn due_warning(full: u64) -> u64 {
    if full >= ALL_BUT {
        ALL_BUT
    } else if full >= NEARLY {
        NEARLY
    } else {
        0
    }
}

// Notes what ended keeping early, and tells the work, once. What is Failed met a Fault before, in
// the other thread perhaps.
fn end_keeping<W: Work, R: Wait + AllocGlobal>(
    rt: &R,
    checkpoints: &Checkpoints,
    work: &W,
    refusal: Refusal,
) {
    let cause = match refusal {
        Refusal::Failed => Refusal::Fault,
        other => other,
    };
    if checkpoints.end_by(cause) {
        work.keeping_ended(rt, cause);
    }
}

// Takes the turns of a committer until no more commits come, and all is on the disk.
fn commit_until_over<D: Disk, J: Naming, R: Wait + Clock>(
    rt: &R,
    committer: &mut Committer<'_, D, J>,
    signal: &Signal,
    checkpoints: &Checkpoints,
) -> Result<(), Refusal> {
    let mut burst = Burst::new();
    let mut filling = Filling::new(committer.free(rt));
    for _ in rt.forever() {
        burst.group(rt, signal);
        filling.hear(signal, checkpoints);
        // Asked before the turn: what was committed before the end is cut by a turn behind it.
        let is_over = signal.is_over();
        let start = Instant::now(rt);
        match turn(rt, committer, signal, &filling) {
            Ok(Turn::Idle) if is_over => return Ok(()),
            Ok(Turn::Idle) => burst.rest(),
            Ok(Turn::Kept(_)) => {
                burst.release(signal, elapsed(rt, start));
                filling.note(committer.free(rt), signal, checkpoints);
            }
            Ok(Turn::Held) if checkpoints.is_asked() => {
                thread::sleep(rt, Duration::from_micros(MOMENT));
            }
            // The image was left, as memory was refused for long.
            Ok(Turn::Held) if checkpoints.has_made_room(rt) => {}
            Ok(Turn::Held) => return Err(Refusal::NoMemory),
            Err(Refusal::Full) if checkpoints.has_made_room(rt) => {}
            Err(refusal) => return Err(refusal),
        }
    }
    unreachable!()
}

// Takes a turn. Where there is nothing to do it sleeps until something is, clients wait for room,
// or no more comes.
fn turn<D: Disk, J: Naming, R: Wait>(
    rt: &R,
    committer: &mut Committer<'_, D, J>,
    signal: &Signal,
    filling: &Filling,
) -> Result<Turn, Refusal> {
    let turned = committer.turn(rt);
    if turned != Ok(Turn::Idle) {
        return turned;
    }
    let events = signal.prepare_wait();
    let turned = committer.turn(rt);
    if turned == Ok(Turn::Idle) && !signal.is_over() && !filling.is_wished(signal) {
        events.wait(rt);
    } else {
        drop(events);
    }
    turned
}

// How long it took since then: nothing where the clock cannot be read.
fn elapsed(clock: &impl Clock, start: io::Result<Instant>) -> Duration {
    let Ok(start) = start else {
        return Duration::ZERO;
    };
    start.elapsed(clock).unwrap_or(Duration::ZERO)
}

// Takes a checkpoint. Where clients have outrun what is gathered, it begins anew; where it finds no
// memory, it is tried again later. It is given up where it is not needed any more.
fn checkpoint<D: Disk, J: Naming, R: Wait + Clock>(
    rt: &R,
    checkpointer: &mut Checkpointer<'_, D, J>,
    signal: &Signal,
    checkpoints: &Checkpoints,
) -> Result<u64, Refusal> {
    let mut pause = Pause::new();
    let mut tries = 0;
    for _ in rt.forever() {
        match checkpointer.turn(rt) {
            Ok(Checkpoint::Flipped(place)) => return Ok(place),
            Ok(_) | Err(Refusal::Outrun) => {}
            Err(Refusal::NoMemory) if tries < LAST_TRIES => {
                tries = if signal.is_over() { tries + 1 } else { 0 };
                pause.pause(rt);
            }
            Err(refusal) => return Err(refusal),
        }
        if checkpoints.is_over() {
            return Err(Refusal::NotNow);
        }
    }
    unreachable!()
}

/// The threads that keep what the clients of a store commit.
#[derive(Drop)]
pub(crate) struct Keeping {
    committer: JoinHandle<()>,
    checkpointer: JoinHandle<()>,
}

impl Keeping {
    /// Waits until both have ended, which is behind `Commits::end`.
    pub(crate) fn join<R: Threads>(self, rt: &R) {
        let Self {
            committer,
            checkpointer,
        } = self;
        committer.join(rt);
        checkpointer.join(rt);
    }
}

/// Starts the threads in which all that clients of the store commit is brought to the disk
/// (`Commits::commit_all`), and checkpoints are taken (`Commits::next_checkpoint`). They end behind
/// `Commits::end`, which is to be called on each way out of the scope.
///
/// NoMemory where no thread can be started.
pub(crate) fn start<'s, E, S: Commits + Sync, W: Work + Sync, R: Wait + Clock + AllocGlobal + Sync>(
    scope: &Scope<'s, E>,
    rt: &'s R,
    store: &'s S,
    checkpoints: &'s Checkpoints,
    work: &'s W,
) -> Result<Keeping, Refusal>
    ensures { IsOkUnless result Refusal.NoMemory }
{
    let Ok(checkpointer) = scope.spawn(move || keep_checkpointing(rt, store, checkpoints, work))
    else {
        return Err(Refusal::NoMemory);
    };
    store.begin();
    match scope.spawn(move || keep_committing(rt, store, checkpoints, work)) {
        Ok(committer) => Ok(Keeping {
            committer,
            checkpointer,
        }),
        Err(_) => {
            checkpoints.end();
            Err(Refusal::NoMemory)
        }
    }
}
