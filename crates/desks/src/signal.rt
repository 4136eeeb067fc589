// What wakes a store's committer, and has clients wait for it, and for room.
use calls::limits::MAX_PENDING;
use crossbeam_utils::sync::{EventCount, Key};
use std::sync::Wait;
use std::sync::atomic::{AtomicBool, AtomicU64, Ordering};

// From so many waiting records on each step wakes the committer: so the journal of a long
// transaction drains while it runs.
const MANY: usize = 256;

// From so many on clients wait for the committer before their next step, if one is at work: each of
// 64 clients that had the lock meanwhile adds a record, for which an abort leaves room, and so none
// is refused Backlog.
const TOO_MANY: usize = MAX_PENDING / 2;

/// Wakes a store's committer, tells it when no more commits come, and has clients wait where they
/// leave records faster than the disk takes them, and where a checkpoint is to make room for what
/// they add. The steps of clients do so by themselves. Threads share it by `&`. No clause speaks of
/// it.
#[derive(Drop)]
pub struct Signal {
    // how many commits and makings were accepted, and how many when the last block was kept
    commits: AtomicU64,
    before_wake: AtomicU64,
    is_over: AtomicBool,
    // how often a client that waits looks before it sleeps
    patience: AtomicU64,
    // on which the committer sleeps
    events: EventCount,
    // whether a committer is at work
    is_attended: AtomicBool,
    // whether too many records wait
    is_crowded: AtomicBool,
    // on which clients sleep until fewer wait
    drained: EventCount,
    // whether a checkpoint is wanted before clients have to wait for one
    is_filling: AtomicBool,
    // how often clients asked for a checkpoint that makes room, and up to which of these it was
    // taken, or could not be
    wishes: AtomicU64,
    granted: AtomicU64,
    // on which clients sleep until one is taken
    roomy: EventCount,
}

impl Signal {
    /// Nothing was committed. Who waits sleeps soon. It takes no memory.
    pub fn new() -> Signal {
        Signal {
            commits: AtomicU64::new(0),
            before_wake: AtomicU64::new(0),
            is_over: AtomicBool::new(false),
            patience: AtomicU64::new(0),
            events: EventCount::new(),
            is_attended: AtomicBool::new(false),
            is_crowded: AtomicBool::new(false),
            drained: EventCount::new(),
            is_filling: AtomicBool::new(false),
            wishes: AtomicU64::new(0),
            granted: AtomicU64::new(0),
            roomy: EventCount::new(),
        }
    }

    // Something was committed or made: counts it, and wakes the committer, if it sleeps. Where it
    // does not, that is one load beside the count.
    pub(crate) fn committed(&self) {
        self.commits.fetch_add(1, Ordering::SeqCst);
        self.events.notify_all();
    }

    // So many records wait behind a step. Many wake the committer, if it sleeps; too many have
    // clients wait. Call it under the journal's lock.
    pub(crate) fn left(&self, waiting: usize) {
        if waiting >= MANY {
            self.events.notify_all();
        }
        if waiting >= TOO_MANY {
            self.is_crowded.store(true, Ordering::SeqCst);
        }
    }

    // So many records wait behind a cut. Clients that wait go on, unless these are too many. Call
    // it under the journal's lock.
    pub(crate) fn cut(&self, waiting: usize) {
        if waiting < TOO_MANY && self.is_crowded() {
            self.is_crowded.store(false, Ordering::SeqCst);
            self.drained.notify_all();
        }
    }

    /// Waits while too many records wait and a committer is at work. Where that is not so, it is
    /// one load. It takes no memory. Call it under no lock.
    pub fn let_drain<R: Wait>(&self, rt: &R) {
        if !self.is_crowded() {
            return;
        }
        for _ in rt.forever() {
            let drained = self.drained.prepare_wait();
            if !self.is_crowded() || !self.is_attended() {
                return;
            }
            drained.wait(rt);
        }
    }

    /// Whether too many records wait for the disk: 8,192 or more. Clients wait then.
    pub fn is_crowded(&self) -> bool {
        self.is_crowded.load(Ordering::SeqCst)
    }

    /// Whether a committer is at work from now on. While one is, a client whose store has 8,192
    /// records waiting sleeps before its next step, until fewer wait; so it is not refused Backlog.
    /// And while one is, a call that adds something is made only where the next image has room for
    /// it; so checkpoints are to be taken then, and `grant` to be called behind each.
    /// Say so before clients begin, and that none is as soon as it has ended: who sleeps goes on
    /// then. It takes no memory, and waits for nobody.
    pub fn set_attended(&self, is_attended: bool) {
        self.is_attended.store(is_attended, Ordering::SeqCst);
        self.drained.notify_all();
        self.roomy.notify_all();
    }

    /// Whether a committer is at work.
    pub fn is_attended(&self) -> bool {
        self.is_attended.load(Ordering::SeqCst)
    }

    // Whether so much was added to the next image that a checkpoint is wanted.
    pub(crate) fn set_filling(&self, is_filling: bool) {
        self.is_filling.store(is_filling, Ordering::SeqCst);
    }

    /// Whether so much was added to the next image that a checkpoint is wanted before clients have
    /// to wait for one, as of the last block.
    pub fn is_filling(&self) -> bool {
        self.is_filling.load(Ordering::SeqCst)
    }

    /// Asks for a checkpoint that begins from here on, and sleeps until it was taken, or could not
    /// be, or no committer is at work. It takes no memory. Call it under no lock.
    pub fn await_room<R: Wait>(&self, rt: &R) {
        let wish = self.wishes.fetch_add(1, Ordering::SeqCst).wrapping_add(1);
        self.events.notify_all();
        for _ in rt.forever() {
            let roomy = self.roomy.prepare_wait();
            if self.granted.load(Ordering::SeqCst) >= wish || !self.is_attended() {
                return;
            }
            roomy.wait(rt);
        }
    }

    /// How often clients asked for a checkpoint that makes room. Who takes one asks before it, and
    /// tells behind it by `grant`. It takes no memory, and waits for nobody.
    pub fn wishes(&self) -> u64 {
        self.wishes.load(Ordering::SeqCst)
    }

    /// The checkpoint was taken, or could not be, for which so many had asked: they go on. It takes
    /// no memory, and waits for nobody.
    pub fn grant(&self, wishes: u64) {
        self.granted.store(wishes, Ordering::SeqCst);
        self.roomy.notify_all();
    }

    /// How many commits and makings were accepted so far.
    pub fn commits(&self) -> u64 {
        self.commits.load(Ordering::SeqCst)
    }

    /// A block is kept, and those who wait for it are woken next: notes how many commits and
    /// makings were accepted up to here. It takes no memory, and waits for nobody.
    pub fn wakes(&self) {
        self.before_wake.store(self.commits(), Ordering::SeqCst);
    }

    /// How many commits and makings were accepted before those were woken who waited for the last
    /// block: theirs came behind it.
    pub fn before_wake(&self) -> u64 {
        self.before_wake.load(Ordering::SeqCst)
    }

    /// No more commits come: once all that was committed is on the disk, the committer ends. It
    /// takes no memory, and waits for nobody.
    pub fn end(&self) {
        self.is_over.store(true, Ordering::SeqCst);
        self.events.notify_all();
    }

    /// Whether no more commits come.
    pub fn is_over(&self) -> bool {
        self.is_over.load(Ordering::SeqCst)
    }

    /// Announces that the committer will sleep. Call it first, then look whether there is something
    /// to do, and sleep by `Key::wait` only where there is nothing: what comes behind the
    /// announcement ends the sleep. It takes no memory, and waits for nobody.
    pub fn prepare_wait(&self) -> Key<'_> {
        self.events.prepare_wait()
    }

    /// From now on a client that waits for a ticket looks so often before it sleeps, and backs off
    /// between two looks. On a quick disk a block is there before a sleep would end.
    pub fn set_patience(&self, looks: u64) {
        self.patience.store(looks, Ordering::SeqCst);
    }

    /// How often a client that waits looks before it sleeps.
    pub fn patience(&self) -> u64 {
        self.patience.load(Ordering::SeqCst)
    }
}
