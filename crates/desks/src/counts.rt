// What was done since a store was opened.
ghost use Rattle.std.specs.Prelude.{◌<◌};

use calls::{Call, Kind, Refusal, Reply};

// The kinds, each at its rank.
const KINDS: [Kind; 7] = [
    Kind::Set,
    Kind::Map,
    Kind::Queue,
    Kind::Counter,
    Kind::Pool,
    Kind::Stock,
    Kind::Quotas,
];

/// What was done since the store was opened, and how many wait for work. A count that has come to
/// 2^64 - 1 stays there. No clause speaks of what is counted.
#[derive(Clone, Copy)]
pub struct Counts {
    /// Transactions that committed, and collections that were made.
    pub commits: u64,
    /// Transactions that were taken back.
    pub aborts: u64,
    /// Calls that were refused Busy, by the rank of the collection's kind.
    busy: [u64; 7],
    /// Blocks that were handed over to the disk. Each takes two writes and two syncs there.
    pub blocks: u64,
    /// Checkpoints: images that became the store.
    pub checkpoints: u64,
    /// Clients that wait for work now.
    pub sleeping: u64,
}

impl Counts {
    // Of a store that was just opened.
    pub(crate) fn new() -> Self {
        Self {
            commits: 0,
            aborts: 0,
            busy: [0; 7],
            blocks: 0,
            checkpoints: 0,
            sleeping: 0,
        }
    }

    // A commit or a making was answered so.
    pub(crate) fn note_commit(&mut self, is_done: bool) {
        count(&mut self.commits, is_done);
    }

    // The end of an aborted transaction was answered so.
    pub(crate) fn note_abort(&mut self, is_done: bool) {
        count(&mut self.aborts, is_done);
    }

    // A call was answered so.
    pub(crate) fn note_answer(&mut self, call: &Call, answer: &Result<Reply, Refusal>) {
        let is_busy = matches!(answer, Err(Refusal::Busy(_)));
        count(&mut self.busy[rank(call.kind())], is_busy);
    }

    // A block was cut, or none.
    pub(crate) fn note_cut(&mut self, cut: &Result<bool, Refusal>) {
        count(&mut self.blocks, matches!(cut, Ok(true)));
    }

    // An image became the store.
    pub(crate) fn note_checkpoint(&mut self) {
        count(&mut self.checkpoints, true);
    }

    // The same, where so many wait for work.
    pub(crate) fn with_sleeping(self, sleeping: u64) -> Self {
        Self { sleeping, ..self }
    }

    /// How many calls on collections of the kind were refused Busy.
    pub fn busy(&self, kind: Kind) -> u64 {
        self.busy[rank(kind)]
    }

    /// The kinds of which a call was refused Busy, each with how many were.
    pub(crate) fn each_busy(&self) -> [(Kind, u64); 7] {
        KINDS.map(|kind| (kind, self.busy(kind)))
    }
}

// One more, if it is so.
fn count(number: &mut u64, is_one: bool) {
    *number = number.saturating_add(u64::from(is_one));
}

// The rank of the kind among all.
fn rank(kind: Kind) -> usize
    ensures { result < 7 }
{
    match kind {
        Kind::Set => 0,
        Kind::Map => 1,
        Kind::Queue => 2,
        Kind::Counter => 3,
        Kind::Pool => 4,
        Kind::Stock => 5,
        Kind::Quotas => 6,
    }
}
