// What a server has done.
use std::fmt;
use std::sync::atomic::{AtomicU64, Ordering};
use std::time::Duration;

/// Whom a server serves at its door, and what its disk has done since it was opened, as one who
/// watches it was told. Threads share it. As a text it is the last numbers of a status.
#[derive(Drop)]
pub struct ServerCounts {
    clients: AtomicU64,
    syncs: AtomicU64,
    // in bytes
    written: AtomicU64,
    // in microseconds: what the longest write or sync took, and what the last checkpoint did
    longest: AtomicU64,
    last_checkpoint: AtomicU64,
}

impl ServerCounts {
    /// Nobody is served, and nothing was done yet.
    pub fn new() -> ServerCounts {
        ServerCounts {
            clients: AtomicU64::new(0),
            syncs: AtomicU64::new(0),
            written: AtomicU64::new(0),
            longest: AtomicU64::new(0),
            last_checkpoint: AtomicU64::new(0),
        }
    }

    /// One more client is served.
    pub fn note_came(&self) {
        self.clients.fetch_add(1, Ordering::SeqCst);
    }

    /// One of them is served no more.
    pub fn note_went(&self) {
        self.clients.fetch_sub(1, Ordering::SeqCst);
    }

    /// A sync was done.
    pub fn note_sync(&self) {
        self.syncs.fetch_add(1, Ordering::SeqCst);
    }

    /// So many bytes were written.
    pub fn note_written(&self, count: usize) {
        self.written.fetch_add(count as u64, Ordering::SeqCst);
    }

    /// A write or a sync took so long, whether it was done or not.
    pub fn note_wait(&self, took: Duration) {
        self.longest.fetch_max(microseconds(took), Ordering::SeqCst);
    }

    /// A checkpoint was taken, and took so long.
    pub fn note_checkpoint(&self, took: Duration) {
        self.last_checkpoint
            .store(microseconds(took), Ordering::SeqCst);
    }

    /// How many bytes were written.
    pub fn written(&self) -> u64 {
        read(&self.written)
    }
}

impl fmt::Display for ServerCounts {
    fn fmt<W: fmt::Write>(&self, f: &mut fmt::Formatter<W>) -> fmt::Result {
        let clients = read(&self.clients);
        let (syncs, written) = (read(&self.syncs), read(&self.written));
        let (longest, last) = (read(&self.longest), read(&self.last_checkpoint));
        write!(f, "clients {clients}; syncs {syncs}; written {written}")?;
        write!(f, "; longest_write {longest}; last_checkpoint {last}")
    }
}

fn read(number: &AtomicU64) -> u64 {
    number.load(Ordering::SeqCst)
}

// A time in whole microseconds.
fn microseconds(time: Duration) -> u64 {
    u64::try_from(time.as_micros()).unwrap_or(u64::MAX)
}
