// What is seen of the disks of a command while it goes on.
use crate::counts::ServerCounts;
use boost::{Invocation, Task};
use fizgaloms::Watch;
use std::io::{self, Write};
use std::rt::Clock;
use std::sync::atomic::{AtomicBool, AtomicU64, Ordering};
use std::sync::{Mutex, OnceLock, Wait};
use std::time::Duration;

// How many seconds are between two lines about how far it is.
const PERIOD: u64 = 10;

// So many bytes are told as one.
const UNIT: u64 = 1_000_000;

/// What a command does with a disk that may take long.
#[derive(Clone, Copy, PartialEq, Eq)]
pub enum Doing {
    /// It reads a store. What it does behind its first write is told no more.
    Opening,
    /// It reads a store, and writes another.
    Copying,
    /// It reads a store, and writes it anew.
    Upgrading,
}

impl Doing {
    /// What a command does.
    pub fn of(asked: &Invocation) -> Self {
        match asked {
            Invocation::Copy { .. } => Doing::Copying,
            Invocation::Run(Task::Upgrade { .. }) => Doing::Upgrading,
            _ => Doing::Opening,
        }
    }
}

/// Who watches the disks of a command, and tells what is seen.
pub trait Watches: Watch {
    /// Why the first write or sync that failed did, once one has.
    fn fault(&self) -> &OnceLock<io::Error>;

    /// The second since 1970 at which the write or sync began that goes on; 0 where none does.
    fn writing_since(&self) -> &AtomicU64;

    /// What the disks have done.
    fn counts(&self) -> &ServerCounts;
}

/// An output that is shared, as one of its writers.
#[derive(Drop)]
pub struct Shared<'a, O, R: Wait> {
    rt: &'a R,
    output: &'a Mutex<O>,
}

impl<'a, O, R: Wait> Shared<'a, O, R> {
    /// A writer of the output.
    pub fn new(rt: &'a R, output: &'a Mutex<O>) -> Self {
        Self { rt, output }
    }
}

impl<O: Write, R: Wait> Write for Shared<'_, O, R> {
    fn write(&mut self, buf: &[u8]) -> io::Result<usize> {
        self.output.lock(self.rt).write(buf)
    }

    fn flush(&mut self) -> io::Result<()> {
        self.output.lock(self.rt).flush()
    }
}

/// Watches the disks of a command. It keeps the system's words for the first write or sync that
/// failed, knows since when one goes on, counts what was done, and writes a line about how far the
/// command is each ten seconds while it goes on.
#[derive(Drop)]
pub struct Watching<'a, O, R: Wait> {
    rt: &'a R,
    output: &'a Mutex<O>,
    doing: Doing,
    fault: OnceLock<io::Error>,
    // The second since 1970 at which the write or sync began that goes on; 0 where none does.
    writing_since: AtomicU64,
    // At which nanosecond of the clock the last write or sync began.
    began_at: AtomicU64,
    counts: ServerCounts,
    read: AtomicU64,
    // At which second of the clock the last line was written, or it began.
    told_at: AtomicU64,
    // No more lines are written.
    is_over: AtomicBool,
}

impl<'a, O: Write, R: Wait + Clock> Watching<'a, O, R> {
    /// Nothing was read or written yet. The lines go to `output`.
    pub fn new(rt: &'a R, output: &'a Mutex<O>, doing: Doing) -> Self {
        Self {
            rt,
            output,
            doing,
            fault: OnceLock::new(),
            writing_since: AtomicU64::new(0),
            began_at: AtomicU64::new(0),
            counts: ServerCounts::new(),
            read: AtomicU64::new(0),
            told_at: AtomicU64::new(seconds(rt).unwrap_or(0)),
            is_over: AtomicBool::new(false),
        }
    }

    // Writes a line, where it is time for one.
    fn look(&self) {
        let Some(now) = seconds(self.rt) else {
            return;
        };
        if now.saturating_sub(self.told_at.load(Ordering::SeqCst)) < PERIOD {
            return;
        }
        self.told_at.store(now, Ordering::SeqCst);
        // where it cannot be written, that changes nothing
        let _written = self.tell();
    }

    fn tell(&self) -> io::Result<()> {
        let read = self.read.load(Ordering::SeqCst) / UNIT;
        let written = self.counts.written() / UNIT;
        let mut output = Shared::new(self.rt, self.output);
        match self.doing {
            Doing::Opening => writeln!(output, "boost: opening, {read} MB read")?,
            Doing::Copying => {
                writeln!(
                    output,
                    "boost: copying, {read} MB read, {written} MB written"
                )?
            }
            Doing::Upgrading => {
                writeln!(
                    output,
                    "boost: upgrading, {read} MB read, {written} MB written"
                )?
            }
        }
        output.flush()
    }
}

// The second since 1970, where the clock tells it.
fn second_since_1970(clock: &impl Clock) -> Option<u64> {
    match clock.since_1970() {
        Ok(since) => Some(since.as_secs()),
        Err(_) => None,
    }
}

// The second of the clock, where it tells one.
fn seconds(clock: &impl Clock) -> Option<u64> {
    match clock.monotonic() {
        Ok(since) => Some(since.as_secs()),
        Err(_) => None,
    }
}

// The nanosecond of the clock, where it tells one.
fn nanoseconds(clock: &impl Clock) -> Option<u64> {
    match clock.monotonic() {
        Ok(since) => u64::try_from(since.as_nanos()).ok(),
        Err(_) => None,
    }
}

impl<O: Write, R: Wait + Clock> Watches for Watching<'_, O, R> {
    fn fault(&self) -> &OnceLock<io::Error> {
        &self.fault
    }

    fn writing_since(&self) -> &AtomicU64 {
        &self.writing_since
    }

    fn counts(&self) -> &ServerCounts {
        &self.counts
    }
}

impl<O: Write, R: Wait + Clock> Watch for Watching<'_, O, R> {
    fn begins(&self) {
        let now = second_since_1970(self.rt).unwrap_or(0);
        self.writing_since.store(now, Ordering::SeqCst);
        let began_at = nanoseconds(self.rt).unwrap_or(u64::MAX);
        self.began_at.store(began_at, Ordering::SeqCst);
    }

    fn ends(&self) {
        self.writing_since.store(0, Ordering::SeqCst);
        let now = nanoseconds(self.rt).unwrap_or(0);
        let took = now.saturating_sub(self.began_at.load(Ordering::SeqCst));
        self.counts.note_wait(Duration::from_nanos(took));
    }

    fn failed(&self, error: io::Error) {
        let _noted = self.fault.try_set(error);
    }

    fn has_read(&self, count: usize) {
        self.read.fetch_add(count as u64, Ordering::SeqCst);
        if !self.is_over.load(Ordering::SeqCst) {
            self.look();
        }
    }

    fn has_written(&self, count: usize) {
        self.counts.note_written(count);
        if self.doing == Doing::Opening {
            self.is_over.store(true, Ordering::SeqCst);
            return;
        }
        self.look();
    }

    fn has_synced(&self) {
        self.counts.note_sync();
    }
}
