// How a burst of commits gets into one block.
use std::rt::Clock;
use std::time::{Duration, Instant};
use std::{hint, thread};
use store::Signal;

// How often the committer pauses, with no commit meanwhile, before it cuts all the same.
const PATIENCE: u32 = 16;

// How often it pauses at most.
const LONGEST: u32 = 256;

// For how many commits it waits at most: a block has room for some more of the shortest.
const MOST: u64 = 1024;

// How often it spins in a pause.
const SPINS: u32 = 32;

// A disk on which a block takes more microseconds is slow: who waits for it sleeps, and so the
// committer gives those who come back longer.
const SLOW: u64 = 400;

// On a slow disk it waits for a part of the time that the last block took, and no more microseconds
// than that.
const PART: u32 = 4;

const LONGEST_WAIT: u64 = 1000;

// How often a client looks for its ticket before it sleeps, on a disk that is not slow. From the
// eighth look on it yields its processor between two.
const LOOKS: u64 = 1000;

// The same on a slow disk: it sleeps where it would begin to yield.
const FEW_LOOKS: u64 = 7;

// For how many commits the next block waits. A client whose commit was just kept is likely to come
// back with its next one, so the block waits for as many as were kept, beside those that came
// meanwhile, as long as they come.
#[derive(Drop)]
pub(crate) struct Burst {
    // The commits before the last cut, and before the one before it.
    cut: u64,
    before: u64,
    // The commits for which the next cut waits.
    wanted: u64,
    // How long it waits for them, where the disk is slow.
    longest: Duration,
}

impl Burst {
    pub(crate) fn new() -> Burst {
        Burst {
            cut: 0,
            before: 0,
            wanted: 0,
            longest: Duration::ZERO,
        }
    }

    // Waits for the commits of the next block, as long as they come.
    pub(crate) fn group(&mut self, clock: &impl Clock, signal: &Signal) {
        let commits = if self.longest.is_zero() {
            spin_for(signal, self.wanted)
        } else {
            yield_for(clock, signal, self.wanted, self.longest)
        };
        self.before = self.cut;
        self.cut = commits;
    }

    // The block was kept, and took so long: those whose commits it had may come back.
    pub(crate) fn release(&mut self, signal: &Signal, took: Duration) {
        let released = self.cut.wrapping_sub(self.before).min(MOST);
        self.wanted = signal.before_wake().wrapping_add(released);
        let is_slow = took > Duration::from_micros(SLOW);
        self.longest = if is_slow {
            (took / PART).min(Duration::from_micros(LONGEST_WAIT))
        } else {
            Duration::ZERO
        };
        signal.set_patience(if is_slow { FEW_LOOKS } else { LOOKS });
    }

    // Nothing is pending: who comes next is not waited for long.
    pub(crate) fn rest(&mut self) {
        self.longest = Duration::ZERO;
    }
}

// Waits for so many commits, as long as they come. It does not yield: where other programs are at
// work on all processors, who yields may get its own back some milliseconds later. Answers how many
// there are.
fn spin_for(signal: &Signal, wanted: u64) -> u64 {
    let mut commits = signal.commits();
    let mut idle = 0;
    for _ in 0..LONGEST {
        if commits >= wanted || idle >= PATIENCE || nobody_comes(signal) {
            break;
        }
        pause();
        let now = signal.commits();
        idle = if now == commits { idle + 1 } else { 0 };
        commits = now;
    }
    commits
}

// Whether no client commits before the next cut: all work is over, or clients wait for it.
fn nobody_comes(signal: &Signal) -> bool {
    signal.is_over() || signal.is_crowded()
}

// A few microseconds.
fn pause() {
    for _ in 0..SPINS {
        hint::spin_loop();
    }
}

// Waits for so many commits, no longer than that, while those who are to come have the processors.
// Answers how many there are.
fn yield_for(clock: &impl Clock, signal: &Signal, wanted: u64, longest: Duration) -> u64 {
    let mut commits = signal.commits();
    let Ok(start) = Instant::now(clock) else {
        return commits;
    };
    for _ in 0..u64::MAX {
        let is_late = start
            .elapsed(clock)
            .map_or(true, |waited| waited >= longest);
        if commits >= wanted || is_late || nobody_comes(signal) {
            break;
        }
        thread::yield_now();
        commits = signal.commits();
    }
    commits
}
