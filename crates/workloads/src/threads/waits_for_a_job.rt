// A client that waits for a job, which another one puts in.
use crate::trouble::Trouble;
use calls::limits::MIN_AREA;
use calls::{Call, Kind, Refusal, Reply};
use disk_model::MemDisk;
use fizgaloms::{Attempt, NOTHING_FOUND, Patience, Transaction, Work, keep, keep_waiting};
use gate_block::layout::AREAS_AT;
use recovery::format;
use std::alloc::{AllocGlobal, Global};
use std::io::Write;
use std::rt::Clock;
use std::sync::Wait;
use std::sync::atomic::{AtomicU64, Ordering};
use std::thread::{self, Threads};
use std::time::Duration;
use store::{Client, Naming};

// The size of the disk.
const SIZE: u64 = AREAS_AT + 2 * MIN_AREA;

// So many seconds one waits for the job at most.
const LONGEST: u64 = 60;

// The other one looks so often at most whether one waits, with a millisecond between two looks.
const LOOKS: u64 = 30_000;

// So many milliseconds it lets it sleep.
const SLEEP: u64 = 200;

const JOB: u64 = 7;

// Takes a job out, and counts how often there was none.
#[derive(Clone, Copy)]
struct TakeJob<'m> {
    misses: &'m AtomicU64,
}

impl Transaction for TakeJob<'_> {
    type Output = u64;

    fn make_calls<A: Attempt>(&self, attempt: &mut A) -> Result<u64, Refusal> {
        let Reply::Id(job) = attempt.call("jobs", &Call::Pick)? else {
            self.misses.fetch_add(1, Ordering::SeqCst);
            return Err(NOTHING_FOUND);
        };
        Ok(job)
    }
}

// Puts the job in.
struct PutJob;

impl Transaction for PutJob {
    type Output = u64;

    fn make_calls<A: Attempt>(&self, attempt: &mut A) -> Result<u64, Refusal> {
        attempt.call("jobs", &Call::SetAdd(JOB))?;
        Ok(JOB)
    }
}

// The first thread waits for the job, and the second one puts it in once that sleeps.
#[derive(Drop)]
struct Handing {
    misses: AtomicU64,
}

impl Handing {
    // Sleeps until the other one has found nothing, and as long as that is to sleep.
    fn await_miss<R: Wait + Clock>(&self, rt: &R) {
        for _ in 0..LOOKS {
            if self.misses.load(Ordering::SeqCst) > 0 {
                break;
            }
            thread::sleep(rt, Duration::from_millis(1));
        }
        thread::sleep(rt, Duration::from_millis(SLEEP));
    }
}

impl Work for Handing {
    type Output = Result<u64, Refusal>;

    fn work<J: Naming, R: Wait + Clock + AllocGlobal>(
        &self,
        rt: &R,
        client: &mut Client<'_, J>,
        thread: usize,
    ) -> Result<u64, Refusal> {
        if thread > 0 {
            self.await_miss(rt);
            return Ok(keep(rt, client, &PutJob)?.0);
        }
        client.make(rt, "jobs", Kind::Set)?;
        let take = TakeJob {
            misses: &self.misses,
        };
        let patience = Patience {
            longest: Duration::from_secs(LONGEST),
            alike: 0,
        };
        Ok(keep_waiting(rt, client, &take, patience)?.0)
    }
}

// The jobs that the first thread was given and the second one has put in.
fn jobs_of<R: Threads + Wait + Clock + AllocGlobal + Sync>(
    rt: &R,
    disk: MemDisk,
    handing: &Handing,
) -> Result<Vec<u64>, Refusal> {
    let (answers, _closed) = fizgaloms::run(rt, disk, handing, 2);
    given(rt.alloc(), answers?)
}

// What each thread was answered, where none was refused.
fn given(alloc: Global, answers: Vec<Result<u64, Refusal>>) -> Result<Vec<u64>, Refusal> {
    let mut jobs = Vec::new(alloc);
    for answer in answers {
        jobs.push(answer?)?;
    }
    Ok(jobs)
}

/// Shows that who waits for a job sleeps, and is woken: one client looks for a job, finds none and
/// waits, and another one puts it in 200 milliseconds later. Writes the jobs that the first one was
/// given and the second one has put in, and how often the first one looked in vain.
pub fn run<R: Threads + Wait + Clock + AllocGlobal + Sync>(
    rt: &R,
    out: &mut impl Write,
) -> Result<(), Trouble> {
    let mut disk = MemDisk::new(rt.alloc(), SIZE)?;
    format(&mut disk, MIN_AREA)?;
    let handing = Handing {
        misses: AtomicU64::new(0),
    };
    for job in jobs_of(rt, disk, &handing)? {
        write!(out, "job {job}; ")?;
    }
    let misses = handing.misses.load(Ordering::SeqCst);
    writeln!(out, "looks in vain: {misses}")?;
    Ok(())
}
