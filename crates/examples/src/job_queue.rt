//! A job queue in a store in a file. Four workers do jobs side by side, as another thread puts them
//! in: each picks a job of a set, works while it holds it, and writes the result in the same
//! transaction. Who finds none sleeps until there is one. Who gives up, or dies, has its job taken
//! back by the store. A job that fails is tried again, and lies aside once it failed three times.
//! It can be stopped at any time and started again. This file is a whole example, to be copied.

use fizgaloms::{
    AllocGlobal, Attempt, Call, Client, Clock, Kind, MIN_AREA, NOTHING_FOUND, Naming, Patience,
    Refusal, Reply, StoreFile, Ticket, Transaction, Wait, Work, keep, keep_waiting, number_of,
    open_or_format, open_or_make, transact, value_of_number,
};
use std::fs::File;
use std::rt::Files;
use std::thread::{self, Threads};
use std::time::Duration;

const JOBS: u64 = 40;

const WORKERS: u64 = 4;

// How often a job is tried.
const TRIES: u64 = 3;

// How a worker waits for a job: for a minute at most, and all for the same.
fn patience() -> Patience {
    Patience {
        longest: Duration::from_secs(60),
        alike: 1,
    }
}

// What the work comes to: nothing for every thirteenth job, which fails.
fn result_of(job: u64) -> Option<u64> {
    if job % 13 == 0 {
        None
    } else {
        Some(job.wrapping_mul(job))
    }
}

// A transaction, which answers how many jobs it is about.
#[derive(Clone, Copy)]
enum Step<'r, R> {
    Put(u64),
    GiveUp,
    Do(&'r R),
    Count(&'static str),
}

impl<R: Clock + AllocGlobal> Transaction for Step<'_, R> {
    type Output = u64;

    fn make_calls<A: Attempt>(&self, attempt: &mut A) -> Result<u64, Refusal> {
        match *self {
            Step::Put(job) => put(attempt, job),
            Step::GiveUp => {
                attempt.call("jobs", &Call::Pick)?;
                Err(Refusal::Unfinished)
            }
            Step::Do(rt) => do_one(rt, attempt),
            Step::Count(collection) => count(attempt, collection),
        }
    }
}

// Puts a job in, unless it was done.
fn put<A: Attempt>(attempt: &mut A, job: u64) -> Result<u64, Refusal> {
    let is_done = attempt.call("done", &Call::Contains(job))?;
    if let Reply::No = is_done {
        attempt.call("jobs", &Call::SetAdd(job))?;
    }
    Ok(1)
}

// Does a job, and holds it meanwhile. While others hold theirs, `Nothing` is answered to nobody, as
// a job may come back. A number that is none of a job is put in behind them, and ends a worker.
fn do_one<R: Clock + AllocGlobal, A: Attempt>(rt: &R, attempt: &mut A) -> Result<u64, Refusal> {
    let Reply::Id(job) = attempt.call("jobs", &Call::Pick)? else {
        return Err(NOTHING_FOUND);
    };
    if job >= JOBS {
        return Ok(0);
    }
    thread::sleep(rt, Duration::from_millis(1));
    match result_of(job) {
        Some(result) => {
            let value = value_of_number(rt.alloc(), result)?;
            attempt.call("results", &Call::Put(job, value))?;
            attempt.call("done", &Call::SetAdd(job))?;
        }
        None => put_back(rt, attempt, job)?,
    }
    Ok(1)
}

// Puts a job that failed back, or aside where it failed too often.
fn put_back<R: AllocGlobal, A: Attempt>(rt: &R, attempt: &mut A, job: u64) -> Result<(), Refusal> {
    let failed = match attempt.call("tries", &Call::Get(job))? {
        Reply::Value(value) => number_of(&value).unwrap_or(0),
        _ => 0,
    };
    let failed = failed.wrapping_add(1);
    let value = value_of_number(rt.alloc(), failed)?;
    attempt.call("tries", &Call::Put(job, value))?;
    if failed < TRIES {
        attempt.call("jobs", &Call::SetAdd(job))?;
    } else {
        attempt.call("failed", &Call::SetAdd(job))?;
        attempt.call("done", &Call::SetAdd(job))?;
    }
    Ok(())
}

// How many jobs the set has.
fn count<A: Attempt>(attempt: &mut A, collection: &str) -> Result<u64, Refusal> {
    let mut found = 0u64;
    for job in 0..JOBS {
        let reply = attempt.call(collection, &Call::Contains(job))?;
        found = found.wrapping_add(u64::from(matches!(reply, Reply::Yes)));
    }
    Ok(found)
}

// What the threads of a run do.
#[derive(Clone, Copy)]
enum Part {
    /// One puts all jobs in, and the others do them. Each gives a job up first.
    Working,
    /// One counts those that are done and those that failed.
    Counting,
}

// Puts all jobs in, and behind them what ends each worker.
fn put_all<J: Naming, R: Wait + Clock + AllocGlobal>(
    rt: &R,
    client: &mut Client<'_, J>,
) -> Result<(), Refusal> {
    for job in 0..JOBS + WORKERS {
        keep(rt, client, &Step::<R>::Put(job))?;
    }
    Ok(())
}

// Does jobs as they come, until it is ended.
fn do_all<J: Naming, R: Wait + Clock + AllocGlobal>(
    rt: &R,
    client: &mut Client<'_, J>,
) -> Result<(), Refusal> {
    let _given_up = transact(rt, client, &Step::<R>::GiveUp);
    for _ in rt.forever() {
        if keep_waiting(rt, client, &Step::Do(rt), patience())?.0 == 0 {
            break;
        }
    }
    Ok(())
}

// Each counts at its end, and answers that with the ticket of the last count, which is kept: and so
// is all that the thread has done.
impl Work for Part {
    ghost use Rattle.fizgaloms.specs.Works.{IsKeptSo};

    type Output = Result<((u64, u64), Ticket), Refusal>;

    ghost says = { λ _ _ _ answer known. IsKeptSo known answer };

    fn work<J: Naming, R: Wait + Clock + AllocGlobal>(
        &self,
        rt: &R,
        client: &mut Client<'_, J>,
        thread: usize,
    ) -> Result<((u64, u64), Ticket), Refusal> {
        for name in ["jobs", "done", "failed"] {
            open_or_make(rt, client, name, Kind::Set)?;
        }
        for name in ["results", "tries"] {
            open_or_make(rt, client, name, Kind::Map)?;
        }
        match self {
            Part::Working if thread == 0 => put_all(rt, client)?,
            Part::Working => do_all(rt, client)?,
            Part::Counting => {}
        }
        let (done, _ticket) = transact(rt, client, &Step::<R>::Count("done"))?;
        let (failed, ticket) = keep(rt, client, &Step::<R>::Count("failed"))?;
        Ok(((done, failed), ticket))
    }
}

// Opens the file, has threads do their part, and answers what the last one counted at its end.
fn do_part<R: Threads + Wait + Clock + Files<File = File> + AllocGlobal + Sync>(
    rt: &R,
    part: Part,
    threads: usize,
) -> anyhow::Result<(u64, u64)> {
    let disk: StoreFile = open_or_format(rt, "jobs.disk", MIN_AREA)?;
    let (answers, _closed) = fizgaloms::run(rt, disk, &part, threads);
    let mut counts = (0, 0);
    for answer in answers? {
        counts = answer?.0;
    }
    Ok(counts)
}

/// Puts jobs in, does them, and counts them once the file was opened again. Prints what came of it.
pub fn run<R: Threads + Wait + Clock + Files<File = File> + Print + AllocGlobal + Sync>(
    rt: &R,
) -> anyhow::Result<()> {
    do_part(rt, Part::Working, 5)?;
    let (done, failed) = do_part(rt, Part::Counting, 1)?;
    println!(rt;
        "{} jobs have their result once the file was opened again, and {failed} lie aside",
        done.wrapping_sub(failed)
    )?;
    Ok(())
}
