// The clients that are measured.
use crate::bench::calling::tag;
use crate::bench::committing::{Held, SameCall, commit_all};
use crate::bench::log::Log;
use crate::bench::tpcb::Posting;
use crate::bench::window::Window;
use crate::bench::workload::{Waiting, Workload};
use crate::trouble::Trouble;
use calls::{Kind, Refusal, Reply};
use fizgaloms::{Transaction, Work, keep, transact};
use rand_pcg::Pcg32;
use std::alloc::AllocGlobal;
use std::rt::Clock;
use std::sync::Wait;
use std::thread;
use std::time::{Duration, Instant};
use store::{Client, Naming, Ticket};

// For how many milliseconds a client pauses that is paced.
const PAUSE: u64 = 1;

/// What the clients do that are measured, each in a thread.
#[derive(Drop)]
pub struct Measuring<'a, P> {
    /// Where what is kept is told.
    pub output: &'a P,
    /// Whether each transaction that is kept is told.
    pub is_told: bool,
    pub workload: Workload,
    /// How many transactions a client commits that fills the store.
    pub count: u64,
    /// What bounds those of the others.
    pub window: Window,
}

impl<P: Print> Work for Measuring<'_, P> {
    type Output = Result<Log, Trouble>;

    fn work<J: Naming, R: Wait + Clock + AllocGlobal>(
        &self,
        rt: &R,
        client: &mut Client<'_, J>,
        thread: usize,
    ) -> Result<Log, Trouble> {
        match self.workload {
            Workload::OpenFill => self.fill(rt, client),
            _ => self.run(rt, client, thread as u64),
        }
    }
}

impl<P: Print> Measuring<'_, P> {
    // Commits all transactions, and waits for the last one alone.
    fn fill<J: Naming, R: Wait + Clock + AllocGlobal>(
        &self,
        rt: &R,
        client: &mut Client<'_, J>,
    ) -> Result<Log, Trouble> {
        let mut log = Log::new(rt.alloc(), Instant::now(rt)?);
        commit_all(rt, client, self.workload.content(0), self.count)?;
        log.end = Instant::now(rt)?;
        log.commits = self.count;
        Ok(log)
    }

    // Does what the client of this number does until the window admits no more, and waits for the
    // last transaction at the end, if not for each.
    fn run<J: Naming, R: Wait + Clock + AllocGlobal>(
        &self,
        rt: &R,
        client: &mut Client<'_, J>,
        number: u64,
    ) -> Result<Log, Trouble> {
        let mut numbers = Pcg32::new(number, 1);
        let mut log = Log::new(rt.alloc(), Instant::now(rt)?);
        let mut last = None;
        for _ in rt.forever() {
            if !self.window.admits(&log) {
                break;
            }
            let start = self.start(rt, &log)?;
            let (reply, ticket) = self.commit_next(rt, client, number, &mut numbers, &mut log)?;
            self.note(rt, reply, start, &mut log)?;
            self.tell(number, &log)?;
            last = Some(ticket);
        }
        if let Some(ticket) = last {
            client.wait(rt, &ticket)?;
            log.end = Instant::now(rt)?;
        }
        Ok(log)
    }

    // When a transaction begins: as the client's last one ends, or behind a pause, which is not
    // timed.
    fn start(&self, clock: &impl Clock, log: &Log) -> Result<Instant, Trouble> {
        if self.workload.waiting() != Waiting::Paced {
            return Ok(log.end);
        }
        thread::sleep(clock, Duration::from_millis(PAUSE));
        Ok(Instant::now(clock)?)
    }

    // Commits the next transaction of the client of this number.
    fn commit_next<J: Naming, R: Wait + Clock + AllocGlobal>(
        &self,
        rt: &R,
        client: &mut Client<'_, J>,
        number: u64,
        numbers: &mut Pcg32,
        log: &mut Log,
    ) -> Result<(Reply, Ticket), Refusal> {
        if self.workload == Workload::Tpcb {
            let posting = Posting::next(rt.alloc(), tag(number, log.commits), numbers);
            return self.commit(rt, client, &posting);
        }
        let content = self.workload.content(self.workload.called(number));
        let call = content.next_call(rt.alloc(), number, numbers, &mut log.put)?;
        let transaction = SameCall::new(content.collection, self.workload.calls(), call);
        match self.workload {
            Workload::JobsHeld => self.commit(rt, client, &Held::new(rt, transaction)),
            _ => self.commit(rt, client, &transaction),
        }
    }

    // Commits a transaction, and waits until it is kept where clients wait for each.
    fn commit<T: Transaction<Output = Reply>, J: Naming, R: Wait + Clock>(
        &self,
        rt: &R,
        client: &mut Client<'_, J>,
        transaction: &T,
    ) -> Result<(Reply, Ticket), Refusal> {
        match self.workload.waiting() {
            Waiting::ForEach => keep(rt, client, transaction),
            Waiting::ForLast | Waiting::Paced => transact(rt, client, transaction),
        }
    }

    // Tells how many of a client's transactions are kept, where it waits for each.
    fn tell(&self, number: u64, log: &Log) -> Result<(), Trouble> {
        if self.is_told && self.workload.waiting() == Waiting::ForEach {
            println!(self.output; "{number} {}", log.commits)?;
        }
        Ok(())
    }

    // Notes what a transaction came to that ends now, and how long it took. One that found no job
    // is not counted.
    fn note(
        &self,
        clock: &impl Clock,
        reply: Reply,
        start: Instant,
        log: &mut Log,
    ) -> Result<(), Trouble> {
        log.end = Instant::now(clock)?;
        match reply {
            Reply::Nothing if matches!(self.workload.content(0).kind, Kind::Queue | Kind::Set) => {
                self.window.give_back();
                thread::yield_now();
                return Ok(());
            }
            Reply::Id(taken) | Reply::Item(_, taken) => log.taken.push(taken)?,
            _ => {}
        }
        let time = log.end.duration_since(start).as_nanos();
        log.times.push(u64::try_from(time).unwrap_or(u64::MAX))?;
        log.commits = log.commits.wrapping_add(1);
        Ok(())
    }
}
