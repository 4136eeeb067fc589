// Transactions of the same call.
use crate::asking::ask;
use crate::bench::calling::Content;
use calls::{Call, Refusal, Reply};
use fizgaloms::{Attempt, Transaction, transact};
use rand_pcg::Pcg32;
use std::alloc::AllocGlobal;
use std::rt::Clock;
use std::sync::Wait;
use std::thread;
use std::time::Duration;
use store::{Client, Naming};

/// A transaction of one call of a collection, or of as many of the same as the transactions of a
/// workload have.
#[derive(Drop)]
pub struct SameCall {
    collection: &'static str,
    count: u32,
    call: Call,
}

impl SameCall {
    /// The transaction of so many of the same call of the collection of that name, at least one.
    pub fn new(collection: &'static str, count: u32, call: Call) -> SameCall {
        SameCall {
            collection,
            count,
            call,
        }
    }
}

impl Transaction for SameCall {
    type Output = Reply;

    fn make_calls<A: Attempt>(&self, attempt: &mut A) -> Result<Reply, Refusal> {
        for _ in 1..self.count {
            ask(attempt, self.collection, &self.call)?;
        }
        ask(attempt, self.collection, &self.call)
    }
}

// For how many milliseconds a worker works on a job that it holds.
const WORK: u64 = 1;

/// A transaction of one call, which is held while the work is done that the call is about.
#[derive(Drop)]
pub struct Held<'r, R> {
    clock: &'r R,
    transaction: SameCall,
}

impl<'r, R> Held<'r, R> {
    /// The transaction, held for a while by that clock.
    pub fn new(clock: &'r R, transaction: SameCall) -> Self {
        Held { clock, transaction }
    }
}

impl<R: Clock> Transaction for Held<'_, R> {
    type Output = Reply;

    fn make_calls<A: Attempt>(&self, attempt: &mut A) -> Result<Reply, Refusal> {
        let reply = self.transaction.make_calls(attempt)?;
        thread::sleep(self.clock, Duration::from_millis(WORK));
        Ok(reply)
    }
}

/// Commits so many of the calls that make the content, each in a transaction, without waiting
/// between them, and waits for the last one.
///
/// The refusals of `transact`; Lost where the disk failed; NoMemory.
pub fn commit_all<J: Naming, R: Wait + Clock + AllocGlobal>(
    rt: &R,
    client: &mut Client<'_, J>,
    content: Content,
    count: u64,
) -> Result<(), Refusal> {
    let mut numbers = Pcg32::new(0, 1);
    let mut last = None;
    for number in 0..count {
        let call = content.first_call(rt.alloc(), number, &mut numbers)?;
        let (_, ticket) = transact(rt, client, &SameCall::new(content.collection, 1, call))?;
        last = Some(ticket);
    }
    if let Some(ticket) = last {
        client.wait(rt, &ticket)?;
    }
    Ok(())
}
