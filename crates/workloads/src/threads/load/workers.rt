// What the clients do.
use crate::asking::ask;
use crate::threads::load::requests::{Asked, all_calls, calls_of};
use calls::{Call, Kind, Refusal, Reply};
use fizgaloms::{Attempt, Transaction, Work, keep};
use std::alloc::{AllocError, AllocGlobal, Global};
use std::rt::Clock;
use std::sync::Wait;
use store::{Client, Naming};

// How many transactions each client runs.
const EACH: u64 = 60;

/// A transaction that was committed.
#[derive(Drop)]
pub struct Round {
    /// Its place among those that were.
    pub place: u64,
    /// Its calls, with what they were answered.
    pub calls: Vec<(Call, Reply)>,
}

// Which calls a transaction makes.
#[derive(Clone, Copy)]
enum Choice {
    // Those of a client, by its number and that of the transaction.
    Own(usize, u64),
    // Those that ask for all.
    All,
}

// A transaction of many calls.
#[derive(Clone, Copy)]
struct Calls {
    alloc: Global,
    choice: Choice,
}

impl Calls {
    fn asked(&self) -> Result<Vec<Asked>, AllocError> {
        match self.choice {
            Choice::Own(client, number) => calls_of(self.alloc, client, number),
            Choice::All => all_calls(self.alloc),
        }
    }
}

impl Transaction for Calls {
    type Output = Vec<(Call, Reply)>;

    fn make_calls<A: Attempt>(&self, attempt: &mut A) -> Result<Vec<(Call, Reply)>, Refusal> {
        let mut made = Vec::new(self.alloc);
        for Asked { name, call } in self.asked()? {
            match ask(attempt, name, &call) {
                Ok(reply) => made.push((call, reply))?,
                // It has released the identifier already.
                Err(Refusal::AlreadyGoing) => {}
                Err(refusal) => return Err(refusal),
            }
        }
        Ok(made)
    }
}

/// Makes the collections.
pub struct Making;

impl Work for Making {
    type Output = Result<Vec<Round>, Refusal>;

    fn work<J: Naming, R: Wait + Clock + AllocGlobal>(
        &self,
        rt: &R,
        client: &mut Client<'_, J>,
        _thread: usize,
    ) -> Result<Vec<Round>, Refusal> {
        client.make(rt, "set", Kind::Set)?;
        client.make(rt, "map", Kind::Map)?;
        client.make(rt, "queue", Kind::Queue)?;
        client.make(rt, "counter", Kind::Counter)?;
        client.make(rt, "pool", Kind::Pool)?;
        client.make(rt, "stock", Kind::Stock)?;
        client.make(rt, "quotas", Kind::Quotas)?;
        Ok(Vec::new(rt.alloc()))
    }
}

/// Runs a client's transactions, one of five of which it gives up.
pub struct Running;

impl Work for Running {
    type Output = Result<Vec<Round>, Refusal>;

    fn work<J: Naming, R: Wait + Clock + AllocGlobal>(
        &self,
        rt: &R,
        client: &mut Client<'_, J>,
        thread: usize,
    ) -> Result<Vec<Round>, Refusal> {
        let alloc = rt.alloc();
        let mut rounds = Vec::new(alloc);
        for number in 0..EACH {
            let choice = Choice::Own(thread, number);
            let calls = Calls { alloc, choice };
            if number % 5 == 4 {
                give_up(rt, client, &calls)?;
            } else {
                rounds.push(commit(rt, client, &calls)?)?;
            }
        }
        Ok(rounds)
    }
}

/// Asks for all that the collections hold.
pub struct Looking;

impl Work for Looking {
    type Output = Result<Vec<Round>, Refusal>;

    fn work<J: Naming, R: Wait + Clock + AllocGlobal>(
        &self,
        rt: &R,
        client: &mut Client<'_, J>,
        _thread: usize,
    ) -> Result<Vec<Round>, Refusal> {
        let alloc = rt.alloc();
        let calls = Calls {
            alloc,
            choice: Choice::All,
        };
        let mut rounds = Vec::new(alloc);
        rounds.push(commit(rt, client, &calls)?)?;
        Ok(rounds)
    }
}

// Commits a transaction, and waits until it is kept.
fn commit<J: Naming, R: Wait + Clock>(
    rt: &R,
    client: &mut Client<'_, J>,
    calls: &Calls,
) -> Result<Round, Refusal> {
    let (calls, ticket) = keep(rt, client, calls)?;
    Ok(Round {
        place: ticket.place,
        calls,
    })
}

// Makes the calls of a transaction and takes it back.
fn give_up<J: Naming, R: Wait>(
    rt: &R,
    client: &mut Client<'_, J>,
    calls: &Calls,
) -> Result<(), Refusal> {
    if client.is_open() {
        return Err(Refusal::AlreadyLive);
    }
    client.begin()?;
    let _made = client.attempt(rt, calls);
    client.abort(rt)
}
