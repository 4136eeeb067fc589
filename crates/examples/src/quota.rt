//! Quotas of a thousand customers, in a store in a file: four threads spend from them, and from the
//! same customer's side by side. What a customer has left never falls below zero, and nobody waits
//! for anybody. This file is a whole example, to be copied.
ghost use Rattle.fizgaloms.specs.Works.{IsKeptSo};

use fizgaloms::{
    AllocGlobal, Attempt, Call, Client, Clock, Kind, Naming, Refusal, Reply, StoreFile, Ticket,
    Transaction, Wait, Work, keep, open_or_format, open_or_make, transact,
};
use std::fs::File;
use std::rt::Files;
use std::thread::Threads;

const AREA: u64 = 1 << 20;

const CUSTOMERS: u64 = 1_000;

// What each quota is filled by.
const LIMIT: u64 = 100;

const THREADS: usize = 4;

// Each thread asks so often, of every tenth customer's quota in turn, for so much.
const ASKS: u64 = 300;

const ASKED: u64 = 40;

// A transaction that fills all quotas, or spends from a customer's where it has as much. It answers
// how many quotas it changed.
#[derive(Clone, Copy)]
enum Change {
    Fill,
    Spend(u64),
}

impl Transaction for Change {
    type Output = u64;

    fn make_calls<A: Attempt>(&self, attempt: &mut A) -> Result<u64, Refusal> {
        match *self {
            Change::Fill => fill_all(attempt),
            Change::Spend(customer) => {
                let reply = attempt.call("quotas", &Call::QuotaSpend(customer, ASKED))?;
                Ok(u64::from(matches!(reply, Reply::Yes)))
            }
        }
    }
}

fn fill_all<A: Attempt>(attempt: &mut A) -> Result<u64, Refusal> {
    for customer in 0..CUSTOMERS {
        attempt.call("quotas", &Call::QuotaFill(customer, LIMIT))?;
    }
    Ok(CUSTOMERS)
}

// What the threads of a run do: one fills the quotas, or four spend.
#[derive(Clone, Copy)]
enum Part {
    Filling,
    Spending,
}

// Each answers how much it changed, with the ticket of its last commit, which is kept.
impl Work for Part {
    ghost use Rattle.fizgaloms.specs.Works.{IsKeptSo};

    type Output = Result<(u64, Ticket), Refusal>;

    ghost says = { λ _ _ _ answer known. IsKeptSo known answer };

    fn work<J: Naming, R: Wait + Clock + AllocGlobal>(
        &self,
        rt: &R,
        client: &mut Client<'_, J>,
        _thread: usize,
    ) -> Result<(u64, Ticket), Refusal> {
        open_or_make(rt, client, "quotas", Kind::Quotas)?;
        match self {
            Part::Filling => keep(rt, client, &Change::Fill),
            Part::Spending => spend(rt, client),
        }
    }
}

// What an ask of this number spends from.
fn spending(ask: u64) -> Change {
    Change::Spend(ask.wrapping_mul(10) % CUSTOMERS)
}

// Asks, and waits for the last answer to be kept. How many asks were granted.
fn spend<J: Naming, R: Wait + Clock>(
    rt: &R,
    client: &mut Client<'_, J>,
) -> Result<(u64, Ticket), Refusal>
    ensures { IsKeptSo client.new result }
{
    let mut granted = 0u64;
    for ask in 1..ASKS {
        granted = granted.wrapping_add(transact(rt, client, &spending(ask))?.0);
    }
    let (last, ticket) = keep(rt, client, &spending(ASKS))?;
    Ok((granted.wrapping_add(last), ticket))
}

// Has threads do a part on the disk, and answers what they changed, and the disk.
fn do_part<R: Threads + Wait + Clock + AllocGlobal + Sync>(
    rt: &R,
    disk: StoreFile,
    part: Part,
    threads: usize,
) -> anyhow::Result<(u64, StoreFile)> {
    let (answers, closed) = fizgaloms::run(rt, disk, &part, threads);
    let mut changed = 0u64;
    for some in answers? {
        changed = changed.wrapping_add(some?.0);
    }
    Ok((changed, closed.disk))
}

/// Fills the quotas and spends from them, and does so once more when the file was opened again.
/// Prints how many asks were granted.
pub fn run<R: Threads + Wait + Clock + Files<File = File> + Print + AllocGlobal + Sync>(
    rt: &R,
) -> anyhow::Result<()> {
    for _ in 0..2u32 {
        let disk: StoreFile = open_or_format(rt, "quota.disk", AREA)?;
        let (filled, disk) = do_part(rt, disk, Part::Filling, 1)?;
        let (granted, _disk) = do_part(rt, disk, Part::Spending, THREADS)?;
        println!(rt; "{filled} quotas are filled, and {granted} of 1200 asks granted")?;
    }
    Ok(())
}
