//! A program of one's own on a store in a file, to begin with: each run adds one to a counter, and
//! prints how often it was run.
#![tactic(auto)]

use fizgaloms::{
    AllocGlobal, Attempt, Call, Client, Clock, Kind, MIN_AREA, Naming, Refusal, Reply, StoreFile,
    Ticket, Transaction, Wait, Work, keep, open_or_format, open_or_make,
};

// A transaction that adds one to the counter. Answers what it holds then.
struct Count;

impl Transaction for Count {
    type Output = i128;

    fn make_calls<A: Attempt>(&self, attempt: &mut A) -> Result<i128, Refusal> {
        attempt.call("runs", &Call::Bump(1))?;
        match attempt.call("runs", &Call::Read)? {
            Reply::Total(runs) => Ok(runs),
            _ => Err(Refusal::WrongKind),
        }
    }
}

// What each thread does: it answers what it counted, with the ticket of the commit, which is kept.
struct Counting;

impl Work for Counting {
    ghost use Rattle.fizgaloms.specs.Works.{IsKeptSo};

    type Output = Result<(i128, Ticket), Refusal>;

    ghost says = { λ _ _ _ answer known. IsKeptSo known answer };

    fn work<J: Naming, R: Wait + Clock + AllocGlobal>(
        &self,
        rt: &R,
        client: &mut Client<'_, J>,
        _thread: usize,
    ) -> Result<(i128, Ticket), Refusal> {
        open_or_make(rt, client, "runs", Kind::Counter)?;
        keep(rt, client, &Count)
    }
}

fn main(rt: HostRuntime) -> anyhow::Result<()> {
    let disk: StoreFile = open_or_format(&rt, "template.disk", MIN_AREA)?;
    let (answers, _closed) = fizgaloms::run(&rt, disk, &Counting, 1);
    for runs in answers? {
        println!(rt; "run {} of this store", runs?.0)?;
    }
    Ok(())
}
