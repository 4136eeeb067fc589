//! An id service: four threads draw identifiers from the pool of a store in a file, which is then
//! closed, opened again and drawn from once more. No identifier is given twice.
//!
//! This file is a whole example, to be copied: it uses nothing of the other modules.
ghost use Rattle.std.specs.Prelude.{IfOk};
ghost use Rattle.fizgaloms.specs.Works.{HasKept};

use fizgaloms::{
    AllocGlobal, Attempt, Call, Client, Clock, Kind, MIN_AREA, Naming, Refusal, Reply, StoreFile,
    Ticket, Transaction, Wait, Work, keep, open_or_format, open_or_make,
};
use std::fs::File;
use std::rt::Files;
use std::thread::Threads;

// How many identifiers each of the four threads draws.
const EACH: usize = 25;

// A transaction that draws one identifier.
struct Draw;

impl Transaction for Draw {
    type Output = u64;

    fn make_calls<A: Attempt>(&self, attempt: &mut A) -> Result<u64, Refusal> {
        match attempt.call("ids", &Call::Draw)? {
            Reply::Id(id) => Ok(id),
            _ => Err(Refusal::WrongKind),
        }
    }
}

// Draws identifiers: each is kept through a stop before the next is asked for. A thread answers
// them with the ticket of the last draw, which tells that all of them are kept.
struct Drawing;

impl Work for Drawing {
    ghost use Rattle.fizgaloms.specs.Works.{IsKeptSo};

    type Output = Result<(Vec<u64>, Ticket), Refusal>;

    ghost says = { λ _ _ _ answer known. IsKeptSo known answer };

    fn work<J: Naming, R: Wait + Clock + AllocGlobal>(
        &self,
        rt: &R,
        client: &mut Client<'_, J>,
        _thread: usize,
    ) -> Result<(Vec<u64>, Ticket), Refusal> {
        open_or_make(rt, client, "ids", Kind::Pool)?;
        let mut drawn = Vec::new(rt.alloc());
        for _ in 1..EACH {
            draw_one(rt, client, &mut drawn)?;
        }
        let ticket = draw_one(rt, client, &mut drawn)?;
        Ok((drawn, ticket))
    }
}

// Draws an identifier, keeps that, and adds it to these.
fn draw_one<J: Naming, R: Wait + Clock>(
    rt: &R,
    client: &mut Client<'_, J>,
    drawn: &mut Vec<u64>,
) -> Result<Ticket, Refusal>
    ensures { IfOk result (λ ticket. HasKept client.new ticket.place) }
{
    let (id, ticket) = keep(rt, client, &Draw)?;
    drawn.push(id)?;
    Ok(ticket)
}

// Opens the file, draws identifiers by four threads, and adds them to these.
fn draw_more<R: Threads + Wait + Clock + Files<File = File> + AllocGlobal + Sync>(
    rt: &R,
    ids: &mut Vec<u64>,
) -> anyhow::Result<()> {
    let disk: StoreFile = open_or_format(rt, "ids.disk", MIN_AREA)?;
    let (drawn, _closed) = fizgaloms::run(rt, disk, &Drawing, 4);
    for some in drawn? {
        ids.extend_from_slice(some?.0.as_slice())?;
    }
    Ok(())
}

/// Draws identifiers, and more once the file was opened again. Prints how many are different.
pub fn run<R: Threads + Wait + Clock + Files<File = File> + Print + AllocGlobal + Sync>(
    rt: &R,
) -> anyhow::Result<()> {
    let mut ids = Vec::new(rt.alloc());
    draw_more(rt, &mut ids)?;
    println!(rt; "drew {} identifiers", ids.len())?;
    let before = ids.len();
    draw_more(rt, &mut ids)?;
    println!(rt;
        "drew {} more once the file was opened again",
        ids.len().saturating_sub(before)
    )?;
    ids.sort()?;
    ids.dedup();
    println!(rt; "{} of them are different", ids.len())?;
    Ok(())
}
