// Eight clients at once, whose replies are compared with those of a plain store.
mod plain;
mod requests;
mod workers;

use crate::trouble::Trouble;
use calls::Refusal;
use disk_model::{FileDisk, Unknown};
use fizgaloms::Work;
use gate_block::layout::AREAS_AT;
use plain::Plain;
use recovery::format;
use std::alloc::{AllocGlobal, Global};
use std::fs::File;
use std::io::Write;
use std::rt::{Clock, Files};
use std::sync::Wait;
use std::thread::Threads;
use workers::{Looking, Making, Round, Running};

const CLIENTS: usize = 8;

// The bytes of an area.
const AREA: u64 = 1 << 20;

// All transactions that were committed, in the order of their places.
fn in_order(alloc: Global, done: Vec<Result<Vec<Round>, Refusal>>) -> Result<Vec<Round>, Refusal> {
    let mut all = Vec::new(alloc);
    for rounds in done {
        all.append(&mut rounds?)?;
    }
    all.sort_by_key(|round| round.place)?;
    Ok(all)
}

// How many calls were answered otherwise than on the plain store.
fn differences(plain: &mut Plain, rounds: &[Round]) -> Result<usize, Refusal> {
    let mut count = 0usize;
    for round in rounds {
        count = count.wrapping_add(plain.replay(round.calls.as_slice())?);
    }
    Ok(count)
}

// Works on a disk in so many threads, and compares what was committed. Writes what came of it.
fn compare<
    W: Work<Output = Result<Vec<Round>, Refusal>> + Sync,
    R: Threads + Wait + Clock + AllocGlobal + Sync,
>(
    rt: &R,
    disk: FileDisk<Unknown>,
    plain: &mut Plain,
    work: &W,
    threads: usize,
    out: &mut impl Write,
) -> Result<FileDisk<Unknown>, Trouble> {
    let (done, closed) = fizgaloms::run(rt, disk, work, threads);
    let rounds = in_order(rt.alloc(), done?)?;
    let differences = differences(plain, rounds.as_slice())?;
    let committed = rounds.len();
    writeln!(
        out,
        "{threads} clients, {committed} transactions committed, {differences} replies differ"
    )?;
    Ok(closed.disk)
}

// Makes a store on a disk, and serves eight clients there.
fn serve<R: Threads + Wait + Clock + AllocGlobal + Sync>(
    rt: &R,
    disk: FileDisk<Unknown>,
    plain: &mut Plain,
    out: &mut impl Write,
) -> Result<(), Trouble> {
    let mut disk = disk;
    format(&mut disk, AREA)?;
    let disk = compare(rt, disk, plain, &Making, 1, out)?;
    let _disk = compare(rt, disk, plain, &Running, CLIENTS, out)?;
    Ok(())
}

/// Serves eight clients at once, each of which runs transactions on collections of all seven kinds,
/// gives some of them up, and tries those again that meet a lock of another one. Then the committed
/// transactions are run once more, whole, in the order of their places, on a plain store of one
/// thread: each call must get the reply there that its client got. Last the file is opened again,
/// and what it holds is asked for and compared. Writes how many replies differ.
pub fn run<R: Threads + Wait + Clock + Files<File = File> + AllocGlobal + Sync>(
    rt: &R,
    out: &mut impl Write,
) -> Result<(), Trouble> {
    let file = File::options()
        .read(true)
        .write(true)
        .create(true)
        .open(rt, "load.disk")?;
    file.set_len(AREAS_AT + 2 * AREA)?;
    let mut plain = Plain::new(rt.alloc());
    serve(rt, FileDisk::open(file)?, &mut plain, out)?;
    let file = File::options()
        .read(true)
        .write(true)
        .open(rt, "load.disk")?;
    let _disk = compare(rt, FileDisk::open(file)?, &mut plain, &Looking, 1, out)?;
    Ok(())
}
