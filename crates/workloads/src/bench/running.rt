// A run on a new store.
use crate::bench::checking::is_right;
use crate::bench::counting_disk::CountingDisk;
use crate::bench::counts::Counts;
use crate::bench::log::Log;
use crate::bench::measuring::Measuring;
use crate::bench::options::{Options, Variant};
use crate::bench::outcome::Outcome;
use crate::bench::preparing::Preparing;
use crate::bench::window::Window;
use crate::bench::workload::Workload;
use crate::trouble::Trouble;
use calls::Refusal;
use disk_model::Disk;
use fizgaloms::{all_ended, run};
use recovery::open;
use std::alloc::{AllocGlobal, Global};
use std::rt::{Clock, Env, Files};
use std::sync::Wait;
use std::thread::Threads;

/// Makes what the clients find at the start, and lets them run. What came of it, and whether what
/// the store holds once it is opened again is what they were told.
pub fn measure<
    D: Disk + Drop + Send,
    R: Threads + Wait + Clock + Env + Files + Print + AllocGlobal + Sync,
>(rt: &R, disk: D, options: &Options<'_>) -> Result<(Outcome, bool), Trouble> {
    let workload = options.workload;
    let disk = prepare(rt, disk, workload)?;
    let before = Counts::read(rt);
    let (logs, checkpoints, disk) = run_clients(rt, disk, options)?;
    let outcome = Outcome {
        logs,
        counts: Counts::read(rt).since(before),
        checkpoints,
    };
    let is_right = is_kept(rt, disk, workload, &outcome)?;
    Ok((outcome, is_right))
}

// Makes what the clients find at the start.
fn prepare<D: Disk + Drop + Send, R: Threads + Wait + Clock + AllocGlobal + Sync>(
    rt: &R,
    disk: D,
    workload: Workload,
) -> Result<D, Refusal> {
    let (prepared, closed) = run(rt, disk, &Preparing { workload }, 1);
    all_ended(prepared?.as_slice())?;
    Ok(closed.disk)
}

// Lets the clients run, each in a thread of its own. What they did, and how many checkpoints were
// taken meanwhile.
fn run_clients<D: Disk + Drop + Send, R: Threads + Wait + Clock + Print + AllocGlobal + Sync>(
    rt: &R,
    disk: D,
    options: &Options<'_>,
) -> Result<(Vec<Log>, u64, D), Trouble> {
    let clients = Measuring {
        output: rt,
        is_told: options.variant == Variant::Told,
        workload: options.workload,
        count: options.count,
        window: Window::new(options),
    };
    let disk = CountingDisk::new(disk);
    let (logs, closed) = run(rt, disk, &clients, options.threads());
    let logs = all_logs(rt.alloc(), logs?)?;
    let (disk, checkpoints) = closed.disk.into_parts();
    Ok((logs, checkpoints, disk))
}

// What each client did, where none met trouble.
fn all_logs(alloc: Global, logs: Vec<Result<Log, Trouble>>) -> Result<Vec<Log>, Trouble> {
    let mut all = Vec::new(alloc);
    for log in logs {
        all.push(log?)?;
    }
    Ok(all)
}

// Whether the store of a disk holds what the clients were told.
fn is_kept<D: Disk + Drop>(
    rt: &impl AllocGlobal,
    disk: D,
    workload: Workload,
    outcome: &Outcome,
) -> Result<bool, Refusal> {
    match open(rt.alloc(), disk) {
        Ok((book, _keeper)) => is_right(rt.alloc(), &book.into_parts(), workload, outcome),
        Err((refusal, _disk)) => Err(refusal),
    }
}
