// What is told of a run.
use crate::bench::counts::Counts;
use crate::bench::filing::FILE_SIZE;
use crate::bench::log::Log;
use crate::bench::options::{Options, Variant};
use crate::bench::outcome::Outcome;
use std::alloc::{AllocError, Global};
use std::io::{self, Write};
use std::num::nearest_u64_to_f64;
use std::time::Duration;

/// Writes how many transactions a store was filled with, and how large its file is.
pub fn write_filled(options: &Options<'_>, out: &mut impl Write) -> io::Result<()> {
    writeln!(
        out,
        "{{\"filled\":{},\"dir_bytes\":{FILE_SIZE}}}",
        options.count
    )
}

/// Writes what came of a run, as one line of JSON.
pub fn write(
    alloc: Global,
    options: &Options<'_>,
    outcome: &Outcome,
    is_right: bool,
    out: &mut impl Write,
) -> io::Result<()> {
    let (workload, clients) = (options.workload.name(), options.clients);
    let commits = outcome.commits();
    write!(
        out,
        "{{\"workload\":\"{workload}\",\"clients\":{clients},\"commits\":{commits},"
    )?;
    if options.variant == Variant::Timed {
        Latencies::of(alloc, outcome.logs.as_slice())?.write(out)?;
        write_rates(outcome, out)?;
    }
    writeln!(out, "\"ok\":{is_right}}}")
}

// Writes how many transactions there were in a second, what they wrote, and how the clients shared
// them.
fn write_rates(outcome: &Outcome, out: &mut impl Write) -> io::Result<()> {
    let seconds = outcome.time().max(Duration::from_nanos(1)).as_secs_f64();
    let commits = nearest_u64_to_f64(outcome.commits().max(1));
    let Counts { syncs, bytes } = outcome.counts;
    let (least, most) = outcome.extremes();
    write!(
        out,
        "\"elapsed_s\":{seconds:.4},\"cps\":{:.1},\"syncs\":{syncs},\"syncs_per_commit\":{:.4},",
        nearest_u64_to_f64(outcome.commits()) / seconds,
        nearest_u64_to_f64(syncs) / commits
    )?;
    write!(
        out,
        "\"write_bytes\":{bytes},\"write_bytes_per_commit\":{:.1},",
        nearest_u64_to_f64(bytes) / commits
    )?;
    write!(out, "\"client_min\":{least},\"client_max\":{most},")?;
    write!(out, "\"checkpoints\":{},", outcome.checkpoints)
}

// The times that half of the transactions, 99 of a hundred and all are not above, in microseconds.
#[derive(Clone, Copy)]
struct Latencies {
    half: f64,
    most: f64,
    all: f64,
}

impl Latencies {
    // Those of what clients did.
    fn of(alloc: Global, logs: &[Log]) -> Result<Latencies, AllocError> {
        let times = all_times(alloc, logs)?;
        let (times, count) = (times.as_slice(), times.len());
        Ok(Latencies {
            half: micros(times, count / 2),
            most: micros(times, count - count / 100),
            all: micros(times, count),
        })
    }

    fn write(&self, out: &mut impl Write) -> io::Result<()> {
        let Latencies { half, most, all } = *self;
        write!(
            out,
            "\"p50_us\":{half:.1},\"p99_us\":{most:.1},\"max_us\":{all:.1},"
        )
    }
}

// All clients' times, sorted.
fn all_times(alloc: Global, logs: &[Log]) -> Result<Vec<u64>, AllocError> {
    let mut all = Vec::new(alloc);
    for log in logs {
        all.extend_from_slice(log.times.as_slice())?;
    }
    all.as_mut_slice().sort_unstable();
    Ok(all)
}

// The time at a place of the sorted ones, or the last one, in microseconds; 0 of none.
fn micros(times: &[u64], place: usize) -> f64 {
    match times.get(place).or(times.last()) {
        Some(nanos) => nearest_u64_to_f64(*nanos) / 1000.0,
        None => 0.0,
    }
}
