// Measures the store under load: so many clients run transactions on a file, beside a committer.
//
// What is measured is asked for as `VARIANT WORKLOAD CLIENTS COUNT SECONDS DIR`, and told as one
// line of JSON. The variants are those of `Variant`, by their words in small letters. The clients
// share COUNT transactions and begin none after SECONDS; the store's file lies in the folder DIR.
// The workloads are those of `Workload`.
//
// In the workloads whose names have `beside-images` in them the store has maps, which it is filled
// with before, on areas with little room behind an image of them. So checkpoints are taken again
// and again. How many were is told of each workload.
//
// `book WORKLOAD OTHERS COUNT SIZE DIR` measures a book by itself, on one thread and without a
// disk: COUNT transactions on a collection of SIZE entries, beside OTHERS live transactions of
// 1,000 calls each. Nothing is done in DIR.
//
// `openfill` ends without closing the store, as far as its file can tell: it returns with the file
// as the last sync left it, since the program does not kill itself, and neither closing a store
// nor opening one with no unfinished transaction writes anything.
mod book_cost;
mod calling;
mod checking;
mod committing;
mod counting_disk;
mod counts;
mod filing;
mod log;
mod measuring;
mod options;
mod outcome;
mod preparing;
mod reopening;
mod report;
mod running;
mod tpcb;
mod window;
mod workload;

use crate::system::System;
use crate::trouble::Trouble;
use book_cost::Cost;
use filing::make_disk;
use options::Options;
use std::io::Write;
use workload::Workload;

/// Measures what words ask for, and writes what came of it.
pub fn measure<R: System + Sync>(
    rt: &R,
    words: &[&str],
    out: &mut impl Write,
) -> Result<(), Trouble> {
    if let Some(cost) = Cost::read(words) {
        return cost.measure(rt, out);
    }
    match Options::read(words) {
        Some(options) if options.workload == Workload::Open => {
            reopening::measure(rt, &options, out)
        }
        Some(options) => measure_anew(rt, &options, out),
        None => Err(Trouble::Usage),
    }
}

// Measures a run on a new store, and writes what came of it.
fn measure_anew<R: System + Sync>(
    rt: &R,
    options: &Options<'_>,
    out: &mut impl Write,
) -> Result<(), Trouble> {
    let disk = make_disk(rt, options.folder, options.workload)?;
    let (outcome, is_right) = running::measure(rt, disk, options)?;
    match options.workload {
        Workload::OpenFill if is_right => report::write_filled(options, out)?,
        _ => report::write(rt.alloc(), options, &outcome, is_right, out)?,
    }
    Ok(())
}
