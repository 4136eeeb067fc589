// Opening the store that is there.
use crate::bench::checking::total;
use crate::bench::filing::open_disk;
use crate::bench::options::{Options, Variant};
use crate::trouble::Trouble;
use catalog::Catalog;
use recovery::open;
use std::alloc::AllocGlobal;
use std::fs::File;
use std::io::Write;
use std::rt::{Clock, Files};
use std::time::{Duration, Instant};

/// Opens the store of the folder twice, the second time after it was closed, and writes how long
/// each took, from before the opening to having read the counter.
pub fn measure<R: Clock + Files<File = File> + AllocGlobal>(
    rt: &R,
    options: &Options<'_>,
    out: &mut impl Write,
) -> Result<(), Trouble> {
    let (time, found) = open_once(rt, options)?;
    let (clean_time, found_again) = open_once(rt, options)?;
    let count = Some(i128::from(options.count));
    let ok = found == count && found_again == count;
    write!(out, "{{\"workload\":\"open\",\"clients\":1,\"commits\":1,")?;
    if options.variant == Variant::Timed {
        let (seconds, clean) = (time.as_secs_f64(), clean_time.as_secs_f64());
        write!(
            out,
            "\"elapsed_s\":{seconds:.4},\"cps\":{:.1},",
            1.0 / seconds
        )?;
        write!(
            out,
            "\"open_ms\":{:.2},\"open_clean_ms\":{:.2},",
            seconds * 1e3,
            clean * 1e3
        )?;
    }
    writeln!(out, "\"ok\":{ok}}}")?;
    Ok(())
}

// How long the opening took, and the counter's number.
fn open_once<R: Clock + Files<File = File> + AllocGlobal>(
    rt: &R,
    options: &Options<'_>,
) -> Result<(Duration, Option<i128>), Trouble> {
    let start = Instant::now(rt)?;
    match open(rt.alloc(), open_disk(rt, options.folder)?) {
        Ok((book, _keeper)) => read_since(rt, start, &book.into_parts()),
        Err((refusal, _disk)) => Err(Trouble::Refused(refusal)),
    }
}

// How long it took from the start to having read the counter, and its number.
fn read_since<R: Clock>(
    rt: &R,
    start: Instant,
    catalog: &Catalog,
) -> Result<(Duration, Option<i128>), Trouble> {
    let shown = catalog.show(0)?;
    let time = start.elapsed(rt)?;
    Ok((time, total(shown.items.as_slice())))
}
