// Copies that are stopped at each call of either disk.
use crate::plays::disks::{at_rest, bytes_of};
use crate::plays::runs::{copy_on, run_on, text, to_format, to_show_read_only};
use crate::plays::told::Told;
use crate::plays::values::numbers;
use crate::plays::workbench::Workbench;
use crate::sweeps::stops::{Trial, stop_in_each_way};
use disk_model::{Disk, MemDisk};
use std::alloc::Global;
use std::io;

/// Stops a copy of the store of the case at each call of the new disk and behind the last one, in
/// each of four ways. The new disk has so many bytes, and held an empty store with areas of so
/// many. Tells how many calls it makes, and what that disk shows then, where that is not what it
/// showed at the call before: no collection, why it is no store, or the copy. Then fails it at each
/// call of the old disk, and tells how many it makes, and where a byte of either disk has changed.
pub fn stop_copy(
    alloc: Global,
    bench: &mut Workbench,
    line: &str,
    told: &mut Told,
) -> io::Result<()> {
    let (size, area) = numbers(line)?;
    let old = bench.bytes(alloc)?;
    let empty = MemDisk::new(alloc, size)?;
    let (_, new) = run_on(alloc, to_format(alloc, area, 1), empty, &[]);
    let new = bytes_of(alloc, new)?;
    let (shown, _) = run_on(
        alloc,
        to_show_read_only(alloc),
        at_rest(alloc, old.as_slice())?,
        &[],
    );
    let trial = Trial::Copy {
        old: old.as_slice(),
        shown: text(&shown.out),
        area,
    };
    stop_in_each_way(alloc, trial, new.as_slice(), told)?;
    fail_reads(alloc, old.as_slice(), new.as_slice(), area, told)
}

// Fails a copy at each call of the old disk, and tells where it is not refused with both disks as
// they were.
fn fail_reads(alloc: Global, old: &[u8], new: &[u8], area: u64, told: &mut Told) -> io::Result<()> {
    for k in 1..1_000u64 {
        let (is_reached, is_refused) = fail_read(alloc, old, new, area, k)?;
        if !is_reached {
            let calls = k - 1;
            told.tell(format_args!("old disk: {calls} calls"));
            return Ok(());
        }
        if !is_refused {
            told.tell(format_args!("old disk, call {k}: not refused with both as they were"));
        }
    }
    told.tell("old disk: no end");
    Ok(())
}

// Fails a copy at a call of the old disk. Answers whether that was reached, and whether the copy
// was refused with both disks as they were.
fn fail_read(alloc: Global, old: &[u8], new: &[u8], area: u64, k: u64) -> io::Result<(bool, bool)> {
    let mut from = at_rest(alloc, old)?;
    from.fail_at(k);
    let (ran, from, to) = copy_on(alloc, from, at_rest(alloc, new)?, area, &[]);
    let is_reached = from.faults() > 0;
    let is_told = text(&ran.err) == "boost: refused 19 Fault\n" && ran.out.is_empty();
    let is_old_same = bytes_of(alloc, from.stop(&[]))?.as_slice() == old;
    let is_new_same = bytes_of(alloc, to)?.as_slice() == new;
    Ok((is_reached, is_told && is_old_same && is_new_same))
}
