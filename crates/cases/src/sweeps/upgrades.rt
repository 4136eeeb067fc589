// Upgrades that are stopped at each call of the disk, and whose store is opened then, with a stop
// at each call of that, and compared.
use crate::plays::disks::{at_rest, bytes_of};
use crate::plays::runs::{run_on, text, to_show, to_show_read_only, to_upgrade};
use crate::plays::told::Told;
use crate::plays::workbench::Workbench;
use crate::sweeps::stops::{Trial, run_until, stop_in_each_way};
use disk_model::MemDisk;
use recovery::find;
use std::alloc::{AllocError, Global};
use std::io;

/// Stops an upgrade of the store of the case at each call of the disk and behind the last one, in
/// each of four ways. Tells how many calls it makes, and in which format the store is then, where
/// that is not as it was at the call before; and where it does not show what it did before the
/// upgrade, also behind a stop of its opening.
pub fn stop_upgrade(alloc: Global, bench: &mut Workbench, told: &mut Told) -> io::Result<()> {
    let bytes = bench.bytes(alloc)?;
    let disk = at_rest(alloc, bytes.as_slice())?;
    let (shown, _) = run_on(alloc, to_show_read_only(alloc), disk, &[]);
    let trial = Trial::Upgrade {
        shown: text(&shown.out),
    };
    stop_in_each_way(alloc, trial, bytes.as_slice(), told)
}

/// Stops an upgrade. Answers whether the call was reached, and what is told of the disk then.
pub fn stop_upgrading(
    alloc: Global,
    disk: MemDisk,
    k: u64,
    picks: &[(u64, u8)],
    shown: &str,
) -> io::Result<(bool, String)> {
    let (_, is_reached, disk) = run_until(alloc, to_upgrade(alloc), disk, &[], k, picks);
    let left = bytes_of(alloc, disk)?;
    let format = format_of(alloc, at_rest(alloc, left.as_slice())?)?;
    let end = if goes_on(alloc, left.as_slice(), picks, shown)? {
        ""
    } else {
        ", and it does not go on"
    };
    Ok((is_reached, format!(in alloc; "{format}{end}")?))
}

// The format of the area in use, or why there is no store.
fn format_of(alloc: Global, disk: MemDisk) -> Result<String, AllocError> {
    let mut disk = disk;
    match find(alloc, &mut disk) {
        Ok(found) => format!(in alloc; "format {}", found.machine.format().number()),
        Err(refusal) => format!(in alloc; "{refusal}"),
    }
}

// Whether a disk of these bytes shows this text, wherever its opening is stopped before.
fn goes_on(alloc: Global, left: &[u8], picks: &[(u64, u8)], shown: &str) -> io::Result<bool> {
    for k in 1..1_000u64 {
        let disk = at_rest(alloc, left)?;
        let (_, is_reached, disk) = run_until(alloc, to_show(alloc), disk, &[], k, picks);
        let (found, _) = run_on(alloc, to_show(alloc), disk, &[]);
        if found.status != 0 || text(&found.out) != shown {
            return Ok(false);
        }
        if !is_reached {
            return Ok(true);
        }
    }
    Ok(false)
}
