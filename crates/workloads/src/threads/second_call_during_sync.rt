// A second client's call during the sync of the first one's commit.
mod held_disk;
mod serving;
mod signals;

use crate::trouble::Trouble;
use calls::Refusal;
use calls::limits::MIN_AREA;
use disk_model::MemDisk;
use gate_block::layout::AREAS_AT;
use held_disk::HeldDisk;
use recovery::format;
use serving::serve_any;
use signals::Signals;
use std::io::Write;
use std::sync::Wait;
use std::thread::Threads;
use store::Opened;

// The size of the disk.
const SIZE: u64 = AREAS_AT + 2 * MIN_AREA;

// Whether a call was answered during the sync of a commit of another client.
fn is_answered_in_sync<R: Threads + Wait + AllocGlobal + Sync>(rt: &R) -> Result<bool, Refusal> {
    let signals = Signals::new();
    let mut disk = MemDisk::new(rt.alloc(), SIZE)?;
    format(&mut disk, MIN_AREA)?;
    match Opened::open(rt.alloc(), HeldDisk::new(disk, &signals)) {
        Ok(opened) => serve_any(rt, opened, &signals)?,
        Err((refusal, _disk)) => return Err(refusal),
    }
    Ok(signals.was_answered_in_sync())
}

/// Shows that no device is called under the locks of the shelves and of the journal: the disk holds
/// the sync of one client's commit until a second client's call is answered. Writes whether that
/// call was answered then.
pub fn run<R: Threads + Wait + AllocGlobal + Sync>(
    rt: &R,
    out: &mut impl Write,
) -> Result<(), Trouble> {
    let not = if is_answered_in_sync(rt)? { "" } else { "not " };
    writeln!(out, "the call was {not}answered during the sync")?;
    Ok(())
}
