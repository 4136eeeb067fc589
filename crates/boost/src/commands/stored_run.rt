// A stored script, run on a disk in memory.
ghost use Rattle.std.specs.Prelude.{OnOk, IfOk, IfErr};
ghost use Rattle.calls.specs.declared.format.Format.{Format};
ghost use Rattle.disk_model.specs.Disk.{IsAtRest};
ghost use Rattle.recovery.specs.Formatting.{IsEmptyStore};
ghost use Rattle.boost.specs.Commands.{IsOfStore};
ghost use Rattle.boost.specs.Effects.{IsPlayedAnew};

use crate::commands::failure::Failure;
use crate::commands::{play_lines, show};
use calls::Refusal;
use calls::limits::MIN_AREA;
use disk_model::{Disk, MemDisk};
use gate_block::layout::AREAS_AT;
use recovery::format;
use script::parse;
use std::alloc::Global;
use std::io::Write;

/// The script that Demo runs: a counter is made and bumped, and one block is brought to the disk.
pub const STORED_RUN: &[u8] =
    b"c1 make counter hits\nc1 begin\nc1 call hits bump 1\nc1 commit\nc1 kept\nturn\nc1 kept\nturn\n";

// How many bytes its disk has: what stands before the areas, and two of the least areas.
const SIZE: u64 = AREAS_AT + 2 * MIN_AREA;

/// Runs the script on a disk of its own, and prints what the lines answer and what they leave.
pub fn demo<O: Write>(alloc: Global, out: &mut O) -> Result<(), Failure<'static>>
    ensures done { OnOk result (IsPlayedAnew ⟦<MemDisk as Disk>⟧ STORED_RUN.now) }
    ensures why { IfErr result IsOfStore }
{
    let disk = demo_disk(alloc)?;
    // The stored script is understood: only memory can be wanting.
    let Ok(lines) = parse(alloc, STORED_RUN) else {
        return Err(Failure::Refused(Refusal::NoMemory));
    };
    let (played, disk) = play_lines(alloc, disk, lines, out);
    match played {
        Ok(()) => show(alloc, disk, false, out).0,
        Err(failure) => Err(failure),
    }
}

// An empty store in memory.
fn demo_disk(alloc: Global) -> Result<MemDisk, Failure<'static>>
    ensures empty { IfOk result (λ disk. IsEmptyStore Format.One (⟦<MemDisk as Disk>⟧.seen disk)) }
    ensures at_rest { IfOk result (λ disk.
        IsAtRest ⟦<MemDisk as Disk>⟧.seen ⟦<MemDisk as Disk>⟧.may_leave disk) }
    ensures why { IfErr result IsOfStore }
{
    let mut disk = MemDisk::new(alloc, SIZE)?;
    format(&mut disk, MIN_AREA)?;
    Ok(disk)
}
