// Looking at a store.
ghost use Rattle.std.specs.Prelude.{◌≡◌, ◌≤◌, IfOk, IfErr};
ghost use Rattle.calls.specs.declared.refusal.Refusal.{Refusal};
ghost use Rattle.disk_model.specs.Disk.{ReadsOnly, Rises};
ghost use Rattle.recovery.specs.Heads.{HasHeader, HasNoHeader};
ghost use Rattle.recovery.specs.Openings.{IsDamagedAt, IsFindRefusal, IsReport};

use crate::finding::{Found, find};
use crate::report::Report;
use calls::Refusal;
use disk_model::Disk;
use std::alloc::Global;

/// Looks at the store on a disk: how many collections it has, how many transactions that have not
/// ended, and how many records stand behind its image. It reads all that an opening reads, undoes
/// the losers in memory, and writes nothing. It takes as much memory as an opening.
///
/// Refused NotAStore, where the disk read true only if it has no head of a store; Fault where the
/// disk failed; Damaged with the offset of the gate of the block in which the first damage stands,
/// where the disk read true only if the bytes are not sound; NoMemory, where the disk read true
/// only if it has a head of a store.
pub fn inspect<D: Disk>(alloc: Global, disk: &mut D) -> Result<Report, Refusal>
    ensures report { IfOk result (λ report. D.is_honest disk.new →
        IsReport (D.seen disk.old) report) }
    ensures refused { IfErr result (IsFindRefusal
        (Rises (D.fault_count disk.old) (D.fault_count disk.new))
        (D.is_honest disk.new → HasNoHeader (D.seen disk.old))
        (λ place. D.is_honest disk.new → IsDamagedAt (D.seen disk.old) place)) }
    ensures starved { IfErr result (λ e. e ≡ Refusal.NoMemory → D.is_honest disk.new →
        HasHeader (D.seen disk.old)) }
    ensures reads { ReadsOnly D.seen D.may_leave D.moment D.left_since disk.old disk.new }
    ensures honest { D.is_honest disk.new → D.is_honest disk.old }
    ensures faults { D.fault_count disk.old ≤ D.fault_count disk.new }
{
    let Found { report, .. } = find(alloc, disk)?;
    Ok(report)
}
