// Calls of any disk, with what a stop at each of their moments leaves.
ghost use Rattle.std.specs.Prelude.{◌≡◌, ◌≤◌, ◌+◌, length, take, drop, OnOk};
ghost use Rattle.disk_model.specs.Disk.{Overwritten, Torn, WasTorn, IsAtRest, LeavesOnly};
ghost use Rattle.disk_model.specs.Disk.{ReadsOnly, HasCause};

use crate::{Disk, Fault};

/// Writes, and then syncs. A stop at any moment of the call leaves what it could have left before,
/// with any bytes in the range.
pub fn write_and_sync<D: Disk>(disk: &mut D, at: u64, bytes: &[u8]) -> Result<(), Fault>
    requires { at + length bytes.now ≤ length (D.seen disk.old) }
    ensures written { OnOk result (Overwritten at bytes.now (D.seen disk.old) (D.seen disk.new)) }
    ensures durable { OnOk result (IsAtRest D.seen D.may_leave disk.new) }
    ensures seen { Torn at (length bytes.now) (D.seen disk.old) (D.seen disk.new) }
    ensures any_moment { LeavesOnly D.moment D.left_since disk.old disk.new
        (WasTorn at (length bytes.now) (D.may_leave disk.old)) }
    ensures honest { D.is_honest disk.new → D.is_honest disk.old }
    ensures cause { HasCause (D.fault_count disk.old) (D.fault_count disk.new) result }
{
    disk.write_at(at, bytes)?;
    disk.sync()
}

/// Reads, and changes nothing.
pub fn read<D: Disk>(disk: &mut D, at: u64, out: &mut [u8]) -> Result<(), Fault>
    requires { at + length out.old ≤ length (D.seen disk.old) }
    ensures bytes { OnOk result (D.is_honest disk.new →
        out.new ≡ take (length out.old) (drop at (D.seen disk.old))) }
    ensures reads { ReadsOnly D.seen D.may_leave D.moment D.left_since disk.old disk.new }
    ensures honest { D.is_honest disk.new → D.is_honest disk.old }
    ensures cause { HasCause (D.fault_count disk.old) (D.fault_count disk.new) result }
{
    disk.read_at(at, out)
}
