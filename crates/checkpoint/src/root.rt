// The root byte, which picks the area in use.
ghost use Rattle.std.specs.Prelude.{◌≡◌, ◌≤◌, ◌⊎◌, ◌+◌, ℕ, length, OnOk};
ghost use Rattle.disk_model.specs.Disk.{Torn, WasTorn, IsAtRest, LeavesOnly, HasCause};
ghost use Rattle.checkpoint.specs.Imaging.{HasPlainRoot, LeavesRoot};
ghost use Rattle.gate_block.specs.Layout.{base_in_use};
ghost use Rattle.gate_block.specs.Layout.{areas_at, root_at};

use disk_model::{Disk, Fault, write_and_sync};
use gate_block::layout::{AREAS_AT, ROOT_AT};

/// Makes the root byte pick the area that begins there, behind all that was written before: the
/// disk is synced first, and then the byte is written and synced.
pub fn pick_area<D: Disk>(disk: &mut D, base: u64) -> Result<(), Fault>
    requires { 513 ≤ length (D.seen disk.old) }
    ensures picks { OnOk result ((size : ℕ) → (base ≡ areas_at) ⊎ (base ≡ areas_at + size) →
        base_in_use size (D.seen disk.new) ≡ base) }
    ensures plain { OnOk result (HasPlainRoot base (D.seen disk.new)) }
    ensures durable { OnOk result (IsAtRest D.seen D.may_leave disk.new) }
    ensures root { Torn root_at 1 (D.seen disk.old) (D.seen disk.new) }
    ensures any_moment { LeavesOnly D.moment D.left_since disk.old disk.new
        (LeavesRoot (D.may_leave disk.old) (D.seen disk.old)) }
    ensures cause { HasCause (D.fault_count disk.old) (D.fault_count disk.new) result }
    ensures honest { D.is_honest disk.new → D.is_honest disk.old }
{
    disk.sync()?;
    write_root(disk, base)
}

// Writes the root byte that picks the area that begins there, and syncs it.
fn write_root<D: Disk>(disk: &mut D, base: u64) -> Result<(), Fault>
    requires { 513 ≤ length (D.seen disk.old) }
    ensures picks { OnOk result ((size : ℕ) → (base ≡ areas_at) ⊎ (base ≡ areas_at + size) →
        base_in_use size (D.seen disk.new) ≡ base) }
    ensures plain { OnOk result (HasPlainRoot base (D.seen disk.new)) }
    ensures durable { OnOk result (IsAtRest D.seen D.may_leave disk.new) }
    ensures root { Torn root_at 1 (D.seen disk.old) (D.seen disk.new) }
    ensures any_moment { LeavesOnly D.moment D.left_since disk.old disk.new
        (WasTorn root_at 1 (D.may_leave disk.old)) }
    ensures cause { HasCause (D.fault_count disk.old) (D.fault_count disk.new) result }
    ensures honest { D.is_honest disk.new → D.is_honest disk.old }
{
    write_and_sync(disk, ROOT_AT, &[root_byte(base)])
}

// The root byte that picks the area that begins there.
fn root_byte(base: u64) -> u8
    ensures first { base ≡ areas_at → result ≡ 0 }
    ensures second { (base ≡ areas_at → ⊥) → result ≡ 1 }
{
    if base == AREAS_AT { 0 } else { 1 }
}
