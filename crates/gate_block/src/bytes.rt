// Numbers and bytes that a disk holds.
ghost use Rattle.std.specs.Prelude.{◌≡◌, ◌+◌, ◌≤◌, length, take, drop, IfOk, IfErr};
ghost use Rattle.std.specs.Int.{w32, from_be_bytes, to_be_bytes};
ghost use Rattle.disk_model.specs.Disk.{ReadsOnly, Rises};
ghost use Rattle.gate_block.specs.Answers.{IsReadError};

use crate::read_error::ReadError;
use disk_model::{Disk, read};
use std::alloc::Global;

// The number that four bytes spell.
pub(crate) fn number(bytes: [u8; 4]) -> u64
    ensures is { result ≡ from_be_bytes w32 bytes }
    ensures spelled { to_be_bytes w32 result ≡ bytes }
{
    u32::from_be_bytes(bytes) as u64
}

// Reads n bytes.
pub(crate) fn read_bytes<D: Disk>(
    alloc: Global,
    disk: &mut D,
    at: u64,
    n: u64,
) -> Result<Vec<u8>, ReadError>
    requires { at + n ≤ length (D.seen disk.old) }
    ensures bytes { IfOk result (λ bytes. D.is_honest disk.new →
        bytes.items ≡ take n (drop at (D.seen disk.old))) }
    ensures length { IfOk result (λ bytes. length bytes.items ≡ n) }
    ensures error { IfErr result (IsReadError
        (Rises (D.fault_count disk.old) (D.fault_count disk.new)) (λ _. ⊥)) }
    ensures reads { ReadsOnly D.seen D.may_leave D.moment D.left_since disk.old disk.new }
    ensures honest { D.is_honest disk.new → D.is_honest disk.old }
    ensures faults { D.fault_count disk.old ≤ D.fault_count disk.new }
{
    let mut bytes = vec![in alloc; 0; n as usize]?;
    read(disk, at, &mut bytes)?;
    Ok(bytes)
}
