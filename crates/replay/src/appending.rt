// The records of an undoing, written behind the blocks of an area.
ghost use Rattle.std.specs.Prelude.{◌≡◌, ◌≤◌, ◌<◌, ◌+◌, ◌-◌, ◌*◌, ℕ, List, ◌++◌, length};
ghost use Rattle.std.specs.Prelude.{OnOk, IfOk, IfErr, false, vec_len, vec_capacity, min, ◌^◌};
ghost use Rattle.std.specs.List.{AllByRecursion};
ghost use Rattle.disk_model.specs.Disk.{LeavesOnly, Rises, IsAtRest};
ghost use Rattle.gate_block.specs.Row.{IsBlockOf, block_head};
ghost use Rattle.gate_block.specs.Area.{base_of, size_of, offset_of, has_failed};
ghost use Rattle.records.specs.Records.{spelling};
ghost use Rattle.replay.specs.Undoing.{IsUndoRecord, blocks_len, max_group, undo_len};
ghost use Rattle.replay.specs.Undoing.{undo_block_len};
ghost use Rattle.replay.specs.Appending.{IsAt, HoldsFirst, IsAppended};

use calls::Refusal;
use disk_model::Disk;
use gate_block::{Area, BLOCK_HEAD, close_block};
use records::{Record, encode};
use std::alloc::Global;

// So many records go into a block.
const GROUP: usize = 64;

// The bytes of a record of an undoing: its tag and the transaction's number.
const RECORD_LEN: usize = 9;

// The most bytes of a block, with the gate behind it.
const BLOCK_LEN: usize = BLOCK_HEAD + GROUP * RECORD_LEN + 1;

/// How many bytes so many records of an undoing take in blocks of 64, the last with the rest: 9 a
/// record, and 5 a block for its head. The gate behind the last block is not counted. Where they
/// are more than a u64 can tell, it is the greatest one.
pub fn blocks_len(count: u64) -> u64
    ensures { result ≡ min (blocks_len count) (2 ^ 64 - 1) }
{
    let heads = BLOCK_HEAD as u64 * count.div_ceil(GROUP as u64);
    count
        .saturating_mul(RECORD_LEN as u64)
        .saturating_add(heads)
}

/// Room for one block of the undoing's records.
pub fn make_room(alloc: Global) -> Result<Vec<u8>, Refusal>
    ensures head { IfOk result (λ bytes. block_head ≤ length bytes.items) }
    ensures room { IfOk result (λ bytes. undo_block_len ≤ vec_capacity bytes) }
    ensures only { IfErr result (λ e. e ≡ Refusal.NoMemory) }
{
    let mut bytes = vec![in alloc; 0; BLOCK_HEAD]?;
    bytes.reserve(BLOCK_LEN - BLOCK_HEAD)?;
    Ok(bytes)
}

// Spells the records one behind another, behind what the buffer holds. It takes no memory.
fn spell(group: &[Record], bytes: &mut Vec<u8>)
    requires undo { AllByRecursion IsUndoRecord group.now }
    requires room { vec_len bytes.old + undo_len * length group.now ≤ vec_capacity bytes.old }
    ensures items { bytes.new.items ≡ bytes.old.items ++ spelling group.now }
    ensures capacity { vec_capacity bytes.old ≤ vec_capacity bytes.new }
{
    for i in 0..group.len() {
        let _spelled = encode(&group[i], bytes);
    }
}

// Makes the buffer a whole block of the records. It takes no memory.
fn pack(group: &[Record], bytes: &mut Vec<u8>)
    requires undo { AllByRecursion IsUndoRecord group.now }
    requires some { 0 < length group.now }
    requires few { length group.now ≤ max_group }
    requires head { block_head ≤ length bytes.old.items }
    requires room { undo_block_len ≤ vec_capacity bytes.old }
    ensures block { IsBlockOf (spelling group.now) bytes.new.items }
    ensures room { undo_block_len ≤ vec_capacity bytes.new }
{
    bytes.truncate(BLOCK_HEAD);
    spell(group, bytes);
    close_block(bytes);
}

/// Writes the records behind the area's blocks, 64 to a block, through the buffer. It takes no
/// memory. A stop at any moment of the call, on a disk that was at rest, leaves blocks of the first
/// of them.
///
/// Refused Fault where the disk failed.
pub fn append_all<D: Disk>(
    disk: &mut D,
    area: &mut Area,
    records: &[Record],
    mut bytes: Vec<u8>,
) -> Result<(), Refusal>
    requires undo { AllByRecursion IsUndoRecord records.now }
    requires fits { offset_of area.old + blocks_len (length records.now) < size_of area.old }
    requires disk { base_of area.old + size_of area.old ≤ length (D.seen disk.old) }
    requires fine { has_failed area.old ≡ false }
    requires head { block_head ≤ length bytes.items }
    requires room { undo_block_len ≤ vec_capacity bytes }
    ensures appended { OnOk result (IsAppended records.now area.old area.new (D.seen disk.old)
        (D.seen disk.new)) }
    ensures untouched { OnOk result (length records.now ≡ 0 → disk.new ≡ disk.old) }
    ensures stop { (bodies : List (List ℕ)) → IsAt area.old (D.seen disk.old) bodies →
        IsAtRest D.seen D.may_leave disk.old →
        LeavesOnly D.moment D.left_since disk.old disk.new
        (HoldsFirst area.old (D.seen disk.old) bodies records.now) }
    ensures durable { (bodies : List (List ℕ)) → IsAt area.old (D.seen disk.old) bodies →
        IsAtRest D.seen D.may_leave disk.old →
        OnOk result (IsAtRest D.seen D.may_leave disk.new) }
    ensures refused { IfErr result (λ e. (e ≡ Refusal.Fault) ×
        Rises (D.fault_count disk.old) (D.fault_count disk.new)) }
    ensures honest { D.is_honest disk.new → D.is_honest disk.old }
    ensures faults { D.fault_count disk.old ≤ D.fault_count disk.new }
    ensures size { length (D.seen disk.new) ≡ length (D.seen disk.old) }
{
    let mut rest = records;
    while !rest.is_empty() {
        let (group, behind) = rest.split_at(rest.len().min(GROUP));
        pack(group, &mut bytes);
        area.append(disk, bytes.as_slice())?;
        rest = behind;
    }
    Ok(())
}
