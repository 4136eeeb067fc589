// Copying a store to another disk.
ghost use Rattle.std.specs.Prelude.{◌≡◌, ◌≢◌, ◌≤◌, ◌<◌, ◌+◌, ◌⊎◌, ℕ, List, [], length, IfErr};
ghost use Rattle.std.specs.Prelude.{OnOk, IsErrOf, false};
ghost use Rattle.calls.specs.declared.format.Format.{Format};
ghost use Rattle.calls.specs.declared.refusal.Refusal.{Refusal};
ghost use Rattle.disk_model.specs.Disk.{LeavesOnly, ReadsOnly, Rises, HasCause, IsAtRest};
ghost use Rattle.gate_block.specs.Row.{row, IsRow, part};
ghost use Rattle.gate_block.specs.Area.{base_of, size_of, offset_of, has_failed};
ghost use Rattle.gate_block.specs.Layout.{areas_at};
ghost use Rattle.checkpoint.specs.Imaging.{IsTooLong, IsBeingLaid, bodies_of, left_of};
ghost use Rattle.recovery.specs.Heads.{HasHeader, HasNoHeader};
ghost use Rattle.recovery.specs.Openings.{IsDamagedAt};
ghost use Rattle.recovery.specs.Formatting.{IsRoomFor, IsMaking, IsShut};
ghost use Rattle.recovery.specs.Edits.{IsUneditable};
ghost use Rattle.recovery.specs.Copies.{IsFilledWith, IsStoreOf, IsCopyOf};
ghost use Rattle.recovery.specs.Copies.{IsTooLarge, IsCopyAnswer};

use crate::editing::Edit;
use crate::formatting::{is_room_for, write_head};
use crate::settling::settled_image;
use calls::{Format, Refusal};
use checkpoint::{Laying, is_too_long};
use disk_model::{Disk, Fault, write_and_sync};
use gate_block::Area;
use gate_block::layout::{AREAS_AT, GATE_AT, OPEN};
use records::Image;
use std::alloc::Global;

/// Copies the store on a disk to another one, with two areas of so many bytes. The old disk is read
/// as `inspect` reads it, and its losers are undone in memory; nothing is written to it, so a store
/// whose undoing no longer fits in its area is copied as any other. The new disk gets the settled
/// content: a head, a root byte that picks the first area, and in it the image of that content with
/// no journal behind it. The next number and the wear are those of an opening. The copy is of
/// format 2, head and area, where the area in use of the old disk is or the new areas are over 2^30
/// bytes, and else of format 1.
///
/// The edits are made of that content first, one after another, in their order: each leaves a
/// collection out or gives it another name, and sees the names that those before it left. The
/// others keep their names and their order. With no edits the copy has all of it.
///
/// The gate of the new disk's head is closed and synced first, and opened last. A stop at any
/// moment of the call, with the new disk at rest before it, leaves there the old bytes with any
/// value for the gate of the head, or no store, or the copy.
///
/// It takes the time and memory of an opening, and of one copy of the content, which is spelled
/// whole before anything is written.
///
/// Refused BadArg where the area is below 65,536 or over 2^36 bytes, or where the new disk has
/// another size than 4096 and two areas, with no disk touched; NotAStore and Damaged as `inspect`
/// says; for the first edit that cannot be made NoSuchCollection where its collection is not there,
/// and then for a new name BadName and TooLong as `check_name` says and NameTaken where it is
/// there; NoMemory; Full where an area has no room for the image and a closed gate behind it; Fault
/// where one of the disks failed. Each leaves the new disk as it was, but a Fault of that disk.
pub fn copy<D: Disk, E: Disk>(
    alloc: Global,
    old: &mut D,
    new: &mut E,
    area: u64,
    edits: &[Edit],
) -> Result<(), Refusal>
    // What it answers, of a disk that read true.
    ensures answer { IsCopyAnswer (IsRoomFor Format.Two area (length (E.seen new.old)))
        (Rises (D.fault_count old.old) (D.fault_count old.new) ⊎
        Rises (E.fault_count new.old) (E.fault_count new.new))
        (D.is_honest old.new → HasNoHeader (D.seen old.old))
        (λ place. D.is_honest old.new → IsDamagedAt (D.seen old.old) place)
        (λ e. D.is_honest old.new → IsUneditable (D.seen old.old) edits.now e)
        (D.is_honest old.new → IsTooLarge (D.seen old.old) edits.now area) result }
    ensures starved { IfErr result (λ e. e ≡ Refusal.NoMemory → D.is_honest old.new →
        HasHeader (D.seen old.old)) }
    ensures copied { OnOk result (D.is_honest old.new →
        IsCopyOf (D.seen old.old) edits.now area (E.seen new.new)) }
    ensures durable { OnOk result (IsAtRest E.seen E.may_leave new.new) }
    // What a stop leaves of the new disk.
    ensures stop { IsAtRest E.seen E.may_leave new.old →
        LeavesOnly E.moment E.left_since new.old new.new (IsMaking
        (λ bytes. D.is_honest old.new → IsCopyOf (D.seen old.old) edits.now area bytes)
        (E.seen new.old)) }
    // What is left as it was.
    ensures reads { ReadsOnly D.seen D.may_leave D.moment D.left_since old.old old.new }
    ensures bad_arg { IsErrOf result Refusal.BadArg → old.new ≡ old.old }
    ensures unwritten { IfErr result (λ e. (new.new ≡ new.old) ⊎ ((e ≡ Refusal.Fault) ×
        Rises (E.fault_count new.old) (E.fault_count new.new))) }
    ensures size { length (E.seen new.new) ≡ length (E.seen new.old) }
    // What the devices tell.
    ensures honest { D.is_honest old.new → D.is_honest old.old }
    ensures faults { (D.fault_count old.old ≤ D.fault_count old.new) ×
        (E.fault_count new.old ≤ E.fault_count new.new) }
{
    if !is_room_for(new, Format::Two, area) {
        return Err(Refusal::BadArg);
    }
    let (image, version) = settled_image(alloc, old, area, edits)?;
    if is_too_long(&image, area) {
        return Err(Refusal::Full);
    }
    match write_copy(new, version, area, image) {
        Ok(()) => Ok(()),
        Err(_) => Err(Refusal::Fault),
    }
}

// Closes the gate of the head, writes a store of the image behind it, and opens the gate.
fn write_copy<D: Disk>(disk: &mut D, version: Format, area: u64, image: Image) -> Result<(), Fault>
    requires room { IsRoomFor version area (length (D.seen disk.old)) }
    requires some { image.blocks.items ≢ [] }
    requires fits { IsTooLong area image.blocks.items → ⊥ }
    ensures written { OnOk result (IsStoreOf version area (bodies_of image.blocks.items)
        (D.seen disk.new)) }
    ensures durable { OnOk result (IsAtRest D.seen D.may_leave disk.new) }
    ensures size { length (D.seen disk.new) ≡ length (D.seen disk.old) }
    ensures stop { IsAtRest D.seen D.may_leave disk.old →
        LeavesOnly D.moment D.left_since disk.old disk.new
        (IsMaking (IsStoreOf version area (bodies_of image.blocks.items)) (D.seen disk.old)) }
    ensures cause { HasCause (D.fault_count disk.old) (D.fault_count disk.new) result }
{
    write_and_sync(disk, GATE_AT, &[0])?;
    fill_with(disk, version, area, image)?;
    write_and_sync(disk, GATE_AT, &[OPEN])
}

// Writes all of a store of the image but the gate of its head.
fn fill_with<D: Disk>(disk: &mut D, version: Format, area: u64, image: Image) -> Result<(), Fault>
    requires room { IsRoomFor version area (length (D.seen disk.old)) }
    requires some { image.blocks.items ≢ [] }
    requires fits { IsTooLong area image.blocks.items → ⊥ }
    ensures filled { OnOk result (IsFilledWith version area (bodies_of image.blocks.items)
        (D.seen disk.new)) }
    ensures durable { OnOk result (IsAtRest D.seen D.may_leave disk.new) }
    ensures size { length (D.seen disk.new) ≡ length (D.seen disk.old) }
    ensures stop { ((c : List ℕ) → D.may_leave disk.old c → IsShut c) →
        LeavesOnly D.moment D.left_since disk.old disk.new IsShut }
    ensures cause { HasCause (D.fault_count disk.old) (D.fault_count disk.new) result }
{
    let laying = Laying {
        area: Area::start(AREAS_AT, area, 0),
        image,
    };
    lay_all(disk, laying)?;
    write_head(disk, version, area)
}

// Lays the blocks of an image that are left, one behind the other.
fn lay_all<D: Disk>(disk: &mut D, mut laying: Laying) -> Result<(), Fault>
    requires behind { areas_at ≤ base_of laying.area }
    requires fine { has_failed laying.area ≡ false }
    requires room { offset_of laying.area + length (row (bodies_of (left_of laying))) <
        size_of laying.area }
    requires inside { base_of laying.area + size_of laying.area ≤ length (D.seen disk.old) }
    ensures laid { (bodies : List (List ℕ)) → bodies ≢ [] →
        IsBeingLaid laying (D.seen disk.old) bodies →
        OnOk result (IsRow bodies (part (base_of laying.area) (size_of laying.area)
        (D.seen disk.new))) }
    ensures size { length (D.seen disk.new) ≡ length (D.seen disk.old) }
    ensures stop { ((c : List ℕ) → D.may_leave disk.old c → IsShut c) →
        LeavesOnly D.moment D.left_since disk.old disk.new IsShut }
    ensures cause { HasCause (D.fault_count disk.old) (D.fault_count disk.new) result }
{
    while laying.has_more() {
        if laying.lay_next(disk).is_err() {
            return Err(Fault);
        }
    }
    Ok(())
}
