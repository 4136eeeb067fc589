// Making a store on a disk.
ghost use Rattle.std.specs.Prelude.{◌≡◌, ◌≤◌, ◌↔◌, ℕ, List, length, drop, OnOk, IsErrOf};
ghost use Rattle.std.specs.Prelude.{IsTrue};
ghost use Rattle.gate_block.specs.Layout.{areas_at};
ghost use Rattle.calls.specs.declared.format.Format.{Format};
ghost use Rattle.calls.specs.Formats.{number_of};
ghost use Rattle.disk_model.specs.Disk.{LeavesOnly, Rises, HasCause, IsAtRest};
ghost use Rattle.recovery.specs.Formatting.{IsRoomFor, IsRoomAs, IsFormatAnswer, IsHeadOf};
ghost use Rattle.recovery.specs.Formatting.{IsFilled};
ghost use Rattle.recovery.specs.Formatting.{empty_area, IsEmptyStore, IsFormatting, IsShut};

use crate::head::{is_size, letters};
use calls::{Format, Refusal};
use disk_model::{Disk, Fault, write_and_sync};
use gate_block::layout::{AREAS_AT, GATE_AT, OPEN, ROOT_AT, SIZE_AT};

// The image of an empty store of the format as a block, with a closed gate behind it: its marks, 1
// and 0, and its end.
fn empty_image(format: Format) -> [u8; 24]
    ensures { result ≡ empty_area format }
{
    match format {
        Format::One => [
            OPEN, 0, 0, 0, 18, 11, 0, 0, 0, 0, 0, 0, 0, 1, 0, 0, 0, 0, 0, 0, 0, 0, 12, 0,
        ],
        Format::Two => [
            OPEN, 0, 0, 0, 18, 14, 0, 0, 0, 0, 0, 0, 0, 1, 0, 0, 0, 0, 0, 0, 0, 0, 12, 0,
        ],
    }
}

/// Makes the disk an empty store of format 1 with two areas of so many bytes: a head, a root byte
/// that picks the first area, and in it the image of nothing, with no number drawn and no wear. A
/// stop at any moment of the call, on a disk that was at rest, leaves the old bytes with any value
/// for the gate of the head, or no store, or the empty one.
///
/// Refused BadArg where the area is below 65,536 or over 2^30 bytes, or where the disk has another
/// size than 4096 and two areas, with nothing touched; Fault where the disk failed.
pub fn format<D: Disk>(disk: &mut D, area: u64) -> Result<(), Refusal>
    ensures answer { IsFormatAnswer (IsRoomFor Format.One area (length (D.seen disk.old)))
        (Rises (D.fault_count disk.old) (D.fault_count disk.new)) result }
    ensures bad_arg { IsErrOf result Refusal.BadArg → disk.new ≡ disk.old }
    ensures empty { OnOk result (IsEmptyStore Format.One (D.seen disk.new)) }
    ensures durable { OnOk result (IsAtRest D.seen D.may_leave disk.new) }
    ensures size { length (D.seen disk.new) ≡ length (D.seen disk.old) }
    ensures stop { IsAtRest D.seen D.may_leave disk.old →
        LeavesOnly D.moment D.left_since disk.old disk.new
        (IsFormatting Format.One (D.seen disk.old)) }
{
    make_store(disk, Format::One, area)
}

/// Makes the disk an empty store as `format` does, head and area of the format of this number: 1 or
/// 2.
///
/// Refused BadArg for another number, where the area is below 65,536 or over 2^30 bytes, in format
/// 2 over 2^36, or where the disk has another size than 4096 and two areas, with nothing touched;
/// Fault where the disk failed.
pub fn format_as<D: Disk>(disk: &mut D, area: u64, version: u8) -> Result<(), Refusal>
    ensures answer { IsFormatAnswer (IsRoomAs version area (length (D.seen disk.old)))
        (Rises (D.fault_count disk.old) (D.fault_count disk.new)) result }
    ensures bad_arg { IsErrOf result Refusal.BadArg → disk.new ≡ disk.old }
    ensures empty { (f : Format) → version ≡ number_of f →
        OnOk result (IsEmptyStore f (D.seen disk.new)) }
    ensures durable { OnOk result (IsAtRest D.seen D.may_leave disk.new) }
    ensures size { length (D.seen disk.new) ≡ length (D.seen disk.old) }
    ensures stop { (f : Format) → version ≡ number_of f → IsAtRest D.seen D.may_leave disk.old →
        LeavesOnly D.moment D.left_since disk.old disk.new (IsFormatting f (D.seen disk.old)) }
{
    match Format::numbered(version) {
        Some(version) => make_store(disk, version, area),
        None => Err(Refusal::BadArg),
    }
}

// Makes the disk an empty store of the version.
fn make_store<D: Disk>(disk: &mut D, version: Format, area: u64) -> Result<(), Refusal>
    ensures answer { IsFormatAnswer (IsRoomFor version area (length (D.seen disk.old)))
        (Rises (D.fault_count disk.old) (D.fault_count disk.new)) result }
    ensures bad_arg { IsErrOf result Refusal.BadArg → disk.new ≡ disk.old }
    ensures empty { OnOk result (IsEmptyStore version (D.seen disk.new)) }
    ensures durable { OnOk result (IsAtRest D.seen D.may_leave disk.new) }
    ensures size { length (D.seen disk.new) ≡ length (D.seen disk.old) }
    ensures stop { IsAtRest D.seen D.may_leave disk.old →
        LeavesOnly D.moment D.left_since disk.old disk.new
        (IsFormatting version (D.seen disk.old)) }
{
    if !is_room_for(disk, version, area) {
        return Err(Refusal::BadArg);
    }
    match write_store(disk, version, area) {
        Ok(()) => Ok(()),
        Err(_) => Err(Refusal::Fault),
    }
}

/// Whether the disk, of the version, has room for two areas of this size, and no more.
pub(crate) fn is_room_for<D: Disk>(disk: &D, version: Format, area: u64) -> bool
    ensures { IsTrue result ↔ IsRoomFor version area (length (D.seen disk.now)) }
{
    is_size(version, area, disk.size())
}

// Closes the gate of the head, writes an empty store behind it, and opens the gate.
fn write_store<D: Disk>(disk: &mut D, version: Format, area: u64) -> Result<(), Fault>
    requires { IsRoomFor version area (length (D.seen disk.old)) }
    ensures empty { OnOk result (IsEmptyStore version (D.seen disk.new)) }
    ensures durable { OnOk result (IsAtRest D.seen D.may_leave disk.new) }
    ensures size { length (D.seen disk.new) ≡ length (D.seen disk.old) }
    ensures stop { IsAtRest D.seen D.may_leave disk.old →
        LeavesOnly D.moment D.left_since disk.old disk.new
        (IsFormatting version (D.seen disk.old)) }
    ensures cause { HasCause (D.fault_count disk.old) (D.fault_count disk.new) result }
{
    write_and_sync(disk, GATE_AT, &[0])?;
    fill(disk, version, area)?;
    write_and_sync(disk, GATE_AT, &[OPEN])
}

// Writes all of an empty store but the gate of its head.
fn fill<D: Disk>(disk: &mut D, version: Format, area: u64) -> Result<(), Fault>
    requires { 4120 ≤ length (D.seen disk.old) }
    ensures filled { OnOk result (IsFilled version area (D.seen disk.new)) }
    ensures durable { OnOk result (IsAtRest D.seen D.may_leave disk.new) }
    ensures size { length (D.seen disk.new) ≡ length (D.seen disk.old) }
    ensures stop { ((c : List ℕ) → D.may_leave disk.old c → IsShut c) →
        LeavesOnly D.moment D.left_since disk.old disk.new IsShut }
    ensures cause { HasCause (D.fault_count disk.old) (D.fault_count disk.new) result }
{
    disk.write_at(AREAS_AT, &empty_image(version))?;
    write_head(disk, version, area)
}

/// Writes the head of a store of the version but its gate, for areas of this size and the first of
/// them in use, and syncs.
pub(crate) fn write_head<D: Disk>(disk: &mut D, version: Format, area: u64) -> Result<(), Fault>
    requires { areas_at ≤ length (D.seen disk.old) }
    ensures head { OnOk result (IsHeadOf version area (D.seen disk.new)) }
    ensures behind { OnOk result (drop areas_at (D.seen disk.new) ≡
        drop areas_at (D.seen disk.old)) }
    ensures durable { OnOk result (IsAtRest D.seen D.may_leave disk.new) }
    ensures size { length (D.seen disk.new) ≡ length (D.seen disk.old) }
    ensures stop { ((c : List ℕ) → D.may_leave disk.old c → IsShut c) →
        LeavesOnly D.moment D.left_since disk.old disk.new IsShut }
    ensures cause { HasCause (D.fault_count disk.old) (D.fault_count disk.new) result }
{
    disk.write_at(ROOT_AT, &[0])?;
    disk.write_at(0, &letters(version))?;
    disk.write_at(SIZE_AT, &area.to_be_bytes())?;
    disk.sync()
}
