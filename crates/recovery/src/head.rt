// The head of a store's disk.
ghost use Rattle.std.specs.Prelude.{◌≡◌, ◌≤◌, ◌<◌, ◌+◌, ◌*◌, ◌^◌, ◌⊎◌, ℕ, length, take, get_or};
ghost use Rattle.std.specs.Prelude.{IfOk, IfErr, IfSome, IfNone, IsTrue, ◌↔◌};
ghost use Rattle.calls.specs.declared.format.Format.{Format};
ghost use Rattle.calls.specs.Formats.{max_area, widest};
ghost use Rattle.calls.specs.Limits.{min_area};
ghost use Rattle.disk_model.specs.Disk.{ReadsOnly, Rises};
ghost use Rattle.replay.specs.Journals.{letters_of, IsHeader};
ghost use Rattle.gate_block.specs.Layout.{base_in_use};
ghost use Rattle.gate_block.specs.Layout.{gate_at, areas_at};
ghost use Rattle.gate_block.specs.Row.{open_gate};
ghost use Rattle.recovery.specs.Heads.{IsHead, IsHeadRefusal, HasNoHeader};
ghost use Rattle.recovery.specs.Formatting.{IsRoomFor};

use byteorder::{BigEndian, ByteOrder};
use calls::limits::MIN_AREA;
use calls::{Format, Refusal};
use disk_model::{Disk, read};
use gate_block::layout::{AREAS_AT, OPEN, ROOT_AT};

/// The letters that a disk of the version begins with.
pub(crate) fn letters(version: Format) -> [u8; 8]
    ensures { result ≡ letters_of version }
{
    match version {
        Format::One => *b"BOOSTED1",
        Format::Two => *b"BOOSTED2",
    }
}

// The size of the areas, which the head of a store says that has so many bytes, and its version.
fn said(head: &[u8], whole: u64) -> Option<(u64, Format)>
    requires { length head.now ≡ 17 }
    ensures some { IfSome result (λ x. IsHead x.1 x.0 head.now whole) }
    ensures none { IfNone result ((version : Format) (size : ℕ) →
        IsHead version size head.now whole → ⊥) }
{
    match said_size(Format::One, head, whole) {
        Some(size) => Some((size, Format::One)),
        None => match said_size(Format::Two, head, whole) {
            Some(size) => Some((size, Format::Two)),
            None => None,
        },
    }
}

// The size of the areas, which the head of a store of the version says that has so many bytes.
fn said_size(version: Format, head: &[u8], whole: u64) -> Option<u64>
    requires { length head.now ≡ 17 }
    ensures some { IfSome result (λ size. IsHead version size head.now whole) }
    ensures none { IfNone result ((size : ℕ) → IsHead version size head.now whole → ⊥) }
{
    let size = BigEndian::read_u64(&head[9..]);
    if is_marked(version, head) && is_size(version, size, whole) {
        Some(size)
    } else {
        None
    }
}

/// Whether two areas of this size are those of a disk of the version that has so many bytes.
pub(crate) fn is_size(version: Format, area: u64, whole: u64) -> bool
    ensures { IsTrue result ↔ IsRoomFor version area whole }
{
    area >= MIN_AREA && area <= version.max_area() && whole == AREAS_AT + 2 * area
}

// Whether a head begins with the letters of the version and an open gate.
fn is_marked(version: Format, head: &[u8]) -> bool
    requires { length head.now ≡ 17 }
    ensures { IsTrue result ↔ ((take gate_at head.now ≡ letters_of version) ×
        (get_or head.now gate_at 0 ≡ open_gate)) }
{
    &head[..8] == &letters(version)[..] && head[8] == OPEN
}

// The size of the areas, which the head of a store says, and its version.
fn read_size<D: Disk>(disk: &mut D) -> Result<(u64, Format), Refusal>
    ensures size { IfOk result (λ x. (min_area ≤ x.0) × (x.0 ≤ max_area widest) ×
        (length (D.seen disk.old) ≡ areas_at + 2 * x.0)) }
    ensures header { IfOk result (λ x. D.is_honest disk.new → IsHeader x.1 x.0 (D.seen disk.old)) }
    ensures refused { IfErr result (IsHeadRefusal
        (Rises (D.fault_count disk.old) (D.fault_count disk.new))
        (D.is_honest disk.new → HasNoHeader (D.seen disk.old))) }
    ensures reads { ReadsOnly D.seen D.may_leave D.moment D.left_since disk.old disk.new }
    ensures honest { D.is_honest disk.new → D.is_honest disk.old }
    ensures faults { D.fault_count disk.old ≤ D.fault_count disk.new }
{
    if disk.size() < AREAS_AT {
        return Err(Refusal::NotAStore);
    }
    let mut head = [0; 17];
    if read(disk, 0, &mut head).is_err() {
        return Err(Refusal::Fault);
    }
    said(&head, disk.size()).ok_or(Refusal::NotAStore)
}

/// Where the area in use begins, its size, and the disk's version. Refused Fault where the disk
/// failed, and NotAStore where no head is read.
pub fn area_in_use<D: Disk>(disk: &mut D) -> Result<(u64, u64, Format), Refusal>
    ensures inside { IfOk result (λ x. (0 < x.1) × (x.1 ≤ max_area widest) × (x.0 + x.1 < 2 ^ 63) ×
        (x.0 + x.1 ≤ length (D.seen disk.old))) }
    ensures one { IfOk result (λ x. (length (D.seen disk.old) ≡ areas_at + 2 * x.1) ×
        ((x.0 ≡ areas_at) ⊎ (x.0 ≡ areas_at + x.1))) }
    ensures header { IfOk result (λ x. D.is_honest disk.new →
        IsHeader x.2 x.1 (D.seen disk.old) × (x.0 ≡ base_in_use x.1 (D.seen disk.old))) }
    ensures refused { IfErr result (IsHeadRefusal
        (Rises (D.fault_count disk.old) (D.fault_count disk.new))
        (D.is_honest disk.new → HasNoHeader (D.seen disk.old))) }
    ensures reads { ReadsOnly D.seen D.may_leave D.moment D.left_since disk.old disk.new }
    ensures honest { D.is_honest disk.new → D.is_honest disk.old }
    ensures faults { D.fault_count disk.old ≤ D.fault_count disk.new }
{
    let (size, version) = read_size(disk)?;
    let mut root = [0; 1];
    if read(disk, ROOT_AT, &mut root).is_err() {
        return Err(Refusal::Fault);
    }
    Ok((AREAS_AT + size * (root[0] % 2) as u64, size, version))
}
