// Reading an area.
ghost use Rattle.std.specs.Prelude.{◌≡◌, ◌≤◌, ◌<◌, ◌+◌, ◌^◌, length, IfOk, IfErr, false};
ghost use Rattle.calls.specs.declared.format.Format.{Format};
ghost use Rattle.disk_model.specs.Disk.{ReadsOnly, Rises};
ghost use Rattle.gate_block.specs.Area.{base_of, size_of, offset_of, has_failed};
ghost use Rattle.recovery.specs.Openings.{IsLoadRefusal, IsSpoilt};
ghost use Rattle.recovery.specs.Loading.{IsLoaded, StartsWithImage, is_imaging, image_behind};

use calls::{Format, Refusal};
use disk_model::Disk;
use gate_block::{Area, BLOCK_HEAD};
use replay::{Repeated, Repetition, Stage};
use std::alloc::Global;

/// An area whose blocks were read, and what their records lead to.
#[derive(Drop)]
pub struct Loaded {
    pub repeated: Repeated,
    pub area: Area,
    /// Where on the disk its next gate stands.
    pub place: u64,
    /// How many bytes of it the image takes, up to the end of the block that has its end.
    pub image: u64,
}

/// Reads the records of all blocks of an area of a disk of this version, one block at a time.
///
/// Refused NoMemory, Fault where the disk failed, and Damaged with the offset of the gate of the
/// block in which the first damage stands.
pub fn load<D: Disk>(
    alloc: Global,
    disk: &mut D,
    version: Format,
    base: u64,
    size: u64,
) -> Result<Loaded, Refusal>
    requires room { 0 < size }
    requires fits { base + size < 2 ^ 63 }
    requires disk { base + size ≤ length (D.seen disk.old) }
    ensures loaded { IfOk result (λ x. D.is_honest disk.new →
        IsLoaded version base size (D.seen disk.old) x.repeated.machine x.repeated.next
        x.repeated.count
        (offset_of x.area)) }
    ensures area { IfOk result (λ x. (base_of x.area ≡ base) × (size_of x.area ≡ size) ×
        (has_failed x.area ≡ false)) }
    ensures place { IfOk result (λ x. x.place ≡ base + offset_of x.area) }
    ensures image { IfOk result (λ x. D.is_honest disk.new →
        StartsWithImage version base size (D.seen disk.old) x.image) }
    ensures inside { IfOk result (λ x. x.image ≤ offset_of x.area) }
    ensures refused { IfErr result (IsLoadRefusal
        (Rises (D.fault_count disk.old) (D.fault_count disk.new))
        (λ place. D.is_honest disk.new → IsSpoilt version base size (D.seen disk.old) place)) }
    ensures reads { ReadsOnly D.seen D.may_leave D.moment D.left_since disk.old disk.new }
    ensures honest { D.is_honest disk.new → D.is_honest disk.old }
    ensures faults { D.fault_count disk.old ≤ D.fault_count disk.new }
{
    let mut area = Area::start(base, size, 0);
    let mut repetition = Repetition::new(version);
    let mut place = base;
    let mut image = 0;
    loop {
        match area.next_block(alloc, disk) {
            Ok(Some(body)) => {
                let imaging = is_imaging(&repetition.stage);
                repetition = repetition.read_body(alloc, body.as_slice(), place)?;
                place += (BLOCK_HEAD + body.len()) as u64;
                image = image_behind(imaging, image, place - base);
            }
            Ok(None) => break,
            Err(refusal) => {
                drop(repetition);
                return Err(refusal);
            }
        }
    }
    let repeated = repetition.finish(place)?;
    Ok(Loaded {
        repeated,
        area,
        place,
        image,
    })
}

// Whether the image has not ended at this stage.
fn is_imaging(stage: &Stage) -> bool
    ensures { result ≡ is_imaging stage.now }
{
    !matches!(stage, Stage::Journal(..))
}

// Where the image ends behind one more block: there, where it had not ended before that block.
fn image_behind(imaging: bool, end: u64, offset: u64) -> u64
    ensures { result ≡ image_behind imaging end offset }
{
    if imaging { offset } else { end }
}
