// The settled content of a store, as an image.
ghost use Rattle.std.specs.Prelude.{◌≡◌, ◌≢◌, ◌≤◌, List, [], IfOk, IfErr, OnOk, IsOkUnless};
ghost use Rattle.calls.specs.declared.format.Format.{Format};
ghost use Rattle.calls.specs.Formats.{max_area, Allows};
ghost use Rattle.calls.specs.Formats.{widest};
ghost use Rattle.calls.specs.Limits.{number_end};
ghost use Rattle.calls.specs.Names.{IsName};
ghost use Rattle.calls.specs.Contents.{Collection};
ghost use Rattle.disk_model.specs.Disk.{ReadsOnly, Rises};
ghost use Rattle.catalog.specs.Holdings.{AreNamed};
ghost use Rattle.records.specs.Short.{AreShort};
ghost use Rattle.records.specs.Images.{IsImage, TellOf, TellsOf};
ghost use Rattle.records.specs.Packings.{joined, Writes};
ghost use Rattle.steps.specs.Machines.{resting};
ghost use Rattle.images.specs.Images.{IsPacked, IsPackedImage};
ghost use Rattle.recovery.specs.Heads.{HasHeader, HasNoHeader};
ghost use Rattle.recovery.specs.Openings.{IsDamagedAt};
ghost use Rattle.recovery.specs.Edits.{IsUneditable};
ghost use Rattle.recovery.specs.Kept.{IsKept, AreKept};
ghost use Rattle.recovery.specs.Copies.{SpellsCopyOf, IsSettleRefusal, copied_as};
ghost use Rattle.recovery.specs.Surveys.{image_len};

use crate::editing::{Edit, Kept, keep};
use crate::finding::{Found, find};
use crate::freezing::image_blocks;
use calls::{Format, Refusal};
use catalog::{Catalog, Parts, Shown};
use disk_model::Disk;
use images::push_shown;
use records::{Image, Packer, Record};
use replay::Machine;
use std::alloc::Global;

/// The image of the settled content of the store on a disk, with the edits made, for areas of this
/// size of another disk, and its format. Nothing is written.
///
/// Refused NotAStore, Damaged, Fault and NoMemory as `inspect` says, and for an edit as `copy`
/// says.
pub(crate) fn settled_image<D: Disk>(
    alloc: Global,
    disk: &mut D,
    area: u64,
    edits: &[Edit],
) -> Result<(Image, Format), Refusal>
    ensures image { IfOk result (λ x. D.is_honest disk.new →
        SpellsCopyOf x.1 (D.seen disk.old) edits.now area x.0.blocks.items) }
    ensures bound { IfOk result (λ x. area ≤ max_area widest → area ≤ max_area x.1) }
    ensures some { IfOk result (λ x. x.0.blocks.items ≢ []) }
    ensures refused { IfErr result (IsSettleRefusal
        (Rises (D.fault_count disk.old) (D.fault_count disk.new))
        (D.is_honest disk.new → HasNoHeader (D.seen disk.old))
        (λ place. D.is_honest disk.new → IsDamagedAt (D.seen disk.old) place)
        (λ e. D.is_honest disk.new → IsUneditable (D.seen disk.old) edits.now e)) }
    ensures starved { IfErr result (λ e. e ≡ Refusal.NoMemory → D.is_honest disk.new →
        HasHeader (D.seen disk.old)) }
    ensures reads { ReadsOnly D.seen D.may_leave D.moment D.left_since disk.old disk.new }
    ensures honest { D.is_honest disk.new → D.is_honest disk.old }
    ensures faults { D.fault_count disk.old ≤ D.fault_count disk.new }
{
    let Found { machine, next, .. } = find(alloc, disk)?;
    machine.upheld();
    let format = copied_as(machine.format(), area);
    let wear = machine.wear();
    let (names, shelves) = machine.into_parts().apart();
    let kept = keep(alloc, &names, edits)?;
    let collections = Catalog::together(names, shelves);
    let machine = Machine::new(alloc, format, collections, wear);
    let image = kept_image(alloc, &machine, next, &kept)?;
    Ok((image, format))
}

// The image of the collections of a machine that are kept, with the mark of the next number, in
// whole blocks.
fn kept_image(
    alloc: Global,
    machine: &Machine<Catalog>,
    next: u64,
    kept: &[Kept],
) -> Result<Image, Refusal>
    requires next { (1 ≤ next) × (next ≤ number_end) }
    requires kept { (xs : List Collection) × AreKept machine.now.now kept.now xs × AreNamed xs }
    ensures image { IfOk result (λ image. (xs : List Collection) →
        AreKept machine.now.now kept.now xs → IsPacked (IsImage machine.now.format next
        machine.now.wear xs [] []) image.blocks.items) }
    ensures refusal { IsOkUnless result Refusal.NoMemory }
{
    let mut packer = Packer::new(alloc);
    push_settled(machine, next, kept, &mut packer)?;
    Ok(Image {
        blocks: packer.finish()?,
        end: 0,
        place: 0,
    })
}

// Writes all records of the image.
fn push_settled(
    machine: &Machine<Catalog>,
    next: u64,
    kept: &[Kept],
    packer: &mut Packer,
) -> Result<(), Refusal>
    requires next { (1 ≤ next) × (next ≤ number_end) }
    requires kept { (xs : List Collection) × AreKept machine.now.now kept.now xs × AreNamed xs }
    ensures told { OnOk result ((xs : List Collection) → AreKept machine.now.now kept.now xs →
        Writes (joined packer.old) (joined packer.new)
        (IsImage machine.now.format next machine.now.wear xs [] [])) }
    ensures refusal { IsOkUnless result Refusal.NoMemory }
{
    machine.upheld();
    packer.push(Record::Marks {
        format: machine.format(),
        next,
        wear: machine.wear(),
    })?;
    push_kept(machine.parts(), kept, packer)?;
    packer.push(Record::ImageEnd)
}

// Writes what the kept collections hold.
fn push_kept(collections: &Catalog, kept: &[Kept], packer: &mut Packer) -> Result<(), Refusal>
    requires short { AreShort widest collections.now }
    requires kept { (xs : List Collection) × AreKept collections.now kept.now xs × AreNamed xs }
    ensures told { OnOk result ((xs : List Collection) → AreKept collections.now kept.now xs →
        Writes (joined packer.old) (joined packer.new) (TellOf xs)) }
    ensures refusal { IsOkUnless result Refusal.NoMemory }
{
    for one in kept {
        push_one(collections, one, packer)?;
    }
    Ok(())
}

// Writes what a kept collection holds, under the name that it is kept under.
fn push_one(collections: &Catalog, kept: &Kept, packer: &mut Packer) -> Result<(), Refusal>
    requires short { AreShort widest collections.now }
    requires kept { (x : Collection) × IsKept collections.now kept.now x × IsName x.name }
    ensures told { OnOk result ((x : Collection) → IsKept collections.now kept.now x →
        Writes (joined packer.old) (joined packer.new) (TellsOf x)) }
    ensures refusal { IsOkUnless result Refusal.NoMemory }
{
    let name = kept.name.copy()?;
    let Shown { kind, items, .. } = collections.show(kept.at)?;
    push_shown(Shown { name, kind, items }, packer)
}

/// The machine of the same content in a later format, where nothing is live in it.
pub(crate) fn in_format(
    alloc: Global,
    machine: Machine<Catalog>,
    format: Format,
) -> Machine<Catalog>
    requires later { Allows machine.format format }
    ensures { result ≡ resting format machine.now machine.wear }
{
    let wear = machine.wear();
    Machine::new(alloc, format, machine.into_parts(), wear)
}

// The format of a copy of a store whose area in use is of this one, with areas of this size.
fn copied_as(format: Format, area: u64) -> Format
    ensures { result ≡ copied_as format area }
{
    match format {
        Format::Two => Format::Two,
        Format::One => {
            if area > Format::One.max_area() {
                Format::Two
            } else {
                Format::One
            }
        }
    }
}

/// The image of a machine with the mark of the next number, in whole blocks.
///
/// NoMemory.
pub(crate) fn image_of(
    alloc: Global,
    machine: &Machine<Catalog>,
    next: u64,
) -> Result<Image, Refusal>
    requires { (1 ≤ next) × (next ≤ number_end) }
    ensures image { IfOk result (λ image. IsPackedImage (λ v. v) next machine.now
        image.blocks.items) }
    ensures start { IfOk result (λ image. (image.end ≡ 0) × (image.place ≡ 0)) }
    ensures refusal { IsOkUnless result Refusal.NoMemory }
{
    Ok(Image {
        blocks: image_blocks(alloc, machine, next)?,
        end: 0,
        place: 0,
    })
}

/// How many bytes an image takes in an area, with the closed gate behind it. Where they are more
/// than a u64 can tell, it is the greatest one.
pub(crate) fn image_len(image: &Image) -> u64
    ensures { result ≡ image_len image.now.blocks.items }
{
    let mut len = 1u64;
    for i in 0..image.blocks.len() {
        len = len.saturating_add(image.blocks[i].len() as u64 - 1);
    }
    len
}
