// Bringing a store to the second format, in its place.
ghost use Rattle.std.specs.Prelude.{◌≡◌, ◌≢◌, ◌↔◌, IsTrue, ◌≤◌, ℕ, List, [], length, false};
ghost use Rattle.std.specs.Prelude.{IfOk, IfErr, OnOk, IsOkUnless};
ghost use Rattle.calls.specs.declared.format.Format.{Format};
ghost use Rattle.calls.specs.declared.refusal.Refusal.{Refusal};
ghost use Rattle.calls.specs.Limits.{number_end};
ghost use Rattle.disk_model.specs.Disk.{Rises, IsAtRest};
ghost use Rattle.gate_block.specs.Area.{size_of, has_failed, IsReady};
ghost use Rattle.images.specs.Images.{IsPackedImage};
ghost use Rattle.steps.specs.Machines.{resting};
ghost use Rattle.checkpoint.specs.declared.laying.Laying.{Laying};
ghost use Rattle.checkpoint.specs.declared.stage.Stage.{Stage};
ghost use Rattle.checkpoint.specs.Imaging.{HasPiece, IsBeingLaid, IsTooLong, bodies_of};
ghost use Rattle.checkpoint.specs.Keepers.{IsFresh, IsOneOfTwo};
ghost use Rattle.recovery.specs.Heads.{HasHeader, HasNoHeader};
ghost use Rattle.recovery.specs.Openings.{IsDamagedAt, IsOpenRefusal, KeepsContent};
ghost use Rattle.recovery.specs.Refusals.{RefusalLeaves};
ghost use Rattle.recovery.specs.Upgrades.{IsUpgraded, HasNoRoomToUpgrade, BringsUp};
ghost use Rattle.recovery.specs.Upgrades.{KeepsOpened, HasNoRoomForSettled, GoesOn, TakesImage};
ghost use Rattle.recovery.specs.Upgrades.{HasFlipped, HasFlippedTo, IsTakeRefusal};
ghost use Rattle.recovery.specs.Upgrades.{IsUpgradeRefusal};

use crate::opening::{Recovered, recover};
use crate::settling::{image_of, in_format};
use calls::{Format, Refusal};
use catalog::Catalog;
use checkpoint::Keeper;
use disk_model::Disk;
use records::Image;
use replay::Machine;
use std::alloc::Global;

/// Brings the store on a disk to format 2, in its place: opens it, writes the image of the settled
/// content in format 2 into the area that is not in use, and makes that the one in use by its root
/// byte. Where the area in use is of format 2 already, it only opens the store. The next number and
/// the wear are those of the opening. The head of the disk stays, with its version, and so does
/// every byte outside the two areas but the root byte.
///
/// A stop at any moment of the call, on a disk that was at rest and sound, leaves a store of the
/// same content, in the format from before or in format 2.
///
/// It takes the time and memory of an opening, and of one copy of the content, which is spelled
/// whole before any of it is written.
///
/// Refused NotAStore and Damaged as `open` says, with nothing written; NoMemory and Full as `open`
/// says, or where there is none for the image, with what the opening wrote and nothing more; Fault
/// where the disk failed. A refusal hands the disk back.
pub fn upgrade<D: Disk>(alloc: Global, disk: D) -> Result<D, (Refusal, D)>
    // What it makes, of a disk that read true.
    ensures upgraded { IfOk result (λ new. D.is_honest new →
        IsUpgraded (D.seen disk) (D.seen new)) }
    ensures durable { IfOk result (λ new. D.is_honest new → IsAtRest D.seen D.may_leave disk →
        IsAtRest D.seen D.may_leave new) }
    // What a stop leaves.
    ensures kept { IfOk result (λ new. D.is_honest new →
        KeepsContent D.seen D.may_leave D.moment D.left_since disk new) }
    ensures kept_in_refusal { IfErr result
        (λ x. D.is_honest x.1 → KeepsContent D.seen D.may_leave D.moment D.left_since disk x.1) }
    // Why it is refused, and what was written then.
    ensures refused { IfErr result (λ x. IsOpenRefusal
        (Rises (D.fault_count disk) (D.fault_count x.1))
        (D.is_honest x.1 → HasNoHeader (D.seen disk))
        (λ place. D.is_honest x.1 → IsDamagedAt (D.seen disk) place)
        (D.is_honest x.1 → HasNoRoomToUpgrade (D.seen disk)) x.0) }
    ensures starved { IfErr result (λ x. x.0 ≡ Refusal.NoMemory → D.is_honest x.1 →
        HasHeader (D.seen disk)) }
    ensures left { IfErr result (λ x. RefusalLeaves ⟦<D as Disk>⟧ disk x.1 x.0) }
    // What the device tells, and its length.
    ensures honest { IfOk result (λ new. D.is_honest new → D.is_honest disk) }
    ensures honest_in_refusal { IfErr result (λ x. D.is_honest x.1 → D.is_honest disk) }
    ensures faults_in_refusal { IfErr result (λ x. D.fault_count disk ≤ D.fault_count x.1) }
    ensures size { IfOk result (λ new. length (D.seen new) ≡ length (D.seen disk)) }
    ensures size_in_refusal { IfErr result (λ x. length (D.seen x.1) ≡ length (D.seen disk)) }
{
    let mut disk = disk;
    match recover(alloc, &mut disk) {
        Ok(recovered) => upgrade_recovered(alloc, recovered, disk),
        Err(refusal) => Err((refusal, disk)),
    }
}

// Brings a store whose losers are undone to the second format.
fn upgrade_recovered<D: Disk>(
    alloc: Global,
    recovered: Recovered,
    disk: D,
) -> Result<D, (Refusal, D)>
    requires fine { has_failed recovered.area ≡ false }
    requires one { IsOneOfTwo recovered.area (length (D.seen disk)) }
    ensures upgraded { IfOk result (λ new. BringsUp recovered.machine recovered.next recovered.area
        (D.seen disk) (D.seen new)) }
    ensures durable { IfOk result (λ new. IsAtRest D.seen D.may_leave disk →
        IsAtRest D.seen D.may_leave new) }
    ensures kept { IfOk result (KeepsOpened ⟦<D as Disk>⟧ recovered.machine recovered.next
        recovered.area disk) }
    ensures kept_in_refusal { IfErr result (λ x. KeepsOpened ⟦<D as Disk>⟧ recovered.machine
        recovered.next recovered.area disk x.1) }
    ensures refused { IfErr result (λ x. IsUpgradeRefusal
        (Rises (D.fault_count disk) (D.fault_count x.1))
        (HasNoRoomForSettled recovered.machine recovered.next recovered.area (D.seen disk)) x.0) }
    ensures unwritten { IfErr result (λ x. (x.0 ≡ Refusal.Fault → ⊥) → x.1 ≡ disk) }
    ensures honest { IfOk result (λ new. D.is_honest new → D.is_honest disk) }
    ensures honest_in_refusal { IfErr result (λ x. D.is_honest x.1 → D.is_honest disk) }
    ensures faults_in_refusal { IfErr result (λ x. D.fault_count disk ≤ D.fault_count x.1) }
    ensures size { IfOk result (λ new. length (D.seen new) ≡ length (D.seen disk)) }
    ensures size_in_refusal { IfErr result (λ x. length (D.seen x.1) ≡ length (D.seen disk)) }
{
    if is_second(recovered.machine.format()) {
        drop(recovered);
        return Ok(disk);
    }
    write_second(alloc, recovered, disk)
}

// Whether it is the second format.
fn is_second(format: Format) -> bool
    ensures { IsTrue result ↔ (format ≡ Format.Two) }
{
    match format {
        Format::One => false,
        Format::Two => true,
    }
}

// Writes the image of a store of another format, whose losers are undone, in the second one, and
// makes its area the one in use.
fn write_second<D: Disk>(alloc: Global, recovered: Recovered, disk: D) -> Result<D, (Refusal, D)>
    requires other { recovered.machine.format ≢ Format.Two }
    requires fine { has_failed recovered.area ≡ false }
    requires one { IsOneOfTwo recovered.area (length (D.seen disk)) }
    ensures upgraded { IfOk result (λ new. BringsUp recovered.machine recovered.next recovered.area
        (D.seen disk) (D.seen new)) }
    ensures durable { IfOk result (IsAtRest D.seen D.may_leave) }
    ensures kept { IfOk result (KeepsOpened ⟦<D as Disk>⟧ recovered.machine recovered.next
        recovered.area disk) }
    ensures kept_in_refusal { IfErr result (λ x. KeepsOpened ⟦<D as Disk>⟧ recovered.machine
        recovered.next recovered.area disk x.1) }
    ensures refused { IfErr result (λ x. IsUpgradeRefusal
        (Rises (D.fault_count disk) (D.fault_count x.1))
        (HasNoRoomForSettled recovered.machine recovered.next recovered.area (D.seen disk)) x.0) }
    ensures unwritten { IfErr result (λ x. (x.0 ≡ Refusal.Fault → ⊥) → x.1 ≡ disk) }
    ensures honest { IfOk result (λ new. D.is_honest new → D.is_honest disk) }
    ensures honest_in_refusal { IfErr result (λ x. D.is_honest x.1 → D.is_honest disk) }
    ensures faults_in_refusal { IfErr result (λ x. D.fault_count disk ≤ D.fault_count x.1) }
    ensures size { IfOk result (λ new. length (D.seen new) ≡ length (D.seen disk)) }
    ensures size_in_refusal { IfErr result (λ x. length (D.seen x.1) ≡ length (D.seen disk)) }
{
    let Recovered {
        machine,
        next,
        area,
    } = recovered;
    machine.upheld();
    match second_image(alloc, machine, next) {
        Ok(image) => {
            let mut keeper = Keeper::new(disk, area);
            match take_image(&mut keeper, image) {
                Ok(()) => Ok(keeper.into_disk()),
                Err(refusal) => Err((refusal, keeper.into_disk())),
            }
        }
        Err(refusal) => Err((refusal, disk)),
    }
}

// The image in the second format of a machine in which nothing is live.
fn second_image(alloc: Global, machine: Machine<Catalog>, next: u64) -> Result<Image, Refusal>
    requires { (1 ≤ next) × (next ≤ number_end) }
    ensures image { IfOk result (λ image. IsPackedImage (λ v. v) next
        (resting Format.Two machine.now machine.wear) image.blocks.items) }
    ensures some { IfOk result (λ image. image.blocks.items ≢ []) }
    ensures start { IfOk result (λ image. (image.end ≡ 0) × (image.place ≡ 0)) }
    ensures refusal { IsOkUnless result Refusal.NoMemory }
{
    let machine = in_format(alloc, machine, Format::Two);
    image_of(alloc, &machine, next)
}

// Writes an image of what a keeper was opened over, and makes its area the one in use.
fn take_image<D: Disk>(keeper: &mut Keeper<D>, image: Image) -> Result<(), Refusal>
    requires fresh { IsFresh keeper.old }
    requires some { image.blocks.items ≢ [] }
    requires start { (image.end ≡ 0) × (image.place ≡ 0) }
    ensures takes { TakesImage ⟦<D as Disk>⟧ image keeper.old keeper.new }
    ensures ready { OnOk result (IsReady D.seen D.may_leave keeper.new.area keeper.new.disk
        (bodies_of image.blocks.items)) }
    ensures flipped { OnOk result (HasFlipped ⟦<D as Disk>⟧ keeper.old keeper.new) }
    ensures durable { OnOk result (IsAtRest D.seen D.may_leave keeper.new.disk) }
    ensures refused { IfErr result (IsTakeRefusal
        (Rises (D.fault_count keeper.old.disk) (D.fault_count keeper.new.disk))
        (IsTooLong (size_of keeper.old.area) image.blocks.items)) }
    ensures unwritten { IfErr result (λ e. (e ≡ Refusal.Fault → ⊥) →
        keeper.new.disk ≡ keeper.old.disk) }
    ensures honest { D.is_honest keeper.new.disk → D.is_honest keeper.old.disk }
    ensures faults { D.fault_count keeper.old.disk ≤ D.fault_count keeper.new.disk }
    ensures size { length (D.seen keeper.new.disk) ≡ length (D.seen keeper.old.disk) }
{
    keeper.hold(0, 0)?;
    keeper.begin_image(image, 0)?;
    write_out(keeper)
}

// Writes all that is left of an image in progress, and makes its area the one in use.
fn write_out<D: Disk>(keeper: &mut Keeper<D>) -> Result<(), Refusal>
    requires fine { keeper.old.failed ≡ false }
    requires piece { HasPiece keeper.old.stage }
    ensures goes { GoesOn ⟦<D as Disk>⟧ keeper.old keeper.new }
    ensures ready { (w : Laying) (bodies : List (List ℕ)) → keeper.old.stage ≡ Stage.Laid w →
        bodies ≢ [] → IsBeingLaid w (D.seen keeper.old.disk) bodies →
        OnOk result (IsReady D.seen D.may_leave keeper.new.area keeper.new.disk bodies) }
    ensures flipped { (w : Laying) → keeper.old.stage ≡ Stage.Laid w →
        OnOk result (HasFlippedTo ⟦<D as Disk>⟧ w keeper.old keeper.new) }
    ensures durable { OnOk result (IsAtRest D.seen D.may_leave keeper.new.disk) }
    ensures fault { IfErr result (λ e. (e ≡ Refusal.Fault) ×
        Rises (D.fault_count keeper.old.disk) (D.fault_count keeper.new.disk)) }
    ensures honest { D.is_honest keeper.new.disk → D.is_honest keeper.old.disk }
    ensures faults { D.fault_count keeper.old.disk ≤ D.fault_count keeper.new.disk }
    ensures size { length (D.seen keeper.new.disk) ≡ length (D.seen keeper.old.disk) }
{
    'pieces: loop {
        if !keeper.image_piece()? {
            keeper.flip()?;
            return Ok(());
        }
    }
}
