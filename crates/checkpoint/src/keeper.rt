// The keeper: brings blocks to the disk, in their order, and writes images.
ghost use Rattle.std.specs.Prelude.{◌≡◌, ◌≢◌, ◌<◌, ◌≤◌, ◌+◌, max, ℕ, List, ◌++◌, ◌∷◌, []};
ghost use Rattle.std.specs.Prelude.{length, OnOk, IfSome, IfNone, None, false};
ghost use Rattle.disk_model.specs.Disk.{Torn, IsAtRest, LeavesOnly, Rises};
ghost use Rattle.gate_block.specs.Row.{IsBlockOf, SameOutside};
ghost use Rattle.gate_block.specs.Area.{has_failed, base_of, size_of, offset_of, IsReady};
ghost use Rattle.gate_block.specs.Area.{LeavesBlocks, LeavesElsewhere};
ghost use Rattle.records.specs.declared.block.Block.{Block};
ghost use Rattle.checkpoint.specs.declared.laying.Laying.{Laying};
ghost use Rattle.checkpoint.specs.declared.stage.Stage.{Stage};
ghost use Rattle.checkpoint.specs.Imaging.{IsLaidBeside, HasPiece, IsBeingLaid};
ghost use Rattle.checkpoint.specs.Imaging.{HasPlainRoot, IsRooted, LeavesRoot, PicksWhole};
ghost use Rattle.checkpoint.specs.Imaging.{bodies_of, left_of};
ghost use Rattle.checkpoint.specs.Imaging.{pieces_left, end_of};
ghost use Rattle.gate_block.specs.Layout.{base_in_use};
ghost use Rattle.gate_block.specs.Layout.{root_at};
ghost use Rattle.checkpoint.specs.Keepers.{KeeperState, IsOneOfTwo, IsPast, OnKept, IsBrought};
ghost use Rattle.checkpoint.specs.Keepers.{AppendAnswers, BringAnswers, TurnAnswers};
ghost use Rattle.checkpoint.specs.Keeping.{TurnKeeps, HoldKeeps, BeginKeeps, ImageKeeps};
ghost use Rattle.checkpoint.specs.ImageAnswers.{HoldAnswers, BeginAnswers, PieceAnswers};
ghost use Rattle.checkpoint.specs.ImageAnswers.{PickAnswers, FlipAnswers};

use crate::inbox::Inbox;
use crate::laying::{Laying, is_too_long, other_area};
use crate::root::pick_area;
use crate::stage::{Ending, Stage};
use crate::turn::Turn;
use calls::Refusal;
use disk_model::Disk;
use gate_block::Area;
use records::{Block, Image};
use std::marker::Model;

/// A disk with its area in use, the mark, a block that was held back, the LSN up to which the image
/// of the area covers the records, and how far it is with an image.
///
/// The area is one of the two of the disk, and the image goes into the other one. Contracts see the
/// keeper as a `KeeperState`.
pub struct Keeper<D: Disk> {
    disk: D,
    area: Area,
    mark: u64,
    held: Option<Block>,
    failed: bool,
    covered: u64,
    stage: Stage,
}

// Written out, so that the crates above call it in place of proving it again.
impl<D: Disk + Drop> Drop for Keeper<D> {
    fn drop(self) {
        let Self {
            disk,
            area: _area,
            mark: _mark,
            held,
            failed: _failed,
            covered: _covered,
            stage,
        } = self;
        drop(disk);
        drop(held);
        drop(stage);
    }
}

impl<D: Disk> Model for Keeper<D> {
    ghost use Rattle.checkpoint.specs.Keepers.{KeeperState, IsKeeper};

    ghost Value = { KeeperState D };

    ghost view = { λ k. record {
      disk = k.disk;
      area = k.area;
      mark = k.mark;
      held = k.held;
      failed = k.failed;
      covered = k.covered;
      stage = k.stage;
    } };

    ghost invariant = { λ k. IsKeeper D.seen
        (record {
          disk = k.disk;
          area = k.area;
          mark = k.mark;
          held = k.held;
          failed = k.failed;
          covered = k.covered;
          stage = k.stage;
        }) };
}

impl<D: Disk> Keeper<D> {
    /// A keeper of an area in use, with nothing held, the mark 0 and no image in progress; the
    /// image of the area covers no block that is brought to it. The area has not failed, and is one
    /// of the two of the disk.
    pub fn new(disk: D, area: Area) -> Self
        requires fine { has_failed area ≡ false }
        requires one { IsOneOfTwo area (length (D.seen disk)) }
        ensures { result ≡ record {
          disk =
              disk;
          area = area;
          mark = 0;
          held = None;
          failed = false;
          covered = 0;
          stage = Stage.Idle;
        } }
    {
        Self {
            disk,
            area,
            mark: 0,
            held: None,
            failed: false,
            covered: 0,
            stage: Stage::Idle,
        }
    }

    /// The place up to which all commits and makings are kept: the mark.
    pub fn mark(&self) -> u64
        ensures { result ≡ self.now.mark }
    {
        self.mark
    }

    /// How many pieces of the image are not yet written: none, where no image is here.
    pub fn left(&self) -> Option<u64>
        ensures { result ≡ pieces_left self.now.stage }
    {
        match &self.stage {
            Stage::Laid(laying) => Some(laying.image.blocks.len() as u64),
            Stage::Idle | Stage::Awaited(_) => None,
        }
    }

    /// The area in use.
    pub fn area(&self) -> &Area
        ensures { result.now ≡ self.now.area }
    {
        &self.area
    }

    /// The LSN up to which the image of the area in use covers the records: 0 before the first
    /// flip.
    pub fn covered(&self) -> u64
        ensures { result ≡ self.now.covered }
    {
        self.covered
    }

    /// The end of the image that is being written: the one that is held, or the image's. None where
    /// none is being written.
    pub fn image_end(&self) -> Option<u64>
        ensures { result ≡ end_of self.now.stage }
    {
        self.stage.end()
    }

    // Appends a block to the area in use.
    fn append(&mut self, block: Block) -> Result<Turn, Refusal>
        requires held { self.old.held ≡ None }
        requires failed { self.old.failed ≡ false }
        ensures answer { AppendAnswers block self.old.mark
            (size_of self.old.area < offset_of self.old.area + length block.bytes.items)
            ((self.new.area ≡ self.old.area) × (self.new.disk ≡ self.old.disk))
            (Rises (D.fault_count self.old.disk) (D.fault_count self.new.disk))
            result self.new.held self.new.mark self.new.failed }
        ensures kept { (bodies : List (List ℕ)) (body : List ℕ) → IsBlockOf body block.bytes.items →
            IsReady D.seen D.may_leave self.old.area self.old.disk bodies →
            OnOk result (IsReady D.seen D.may_leave self.new.area self.new.disk
            (bodies ++ body ∷ [])) }
        ensures any_moment { (bodies : List (List ℕ)) (body : List ℕ) →
            IsBlockOf body block.bytes.items →
            IsReady D.seen D.may_leave self.old.area self.old.disk bodies →
            LeavesOnly D.moment D.left_since self.old.disk self.new.disk
            (LeavesBlocks (D.may_leave self.old.disk) self.old.area bodies body) }
        ensures elsewhere { SameOutside (base_of self.old.area) (size_of self.old.area)
            (D.seen self.old.disk) (D.seen self.new.disk) }
        ensures base { base_of self.new.area ≡ base_of self.old.area }
        ensures size { size_of self.new.area ≡ size_of self.old.area }
        ensures covered { self.new.covered ≡ self.old.covered }
        ensures stage { self.new.stage ≡ self.old.stage }
        ensures honest { D.is_honest self.new.disk → D.is_honest self.old.disk }
    {
        match self.area.append(&mut self.disk, block.bytes.as_slice()) {
            Ok(()) => {
                self.mark = self.mark.max(block.place);
                Ok(Turn::Kept(self.mark))
            }
            Err(refusal) => match refusal {
                Refusal::Full => {
                    self.held = Some(block);
                    Err(Refusal::Full)
                }
                _ => {
                    self.failed = true;
                    Err(refusal)
                }
            },
        }
    }

    // Lets a block go that the image of the area in use covers, holds one that is past the image
    // that is being written, and appends each other one.
    fn bring(&mut self, block: Block) -> Result<Turn, Refusal>
        requires held { self.old.held ≡ None }
        requires failed { self.old.failed ≡ false }
        ensures answer { BringAnswers block self.old.mark
            (block.end ≤ self.old.covered) (IsPast self.old.stage block.end)
            (size_of self.old.area < offset_of self.old.area + length block.bytes.items)
            ((self.new.area ≡ self.old.area) × (self.new.disk ≡ self.old.disk))
            (Rises (D.fault_count self.old.disk) (D.fault_count self.new.disk))
            result self.new.held self.new.mark self.new.failed }
        ensures kept { (bodies : List (List ℕ)) (body : List ℕ) → IsBlockOf body block.bytes.items →
            self.old.covered < block.end →
            IsReady D.seen D.may_leave self.old.area self.old.disk bodies →
            OnKept result (IsReady D.seen D.may_leave self.new.area self.new.disk
            (bodies ++ body ∷ [])) }
        ensures any_moment { (bodies : List (List ℕ)) (body : List ℕ) →
            IsBlockOf body block.bytes.items →
            IsReady D.seen D.may_leave self.old.area self.old.disk bodies →
            LeavesOnly D.moment D.left_since self.old.disk self.new.disk
            (LeavesBlocks (D.may_leave self.old.disk) self.old.area bodies body) }
        ensures elsewhere { SameOutside (base_of self.old.area) (size_of self.old.area)
            (D.seen self.old.disk) (D.seen self.new.disk) }
        ensures base { base_of self.new.area ≡ base_of self.old.area }
        ensures size { size_of self.new.area ≡ size_of self.old.area }
        ensures covered { self.new.covered ≡ self.old.covered }
        ensures stage { self.new.stage ≡ self.old.stage }
        ensures honest { D.is_honest self.new.disk → D.is_honest self.old.disk }
    {
        if block.end <= self.covered {
            self.mark = self.mark.max(block.place);
            return Ok(Turn::Kept(self.mark));
        }
        if self.stage.is_past(block.end) {
            self.held = Some(block);
            return Ok(Turn::Held);
        }
        self.append(block)
    }

    /// Brings the held block, or else the next one that it receives, to the disk. Answers Idle
    /// where none is held and none was there to receive, or that all commits up to a place are
    /// kept, which is the mark then. A block that the image of the area in use covers is let go, as
    /// it is kept by that, and no device is called. While an image is being written, from the hold
    /// of its end on, a block that ends past it is held, which is answered, and each other one goes
    /// into the area in use. It takes no memory and copies no block.
    ///
    /// Of a keeper that has received a book's blocks since it was opened: whatever a stop at any
    /// moment of the call might have left is sound, and stands for a content that some beginning of
    /// what the book's records commit gives; that beginning holds all that the mark told before.
    ///
    /// Refused Failed after a Fault, with everything as before; Full where the block does not fit,
    /// and then it is held;
    /// Fault where the disk failed, and then the keeper has failed.
    pub fn turn<I: Inbox>(&mut self, inbox: &mut I) -> Result<Turn, Refusal>
        // What it answers, and what it leaves.
        ensures answer { TurnAnswers self.old.held (λ bs. I.receives inbox.old bs inbox.new)
            (I.was_empty inbox.old inbox.new) self.old.failed self.old.mark
            (λ b. b.end ≤ self.old.covered) (λ b. IsPast self.old.stage b.end)
            (λ b. size_of self.old.area < offset_of self.old.area + length b.bytes.items)
            ((self.new.area ≡ self.old.area) × (self.new.disk ≡ self.old.disk))
            (Rises (D.fault_count self.old.disk) (D.fault_count self.new.disk))
            result self.new.held self.new.mark self.new.failed }
        // What the disk holds then: the block that is brought is behind the others, once it is
        // kept, unless the image of the area covers it.
        ensures kept { (bodies : List (List ℕ)) (body : List ℕ) (b : Block) →
            IsBrought self.old.held (λ bs. I.receives inbox.old bs inbox.new) b →
            IsBlockOf body b.bytes.items →
            self.old.covered < b.end →
            IsReady D.seen D.may_leave self.old.area self.old.disk bodies →
            OnKept result (IsReady D.seen D.may_leave self.new.area self.new.disk
            (bodies ++ body ∷ [])) }
        // What a stop leaves: at any moment of the turn the blocks from before it, with that one or
        // without.
        ensures any_moment { (bodies : List (List ℕ)) (body : List ℕ) (b : Block) →
            self.old.failed ≡ false →
            IsBrought self.old.held (λ bs. I.receives inbox.old bs inbox.new) b →
            IsBlockOf body b.bytes.items →
            IsReady D.seen D.may_leave self.old.area self.old.disk bodies →
            LeavesOnly D.moment D.left_since self.old.disk self.new.disk
            (LeavesBlocks (D.may_leave self.old.disk) self.old.area bodies body) }
        // So much of a book's records is kept: what was received stays received, and at each moment
        // a stop leaves what the mark told.
        ensures crash { TurnKeeps ⟦<D as Disk>⟧ (λ bs. I.receives inbox.old bs inbox.new) self.old
            self.new }
        // What of the disk stays: all outside the area, and what was laid of an image.
        ensures elsewhere { SameOutside (base_of self.old.area) (size_of self.old.area)
            (D.seen self.old.disk) (D.seen self.new.disk) }
        ensures laid { (w : Laying) (bodies : List (List ℕ)) → self.old.stage ≡ Stage.Laid w →
            IsBeingLaid w (D.seen self.old.disk) bodies →
            IsBeingLaid w (D.seen self.new.disk) bodies }
        // What of the keeper stays.
        ensures base { base_of self.new.area ≡ base_of self.old.area }
        ensures size { size_of self.new.area ≡ size_of self.old.area }
        ensures covered { self.new.covered ≡ self.old.covered }
        ensures stage { self.new.stage ≡ self.old.stage }
        // What of the device stays: its length, and that it reads true only if it did before.
        ensures length { length (D.seen self.new.disk) ≡ length (D.seen self.old.disk) }
        ensures honest { D.is_honest self.new.disk → D.is_honest self.old.disk }
    {
        if self.failed {
            return Err(Refusal::Failed);
        }
        match next_block(&mut self.held, inbox) {
            Some(block) => self.bring(block),
            None => Ok(Turn::Idle),
        }
    }

    /// Holds an end for an image that comes later: how many records it covers, and how many commits
    /// and makings they hold. From here on an image is being written, and a block that ends past it
    /// is held. No device is called.
    ///
    /// An end may be held that no received block and no record of the area in use is past. No later
    /// block may have records from both sides of it.
    ///
    /// Refusals, in this order, each with everything as before: Failed after a Fault; Imaging where
    /// an image is being written.
    pub fn hold(&mut self, end: u64, place: u64) -> Result<(), Refusal>
        ensures answer { HoldAnswers self.old (record { end = end; place = place }) self.new
            result }
        // What was received stays received, and the end is one of those that no block crosses.
        ensures crash { HoldKeeps ⟦<D as Disk>⟧ end result self.old self.new }
    {
        if self.failed {
            return Err(Refusal::Failed);
        }
        if !self.stage.is_idle() {
            return Err(Refusal::Imaging);
        }
        self.stage = Stage::Awaited(Ending { end, place });
        Ok(())
    }

    /// Begins to write the image that is awaited, which has a block, into the area that is not in
    /// use, where so many bytes behind it stay free. No device is called, no memory is taken and no
    /// block copied.
    ///
    /// An image that stands for a beginning of the book's records may be begun where its end is
    /// held: a stop leaves what it left before, and later calls go on from there.
    ///
    /// Refusals, in this order, each but the last with everything as before: Failed after a Fault;
    /// Unfinished where no end is held; Imaging where an image is here already; BadArg where the
    /// image has another end or place than the one held; Full where the blocks, with those bytes
    /// and a closed gate behind the last, need more than an area has, and then no image is being
    /// written.
    pub fn begin_image(&mut self, image: Image, behind: u64) -> Result<(), Refusal>
        requires some { image.blocks.items ≢ [] }
        ensures answer { BeginAnswers self.old image behind self.new result }
        // What was received stays received, and the image is one of those that were begun, where it
        // stands for a beginning of the book's records.
        ensures crash { BeginKeeps ⟦<D as Disk>⟧ image result self.old self.new }
        // All of it is left.
        ensures begun { (w : Laying) → self.new.stage ≡ Stage.Laid w →
            OnOk result (IsBeingLaid w (D.seen self.new.disk) (bodies_of image.blocks.items)) }
    {
        if self.failed {
            return Err(Refusal::Failed);
        }
        self.stage.ask_for(&image)?;
        if is_too_long(&image, self.area.size().saturating_sub(behind)) {
            self.stage = Stage::Idle;
            return Err(Refusal::Full);
        }
        let area = other_area(&self.area, self.disk.size());
        self.stage = Stage::Laid(Laying { area, image });
        Ok(())
    }

    /// Writes the next block of the image, in one write and without a sync, and answers whether
    /// another one is left. It takes no memory.
    ///
    /// A stop at any moment of the call leaves each byte outside the image's area, and so the area
    /// in use, as a stop could have left it before.
    /// So it leaves all that the mark tells, as a stop in a turn does.
    ///
    /// Refused Failed after a Fault, with everything as before; Fault where the disk failed, and
    /// then the keeper has failed, and the block is not written.
    pub fn image_piece(&mut self) -> Result<bool, Refusal>
        requires piece { HasPiece self.old.stage }
        ensures answer { PieceAnswers self.old
            (Rises (D.fault_count self.old.disk) (D.fault_count self.new.disk)) self.new result }
        ensures laid { (w v : Laying) (bodies : List (List ℕ)) → self.old.stage ≡ Stage.Laid w →
            self.new.stage ≡ Stage.Laid v →
            IsBeingLaid w (D.seen self.old.disk) bodies →
            OnOk result (IsBeingLaid v (D.seen self.new.disk) bodies) }
        // What was received stays received, and at each moment a stop leaves what the mark told.
        ensures crash { ImageKeeps ⟦<D as Disk>⟧ self.old self.new }
        // The blocks of the area in use are kept.
        ensures kept { (bodies : List (List ℕ)) →
            IsReady D.seen D.may_leave self.old.area self.old.disk bodies →
            IsReady D.seen D.may_leave self.new.area self.new.disk bodies }
        ensures any_moment { (w : Laying) → self.old.stage ≡ Stage.Laid w →
            LeavesOnly D.moment D.left_since self.old.disk self.new.disk
            (LeavesElsewhere (D.may_leave self.old.disk) w.area) }
        ensures elsewhere { (w : Laying) → self.old.stage ≡ Stage.Laid w →
            SameOutside (base_of w.area) (size_of w.area) (D.seen self.old.disk)
            (D.seen self.new.disk) }
        ensures honest { D.is_honest self.new.disk → D.is_honest self.old.disk }
        ensures faults { D.fault_count self.old.disk ≤ D.fault_count self.new.disk }
    {
        if self.failed {
            return Err(Refusal::Failed);
        }
        match &mut self.stage {
            Stage::Laid(laying) => {
                let written = laying.lay_next(&mut self.disk);
                self.failed = written.is_err();
                written
            }
            Stage::Idle | Stage::Awaited(_) => unreachable!(),
        }
    }

    /// Makes the image the store, and answers the mark then, which is at least the image's place.
    /// What was written is synced, and then the root byte is written, whose lowest bit picks the
    /// area, and synced. The area that was in use is out of use then. It takes no memory.
    ///
    /// A stop at any moment of the call leaves what it could have left before; or what a read gave
    /// before, with any root byte.
    /// In both cases all that the mark told is there, as with a stop in a turn.
    ///
    /// Refused Failed after a Fault, and then Unfinished where no image is here or pieces of it
    /// remain, both with everything as before; Fault where the disk failed, and then the keeper has
    /// failed, and no image is being written.
    pub fn flip(&mut self) -> Result<u64, Refusal>
        ensures answer { FlipAnswers self.old
            (Rises (D.fault_count self.old.disk) (D.fault_count self.new.disk)) self.new result }
        // What was received stays received, and at each moment a stop leaves what the mark told.
        ensures crash { ImageKeeps ⟦<D as Disk>⟧ self.old self.new }
        // The area in use holds the blocks of the image, and the root byte picks it.
        ensures kept { (w : Laying) (bodies : List (List ℕ)) → self.old.stage ≡ Stage.Laid w →
            bodies ≢ [] →
            IsBeingLaid w (D.seen self.old.disk) bodies →
            OnOk result (IsReady D.seen D.may_leave self.new.area self.new.disk bodies) }
        ensures picks { OnOk result (base_in_use (size_of self.new.area) (D.seen self.new.disk) ≡
            base_of self.new.area) }
        ensures plain { OnOk result (HasPlainRoot (base_of self.new.area) (D.seen self.new.disk)) }
        ensures durable { OnOk result (IsAtRest D.seen D.may_leave self.new.disk) }
        // Nothing else changes.
        ensures root { Torn root_at 1 (D.seen self.old.disk) (D.seen self.new.disk) }
        ensures any_moment { LeavesOnly D.moment D.left_since self.old.disk self.new.disk
            (LeavesRoot (D.may_leave self.old.disk) (D.seen self.old.disk)) }
        // So a stop leaves a root byte that picks one of two whole areas: the old one as it was, or
        // the image's.
        ensures any_moment_whole { (w : Laying) (bodies : List (List ℕ)) →
            self.old.stage ≡ Stage.Laid w →
            left_of w ≡ [] → bodies ≢ [] →
            IsBeingLaid w (D.seen self.old.disk) bodies →
            IsRooted D.seen D.may_leave self.old.area self.old.disk →
            LeavesOnly D.moment D.left_since self.old.disk self.new.disk
            (PicksWhole self.old.area (D.seen self.old.disk) w.area bodies) }
        ensures honest { D.is_honest self.new.disk → D.is_honest self.old.disk }
        ensures faults { D.fault_count self.old.disk ≤ D.fault_count self.new.disk }
    {
        if self.failed {
            return Err(Refusal::Failed);
        }
        match self.stage.take_written() {
            Some(laying) => self.pick(laying),
            None => Err(Refusal::Unfinished),
        }
    }

    // Makes the area of an image that is all written the one in use.
    fn pick(&mut self, laying: Laying) -> Result<u64, Refusal>
        requires fine { self.old.failed ≡ false }
        requires none { self.old.stage ≡ Stage.Idle }
        requires beside { IsLaidBeside self.old.area false laying }
        ensures answer { PickAnswers self.old laying
            (Rises (D.fault_count self.old.disk) (D.fault_count self.new.disk)) self.new result }
        ensures picks { OnOk result (base_in_use (size_of self.new.area) (D.seen self.new.disk) ≡
            base_of self.new.area) }
        ensures plain { OnOk result (HasPlainRoot (base_of self.new.area) (D.seen self.new.disk)) }
        ensures durable { OnOk result (IsAtRest D.seen D.may_leave self.new.disk) }
        ensures root { Torn root_at 1 (D.seen self.old.disk) (D.seen self.new.disk) }
        ensures any_moment { LeavesOnly D.moment D.left_since self.old.disk self.new.disk
            (LeavesRoot (D.may_leave self.old.disk) (D.seen self.old.disk)) }
        ensures honest { D.is_honest self.new.disk → D.is_honest self.old.disk }
        ensures faults { D.fault_count self.old.disk ≤ D.fault_count self.new.disk }
    {
        if pick_area(&mut self.disk, laying.area.base()).is_err() {
            self.failed = true;
            return Err(Refusal::Fault);
        }
        self.area = laying.area;
        self.covered = laying.image.end;
        self.mark = self.mark.max(laying.image.place);
        Ok(self.mark)
    }

    /// The disk, at any time. No device is called.
    pub fn into_disk(self) -> D
        ensures { result ≡ self.disk }
    {
        let Self {
            disk,
            area: _area,
            mark: _mark,
            held,
            failed: _failed,
            covered: _covered,
            stage,
        } = self;
        drop(held);
        drop(stage);
        disk
    }
}

// The held block, or else the next one.
fn next_block<I: Inbox>(held: &mut Option<Block>, inbox: &mut I) -> Option<Block>
    ensures some { IfSome result (λ b. IsBrought held.old
        (λ bs. I.receives inbox.old bs inbox.new) b) }
    ensures none { IfNone result (held.old ≡ None) }
    ensures received { IfNone result (I.receives inbox.old [] inbox.new) }
    ensures empty { IfNone result (I.was_empty inbox.old inbox.new) }
    ensures held { held.new ≡ None }
{
    match held.take() {
        Some(block) => Some(block),
        None => inbox.take(),
    }
}
