// An image on its way into the area that is not in use.
ghost use Rattle.std.specs.Prelude.{◌≡◌, ◌↔◌, ◌<◌, ◌≤◌, ◌+◌, ◌-◌, ℕ, List, length, false};
ghost use Rattle.std.specs.Prelude.{IsTrue, OnOk, OnErr, IfOk, IfErr};
ghost use Rattle.disk_model.specs.Disk.{LeavesOnly, Rises};
ghost use Rattle.gate_block.specs.Row.{row, SameOutside};
ghost use Rattle.gate_block.specs.Area.{base_of, size_of, offset_of, has_failed, LeavesElsewhere};
ghost use Rattle.checkpoint.specs.Imaging.{IsTooLong, IsBeingLaid, bodies_of, left_of};
ghost use Rattle.checkpoint.specs.Keepers.{IsOneOfTwo};
ghost use Rattle.checkpoint.specs.ImageAnswers.{IsStarted, IsOneFewer, IsAsMany};

use calls::Refusal;
use disk_model::Disk;
use gate_block::Area;
use gate_block::layout::AREAS_AT;
use records::Image;

/// The area that an image is laid into, and the image, with those of its blocks that are not yet
/// written.
#[derive(Drop)]
pub struct Laying {
    pub area: Area,
    pub image: Image,
}

impl Laying {
    /// Whether a block is left.
    pub fn has_more(&self) -> bool
        ensures { IsTrue result ↔ (1 ≤ length (left_of self.now)) }
    {
        self.image.blocks.len() > 0
    }

    /// Lays the next block, and answers whether another one is left. Refused Fault, with as many
    /// left as before.
    pub fn lay_next<D: Disk>(&mut self, disk: &mut D) -> Result<bool, Refusal>
        requires piece { 1 ≤ length (left_of self.old) }
        requires fine { has_failed self.old.area ≡ false }
        requires room { offset_of self.old.area + length (row (bodies_of (left_of self.old))) <
            size_of self.old.area }
        requires disk { base_of self.old.area + size_of self.old.area ≤ length (D.seen disk.old) }
        ensures written { IfOk result (λ more. IsOneFewer self.old self.new more) }
        ensures fault { IfErr result (λ e. (e ≡ Refusal.Fault) ×
            Rises (D.fault_count disk.old) (D.fault_count disk.new)) }
        ensures stays { OnErr result (IsAsMany self.old self.new) }
        ensures fine { OnOk result (has_failed self.new.area ≡ false) }
        ensures room { offset_of self.new.area + length (row (bodies_of (left_of self.new))) <
            size_of self.new.area }
        ensures laid { (bodies : List (List ℕ)) → IsBeingLaid self.old (D.seen disk.old) bodies →
            OnOk result (IsBeingLaid self.new (D.seen disk.new) bodies) }
        ensures any_moment { LeavesOnly D.moment D.left_since disk.old disk.new
            (LeavesElsewhere (D.may_leave disk.old) self.old.area) }
        ensures elsewhere { SameOutside (base_of self.old.area) (size_of self.old.area)
            (D.seen disk.old) (D.seen disk.new) }
        ensures honest { D.is_honest disk.new → D.is_honest disk.old }
        ensures faults { D.fault_count disk.old ≤ D.fault_count disk.new }
    {
        let image = &mut self.image;
        self.area.lay(disk, image.blocks[0].as_slice())?;
        let _written = image.blocks.pop_front();
        Ok(self.has_more())
    }
}

/// The other one of the two areas of a disk of so many bytes, with nothing laid in it.
pub fn other_area(area: &Area, whole: u64) -> Area
    requires { IsOneOfTwo area.now whole }
    ensures { IsStarted area.now result }
{
    let base = if area.base() == AREAS_AT {
        whole - area.size()
    } else {
        AREAS_AT
    };
    Area::start(base, area.size(), 0)
}

/// Whether the image's blocks, with a closed gate behind the last, need more than so many bytes.
pub fn is_too_long(image: &Image, size: u64) -> bool
    ensures { IsTrue result ↔ IsTooLong size image.now.blocks.items }
{
    room_behind(image, size) == 0
}

/// How many bytes an area of so many has behind the image's blocks, with the next gate: 0 where
/// they need more.
pub fn room_behind(image: &Image, size: u64) -> u64
    ensures { result ≡ size - length (row (bodies_of image.now.blocks.items)) }
{
    let mut room = size;
    for i in 0..image.blocks.len() {
        room = room.saturating_sub(image.blocks[i].len() as u64 - 1);
    }
    room
}
