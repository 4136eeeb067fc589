// How much of an area a block may take.
ghost use Rattle.std.specs.Prelude.{◌↔◌, ◌<◌, ◌≤◌, ◌^◌, IsTrue};
ghost use Rattle.engine.specs.Rooms.{IsRoomOf, Fits, IsPastImage, IsWhyNone};

use calls::Refusal;
use checkpoint::Keeper;
use disk_model::Disk;
use gate_block::BLOCK_HEAD;
use replay::blocks_len;

/// Where the next block of a store would go.
#[derive(Clone, Copy)]
pub struct Room {
    /// How many bytes the area has behind its blocks.
    pub free: u64,
    /// Up to which record the image of the area reaches: a block up to there takes no room.
    pub covered: u64,
    /// Up to which record the image reaches that is being written, if one is.
    pub image_end: Option<u64>,
}

impl Room {
    /// The room behind the blocks of the area in use.
    pub fn of<D: Disk>(keeper: &Keeper<D>) -> Self
        ensures { IsRoomOf keeper.now result }
    {
        Self {
            free: keeper.area().room(),
            covered: keeper.covered(),
            image_end: keeper.image_end(),
        }
    }

    /// Whether a block with a body of so many bytes fits, and behind it an undoing of so many
    /// records, in blocks of 64, with a closed gate behind the last.
    pub fn fits(&self, body: u64, undoing: u64) -> bool
        requires { body < 2 ^ 32 }
        ensures { IsTrue result ↔ Fits self.now body undoing }
    {
        blocks_len(undoing) < self.free.saturating_sub(BLOCK_HEAD as u64 + body)
    }

    /// Whether the image of the area has all records of a block up to this one.
    pub fn covers(&self, end: u64) -> bool
        ensures { IsTrue result ↔ (end ≤ self.now.covered) }
    {
        end <= self.covered
    }

    /// Whether a block up to this record is past the image that is being written.
    pub fn is_past_image(&self, end: u64) -> bool
        ensures { IsTrue result ↔ IsPastImage self.now.image_end end }
    {
        match self.image_end {
            Some(image_end) => end > image_end,
            None => false,
        }
    }

    /// Why a block is not handed over that may not go: Imaging where an image is being written, as
    /// that may cover it, and else Full.
    pub fn refusal(&self) -> Refusal
        ensures { IsWhyNone self.now result }
    {
        match self.image_end {
            Some(_) => Refusal::Imaging,
            None => Refusal::Full,
        }
    }
}
