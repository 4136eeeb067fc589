// How far the keeper is with an image.
ghost use Rattle.std.specs.Prelude.{◌≡◌, ◌↔◌, [], IsTrue, IfSome, IfNone};
ghost use Rattle.checkpoint.specs.Imaging.{EndsThere, IsWritten, left_of, end_of};
ghost use Rattle.checkpoint.specs.Keepers.{IsPast};
ghost use Rattle.checkpoint.specs.ImageAnswers.{AskAnswers};

use crate::laying::Laying;
use calls::Refusal;
use records::Image;
use std::mem;

/// Where an image ends: how many records it covers, and how many commits and makings they hold.
#[derive(Clone, Copy)]
pub struct Ending {
    pub end: u64,
    pub place: u64,
}

impl Ending {
    // Whether the image ends there.
    fn is_of(&self, image: &Image) -> bool
        ensures { IsTrue result ↔ EndsThere self.now image.now }
    {
        image.end == self.end && image.place == self.place
    }
}

/// How far the keeper is with an image.
#[derive(Drop)]
pub enum Stage {
    /// No image is being written.
    Idle,
    /// An image is being written that ends there. It is not here yet.
    Awaited(Ending),
    /// The image is here, and goes into the area that is not in use.
    Laid(Laying),
}

impl Stage {
    /// Whether no image is being written.
    pub fn is_idle(&self) -> bool
        ensures { IsTrue result ↔ (self.now ≡ Stage.Idle) }
    {
        match self {
            Stage::Idle => true,
            Stage::Awaited(_) | Stage::Laid(_) => false,
        }
    }

    /// The end of the image that is being written. None where none is.
    pub fn end(&self) -> Option<u64>
        ensures { result ≡ end_of self.now }
    {
        match self {
            Stage::Idle => None,
            Stage::Awaited(ending) => Some(ending.end),
            Stage::Laid(laying) => Some(laying.image.end),
        }
    }

    /// Whether a block that ends there is past the image that is being written.
    pub fn is_past(&self, end: u64) -> bool
        ensures { IsTrue result ↔ IsPast self.now end }
    {
        match self {
            Stage::Idle => false,
            Stage::Awaited(ending) => end > ending.end,
            Stage::Laid(laying) => end > laying.image.end,
        }
    }

    /// Whether the image is the one that is awaited. Refused Unfinished where none is, Imaging
    /// where one is here already, and BadArg where it ends elsewhere.
    pub fn ask_for(&self, image: &Image) -> Result<(), Refusal>
        ensures { AskAnswers self.now image.now result }
    {
        match self {
            Stage::Idle => Err(Refusal::Unfinished),
            Stage::Laid(_) => Err(Refusal::Imaging),
            Stage::Awaited(ending) if ending.is_of(image) => Ok(()),
            Stage::Awaited(_) => Err(Refusal::BadArg),
        }
    }

    /// Takes the image out, where none of its pieces is left.
    pub fn take_written(&mut self) -> Option<Laying>
        ensures some { IfSome result (λ w. (self.old ≡ Stage.Laid w) × (left_of w ≡ []) ×
            (self.new ≡ Stage.Idle)) }
        ensures none { IfNone result (IsWritten self.old → ⊥) }
        ensures stays { IfNone result (self.new ≡ self.old) }
    {
        match mem::replace(self, Stage::Idle) {
            Stage::Laid(laying) if !laying.has_more() => Some(laying),
            other => {
                *self = other;
                None
            }
        }
    }
}
