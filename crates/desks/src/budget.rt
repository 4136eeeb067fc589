// How much the next image of a store may take.
use crate::footprint::{Change, Footprint};
use replay::blocks_len;

// What an image has beside items and entries: its marks, its end and the gate, with what a few
// steps leave that are not counted.
const RESERVE: u64 = 2_048;

// The heads of an image's blocks take one byte in so many.
const HEADS: u64 = 8_192;

// One byte of an area in so many is kept from calls that add something, so that those that take
// something away go on.
const SPARE: u64 = 8;

// Where the last image alone leaves no room, a checkpoint is taken once so much may be freed: one
// byte of an area in so many.
const WORTH: u64 = 1_024;

// A checkpoint is wanted early where three quarters of what the last one left are added, and no
// less than one byte of an area in so many.
const LEAST: u64 = 16;

/// Whether a call may be made, for what it adds to the next image.
#[derive(Clone, Copy)]
pub enum Admission {
    /// It fits.
    Fits,
    /// A checkpoint may make room, whose freeze comes behind so many.
    AfterCheckpoint(u64),
    /// It does not fit.
    Refused,
}

/// How full a store is.
#[derive(Clone, Copy)]
pub struct Fill {
    /// How many bytes of an area the next image takes at most, with the undoing of what is live.
    pub checkpoint: u64,
    /// The same of the last image, in hundredths of what calls may fill that add something. From
    /// 100 on such calls are refused Full. Until the first checkpoint it is what the area in use
    /// has.
    pub full: u64,
}

/// How full a store with an image of so many bytes is, in areas of so many: in hundredths of what
/// calls may fill that add something.
pub fn full_of(image: u64, area: u64) -> u64 {
    image.saturating_mul(100) / limit(area, true).max(1)
}

// How many bytes of an area may be filled, by calls that add something, and by others.
fn limit(area: u64, grows: bool) -> u64 {
    let spare = if grows { area / SPARE } else { 0 };
    area.saturating_sub(area / HEADS)
        .saturating_sub(RESERVE)
        .saturating_sub(spare)
}

/// How much the next image of a store takes at most, with the undoing of what is live then: what
/// the last image took, and what each step since its freeze may add. So a checkpoint makes room for
/// as much as the store holds, as long as that fits into an area.
#[derive(Clone, Copy)]
pub(crate) struct Budget {
    area: u64,
    // what the last image took, with the undoing of what was live at its freeze, which it took so
    // much of
    base: u64,
    live: u64,
    // what was added since that freeze, and what items were taken out
    since: u64,
    freed: u64,
    // what of that came before the newest freeze, and what the undoing took at it
    frozen: Change,
    undoing: u64,
    // how many freezes there were, and which of them the last image is of
    freezes: u64,
    known: u64,
}

impl Budget {
    /// Of areas of so many bytes, one of which is filled so far.
    pub(crate) fn new(area: u64, used: u64) -> Self {
        Self {
            area,
            base: used,
            live: 0,
            since: 0,
            freed: used,
            frozen: Change { added: 0, freed: 0 },
            undoing: 0,
            freezes: 0,
            known: 0,
        }
    }

    /// Whether a call of this footprint may be made. `waited` is how many freezes there were when
    /// it last waited for a checkpoint, if it did. Refused where the checkpoint that it waited for
    /// made no room, and where the image alone leaves none, and too little was freed since for
    /// another one.
    pub(crate) fn admit(&self, footprint: Footprint, waited: Option<u64>) -> Admission {
        let limit = limit(self.area, footprint.grows);
        let alone = self.base.saturating_add(footprint.most);
        if footprint.most == 0 || alone.saturating_add(self.since) <= limit {
            return Admission::Fits;
        }
        let is_over = alone > limit;
        let was_in_vain = waited.is_some_and(|freezes| self.known <= freezes || is_over);
        if was_in_vain || (is_over && !self.is_worth_one(alone - limit)) {
            return Admission::Refused;
        }
        Admission::AfterCheckpoint(self.freezes)
    }

    // Whether a checkpoint may free so much more than there is: as items were taken out since the
    // last one, or as what was live then may have ended since. So it is not taken again and again
    // for calls that do not fit.
    fn is_worth_one(&self, over: u64) -> bool {
        let worth = self.area / WORTH;
        let least = over.max(worth);
        self.freed >= least || (self.live >= worth && self.since >= least)
    }

    /// A step changed so much.
    pub(crate) fn note(&mut self, change: Change) {
        self.since = self.since.saturating_add(change.added);
        self.freed = self.freed.saturating_add(change.freed);
    }

    /// The book was frozen, where the undoing of what is live takes so many records.
    pub(crate) fn freeze(&mut self, undoing: u64) {
        self.frozen = Change {
            added: self.since,
            freed: self.freed,
        };
        self.undoing = blocks_len(undoing);
        self.freezes = self.freezes.saturating_add(1);
    }

    /// The image of the newest freeze is the store, and takes so many bytes.
    pub(crate) fn flip(&mut self, used: u64) {
        self.base = used.saturating_add(self.undoing);
        self.live = self.undoing;
        self.since = self.since.saturating_sub(self.frozen.added);
        self.freed = self.freed.saturating_sub(self.frozen.freed);
        self.frozen = Change { added: 0, freed: 0 };
        self.known = self.freezes;
    }

    /// Whether so much was added that a checkpoint is wanted, before calls have to wait for one.
    pub(crate) fn is_filling(&self) -> bool {
        let left = limit(self.area, true).saturating_sub(self.base);
        self.since >= (left / 4 * 3).max(self.area / LEAST)
    }

    /// How full the store is.
    pub(crate) fn fill(&self) -> Fill {
        Fill {
            checkpoint: self.base.saturating_add(self.since),
            full: full_of(self.base, self.area),
        }
    }
}
