// What a store holds, in numbers.
use calls::Format;

/// So many collections, so many transactions that have not ended, and so many records in the
/// journal.
#[derive(Clone, Copy)]
pub struct Report {
    pub collections: usize,
    pub unfinished: usize,
    pub records: u64,
}

/// What room a store takes and has, in bytes, and what it counts.
#[derive(Clone, Copy)]
pub struct Survey {
    /// The format of what the area in use holds.
    pub format: Format,
    /// The size of each of its two areas.
    pub area: u64,
    /// Whether the first area is the one in use.
    pub first: bool,
    /// What image and journal take of it, with the closed gate behind them.
    pub used: u64,
    /// What the image takes of it: it ends behind the block that has its end.
    pub image: u64,
    /// What the journal takes of it: all blocks behind the image.
    pub journal: u64,
    /// What an image of the content needs, with the closed gate behind it: what the next checkpoint
    /// writes, and a copy.
    pub checkpoint: u64,
    /// What the records that undo the unfinished transactions need: the store can be opened where
    /// `used` and this are at most `area`.
    pub undoing: u64,
    /// A number above every number that was entered.
    pub next: u64,
    /// The steps that were counted over the store's life, up to `Worn`.
    pub wear: u64,
    pub report: Report,
}
