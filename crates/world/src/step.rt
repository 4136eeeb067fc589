// What the core does, one step at a time, and what each step is answered.
use calls::{Call, Kind, Name, Refusal, Reply, When};
use checkpoint::Turn;

/// A step of the core. Numbers are those of transactions; a collection goes by its number.
#[derive(Drop)]
pub enum Step {
    /// Draws the next number.
    Draw,
    /// Makes an empty collection: a committed transaction of its own.
    Make(Name, Kind),
    /// Makes a number live.
    Enter(u64),
    /// What a live transaction asks of a collection, at once or deferred to its commit.
    Ask(u64, u8, Call, When),
    /// Commits a live transaction: what it deferred runs.
    Commit(u64),
    /// Undoes the newest call of a live transaction.
    Back(u64),
    /// Ends a live transaction whose calls are all undone.
    Ended(u64),
    /// Hands a block of pending records over.
    Cut,
    /// Brings a block to the disk.
    Turn,
    /// Copies the next collection of the book for an image, if one is left, and repeats on the
    /// copies what was run behind them.
    Gather,
    /// Freezes the book, all collections of which are copied, and holds the end of its image.
    Freeze,
    /// Packs the image of what was frozen, and begins to write it into the area that is not in use.
    Pack,
    /// Writes a block of the image in progress.
    Piece,
    /// Makes the image in progress the store.
    Flip,
    /// Looks at the mark.
    Look,
}

/// What a step is answered.
#[derive(Drop, Debug)]
pub enum Answer {
    Drawn(u64),
    /// The count of commits and makes since the store was opened, this one included.
    Placed(u64),
    Entered,
    /// The reply; Done to a call that will run at the commit.
    Replied(Reply),
    /// Whether a call was undone.
    Backed(bool),
    Ended,
    /// Whether a block was handed over.
    Cut(bool),
    Turned(Turn),
    /// Whether a collection is not copied yet.
    Gathered(bool),
    /// The end of an image is held.
    Frozen,
    /// An image is in progress.
    Packed,
    /// Whether a block of the image is left.
    Laid(bool),
    /// The image is the store, and so many commits are kept.
    Flipped(u64),
    /// The mark: so many commits are kept.
    Marked(u64),
    Refused(Refusal),
}
