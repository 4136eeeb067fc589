// What a turn did.

/// What a turn did.
#[derive(Clone, Copy, Debug, PartialEq, Eq)]
pub enum Turn {
    /// Nothing was there to do.
    Idle,
    /// All commits up to this place are kept: it is the mark.
    Kept(u64),
    /// The block is held until the image in progress is the store: it is past that image.
    Held,
}
