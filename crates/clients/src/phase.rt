// How far a client's transaction is.

/// How far a client's transaction is.
#[derive(Clone, Copy)]
pub enum Phase {
    /// It has none.
    Closed,
    /// A number was drawn for it, which the book does not know yet.
    Drawn(u64),
    /// The book has its number live.
    Entered(u64),
}
