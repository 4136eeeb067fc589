// The steps of a book with their answers: what every history of it is a list of.
use calls::{Call, Kind, Name, Refusal, Reply, When};

/// The collection that a step was asked for.
pub enum Target {
    /// By its number.
    Number(u8),
    /// By its name, with the number that was found under it, if there was one.
    Named(Name, Option<u8>),
}

/// What a book did, and what it answered. Where a step is of a transaction, the first number is the
/// transaction's.
pub enum Action {
    /// Makes an empty collection: a committed transaction of its own. It answers the count of
    /// commits and makes since the book was opened, this one included.
    Make(Name, Kind, Result<u64, Refusal>),
    /// Makes a number live.
    Enter(u64, Result<(), Refusal>),
    /// A live transaction asks a collection for a call, at once or deferred to its commit.
    Ask(u64, Target, Call, When, Result<Reply, Refusal>),
    /// Commits a live transaction. It answers the count of commits and makes, this one included.
    Commit(u64, Result<u64, Refusal>),
    /// Undoes the newest call of a live transaction. It answers whether there was one.
    Back(u64, Result<bool, Refusal>),
    /// Ends a live transaction whose calls are all undone.
    Ended(u64, Result<(), Refusal>),
    /// Hands so many records over. It answers whether there was one.
    Cut(u64, Result<bool, Refusal>),
    /// Copies the next collection for an image. It answers whether one is not copied yet.
    Gather(Result<bool, Refusal>),
    /// Marks where the image stands that was gathered.
    Freeze(Result<(), Refusal>),
}

/// A step of a book, with the client that asked for it, if one did. Contracts alone speak of it: no
/// book keeps its steps.
pub struct BookStep {
    /// The client's number.
    pub client: Option<u64>,
    /// What was done, and what it was answered.
    pub action: Action,
}
