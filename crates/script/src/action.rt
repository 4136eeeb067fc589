// What a line asks for.
use calls::{Call, Kind, Name};

/// What a client asks of a collection.
#[derive(Drop)]
pub enum Operation {
    /// The call.
    Call(Call),
    /// What a map holds at the key is removed, or the element of a set: of which of the two, the
    /// name decides.
    Remove(u64),
}

/// What a client asks for.
#[derive(Drop)]
pub enum Request {
    /// A collection of the kind and the name is made.
    Make(Kind, Name),
    /// A transaction begins.
    Begin,
    /// An operation on the collection of the name.
    Call(Name, Operation),
    /// The call, a bump or a fill, on the collection of the name is deferred to the commit.
    Later(Name, Call),
    /// The transaction is committed.
    Commit,
    /// The transaction is taken back.
    Abort,
    /// Whether what the client last committed or made is kept.
    Kept,
}

/// What a line asks for.
#[derive(Drop)]
pub enum Action {
    /// A client's request; clients are numbered from 1 to 64.
    Client(u8, Request),
    /// The committer takes a turn.
    Turn,
    /// An image of the store is written, and becomes the store.
    Checkpoint,
}
