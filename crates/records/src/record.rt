// What a record says.
use calls::{Call, Format, Item, Kind, Name, Reply};

/// A call of a live transaction.
#[derive(Drop, Debug)]
pub struct CallRecord {
    /// The transaction.
    pub number: u64,
    /// The collection, from 0 in the order of making.
    pub collection: u8,
    pub call: Call,
    /// What the call was answered.
    pub reply: Reply,
    /// The call that takes this one back, where it changed anything.
    pub inverse: Option<Call>,
}

/// A call that a transaction deferred to its commit.
#[derive(Drop, Debug)]
pub struct LaterRecord {
    /// The transaction.
    pub number: u64,
    /// The collection, from 0 in the order of making.
    pub collection: u8,
    /// A Bump or a Fill.
    pub call: Call,
}

/// One record of a journal or of an image.
#[derive(Drop, Debug)]
pub enum Record {
    /// A collection is made.
    Make(Kind, Name),
    /// A transaction called, was answered and went on.
    Call(CallRecord),
    /// A transaction defer a call to its commit.
    Later(LaterRecord),
    /// The transaction is committed.
    Commit(u64),
    /// The newest call of the transaction that is not undone is undone.
    Back(u64),
    /// The transaction, with no call left, is over.
    Ended(u64),
    /// In an image: the next collection.
    Name(Kind, Name),
    /// In an image: a part of the content of the collection last named.
    Item(Item),
    /// In an image: a call of a live transaction that is not undone.
    LiveCall(CallRecord),
    /// In an image: a call that a live transaction deferred.
    LiveLater(LaterRecord),
    /// In an image, first: the format of the area, the next transaction's number, and the wear.
    Marks {
        format: Format,
        next: u64,
        wear: u64,
    },
    /// The image is complete.
    ImageEnd,
    /// The transaction begins.
    Begin(u64),
}
