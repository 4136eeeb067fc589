// What a collection answers.
ghost use Rattle.std.specs.Prelude.{◌≡◌, IfOk};

use crate::Bytes;
use std::alloc::AllocError;

/// What a collection answers.
#[derive(Drop, Debug)]
pub enum Reply {
    /// The change was made.
    Done,
    /// The element was not there, or was there already; or there was less than the amount.
    No,
    /// The element is there, or was put there, or was taken out; or the amount was taken out.
    Yes,
    /// Nothing was there.
    Nothing,
    /// The value that was at the key.
    Value(Bytes),
    /// A key and its value.
    Entry(u64, Bytes),
    /// A priority and a tag.
    Item(u64, u64),
    /// The counter's number, or the amount of the stock or of the quota.
    Total(i128),
    /// An identifier.
    Id(u64),
    /// The identifier is given back at the commit.
    Queued,
    /// The identifier is not taken.
    Absent,
}

impl Reply {
    /// The same reply once more. Refused only for want of memory; only a value takes any.
    pub fn copy(&self) -> Result<Reply, AllocError>
        ensures { IfOk result (λ reply. reply ≡ self.now) }
    {
        match self {
            Reply::Done => Ok(Reply::Done),
            Reply::No => Ok(Reply::No),
            Reply::Yes => Ok(Reply::Yes),
            Reply::Nothing => Ok(Reply::Nothing),
            Reply::Value(value) => Ok(Reply::Value(value.clone()?)),
            Reply::Entry(key, value) => Ok(Reply::Entry(*key, value.clone()?)),
            Reply::Item(priority, tag) => Ok(Reply::Item(*priority, *tag)),
            Reply::Total(total) => Ok(Reply::Total(*total)),
            Reply::Id(x) => Ok(Reply::Id(*x)),
            Reply::Queued => Ok(Reply::Queued),
            Reply::Absent => Ok(Reply::Absent),
        }
    }
}
