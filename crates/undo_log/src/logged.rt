// What a live transaction asked for.
ghost use Rattle.std.specs.Prelude.{◌≡◌, ◌↔◌, IsTrue};
ghost use Rattle.undo_log.specs.Entries.{IsCall, entry_of, place_of, need_to_take};

use calls::{Call, Need, Reply};

/// A call on a collection, with the reply that it got.
#[derive(Drop)]
pub struct Logged {
    pub at: u8,
    pub call: Call,
    pub reply: Reply,
}

/// A call on a collection that is deferred to the commit.
#[derive(Drop)]
pub struct Later {
    pub at: u8,
    pub call: Call,
}

/// What a transaction asked for: a call, or one that it deferred to its commit.
#[derive(Drop)]
pub enum Entry {
    Asked(Logged),
    Deferred(Later),
}

impl Entry {
    /// The collection that it was asked of.
    pub fn at(&self) -> u8
        ensures { result ≡ place_of (entry_of self.now) }
    {
        match self {
            Entry::Asked(logged) => logged.at,
            Entry::Deferred(later) => later.at,
        }
    }

    /// The need that it has: a call by its reply, one that is deferred by the reply Done. It takes
    /// no memory.
    pub fn need(&self) -> Need
        ensures { result ≡ need_to_take (entry_of self.now) }
    {
        match self {
            Entry::Asked(logged) => logged.call.need(&logged.reply),
            Entry::Deferred(later) => later.call.need(&Reply::Done),
        }
    }
}

/// What a transaction asked for, with its stamp: stamps rise in the order asked, over all
/// transactions.
#[derive(Drop)]
pub struct Stamped {
    pub(crate) stamp: u64,
    pub entry: Entry,
}

impl Stamped {
    // Whether it is a call, and not one that was deferred.
    pub(crate) fn is_call(&self) -> bool
        ensures { IsTrue result ↔ IsCall self.now }
    {
        matches!(self.entry, Entry::Asked(_))
    }
}

/// What a transaction asked for, with the transaction's number.
#[derive(Clone, Copy)]
pub struct Owned<'a> {
    pub owner: u64,
    pub(crate) stamp: u64,
    pub entry: &'a Entry,
}
