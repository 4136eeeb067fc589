// When a call of a transaction is made.

/// When a call of a transaction is made.
#[derive(Clone, Copy, Debug, PartialEq, Eq)]
pub enum When {
    /// At once: its reply is what it comes to.
    Now,
    /// At the commit of its transaction, if that commits: the call is deferred, and its reply is
    /// Done. Until then it shows in no reply, not even to its own transaction.
    AtCommit,
}
