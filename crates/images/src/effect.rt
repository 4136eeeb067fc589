// A call that was run.
use calls::{Call, Reply};

/// A call that was run on a collection, with its reply: a call of a transaction, one that was put
/// off to a commit or left to it, or one that took another back. `lsn` is how many records there
/// are up to the one that tells of it.
#[derive(Drop)]
pub struct Effect {
    pub lsn: u64,
    pub collection: u8,
    pub call: Call,
    pub reply: Reply,
}
