// The records that were written, which only clauses read.
use crate::Record;
use calls::{Call, Reply};
use std::snapshot::Snapshot;

/// The records that were written so far. At run time a value is one byte.
#[derive(Drop)]
pub(crate) enum Noted {
    Start,
    After(Snapshot<Noted>, Snapshot<Record>),
    // the record of a call, by its parts
    Called(Snapshot<Noted>, Snapshot<u64>, Snapshot<u8>, Snapshot<Call>, Snapshot<Reply>),
}
