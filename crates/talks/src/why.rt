// Why a talk ended.
ghost use Rattle.talks.specs.Hearing.{IsBreak};

use std::io;

/// Why a talk ended.
#[derive(Clone, Copy)]
pub enum Why {
    /// The client said so.
    Bye,
    /// Its lines ended.
    Gone,
    /// It was told that keeping has failed.
    Lost,
    /// Its lines could not be read or it could not be told, or a transaction of a whole line could
    /// not be taken back.
    Broken,
    /// Memory was wanting for its lines, or for what it was to be told.
    NoMemory,
}

impl Why {
    // Why a talk ends whose lines or whose hearer failed so.
    pub(crate) fn of(error: &io::Error) -> Self
        ensures { IsBreak result }
    {
        match error.kind() {
            io::ErrorKind::OutOfMemory => Why::NoMemory,
            _ => Why::Broken,
        }
    }
}
