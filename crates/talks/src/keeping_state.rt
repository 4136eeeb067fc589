// How keeping goes.
use calls::Refusal;
use std::sync::OnceLock;
use std::sync::atomic::{AtomicU64, Ordering};
use std::{fmt, io};

/// How keeping goes: what ended it, and since when a write or sync of the disk goes on. As a text it
/// is what is told behind Lost: a refusal, and behind a Fault the system's words for what failed, as
/// in `Fault, No space left on device (os error 28)`.
#[derive(Drop)]
pub struct KeepingState<'a> {
    ended_by: OnceLock<Refusal>,
    fault: &'a OnceLock<io::Error>,
    writing_since: &'a AtomicU64,
}

impl<'a> KeepingState<'a> {
    /// Nothing has ended keeping yet. Where a call of the disk fails, `fault` gets the system's
    /// words before that is told. While one goes on `writing_since` is the second since 1970 at
    /// which it began, and else 0.
    pub fn new(fault: &'a OnceLock<io::Error>, writing_since: &'a AtomicU64) -> Self {
        Self {
            ended_by: OnceLock::new(),
            fault,
            writing_since,
        }
    }

    /// Notes what ended keeping, unless something is noted.
    pub fn note(&self, refusal: Refusal) {
        let _noted = self.ended_by.try_set(refusal);
    }

    /// Whether something is noted.
    pub fn is_noted(&self) -> bool {
        self.ended_by.get().is_some()
    }

    /// The second since 1970 at which the write or sync of the disk began that goes on, if one does.
    pub fn writing_since(&self) -> Option<u64> {
        match self.writing_since.load(Ordering::SeqCst) {
            0 => None,
            since => Some(since),
        }
    }
}

/// What is noted. That is done before who waits is told, but for a Fault of the disk: so it is one
/// where nothing is noted.
impl fmt::Display for KeepingState<'_> {
    fn fmt<W: fmt::Write>(&self, f: &mut fmt::Formatter<W>) -> fmt::Result {
        let ended_by = self.ended_by.get().copied().unwrap_or(Refusal::Fault);
        match (ended_by, self.fault.get()) {
            (Refusal::Fault, Some(error)) => write!(f, "{ended_by}, {error}"),
            _ => write!(f, "{ended_by}"),
        }
    }
}
