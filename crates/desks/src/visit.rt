// Who came to wait for a lock.
use std::marker::PhantomData;
use std::sync::atomic::{AtomicU64, Ordering};

/// One who came to wait for a lock, and is counted. It is no `Drop`, and only `end` takes it apart:
/// so a function that counts somebody as come counts somebody as served too, on each of its ways.
/// It has no bytes.
pub(crate) struct Visit {
    of: PhantomData<()>,
}

impl Visit {
    /// Counts one more that came. It takes no memory.
    pub(crate) fn begin(came: &AtomicU64) -> Self {
        came.fetch_add(1, Ordering::SeqCst);
        Self { of: PhantomData }
    }

    /// Counts one more that was served. It takes no memory.
    pub(crate) fn end(self, served: &AtomicU64) {
        let Self { of: _of } = self;
        served.fetch_add(1, Ordering::SeqCst);
    }
}
