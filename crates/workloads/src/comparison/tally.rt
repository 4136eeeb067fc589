// How often two forms of a structure were asked the same, and what they answered.
use std::fmt;

/// What came of a comparison.
#[derive(Clone, Copy)]
pub(crate) struct Tally {
    calls: u64,
    refused: u64,
    differences: u64,
}

impl Tally {
    /// Nothing was asked yet.
    pub(crate) fn new() -> Self {
        Self {
            calls: 0,
            refused: 0,
            differences: 0,
        }
    }

    /// Notes a call, and whether both answered the same.
    pub(crate) fn note(&mut self, agrees: bool) {
        self.calls = self.calls.saturating_add(1);
        if !agrees {
            self.differences = self.differences.saturating_add(1);
        }
    }

    /// Notes that a call found nothing, or was refused.
    pub(crate) fn note_refused(&mut self) {
        self.refused = self.refused.saturating_add(1);
    }
}

impl fmt::Display for Tally {
    fn fmt<W: fmt::Write>(&self, f: &mut fmt::Formatter<W>) -> fmt::Result {
        write!(
            f,
            "{} calls, {} refused or empty, {} differences",
            self.calls, self.refused, self.differences
        )
    }
}
