// How often the calls of a file failed, and why.
ghost use Rattle.std.specs.Prelude.{◌≡◌, ◌≤◌, ◌↔◌, IsTrue, IsOk, IsErr, IfErr, IsNone};
ghost use Rattle.std.specs.Prelude.{None, Some};
ghost use Rattle.disk_model.specs.Disk.{Rises};

use std::io;

/// How often the calls of a file failed, and why the last of these did.
#[derive(Drop)]
pub(crate) struct Faults {
    count: u64,
    last: Option<io::Error>,
    ghost told: { last ≡ None ↔ count ≡ 0 },
}

impl Faults {
    // No call has failed.
    pub(crate) fn new() -> Faults
        ensures { result.count ≡ 0 }
    {
        Faults {
            count: 0,
            last: None,
        }
    }

    // How often a call failed, up to the greatest number that the count holds.
    pub(crate) fn count(&self) -> u64
        ensures { result ≡ self.now.count }
    {
        self.count
    }

    // Why the last call that failed did.
    pub(crate) fn last(&self) -> Option<&io::Error>
        ensures { IsNone result ↔ (self.now.count ≡ 0) }
    {
        self.last.as_ref()
    }

    // Whether a call was done. Where it was not, that is counted, and why is kept.
    pub(crate) fn is_done(&mut self, done: io::Result<()>) -> bool
        ensures done { IsTrue result ↔ IsOk done }
        ensures same { IsOk done → self.new ≡ self.old }
        ensures later { self.old.count ≤ self.new.count }
        ensures risen { IsErr done → Rises self.old.count self.new.count }
        ensures last { IfErr done (λ error. self.new.last ≡ Some error) }
    {
        match done {
            Ok(()) => true,
            Err(error) => {
                self.count = self.count.saturating_add(1);
                self.last = Some(error);
                false
            }
        }
    }
}
