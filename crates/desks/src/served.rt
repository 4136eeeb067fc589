// Who was served by a change.
ghost use Rattle.std.specs.Prelude.{◌≡◌, ◌↔◌, IsTrue, Contains, List};

use arrayvec::ArrayVec;

/// What those asked for who were called already, or who go before all that ask for the same.
#[derive(Drop)]
pub(crate) struct Served {
    pub list: ArrayVec<u64, 64>,
}

impl Served {
    /// Nobody was called.
    pub(crate) fn new() -> Served {
        Served {
            list: ArrayVec::new(),
        }
    }

    /// Whether one who asks for this was.
    pub(crate) fn has(&self, alike: u64) -> bool
        ensures { IsTrue result ↔ Contains self.now.list.items alike }
    {
        self.list.as_slice().contains(&alike)
    }

    /// One who asks for this was.
    pub(crate) fn add(&mut self, alike: u64) {
        let _ = self.list.try_push(alike);
    }
}
