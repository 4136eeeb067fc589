// A record of a file's calls that only clauses read.
ghost use Rattle.std.specs.Prelude.{◌≡◌, List, [], ◌∷◌};
ghost use Rattle.std.specs.Borrow.{ftrue};
ghost use Rattle.disk_model.specs.Events.{Event};
ghost use Rattle.disk_model.specs.Log.{event_of};

use crate::call::DeviceCall;
use std::marker::{Model, PhantomData};

/// The calls so far, the newest first. It has no bytes, and noting a call does nothing at run time.
#[derive(Drop)]
pub struct Log {
    marker: PhantomData<u8>,
    pub ghost events: { List Event },
}

impl Model for Log {
    ghost also_owns = { λ _. ftrue };
}

impl Log {
    pub(crate) fn new() -> Log
        ensures { result.events ≡ [] }
    {
        Log {
            marker: PhantomData,
        }
    }

    // Notes one call, with the bytes that it read or wrote.
    pub(crate) fn note(&mut self, _call: &[DeviceCall], _bytes: &[u8])
        ensures { self.new.events ≡ event_of _call.now _bytes.now ∷ self.old.events }
    {}
}
