// What clients have seen that have left, without the store.
ghost use Rattle.std.specs.Prelude.{◌≡◌};
ghost use Rattle.clients.specs.Known.{HaveSeen};

use desks::Naming;
use group_commit::{Crowd, Watcher};
use std::marker::{Model, PhantomData};

/// What a client had seen when it left, or several, together, without the store. It may go to
/// another thread, and `Store::close` takes it. Contracts see it.
#[derive(Drop)]
pub struct Seen<J: Naming> {
    pub line: Crowd,
    pub watcher: Watcher,
    of: PhantomData<J>,
}

impl<J: Naming> Model for Seen<J> {
    ghost use Rattle.std.specs.Prelude.{◌≡◌};
    ghost use Rattle.clients.specs.Known.{SeenState, HaveSeen};

    ghost Value = { SeenState };

    ghost view = { λ s. record { clients = s.line.clients; counts = s.watcher.counts } };

    ghost invariant = { λ s. (s.line.table ≡ J.line) × (s.watcher.table ≡ J.mark) ×
        HaveSeen J.origin s.line.clients };
}

impl<J: Naming> Seen<J> {
    pub fn new(line: Crowd, watcher: Watcher) -> Self
        requires line { line.table ≡ J.line }
        requires watcher { watcher.table ≡ J.mark }
        requires legal { HaveSeen J.origin line.clients }
        ensures { result ≡ record { clients = line.clients; counts = watcher.counts } }
    {
        Self {
            line,
            watcher,
            of: PhantomData,
        }
    }
}
