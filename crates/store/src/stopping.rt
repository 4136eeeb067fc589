// What lies under the lock that committers are made with.
ghost use Rattle.std.specs.Prelude.{◌≡◌};
ghost use Rattle.group_commit.specs.Marks.{new_stopper};

use desks::{Naming, Shared};
use group_commit::Stopper;
use std::marker::{Model, PhantomData};

/// The first stopper of the store's mark, of which each committer has a cut. It sets nothing
/// itself. Nothing but the making of committers takes its lock, so no turn, and no client, comes by
/// a stopper of its own. What lies under a lock is known by its type: contracts see nothing else of
/// it.
#[derive(Drop)]
pub(crate) struct Stopping<J: Naming> {
    stopper: Stopper,
    of: PhantomData<J>,
}

impl<J: Naming> Model for Stopping<J> {
    ghost use Rattle.std.specs.Prelude.{◌≡◌};
    ghost use Rattle.group_commit.specs.Marks.{new_stopper};

    ghost Value = { Unit {0} };

    ghost view = { λ s. tt };

    ghost invariant = { λ s. s.stopper ≡ new_stopper J.mark };
}

impl<J: Naming> Stopping<J> {
    /// The stopper of a store that was just opened.
    pub(crate) fn new(stopper: Stopper) -> Self
        requires { stopper ≡ new_stopper J.mark }
    {
        Self {
            stopper,
            of: PhantomData,
        }
    }

    /// A stopper for a committer. It takes no memory.
    pub(crate) fn stopper(&mut self, shared: &Shared<J>) -> Stopper
        ensures { result ≡ new_stopper J.mark }
    {
        shared.mark.stopper(&mut self.stopper)
    }
}
