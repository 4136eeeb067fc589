// What a shelf's lock and the journal's lock both know of a shelf.
ghost use Rattle.std.specs.Prelude.{◌≡◌};
ghost use Rattle.group_commit.specs.Twins.{touched};

use group_commit::{OneTouch, Twin, TwinFar, TwinNear};
use std::marker::Brand;
use txn::BookStep;

/// A step that touched a shelf, or the opening of the store, with what it left there: contents and
/// needs. No value of it is made.
pub struct Touch<S> {
    pub step: Option<BookStep>,
    pub left: Option<S>,
}

impl<S> OneTouch<Touch<S>> for Brand {
    ghost use Rattle.std.specs.Prelude.{None};

    ghost touch = { record { step = None; left = None } };
}

// Both ends know the touch that W names. Its parts are there for who picks W.
pub(crate) fn note_touch<W: OneTouch<Touch<S>>, S, P>(
    twin: &Twin<Touch<S>>,
    near: &mut TwinNear<Touch<S>>,
    far: &mut TwinFar<Touch<S>>,
    left: &S,
    parts: &P,
)
    requires near { near.old.table ≡ twin.now }
    requires far { far.old.table ≡ twin.now }
    ensures near { near.new ≡ touched near.old W.touch }
    ensures far { far.new ≡ touched far.old W.touch }
{
    let _ = left;
    let _ = parts;
    twin.touch::<W>(near, far);
}
