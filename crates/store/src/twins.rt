// The twins of a store that was just opened, with their ends.
ghost use Rattle.std.specs.Prelude.{IsOkUnless};
ghost use Rattle.calls.specs.declared.refusal.Refusal.{Refusal};

use calls::Refusal;
use catalog::Four;
use desks::Touch;
use group_commit::{Twin, TwinFar, TwinNear};
use records::Coded;
use std::alloc::Global;
use std::marker::Model;
use steps::Shelf;

/// What the journal's lock and each shelf's both know, for each of the four shelves: that nothing
/// touched it yet. Contracts see the tables.
#[derive(Drop)]
pub(crate) struct Twins<B: Coded> {
    pub(crate) twins: Four<Twin<Touch<Shelf<B::Shelf>>>>,
    pub(crate) nears: Four<TwinNear<Touch<Shelf<B::Shelf>>>>,
    pub(crate) fars: Four<TwinFar<Touch<Shelf<B::Shelf>>>>,
}

impl<B: Coded> Model for Twins<B> {
    ghost use Rattle.std.specs.Prelude.{◌≡◌, []};
    ghost use Rattle.atomic_table.specs.Seated.{TableId};
    ghost use Rattle.catalog.specs.declared.four.Four.{Four};
    ghost use Rattle.catalog.specs.Fours.{Which, pick};

    ghost Value = { Four TableId };

    ghost view = { λ t. t.twins };

    ghost invariant = { λ t.
        ((w : Which) → pick t.nears w ≡ record { table = pick t.twins w; list = [] })
        × ((w : Which) → pick t.fars w ≡ record { table = pick t.twins w; list = [] }) };
}

impl<B: Coded> Twins<B> {
    /// Four twins, none of which knows a touch. Refused only for want of memory.
    pub(crate) fn new(alloc: Global) -> Result<Self, Refusal>
        ensures { IsOkUnless result Refusal.NoMemory }
    {
        let (first, first_near, first_far) = Twin::new(alloc)?;
        let (second, second_near, second_far) = Twin::new(alloc)?;
        let (third, third_near, third_far) = Twin::new(alloc)?;
        let (fourth, fourth_near, fourth_far) = Twin::new(alloc)?;
        Ok(Self {
            twins: Four {
                first,
                second,
                third,
                fourth,
            },
            nears: Four {
                first: first_near,
                second: second_near,
                third: third_near,
                fourth: fourth_near,
            },
            fars: Four {
                first: first_far,
                second: second_far,
                third: third_far,
                fourth: fourth_far,
            },
        })
    }
}
