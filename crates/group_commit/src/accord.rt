// What is gathered of a book for an image, as two ends know it.
ghost use Rattle.std.specs.Prelude.{◌≡◌, IfOk, IsOkUnless};
ghost use Rattle.calls.specs.declared.refusal.Refusal.{Refusal};
ghost use Rattle.images.specs.Gathers.{nothing_gathered};
ghost use Rattle.group_commit.specs.Agreeing.{Sits, near_side, far_side, both_sides};

use atomic_table::{Join, Play, Seat, Split, Table, TableRule};
use calls::Refusal;
use catalog::NamedHolding;
use images::Gather;
use std::alloc::Global;
use std::marker::{Brand, Model, PhantomData};

// Which ends a seat is, and what each of the two knows to be gathered. No value of it is made.
pub(crate) struct Sides {
    near: bool,
    far: bool,
    by_near: Gather<NamedHolding>,
    by_far: Gather<NamedHolding>,
}

type SideSeat = Seat<(), Sides>;

// Both ends know one state.
pub(crate) struct OneState;

impl TableRule<(), Sides, ()> for OneState {
    ghost use Rattle.images.specs.Gathers.{nothing_gathered};
    ghost use Rattle.group_commit.specs.Agreeing.{Agreed, near_side, far_side, both_sides};

    ghost holds = { λ _ s. Agreed s.views };

    ghost first = { λ _. both_sides (near_side nothing_gathered) (far_side nothing_gathered) };
}

/// What is gathered, or frozen, for both ends of an accord or of a hand-off to know. Each call
/// picks it, by passing `Brand`, so that no state is stored: it exists in the proofs alone.
pub trait OneGather {
    ghost use Rattle.images.specs.Gathers.{GatherState};

    ghost gather: { GatherState };
}

impl OneGather for Brand {
    ghost use Rattle.images.specs.Gathers.{nothing_gathered};

    ghost gather = { nothing_gathered };
}

// The far end leaves its seat for another one.
struct Leave;

impl Split<Sides> for Leave {
    ghost use Rattle.group_commit.specs.Agreeing.{far_side, no_side};

    ghost left = { λ _. no_side };

    ghost right = { λ v. far_side v.by_far };
}

// The near end's seat is cut into both, and these are joined again.
struct Ends;

impl Split<Sides> for Ends {
    ghost use Rattle.group_commit.specs.Agreeing.{near_side, far_side};

    ghost left = { λ v. near_side v.by_near };

    ghost right = { λ v. far_side v.by_far };
}

impl Join<Sides> for Ends {
    ghost use Rattle.group_commit.specs.Agreeing.{both_sides, no_side};

    ghost both = { both_sides };

    ghost spent = { no_side };
}

// The joined seat is cut again, and both ends know the state that W names.
struct Agree<W> {
    of: PhantomData<W>,
}

impl<W: OneGather> Split<Sides> for Agree<W> {
    ghost use Rattle.group_commit.specs.Agreeing.{near_side, far_side};

    ghost left = { λ _. near_side W.gather };

    ghost right = { λ _. far_side W.gather };
}

// The joined seat learns that both ends know the same.
struct Compare;

impl Play<(), Sides> for Compare {
    ghost use Rattle.group_commit.specs.Agreeing.{Compares};

    ghost then = { λ _ me _ after. Compares me after };
}

/// Two ends that agree on what is gathered of a book for an image: each knows the same state, and
/// only both together change it. It is one word, whose number says nothing. Threads share it by
/// `&`. Contracts see which table it is.
#[derive(Drop)]
pub struct Accord {
    table: Table<(), Sides, (), OneState, Global>,
}

impl Model for Accord {
    ghost use Rattle.std.specs.Prelude.{◌≡◌};
    ghost use Rattle.atomic_table.specs.Seated.{TableId};

    ghost Value = { TableId };

    ghost view = { λ a. a.table.shared.table_id };

    ghost invariant = { λ a. a.table.shared.table_id.words ≡ 1 };
}

/// The near end of an accord. It has no bytes. Contracts see what it knows to be gathered.
pub struct Near {
    seat: SideSeat,
}

impl Drop for Near {
    fn drop(self) {
        let Self { seat } = self;
        drop(seat);
    }
}

impl Model for Near {
    ghost use Rattle.std.specs.Prelude.{◌≡◌, []};
    ghost use Rattle.group_commit.specs.Accords.{AccordState};

    ghost Value = { AccordState };

    ghost use Rattle.std.specs.Coded.{codes};
    ghost use Rattle.catalog.specs.Holdings.{collection_code};

    ghost coded = { Prim.hlevel (codes, collection_code) };

    ghost use Rattle.group_commit.specs.Agreeing.{near_side};

    ghost view = { λ n. record { table = n.seat.table_id; gather = n.seat.me.0.by_near } };

    ghost invariant = { λ n. n.seat.me ≡ (near_side n.seat.me.0.by_near, []) };
}

/// The far end of an accord. It has no bytes. Contracts see what it knows to be gathered.
pub struct Far {
    seat: SideSeat,
}

impl Drop for Far {
    fn drop(self) {
        let Self { seat } = self;
        drop(seat);
    }
}

impl Model for Far {
    ghost use Rattle.std.specs.Prelude.{◌≡◌, []};
    ghost use Rattle.group_commit.specs.Accords.{AccordState};

    ghost Value = { AccordState };

    ghost use Rattle.std.specs.Coded.{codes};
    ghost use Rattle.catalog.specs.Holdings.{collection_code};

    ghost coded = { Prim.hlevel (codes, collection_code) };

    ghost use Rattle.group_commit.specs.Agreeing.{far_side};

    ghost view = { λ f. record { table = f.seat.table_id; gather = f.seat.me.0.by_far } };

    ghost invariant = { λ f. f.seat.me ≡ (far_side f.seat.me.0.by_far, []) };
}

impl Accord {
    /// An accord, and its two ends, which know that nothing is gathered.
    ///
    /// NoMemory for the word.
    pub fn new(alloc: Global) -> Result<(Accord, Near, Far), Refusal>
        ensures near { IfOk result
            (λ made. made.1 ≡ record { table = made.0; gather = nothing_gathered }) }
        ensures far { IfOk result
            (λ made. made.2 ≡ record { table = made.0; gather = nothing_gathered }) }
        ensures refusal { IsOkUnless result Refusal.NoMemory }
    {
        let (table, mut seat) = Table::of_words(alloc, &[0], &())?;
        let other = table.shared.split_seat::<Ends>(&mut seat);
        Ok((Accord { table }, Near { seat }, Far { seat: other }))
    }

    // What both ends know stands with the near one's seat from then on, until that is cut again.
    fn unite(&self, near: &mut SideSeat, far: &mut SideSeat)
        requires near { Sits self.now (near_side near.old.me.0.by_near) near.old }
        requires far { Sits self.now (far_side far.old.me.0.by_far) far.old }
        ensures near { Sits self.now (both_sides near.old.me.0 far.old.me.0) near.new }
        ensures same { near.old.me.0.by_near ≡ far.old.me.0.by_far }
    {
        let whole = self.table.shared.split_seat::<Leave>(far);
        self.table.shared.join_seat::<Ends>(near, whole);
        self.table.shared.load::<Compare>(near, 0);
    }

    /// Both ends know the same. It changes nothing, and waits for nobody.
    pub fn compare(&self, near: &mut Near, far: &mut Far)
        requires near { near.old.table ≡ self.now }
        requires far { far.old.table ≡ self.now }
        ensures near { near.new ≡ near.old }
        ensures far { far.new ≡ far.old }
        ensures same { near.old.gather ≡ far.old.gather }
    {
        self.unite(&mut near.seat, &mut far.seat);
        far.seat = self.table.shared.split_seat::<Ends>(&mut near.seat);
    }

    /// Both ends know this state from then on. It takes no memory, and waits for nobody.
    pub fn agree<W: OneGather>(&self, near: &mut Near, far: &mut Far)
        requires near { near.old.table ≡ self.now }
        requires far { far.old.table ≡ self.now }
        ensures near { near.new ≡ record { table = near.old.table; gather = W.gather } }
        ensures far { far.new ≡ record { table = far.old.table; gather = W.gather } }
    {
        self.unite(&mut near.seat, &mut far.seat);
        far.seat = self.table.shared.split_seat::<Agree<W>>(&mut near.seat);
    }
}
