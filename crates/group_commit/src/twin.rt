// A list of touches that two ends know.
ghost use Rattle.std.specs.Prelude.{◌≡◌, [], IfOk, IsOkUnless};
ghost use Rattle.calls.specs.declared.refusal.Refusal.{Refusal};
ghost use Rattle.group_commit.specs.Twins.{Sits, near_side, far_side, both_sides, touched};

use atomic_table::{Join, Play, Seat, Split, Table, TableRule};
use calls::Refusal;
use std::alloc::Global;
use std::collections::LinkedList;
use std::marker::{Brand, Model, PhantomData};

// Which ends a seat is, and which touches each of the two knows. No value of it is made.
pub(crate) struct Sides<T> {
    near: bool,
    far: bool,
    by_near: LinkedList<T>,
    by_far: LinkedList<T>,
}

type SideSeat<T> = Seat<(), Sides<T>>;

// Both ends know one list.
pub(crate) struct OneList<T> {
    of: PhantomData<T>,
}

impl<T> TableRule<(), Sides<T>, ()> for OneList<T> {
    ghost use Rattle.std.specs.Prelude.{[]};
    ghost use Rattle.group_commit.specs.Twins.{Agreed, near_side, far_side, both_sides};

    ghost holds = { λ _ s. Agreed s.views };

    ghost first = { λ _. both_sides (near_side []) (far_side []) };
}

/// A touch, for both ends of a twin to know. Each call picks it, by passing `Brand`, so that no
/// touch is stored: it exists in the proofs alone.
pub trait OneTouch<T> {
    ghost touch: { T };
}

// The far end leaves its seat for another one.
struct Leave;

impl<T> Split<Sides<T>> for Leave {
    ghost use Rattle.group_commit.specs.Twins.{far_side, no_side};

    ghost left = { λ _. no_side };

    ghost right = { λ v. far_side v.by_far };
}

// The near end's seat is cut into both, and these are joined again.
struct Ends;

impl<T> Split<Sides<T>> for Ends {
    ghost use Rattle.group_commit.specs.Twins.{near_side, far_side};

    ghost left = { λ v. near_side v.by_near };

    ghost right = { λ v. far_side v.by_far };
}

impl<T> Join<Sides<T>> for Ends {
    ghost use Rattle.group_commit.specs.Twins.{both_sides, no_side};

    ghost both = { both_sides };

    ghost spent = { no_side };
}

// The joined seat learns that both ends know the same.
struct Compare;

impl<T> Play<(), Sides<T>> for Compare {
    ghost use Rattle.group_commit.specs.Twins.{Compares};

    ghost then = { λ _ me _ after. Compares me after };
}

// Both ends of the joined seat know one touch more.
struct Touched<W> {
    of: PhantomData<W>,
}

impl<T, W: OneTouch<T>> Play<(), Sides<T>> for Touched<W> {
    ghost use Rattle.group_commit.specs.Twins.{Adds};

    ghost then = { λ _ me _ after. Adds W.touch me after };
}

/// A list of touches that two ends know: each knows the same list, and only both together lengthen
/// it, by one touch at a time. It is one word, whose number says nothing. Threads share it by `&`.
/// Contracts see which table it is.
#[derive(Drop)]
pub struct Twin<T> {
    table: Table<(), Sides<T>, (), OneList<T>, Global>,
}

impl<T> Model for Twin<T> {
    ghost use Rattle.std.specs.Prelude.{◌≡◌};
    ghost use Rattle.atomic_table.specs.Seated.{TableId};

    ghost Value = { TableId };

    ghost view = { λ a. a.table.shared.table_id };

    ghost invariant = { λ a. a.table.shared.table_id.words ≡ 1 };
}

/// The near end of a twin. It has no bytes. Contracts see which touches it knows.
pub struct TwinNear<T> {
    seat: SideSeat<T>,
}

impl<T> Drop for TwinNear<T> {
    fn drop(self) {
        let Self { seat } = self;
        drop(seat);
    }
}

impl<T> Model for TwinNear<T> {
    ghost use Rattle.std.specs.Prelude.{◌≡◌, []};
    ghost use Rattle.group_commit.specs.Twins.{EndState, near_side};

    ghost Value = { EndState T };

    ghost view = { λ n. record { table = n.seat.table_id; list = n.seat.me.0.by_near } };

    ghost invariant = { λ n. n.seat.me ≡ (near_side n.seat.me.0.by_near, []) };
}

/// The far end of a twin. It has no bytes. Contracts see which touches it knows.
pub struct TwinFar<T> {
    seat: SideSeat<T>,
}

impl<T> Drop for TwinFar<T> {
    fn drop(self) {
        let Self { seat } = self;
        drop(seat);
    }
}

impl<T> Model for TwinFar<T> {
    ghost use Rattle.std.specs.Prelude.{◌≡◌, []};
    ghost use Rattle.group_commit.specs.Twins.{EndState, far_side};

    ghost Value = { EndState T };

    ghost view = { λ f. record { table = f.seat.table_id; list = f.seat.me.0.by_far } };

    ghost invariant = { λ f. f.seat.me ≡ (far_side f.seat.me.0.by_far, []) };
}

impl<T> Twin<T> {
    /// A twin, and its two ends, which know an empty list.
    ///
    /// NoMemory for the word.
    pub fn new(alloc: Global) -> Result<(Twin<T>, TwinNear<T>, TwinFar<T>), Refusal>
        ensures near { IfOk result (λ made. made.1 ≡ record { table = made.0; list = [] }) }
        ensures far { IfOk result (λ made. made.2 ≡ record { table = made.0; list = [] }) }
        ensures refusal { IsOkUnless result Refusal.NoMemory }
    {
        let (table, mut seat) = Table::of_words(alloc, &[0], &())?;
        let other = table.shared.split_seat::<Ends>(&mut seat);
        Ok((Twin { table }, TwinNear { seat }, TwinFar { seat: other }))
    }

    // What both ends know stands with the near one's seat from then on, until that is cut again.
    fn unite(&self, near: &mut SideSeat<T>, far: &mut SideSeat<T>)
        requires near { Sits self.now (near_side near.old.me.0.by_near) near.old }
        requires far { Sits self.now (far_side far.old.me.0.by_far) far.old }
        ensures near { Sits self.now (both_sides near.old.me.0 far.old.me.0) near.new }
        ensures same { near.old.me.0.by_near ≡ far.old.me.0.by_far }
    {
        let whole = self.table.shared.split_seat::<Leave>(far);
        self.table.shared.join_seat::<Ends>(near, whole);
        self.table.shared.load::<Compare>(near, 0);
    }

    /// Both ends know the same. It changes nothing, and waits for nobody.
    pub fn compare(&self, near: &mut TwinNear<T>, far: &mut TwinFar<T>)
        requires near { near.old.table ≡ self.now }
        requires far { far.old.table ≡ self.now }
        ensures near { near.new ≡ near.old }
        ensures far { far.new ≡ far.old }
        ensures same { near.old.list ≡ far.old.list }
    {
        self.unite(&mut near.seat, &mut far.seat);
        far.seat = self.table.shared.split_seat::<Ends>(&mut near.seat);
    }

    /// Both ends know one touch more from then on. It takes no memory, and waits for nobody.
    pub fn touch<W: OneTouch<T>>(&self, near: &mut TwinNear<T>, far: &mut TwinFar<T>)
        requires near { near.old.table ≡ self.now }
        requires far { far.old.table ≡ self.now }
        ensures near { near.new ≡ touched near.old W.touch }
        ensures far { far.new ≡ touched far.old W.touch }
        ensures same { near.old.list ≡ far.old.list }
    {
        self.unite(&mut near.seat, &mut far.seat);
        self.table
            .shared
            .fetch_add::<Touched<W>>(&mut near.seat, 0, 1);
        far.seat = self.table.shared.split_seat::<Ends>(&mut near.seat);
    }
}
