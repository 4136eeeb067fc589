// How far commits are kept, and whether keeping failed.
ghost use Rattle.std.specs.Prelude.{◌≡◌, ◌⊎◌, ℕ, ◌≤◌, ◌+◌, [], IsTrue, IfOk, IsOkUnless};
ghost use Rattle.calls.specs.declared.refusal.Refusal.{Refusal};
ghost use Rattle.group_commit.specs.Marks.{new_keeper, new_stopper, new_watcher, with_count};
ghost use Rattle.group_commit.specs.Marks.{with_flag, with_stop, informed, top};
ghost use Rattle.group_commit.specs.Marks.{AreReached, AreNoted, HasFailed};
ghost use Rattle.group_commit.specs.Rising.{raised_to};

use atomic_table::{Join, Play, Seat, Split, Table, TableRule};
use calls::Refusal;
use crossbeam_utils::sync::{EventCount, Key};
use std::alloc::Global;
use std::collections::LinkedList;
use std::marker::{Brand, Model, PhantomData};

// The words of the table.
const COUNT: usize = 0;

const FLAG: usize = 1;

/// The count that a mark was brought to, and the moment of the disk at which it was. No value of it
/// is made: contracts speak of it.
pub struct Raised {
    pub count: u64,
    pub moment: u64,
}

// What a seat knows: the keeper's all that it has brought the mark to, a watcher's the counts that
// it loaded or was told, and the failed flag each time that it loaded it; and each how often the
// flag was set, by itself where it may set it, and else as it was told. No value of it is made.
pub(crate) struct Tide {
    keeps: bool,
    sets: bool,
    raised: LinkedList<Raised>,
    counts: LinkedList<Raised>,
    flags: LinkedList<bool>,
    stops: u64,
}

// The count never falls. A failed flag stays, and some seat that may set it has set it.
pub(crate) struct Rising;

impl TableRule<(), Tide, ()> for Rising {
    ghost use Rattle.std.specs.Prelude.{[]};
    ghost use Rattle.group_commit.specs.Rising.{Marked, keeper};

    ghost holds = { λ _ s. Marked s.words s.views };

    ghost first = { λ _. keeper [] 0 };
}

/// At which moment of the disk a mark is raised. Each call picks it, by passing `Brand`, so that no
/// moment is stored: it exists in the proofs alone.
pub trait OneMoment {
    ghost use Rattle.std.specs.Prelude.{ℕ};

    ghost moment: { ℕ };
}

impl OneMoment for Brand {
    ghost moment = { 0 };
}

// The mark is raised at a moment.
struct Advance<W> {
    of: PhantomData<W>,
}

impl<W: OneMoment> Play<(), Tide> for Advance<W> {
    ghost use Rattle.group_commit.specs.Rising.{Advances};

    ghost then = { λ step me _ after. Advances step.first W.moment me after };
}

// A seat that may do so sets the flag.
struct Fail;

impl Play<(), Tide> for Fail {
    ghost use Rattle.group_commit.specs.Rising.{Fails};

    ghost then = { λ _ me _ after. Fails me after };
}

struct Load;

impl Play<(), Tide> for Load {
    ghost use Rattle.group_commit.specs.Rising.{Loads};

    ghost then = { λ _ me found after. Loads me found after };
}

struct LoadFlag;

impl Play<(), Tide> for LoadFlag {
    ghost use Rattle.group_commit.specs.Rising.{LoadsFlag};

    ghost then = { λ _ me found after. LoadsFlag me found after };
}

// The keeper's seat compares its count with what it was shown.
struct Compare;

impl Play<(), Tide> for Compare {
    ghost use Rattle.group_commit.specs.Rising.{Compares};

    ghost then = { λ _ me _ after. Compares me after };
}

// The first seat is cut into the keeper's and a watcher's.
struct Watch;

impl Split<Tide> for Watch {
    ghost use Rattle.group_commit.specs.Rising.{nobody};

    ghost left = { λ v. v };

    ghost right = { λ _. nobody };
}

// A seat is cut into itself and one that has set nothing, and may set the flag where the first may.
struct Permit;

impl Split<Tide> for Permit {
    ghost use Rattle.group_commit.specs.Rising.{permitted};

    ghost left = { λ v. v };

    ghost right = { permitted };
}

// The keeper's seat tells that it has set the flag.
struct Warn;

impl Split<Tide> for Warn {
    ghost use Rattle.std.specs.Prelude.{[]};
    ghost use Rattle.group_commit.specs.Rising.{watcher};

    ghost left = { λ v. v };

    ghost right = { λ _. watcher [] [] 1 };
}

// A watcher tells what it knows.
struct Tell;

impl Split<Tide> for Tell {
    ghost use Rattle.group_commit.specs.Rising.{watcher};

    ghost left = { λ v. v };

    ghost right = { λ v. watcher v.counts v.flags v.stops };
}

// A watcher is told what another knows.
impl Join<Tide> for Tell {
    ghost use Rattle.std.specs.Prelude.{◌++◌, ◌+◌};
    ghost use Rattle.group_commit.specs.Rising.{watcher, nobody};

    ghost both = { λ v w.
        watcher (v.counts ++ w.counts) (v.flags ++ w.flags) (v.stops + w.stops) };

    ghost spent = { nobody };
}

// The keeper's seat tells the count that it has kept.
struct Report;

impl Split<Tide> for Report {
    ghost use Rattle.std.specs.Prelude.{[], ◌∷◌};
    ghost use Rattle.group_commit.specs.Marks.{top};
    ghost use Rattle.group_commit.specs.Rising.{watcher};

    ghost left = { λ v. v };

    ghost right = { λ v. watcher (top v.raised ∷ []) [] 0 };
}

// The keeper's seat is shown what a watcher loaded.
struct Show;

impl Join<Tide> for Show {
    ghost use Rattle.group_commit.specs.Rising.{shown, nobody};

    ghost both = { λ v w. shown v.raised w.counts v.stops };

    ghost spent = { nobody };
}

/// The count of commits that are kept, and a flag that says whether keeping failed. Threads share
/// it by `&`, and may sleep until it moves. Contracts see which table it is.
#[derive(Drop)]
pub struct Mark {
    table: Table<(), Tide, (), Rising, Global>,
    // on which those sleep who wait for the count or the flag
    moves: EventCount,
}

impl Model for Mark {
    ghost use Rattle.std.specs.Prelude.{◌≡◌};
    ghost use Rattle.atomic_table.specs.Seated.{TableId};

    ghost Value = { TableId };

    ghost view = { λ m. m.table.shared.table_id };

    ghost invariant = { λ m. m.table.shared.table_id.words ≡ 2 };
}

/// The one seat of a mark that brings it on: the keeper's. It has no bytes. Contracts see to which
/// counts it has brought it, and when, and how often it set the failed flag.
pub struct KeeperSeat {
    seat: Seat<(), Tide>,
}

impl Drop for KeeperSeat {
    fn drop(self) {
        let Self { seat } = self;
        drop(seat);
    }
}

impl Model for KeeperSeat {
    ghost use Rattle.std.specs.Prelude.{◌≡◌, []};
    ghost use Rattle.group_commit.specs.Marks.{KeeperMark};

    ghost Value = { KeeperMark };

    ghost use Rattle.group_commit.specs.Rising.{keeper};

    ghost view = { λ k. record {
      table = k.seat.table_id;
      raised = k.seat.me.0.raised;
      stops = k.seat.me.0.stops;
    } };

    ghost invariant = { λ k. k.seat.me ≡ (keeper k.seat.me.0.raised k.seat.me.0.stops, []) };
}

/// A seat that may set the failed flag of a mark, and nothing else. Stoppers are made of stoppers
/// alone: no watcher, and no keeper's seat, is cut into one. It has no bytes. Contracts see how
/// often it set the flag.
pub struct Stopper {
    seat: Seat<(), Tide>,
}

impl Drop for Stopper {
    fn drop(self) {
        let Self { seat } = self;
        drop(seat);
    }
}

impl Model for Stopper {
    ghost use Rattle.std.specs.Prelude.{◌≡◌, []};
    ghost use Rattle.group_commit.specs.Marks.{StopperState};

    ghost Value = { StopperState };

    ghost use Rattle.group_commit.specs.Rising.{stopper};

    ghost view = { λ s. record { table = s.seat.table_id; stops = s.seat.me.0.stops } };

    ghost invariant = { λ s. s.seat.me ≡ (stopper s.seat.me.0.stops, []) };
}

/// A seat from which a mark is watched: of a client, a committer or a checkpointer. It has no
/// bytes. Contracts see what was loaded from it, and what it was told.
pub struct Watcher {
    seat: Seat<(), Tide>,
}

impl Drop for Watcher {
    fn drop(self) {
        let Self { seat } = self;
        drop(seat);
    }
}

impl Model for Watcher {
    ghost use Rattle.std.specs.Prelude.{◌≡◌, []};
    ghost use Rattle.group_commit.specs.Marks.{WatcherState};

    ghost Value = { WatcherState };

    ghost use Rattle.group_commit.specs.Rising.{watcher};

    ghost view = { λ w. record {
      table = w.seat.table_id;
      counts = w.seat.me.0.counts;
      flags = w.seat.me.0.flags;
      stops = w.seat.me.0.stops;
    } };

    ghost invariant = { λ w. w.seat.me ≡
        (watcher w.seat.me.0.counts w.seat.me.0.flags w.seat.me.0.stops, []) };
}

impl Mark {
    /// A mark with the count 0 and no failed flag, the keeper's seat, a first stopper and a first
    /// watcher.
    ///
    /// NoMemory for the two words.
    pub fn new(alloc: Global) -> Result<(Mark, KeeperSeat, Stopper, Watcher), Refusal>
        ensures keeper { IfOk result (λ made. made.1 ≡ new_keeper made.0) }
        ensures stopper { IfOk result (λ made. made.2 ≡ new_stopper made.0) }
        ensures watcher { IfOk result (λ made. made.3 ≡ new_watcher made.0) }
        ensures refusal { IsOkUnless result Refusal.NoMemory }
    {
        let (table, mut seat) = Table::of_words(alloc, &[0, 0], &())?;
        let first = table.shared.split_seat::<Permit>(&mut seat);
        let other = table.shared.split_seat::<Watch>(&mut seat);
        let moves = EventCount::new();
        Ok((
            Mark { table, moves },
            KeeperSeat { seat },
            Stopper { seat: first },
            Watcher { seat: other },
        ))
    }

    /// One more stopper, which has set nothing. It takes no memory.
    pub fn stopper(&self, from: &mut Stopper) -> Stopper
        requires { from.old.table ≡ self.now }
        ensures from { from.new ≡ from.old }
        ensures stopper { result ≡ new_stopper self.now }
    {
        let seat = self.table.shared.split_seat::<Permit>(&mut from.seat);
        Stopper { seat }
    }

    /// One more watcher, which has loaded nothing. It takes no memory.
    pub fn watcher(&self, from: &mut Watcher) -> Watcher
        requires { from.old.table ≡ self.now }
        ensures from { from.new ≡ from.old }
        ensures watcher { result ≡ new_watcher self.now }
    {
        let seat = self.table.shared.split_seat::<Watch>(&mut from.seat);
        Watcher { seat }
    }

    /// All commits up to the place are kept, from the moment on that `W` names: the count reaches
    /// it, unless it was past it. Who sleeps until the mark moves is woken: one load where nobody
    /// does. It takes no memory.
    pub fn advance<W: OneMoment>(&self, keeper: &mut KeeperSeat, place: u64)
        requires { keeper.old.table ≡ self.now }
        ensures table { keeper.new.table ≡ keeper.old.table }
        ensures raised { keeper.new.raised ≡ raised_to place W.moment keeper.old.raised }
        ensures stops { keeper.new.stops ≡ keeper.old.stops }
    {
        self.table
            .shared
            .fetch_max::<Advance<W>>(&mut keeper.seat, COUNT, place);
        self.moves.notify_all();
    }

    /// Announces that a thread will wait until the mark moves. Call it first, then load the count
    /// and the flag, and sleep by `Key::wait` only where neither decides: a move behind the
    /// announcement ends the sleep. It takes no memory, and waits for nobody.
    pub fn prepare_wait(&self) -> Key<'_> {
        self.moves.prepare_wait()
    }

    /// The count now, which is at least each one that this watcher has loaded.
    pub fn load(&self, watcher: &mut Watcher) -> u64
        requires { watcher.old.table ≡ self.now }
        ensures loaded { (moment : ℕ) × watcher.new ≡
            with_count watcher.old (record { count = result; moment = moment }) }
        ensures rises { AreReached watcher.old.counts result }
    {
        self.table.shared.load::<Load>(&mut watcher.seat, COUNT)
    }

    /// The keeper failed: the flag is set, and stays so, and a watcher is told of it. Who sleeps
    /// until the mark moves is woken. It takes no memory, and waits for nobody.
    pub fn fail(&self, keeper: &mut KeeperSeat, watcher: &mut Watcher)
        requires keeper { keeper.old.table ≡ self.now }
        requires watcher { watcher.old.table ≡ self.now }
        ensures keeper { keeper.new ≡ record keeper.old { stops = keeper.old.stops + 1 } }
        ensures watcher { watcher.new ≡ with_stop watcher.old }
    {
        self.table.shared.store::<Fail>(&mut keeper.seat, FLAG, 1);
        let told = self.table.shared.split_seat::<Warn>(&mut keeper.seat);
        self.table.shared.join_seat::<Tell>(&mut watcher.seat, told);
        self.moves.notify_all();
    }

    /// Keeping ends: the flag is set, and stays so. Who sleeps until the mark moves is woken. It
    /// takes no memory, and waits for nobody.
    pub fn stop(&self, stopper: &mut Stopper)
        requires { stopper.old.table ≡ self.now }
        ensures { stopper.new ≡ record stopper.old { stops = stopper.old.stops + 1 } }
    {
        self.table.shared.store::<Fail>(&mut stopper.seat, FLAG, 1);
        self.moves.notify_all();
    }

    /// Whether keeping failed. Once this watcher has loaded the flag so, or was told of it, it stays
    /// so.
    pub fn failed(&self, watcher: &mut Watcher) -> bool
        requires { watcher.old.table ≡ self.now }
        ensures loaded { watcher.new ≡ with_flag watcher.old result }
        ensures stays { HasFailed watcher.old.flags ⊎ (1 ≤ watcher.old.stops) → IsTrue result }
    {
        self.table.shared.load::<LoadFlag>(&mut watcher.seat, FLAG) == 1
    }

    /// One watcher is told what another one has loaded: the counts that it loads from then on are
    /// at least those, and a flag that the other has loaded as set, or was told of, stays so for it
    /// too.
    pub fn inform(&self, from: &mut Watcher, to: &mut Watcher)
        requires from { from.old.table ≡ self.now }
        requires to { to.old.table ≡ self.now }
        ensures from { from.new ≡ from.old }
        ensures to { to.new ≡ informed to.old from.old }
    {
        let told = self.table.shared.split_seat::<Tell>(&mut from.seat);
        self.table.shared.join_seat::<Tell>(&mut to.seat, told);
    }

    /// A watcher is told the count that the keeper's seat has reached, as if it had loaded it: the
    /// counts that it loads from then on are at least that one, and none that it knew before is
    /// past it. It is told nothing of the flag. It takes no memory, and waits for nobody.
    pub fn tell(&self, keeper: &mut KeeperSeat, watcher: &mut Watcher)
        requires keeper { keeper.old.table ≡ self.now }
        requires watcher { watcher.old.table ≡ self.now }
        ensures keeper { keeper.new ≡ keeper.old }
        ensures watcher { watcher.new ≡ with_count watcher.old (top keeper.old.raised) }
        ensures rises { AreNoted watcher.old.counts keeper.old.raised }
    {
        self.compare(keeper, watcher);
        let told = self.table.shared.split_seat::<Report>(&mut keeper.seat);
        self.table.shared.join_seat::<Tell>(&mut watcher.seat, told);
    }

    /// Each count that the watcher knows is one to which the keeper's seat has brought the mark, at
    /// the moment that the watcher knows, or 0. It changes nothing.
    pub fn compare(&self, keeper: &mut KeeperSeat, watcher: &mut Watcher)
        requires keeper { keeper.old.table ≡ self.now }
        requires watcher { watcher.old.table ≡ self.now }
        ensures keeper { keeper.new ≡ keeper.old }
        ensures watcher { watcher.new ≡ watcher.old }
        ensures noted { AreNoted watcher.old.counts keeper.old.raised }
    {
        let told = self.table.shared.split_seat::<Tell>(&mut watcher.seat);
        self.table.shared.join_seat::<Show>(&mut keeper.seat, told);
        self.table.shared.load::<Compare>(&mut keeper.seat, COUNT);
    }
}
