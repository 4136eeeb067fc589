// Numbers of transactions, which threads draw, each once.
ghost use Rattle.std.specs.Prelude.{◌≡◌, ◌≢◌, ◌+◌, ◌<◌, ◌≤◌, [], false, OnOk, IfOk, IfErr};
ghost use Rattle.std.specs.Prelude.{IsOkUnless};
ghost use Rattle.calls.specs.declared.refusal.Refusal.{Refusal};
ghost use Rattle.calls.specs.Limits.{number_end, max_clients};
ghost use Rattle.group_commit.specs.Numbers.{with_drawer, with_report, Draws, IsWorn, AreApart};
ghost use Rattle.group_commit.specs.Numbers.{AreOfOne};
ghost use Rattle.group_commit.specs.Drawing.{Sits, boarded, nobody, without_first, first_alone};
ghost use Rattle.group_commit.specs.Drawing.{drawer, hand_of, DrawsOne};

use atomic_table::{Join, Play, Seat, Split, Table, TableRule};
use calls::Refusal;
use calls::limits::{MAX_BEGINS, MAX_CLIENTS, NUMBER_END};
use std::alloc::Global;
use std::collections::LinkedList;
use std::marker::Model;

// A drawer, by its own number: the numbers that it drew, from which one on it draws, and how many
// more it may. No value of it is made.
pub(crate) struct Hand {
    number: u64,
    from: u64,
    drawn: LinkedList<u64>,
    left: u64,
}

// Which numbers a drawer had drawn when it reported them. No value of it is made.
pub(crate) struct Report {
    drawer: u64,
    drawn: LinkedList<u64>,
}

// What a seat knows. The maker's knows how many drawers were made. Each may have drawers with it,
// and know what drawers reported. No value of it is made.
pub(crate) struct Draw {
    makes: bool,
    from: u64,
    made: u64,
    left: u64,
    hands: LinkedList<Hand>,
    reports: LinkedList<Report>,
}

type NumberSeat = Seat<(), Draw>;

// Each number is drawn once.
pub(crate) struct Once;

impl TableRule<(), Draw, u64> for Once {
    ghost use Rattle.std.specs.Prelude.{[]};
    ghost use Rattle.group_commit.specs.Drawing.{Drawn, maker};

    ghost holds = { λ _ s. Drawn s.words s.views };

    ghost first = { λ from. maker from 0 72057594037927936 [] };
}

struct DrawOne;

impl Play<(), Draw> for DrawOne {
    ghost use Rattle.group_commit.specs.Drawing.{DrawsOne};

    ghost then = { λ _ me found after. DrawsOne me found after };
}

// What the drawers with a seat drew is compared, and so is what was reported to it.
struct Compare;

impl Play<(), Draw> for Compare {
    ghost use Rattle.group_commit.specs.Drawing.{Compares};

    ghost then = { λ _ me _ after. Compares me after };
}

// The maker's seat makes a new drawer.
struct Make;

impl Split<Draw> for Make {
    ghost use Rattle.group_commit.specs.Drawing.{making, made_one};

    ghost left = { making };

    ghost right = { made_one };
}

// What a seat's drawers drew goes to another, as their reports.
struct Tell;

impl Split<Draw> for Tell {
    ghost use Rattle.group_commit.specs.Drawing.{reporting};

    ghost left = { λ v. v };

    ghost right = { λ v. reporting v.hands };
}

// All that a seat knows goes to another.
struct Leave;

impl Split<Draw> for Leave {
    ghost use Rattle.group_commit.specs.Drawing.{nobody};

    ghost left = { λ _. nobody };

    ghost right = { λ v. v };
}

// Drawers come to a seat, before those that are there.
struct Board;

impl Join<Draw> for Board {
    ghost use Rattle.group_commit.specs.Drawing.{boarded, nobody};

    ghost both = { boarded };

    ghost spent = { nobody };
}

// The first drawer leaves a seat.
struct Alight;

impl Split<Draw> for Alight {
    ghost use Rattle.group_commit.specs.Drawing.{without_first, first_alone};

    ghost left = { without_first };

    ghost right = { first_alone };
}

/// The next number of a transaction. Threads share it by `&`. Contracts see which table it is.
#[derive(Drop)]
pub struct Numbers {
    table: Table<(), Draw, u64, Once, Global>,
}

impl Model for Numbers {
    ghost use Rattle.std.specs.Prelude.{◌≡◌};
    ghost use Rattle.atomic_table.specs.Seated.{TableId};

    ghost Value = { TableId };

    ghost view = { λ n. n.table.shared.table_id };

    ghost invariant = { λ n. n.table.shared.table_id.words ≡ 1 };
}

/// The one seat that makes drawers. Contracts see how many it made, and what was reported to it.
pub struct DrawerMaker {
    seat: NumberSeat,
    made: u64,
}

impl Drop for DrawerMaker {
    fn drop(self) {
        let Self { seat, made: _made } = self;
        drop(seat);
    }
}

impl Model for DrawerMaker {
    ghost use Rattle.group_commit.specs.Numbers.{MakerState};

    ghost Value = { MakerState };

    ghost use Rattle.group_commit.specs.Drawing.{IsMaker};

    ghost view = { λ m. record {
      table = m.seat.table_id;
      from = m.seat.me.0.from;
      made = m.made;
      reports = m.seat.me.0.reports;
    } };

    ghost invariant = { λ m. IsMaker m.seat.me m.made };
}

/// A client's seat, from which numbers are drawn. Contracts see which it drew.
pub struct Drawer {
    seat: NumberSeat,
    // how many more it may draw
    left: u64,
}

impl Drop for Drawer {
    fn drop(self) {
        let Self { seat, left: _left } = self;
        drop(seat);
    }
}

impl Model for Drawer {
    ghost use Rattle.std.specs.Prelude.{◌≡◌, ◌+◌, []};
    ghost use Rattle.group_commit.specs.Numbers.{DrawerState};

    ghost Value = { DrawerState };

    ghost use Rattle.group_commit.specs.Drawing.{drawer, hand_of, IsDrawer};

    ghost view = { λ d. record {
      table = d.seat.table_id;
      from = (hand_of d.seat.me.0.hands).from;
      number = (hand_of d.seat.me.0.hands).number;
      drawn = (hand_of d.seat.me.0.hands).drawn;
    } };

    ghost invariant = { λ d. IsDrawer d.seat.me d.left };
}

impl DrawerMaker {
    /// How many drawers were made.
    pub fn made(&self) -> u64
        ensures { result ≡ self.now.made }
    {
        self.made
    }
}

impl Numbers {
    /// Numbers from this one on, and the seat that makes drawers.
    ///
    /// NoMemory for the word.
    pub fn new(alloc: Global, from: u64) -> Result<(Numbers, DrawerMaker), Refusal>
        requires { from ≤ number_end }
        ensures maker { IfOk result
            (λ made. made.1 ≡ record { table = made.0; from = from; made = 0; reports = [] }) }
        ensures refusal { IsOkUnless result Refusal.NoMemory }
    {
        let (table, seat) = Table::of_words(alloc, &[from], &from)?;
        Ok((Numbers { table }, DrawerMaker { seat, made: 0 }))
    }

    /// A new drawer, which has drawn nothing. Its number is the count of drawers, from 1 on. It
    /// takes no memory.
    ///
    /// Worn exactly where 65,536 drawers were made, and then none is made.
    pub fn drawer(&self, maker: &mut DrawerMaker) -> Result<Drawer, Refusal>
        requires { maker.old.table ≡ self.now }
        ensures few { OnOk result (maker.old.made < max_clients) }
        ensures maker { OnOk result (maker.new ≡ with_drawer maker.old) }
        ensures drawer { IfOk result (λ d. d ≡ record {
          table = self.now;
          from = maker.old.from;
          number = maker.new.made;
          drawn = [];
        }) }
        ensures worn { IfErr result (λ r. (r ≡ Refusal.Worn) × (maker.old.made ≡ max_clients) ×
            (maker.new ≡ maker.old)) }
    {
        if maker.made >= MAX_CLIENTS {
            return Err(Refusal::Worn);
        }
        let seat = self.table.shared.split_seat::<Make>(&mut maker.seat);
        maker.made += 1;
        Ok(Drawer {
            seat,
            left: MAX_BEGINS,
        })
    }

    /// The next number, from 1 to 2^61 - 1, which no other drawer draws (`compare`), and which this
    /// one did not draw before. It takes no memory, and waits for nobody.
    ///
    /// Worn exactly where this drawer has drawn 2^40 numbers, or the next number is past the last.
    pub fn draw(&self, drawer: &mut Drawer) -> Result<u64, Refusal>
        requires { drawer.old.table ≡ self.now }
        ensures drawn { IfOk result (λ n. (n < number_end) × Draws drawer.old n drawer.new) }
        ensures worn { IfErr result (λ r. (r ≡ Refusal.Worn) × IsWorn drawer.old drawer.new) }
    {
        if drawer.left == 0 {
            return Err(Refusal::Worn);
        }
        let number = self.next(&mut drawer.seat);
        drawer.left -= 1;
        if number >= NUMBER_END {
            return Err(Refusal::Worn);
        }
        Ok(number)
    }

    // Draws a number.
    fn next(&self, seat: &mut NumberSeat) -> u64
        requires table { seat.old.table_id ≡ self.now }
        requires drawer { 0 < (hand_of seat.old.me.0.hands).left }
        requires alone { seat.old.me ≡ (drawer (hand_of seat.old.me.0.hands), []) }
        ensures table { seat.new.table_id ≡ self.now }
        ensures drawn { DrawsOne seat.old.me result seat.new.me }
    {
        self.table.shared.fetch_add::<DrawOne>(seat, 0, 1)
    }

    // The guest's drawers stand with the host's from then on.
    fn board(&self, host: &mut NumberSeat, guest: &mut NumberSeat)
        requires host { Sits self.now host.old.me.0 host.old }
        requires guest { Sits self.now guest.old.me.0 guest.old × (guest.old.me.0.makes ≡ false) }
        ensures host { Sits self.now (boarded host.old.me.0 guest.old.me.0) host.new }
        ensures guest { Sits self.now nobody guest.new }
    {
        let whole = self.table.shared.split_seat::<Leave>(guest);
        self.table.shared.join_seat::<Board>(host, whole);
    }

    // The host's first drawer stands with the guest's seat from then on.
    fn alight(&self, host: &mut NumberSeat, guest: &mut NumberSeat)
        requires { Sits self.now host.old.me.0 host.old }
        ensures host { Sits self.now (without_first host.old.me.0) host.new }
        ensures guest { Sits self.now (first_alone host.old.me.0) guest.new }
    {
        *guest = self.table.shared.split_seat::<Alight>(host);
    }

    /// No number was drawn by both drawers, which have numbers of their own. It changes nothing.
    pub fn compare(&self, one: &mut Drawer, other: &mut Drawer)
        requires one { one.old.table ≡ self.now }
        requires other { other.old.table ≡ self.now }
        ensures one { one.new ≡ one.old }
        ensures other { other.new ≡ other.old }
        ensures distinct { one.old.number ≢ other.old.number }
        ensures apart { AreApart one.old.drawn other.old.drawn }
    {
        self.board(&mut one.seat, &mut other.seat);
        self.table.shared.load::<Compare>(&mut one.seat, 0);
        self.alight(&mut one.seat, &mut other.seat);
    }

    /// The maker learns which numbers the drawer drew. Each number of which it has learned was
    /// drawn by one drawer alone. It takes no memory, and waits for nobody.
    pub fn report(&self, maker: &mut DrawerMaker, drawer: &mut Drawer)
        requires maker { maker.old.table ≡ self.now }
        requires drawer { drawer.old.table ≡ self.now }
        ensures maker { maker.new ≡ with_report maker.old drawer.old }
        ensures drawer { drawer.new ≡ drawer.old }
        ensures of_one { AreOfOne maker.new.reports }
    {
        let report = self.table.shared.split_seat::<Tell>(&mut drawer.seat);
        self.table
            .shared
            .join_seat::<Board>(&mut maker.seat, report);
        self.table.shared.load::<Compare>(&mut maker.seat, 0);
    }
}
