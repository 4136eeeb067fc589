// The one history of a book, shared by all threads.
ghost use Rattle.std.specs.Prelude.{◌≡◌, ◌≢◌, [], ◌∷◌, ◌++◌, None, Some, false, IfOk, IsOkUnless};
ghost use mathlib.Core.List.{IsPrefix};
ghost use Rattle.calls.specs.declared.refusal.Refusal.{Refusal};
ghost use Rattle.group_commit.specs.Lines.{IsLonger, mine_of, stepped, with_client, seeing};
ghost use Rattle.group_commit.specs.Lines.{crowd_of, HaveSeenOne};
ghost use Rattle.group_commit.specs.Histories.{Sits, book, alone, boarded, nobody, AreCounted};
ghost use Rattle.group_commit.specs.Histories.{without_first, first_alone};

use crate::view::{
    Admit, Alight, Board, Compare, Count, Inform, Leave, LineSeat, Meet, OneHistory, OneStep,
    Tally, View,
};
use atomic_table::Table;
use calls::Refusal;
use std::alloc::Global;
use std::marker::Model;

/// What threads share of a book's history: one word, whose number says nothing. Contracts see which
/// table it is.
#[derive(Drop)]
pub struct Line {
    table: Table<(), View, (), OneHistory, Global>,
}

impl Model for Line {
    ghost use Rattle.std.specs.Prelude.{◌≡◌};
    ghost use Rattle.atomic_table.specs.Seated.{TableId};

    ghost Value = { TableId };

    ghost view = { λ l. l.table.shared.table_id };

    ghost invariant = { λ l. l.table.shared.table_id.words ≡ 1 };
}

/// The one seat of a line that knows the whole history: the book's. It has no bytes. Contracts see
/// the history, and how many clients were made.
pub struct BookSeat {
    seat: LineSeat,
}

impl Drop for BookSeat {
    fn drop(self) {
        let Self { seat } = self;
        drop(seat);
    }
}

impl Model for BookSeat {
    ghost use Rattle.std.specs.Prelude.{◌≡◌, []};
    ghost use Rattle.group_commit.specs.Lines.{BookState};

    ghost Value = { BookState };

    ghost use Rattle.group_commit.specs.Histories.{book};

    ghost view = { λ b. record {
      table = b.seat.table_id;
      all = b.seat.me.0.all;
      clients = b.seat.me.0.made;
    } };

    ghost invariant = { λ b. b.seat.me ≡ (book b.seat.me.0.all b.seat.me.0.made, []) };
}

/// A client's seat of a line. It has no bytes. Contracts see the client's number, and the history
/// up to some step; `mine_of` is what it has seen of itself, which is all that the history has of
/// it.
pub struct ClientSeat {
    seat: LineSeat,
}

impl Drop for ClientSeat {
    fn drop(self) {
        let Self { seat } = self;
        drop(seat);
    }
}

impl Model for ClientSeat {
    ghost use Rattle.std.specs.Prelude.{◌≡◌, []};
    ghost use Rattle.group_commit.specs.Lines.{ClientState};

    ghost Value = { ClientState };

    ghost use Rattle.group_commit.specs.Histories.{client, party_of};

    ghost view = { λ c. record {
      table = c.seat.table_id;
      number = (party_of c.seat.me.0.parties).number;
      seen = (party_of c.seat.me.0.parties).seen;
    } };

    ghost invariant = { λ c. c.seat.me ≡
        (client (party_of c.seat.me.0.parties).number (party_of c.seat.me.0.parties).seen, []) };
}

/// The seats of several clients that have left. It has no bytes. Contracts see the number of each,
/// in order, and the history up to some step, which is all that the history has of it.
pub struct Crowd {
    seat: LineSeat,
}

impl Drop for Crowd {
    fn drop(self) {
        let Self { seat } = self;
        drop(seat);
    }
}

impl Model for Crowd {
    ghost use Rattle.std.specs.Prelude.{◌≡◌, []};
    ghost use Rattle.group_commit.specs.Lines.{CrowdState};

    ghost Value = { CrowdState };

    ghost use Rattle.group_commit.specs.Histories.{alone};

    ghost view = { λ c. record { table = c.seat.table_id; clients = c.seat.me.0.parties } };

    ghost invariant = { λ c. c.seat.me ≡ (alone c.seat.me.0.parties, []) };
}

impl Line {
    /// A line with an empty history, and the book's seat.
    ///
    /// NoMemory for the word.
    pub fn new(alloc: Global) -> Result<(Line, BookSeat), Refusal>
        ensures book { IfOk result
            (λ made. made.1 ≡ record { table = made.0; all = []; clients = 0 }) }
        ensures refusal { IsOkUnless result Refusal.NoMemory }
    {
        let (table, seat) = Table::of_words(alloc, &[0], &())?;
        Ok((Line { table }, BookSeat { seat }))
    }

    /// A new client, which has seen nothing. Its number is the count of clients, from 1 on. It
    /// takes no memory.
    pub fn client(&self, book: &mut BookSeat) -> ClientSeat
        requires { book.old.table ≡ self.now }
        ensures book { book.new ≡ with_client book.old }
        ensures client { result ≡
            record { table = self.now; number = book.new.clients; seen = [] } }
    {
        let seat = self.table.shared.split_seat::<Admit>(&mut book.seat);
        ClientSeat { seat }
    }

    // The guest's parties stand with the host's from then on.
    fn board(&self, host: &mut LineSeat, guest: &mut LineSeat)
        requires host { Sits self.now host.old.me.0 host.old }
        requires guest { Sits self.now guest.old.me.0 guest.old × (guest.old.me.0.keeps ≡ false) }
        ensures host { Sits self.now (boarded host.old.me.0 guest.old.me.0) host.new }
        ensures guest { Sits self.now nobody guest.new }
    {
        let whole = self.table.shared.split_seat::<Leave>(guest);
        self.table.shared.join_seat::<Board>(host, whole);
    }

    // The host's first party stands with the guest's seat from then on.
    fn alight(&self, host: &mut LineSeat, guest: &mut LineSeat)
        requires { Sits self.now host.old.me.0 host.old }
        ensures host { Sits self.now (without_first host.old.me.0) host.new }
        ensures guest { Sits self.now (first_alone host.old.me.0) guest.new }
    {
        *guest = self.table.shared.split_seat::<Alight>(host);
    }

    /// A client's step stands at the end of the history, which the client has then seen whole. Take
    /// it under the journal's lock, with the step of the book.
    pub fn tally<W: OneStep>(&self, book: &mut BookSeat, client: &mut ClientSeat)
        requires book { book.old.table ≡ self.now }
        requires client { client.old.table ≡ self.now }
        requires step { W.step.client ≡ Some client.old.number }
        ensures book { book.new ≡ stepped book.old W.step }
        ensures client { client.new ≡ seeing client.old book.new.all }
        ensures seen { IsPrefix client.old.seen book.old.all }
        ensures mine { mine_of client.new ≡ mine_of client.old ++ W.step ∷ [] }
    {
        let host = &mut book.seat;
        self.board(host, &mut client.seat);
        self.table.shared.fetch_add::<Tally<W>>(host, 0, 1);
        self.alight(host, &mut client.seat);
    }

    /// A step of no client stands at the end of the history. Take it under the journal's lock, with
    /// the step of the book.
    pub fn tally_alone<W: OneStep>(&self, book: &mut BookSeat)
        requires book { book.old.table ≡ self.now }
        requires step { W.step.client ≡ None }
        ensures { book.new ≡ stepped book.old W.step }
    {
        self.table
            .shared
            .fetch_add::<Tally<W>>(&mut book.seat, 0, 1);
    }

    /// Both clients have seen the longer of what they had seen, which the shorter begins. They have
    /// numbers of their own. It waits for nobody.
    pub fn meet(&self, one: &mut ClientSeat, other: &mut ClientSeat)
        requires one { one.old.table ≡ self.now }
        requires other { other.old.table ≡ self.now }
        ensures one { one.new ≡ seeing one.old one.new.seen }
        ensures other { other.new ≡ seeing other.old one.new.seen }
        ensures longer { IsLonger one.old.seen other.old.seen one.new.seen }
        ensures mine { mine_of one.new ≡ mine_of one.old }
        ensures mine_of_other { mine_of other.new ≡ mine_of other.old }
        ensures apart { one.old.number ≢ other.old.number }
    {
        self.board(&mut one.seat, &mut other.seat);
        self.table.shared.load::<Meet>(&mut one.seat, 0);
        self.alight(&mut one.seat, &mut other.seat);
    }

    /// The client sees the whole history so far, of which it had seen a beginning; behind that no
    /// step is the client's. It takes no step of the book.
    pub fn inform(&self, book: &mut BookSeat, client: &mut ClientSeat)
        requires book { book.old.table ≡ self.now }
        requires client { client.old.table ≡ self.now }
        ensures book { book.new ≡ book.old }
        ensures client { client.new ≡ seeing client.old book.old.all }
        ensures seen { IsPrefix client.old.seen book.old.all }
        ensures mine { mine_of client.new ≡ mine_of client.old }
    {
        self.board(&mut book.seat, &mut client.seat);
        self.table.shared.load::<Inform>(&mut book.seat, 0);
        self.alight(&mut book.seat, &mut client.seat);
    }

    /// A crowd of nobody.
    pub fn nobody(&self, book: &mut BookSeat) -> Crowd
        requires { book.old.table ≡ self.now }
        ensures book { book.new ≡ book.old }
        ensures crowd { result ≡ record { table = self.now; clients = [] } }
    {
        let seat = self.table.shared.split_seat::<Alight>(&mut book.seat);
        Crowd { seat }
    }

    /// The clients of both crowds, in order. Of any two of them, what one has seen begins what the
    /// other has seen. It waits for nobody.
    pub fn gather(&self, one: Crowd, other: Crowd) -> Crowd
        requires one { one.table ≡ self.now }
        requires other { other.table ≡ self.now }
        ensures clients { result ≡
            record { table = self.now; clients = one.clients ++ other.clients } }
        ensures one_history { HaveSeenOne result.clients }
    {
        let mut guest = one.into_seat();
        let mut seat = other.into_seat();
        self.board(&mut seat, &mut guest);
        self.table.shared.load::<Compare>(&mut seat, 0);
        Crowd { seat }
    }

    /// The end of a history: no step and no client comes any more. What each client of the crowd
    /// has seen begins it, and behind that no step is the client's. No two of them have one number;
    /// and where as many clients were made as are in the crowd, no step is of another client.
    pub fn end(&self, book: BookSeat, crowd: Crowd)
        requires book { book.table ≡ self.now }
        requires crowd { crowd.table ≡ self.now }
        ensures { AreCounted crowd.clients book.clients book.all }
    {
        let mut guest = crowd.into_seat();
        let mut seat = book.into_seat();
        self.board(&mut seat, &mut guest);
        self.table.shared.load::<Count>(&mut seat, 0);
    }
}

impl BookSeat {
    fn into_seat(self) -> LineSeat
        ensures { Sits self.table (book self.all self.clients) result }
    {
        let Self { seat } = self;
        seat
    }
}

impl ClientSeat {
    /// A crowd of this client alone, which has left.
    pub fn into_crowd(self) -> Crowd
        ensures { result ≡ crowd_of self }
    {
        let Self { seat } = self;
        Crowd { seat }
    }
}

impl Crowd {
    fn into_seat(self) -> LineSeat
        ensures { Sits self.table (alone self.clients) result }
    {
        let Self { seat } = self;
        seat
    }
}
