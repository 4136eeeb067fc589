// What a seat knows of the history, the rule, and the steps.
use atomic_table::{Join, Play, Seat, Split, TableRule};
use std::collections::LinkedList;
use std::marker::{Brand, PhantomData};
use txn::BookStep;

// A party of the history, by its number, with the beginning that it has seen. No value of it is
// made.
pub(crate) struct Party {
    number: u64,
    seen: LinkedList<BookStep>,
}

// What a seat knows. The book's keeps the whole history and the count of clients. Each may have
// parties with it. No value of it is made.
pub(crate) struct View {
    keeps: bool,
    all: LinkedList<BookStep>,
    made: u64,
    parties: LinkedList<Party>,
}

pub(crate) type LineSeat = Seat<(), View>;

// There is one history.
pub(crate) struct OneHistory;

impl TableRule<(), View, ()> for OneHistory {
    ghost use Rattle.std.specs.Prelude.{[]};
    ghost use Rattle.group_commit.specs.Histories.{Kept, book};

    ghost holds = { λ _ s. Kept s.views };

    ghost first = { λ _. book [] 0 };
}

/// Which step a tally adds to the history. Each call picks it, by passing `Brand`, so that no step
/// is stored: it exists in the proofs alone.
pub trait OneStep {
    ghost use Rattle.txn.specs.declared.actions.BookStep.{BookStep};

    ghost step: { BookStep };
}

impl OneStep for Brand {
    ghost use Rattle.group_commit.specs.NoStep.{no_step};

    ghost step = { no_step };
}

// A step is added. Whose it is stands with the book's seat.
pub(crate) struct Tally<W> {
    of: PhantomData<W>,
}

impl<W: OneStep> Play<(), View> for Tally<W> {
    ghost use Rattle.group_commit.specs.Histories.{Tallies};

    ghost then = { λ _ me _ after. Tallies W.step me after };
}

// All parties with a seat have seen the longest of what each had.
pub(crate) struct Meet;

impl Play<(), View> for Meet {
    ghost use Rattle.group_commit.specs.Histories.{Meets};

    ghost then = { λ _ me _ after. Meets me after };
}

// The parties with the book's seat see the whole history.
pub(crate) struct Inform;

impl Play<(), View> for Inform {
    ghost use Rattle.group_commit.specs.Histories.{Informs};

    ghost then = { λ _ me _ after. Informs me after };
}

// What the parties with the book's seat have seen is compared with the whole history, and they are
// counted.
pub(crate) struct Count;

impl Play<(), View> for Count {
    ghost use Rattle.group_commit.specs.Histories.{Counts};

    ghost then = { λ _ me _ after. Counts me after };
}

// What the parties with a seat have seen is compared.
pub(crate) struct Compare;

impl Play<(), View> for Compare {
    ghost use Rattle.group_commit.specs.Histories.{Compares};

    ghost then = { λ _ me _ after. Compares me after };
}

// The book's seat makes a new client.
pub(crate) struct Admit;

impl Split<View> for Admit {
    ghost use Rattle.group_commit.specs.Histories.{admitting, admitted};

    ghost left = { admitting };

    ghost right = { admitted };
}

// All that a seat knows goes to another.
pub(crate) struct Leave;

impl Split<View> for Leave {
    ghost use Rattle.group_commit.specs.Histories.{nobody};

    ghost left = { λ _. nobody };

    ghost right = { λ v. v };
}

// Parties come to a seat, before those that are there.
pub(crate) struct Board;

impl Join<View> for Board {
    ghost use Rattle.group_commit.specs.Histories.{boarded, nobody};

    ghost both = { boarded };

    ghost spent = { nobody };
}

// The first party leaves a seat.
pub(crate) struct Alight;

impl Split<View> for Alight {
    ghost use Rattle.group_commit.specs.Histories.{without_first, first_alone};

    ghost left = { without_first };

    ghost right = { first_alone };
}
