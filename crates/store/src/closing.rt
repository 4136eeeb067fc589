// The end of a store.
ghost use Rattle.std.specs.Prelude.{◌≡◌};
ghost use Rattle.catalog.specs.Fours.{Which, pick};
ghost use Rattle.group_commit.specs.Accords.{AccordState};
ghost use Rattle.group_commit.specs.Histories.{AreCounted};
ghost use Rattle.group_commit.specs.Marks.{AreNoted};
ghost use Rattle.desks.specs.Desks.{IsDesk};
ghost use Rattle.clients.specs.Known.{all_left};
ghost use Rattle.desks.specs.Told.{told_book};
ghost use Rattle.desks.specs.Touches.{Leads};
ghost use Rattle.store.specs.Closing.{Closes};

use crate::vault::Vault;
use catalog::Four;
use checkpoint::Keeper;
use clients::Seen;
use desks::{Desk, Naming, Quarter, Shared, ShelfDesk, Shelves, Touch};
use disk_model::Disk;
use group_commit::{BookSeat, KeeperSeat, Sender, Twin, TwinNear};
use records::Coded;
use steps::Shelf;
use txn::Book;

/// The book and the keeper of a store that nobody shares any more, and how many clients it made.
pub(crate) fn close<D: Disk, J: Naming, B: Coded>(
    shared: &Shared<J>,
    shelves: Shelves<J, B>,
    desk: Desk<J, B>,
    vault: Vault<D, J>,
    last: Option<Seen<J>>,
) -> (Book<B>, Keeper<D>, u64)
    ensures { Closes ⟦<J as Naming>⟧ ⟦<D as Disk>⟧ (all_left last) result.2
        (told_book B.collections result.0) result.1 }
{
    let (book, seat, mut sender, clients) = book_of(shelves, desk);
    let Vault {
        keeper,
        mut receiver,
        mut mark,
        ..
    } = vault;
    shared.handoff.compare(&mut sender, &mut receiver);
    look_back(shared, seat, &mut mark, last);
    (book, keeper, clients)
}

// The book that the journal and the four shelves are, with its seat and the sending end, and how
// many clients were made.
fn book_of<J: Naming, B: Coded>(
    shelves: Shelves<J, B>,
    desk: Desk<J, B>,
) -> (Book<B>, BookSeat, Sender, u64)
    ensures desk { (near : AccordState) ×
        IsDesk ⟦<J as Naming>⟧ (told_book B.collections result.0) result.1 result.2 near }
    ensures clients { result.3 ≡ result.1.clients }
{
    let (journal, mut nears, seat, sender, clients) = desk.into_parts();
    let shelves = compare_all(shelves, &mut nears);
    (Book::of_shelves(journal, shelves), seat, sender, clients)
}

// The four shelves, which are as the near ends know them.
fn compare_all<J: Naming, B: Coded>(
    shelves: Shelves<J, B>,
    nears: &mut Four<TwinNear<Touch<Shelf<B::Shelf>>>>,
) -> Four<Shelf<B::Shelf>>
    requires { (w : Which) → (pick nears.old w).table ≡ pick J.shelves w }
    ensures { (w : Which) → Leads (pick nears.old w) (pick result w) }
{
    let Shelves {
        first,
        second,
        third,
        fourth,
        twins,
    } = shelves;
    Four {
        first: compare(&twins.first, &mut nears.first, first.into_inner()),
        second: compare(&twins.second, &mut nears.second, second.into_inner()),
        third: compare(&twins.third, &mut nears.third, third.into_inner()),
        fourth: compare(&twins.fourth, &mut nears.fourth, fourth.into_inner()),
    }
}

// The shelf, which is as the near end knows it.
fn compare<J: Naming, B: Coded, Q: Quarter>(
    twin: &Twin<Touch<Shelf<B::Shelf>>>,
    near: &mut TwinNear<Touch<Shelf<B::Shelf>>>,
    mut desk: ShelfDesk<J, B, Q>,
) -> Shelf<B::Shelf>
    requires twin { twin.now ≡ pick J.shelves Q.which }
    requires near { near.old.table ≡ twin.now }
    ensures { Leads near.old result }
{
    desk.compare(twin, near);
    desk.into_shelf()
}

// What the clients had seen begins the history, which may have steps of no others, and the mark was
// brought to what they had loaded.
fn look_back<J: Naming>(
    shared: &Shared<J>,
    seat: BookSeat,
    mark: &mut KeeperSeat,
    last: Option<Seen<J>>,
)
    requires seat { seat.table ≡ J.line }
    requires mark { mark.old.table ≡ J.mark }
    ensures counted { AreCounted (all_left last).clients seat.clients seat.all }
    ensures noted { AreNoted (all_left last).counts mark.old.raised }
{
    let mut seat = seat;
    match last {
        Some(
            Seen {
                line,
                mut watcher,
                ..
            },
        ) => {
            shared.mark.compare(mark, &mut watcher);
            shared.line.end(seat, line);
        }
        None => {
            let nobody = shared.line.nobody(&mut seat);
            shared.line.end(seat, nobody);
        }
    }
}
