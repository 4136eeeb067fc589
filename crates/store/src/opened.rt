// A store that was opened and has no name yet.
ghost use Rattle.std.specs.Prelude.{◌≡◌, ◌≤◌, List, IfOk, IfErr, IsOkUnless};
ghost use Rattle.calls.specs.Contents.{Collection};
ghost use Rattle.calls.specs.declared.refusal.Refusal.{Refusal};
ghost use Rattle.calls.specs.Limits.{number_end};
ghost use Rattle.disk_model.specs.Disk.{ReadsOnly, Rises, IsAtRest};
ghost use Rattle.replay.specs.Journals.{StandsFor};
ghost use Rattle.txn.specs.Books.{opened};
ghost use Rattle.checkpoint.specs.Keepers.{IsFresh};
ghost use Rattle.recovery.specs.Heads.{HasHeader, HasNoHeader};
ghost use Rattle.recovery.specs.Openings.{IsOpened, IsDamagedAt, HasNoRoom, IsReadyStore};
ghost use Rattle.recovery.specs.Openings.{IsOpenRefusal, KeepsContent};
ghost use Rattle.recovery.specs.Refusals.{IsOpenedAtMost};
ghost use Rattle.desks.specs.Told.{told_book};
ghost use Rattle.store.specs.Openings.{IsNamed};

use crate::gatherer::Gatherer;
use crate::stopping::Stopping;
use crate::store::Store;
use crate::twins::Twins;
use crate::vault::Vault;
use calls::Refusal;
use catalog::Catalog;
use checkpoint::Keeper;
use desks::{Desk, Extent, Naming, Shared, Shelves, Signal, WaitQueue};
use disk_model::Disk;
use group_commit::{
    Accord, BookSeat, DrawerMaker, Far, Handoff, KeeperSeat, Line, Mark, Near, Numbers, Receiver,
    Sender, Stopper, Watcher,
};
use records::Coded;
use recovery::open;
use std::alloc::Global;
use std::marker::{Model, PhantomData};
use txn::Book;

/// A store that was opened and has no name yet: `named` gives the store. Contracts see its book, as
/// its named collections tell of it, its keeper, and the tables of its parts.
pub struct Opened<D: Disk, B: Coded = Catalog> {
    alloc: Global,
    book: Book<B>,
    keeper: Keeper<D>,
    parts: Parts<B>,
}

// Written out, so that the crates above call it in place of proving it again.
impl<D: Disk + Drop, B: Coded> Drop for Opened<D, B> {
    fn drop(self) {
        let Self {
            alloc: _alloc,
            book,
            keeper,
            parts,
        } = self;
        drop(book);
        drop(keeper);
        drop(parts);
    }
}

// What threads share beside the locks, with the first seats.
#[derive(Drop)]
struct Parts<B: Coded> {
    line: Line,
    seat: BookSeat,
    mark: Mark,
    kept: KeeperSeat,
    stopper: Stopper,
    watcher: Watcher,
    numbers: Numbers,
    maker: DrawerMaker,
    handoff: Handoff,
    sender: Sender,
    receiver: Receiver,
    // What is gathered of the book, as its side and the gatherer's know it, and what is frozen, as
    // the keeper's side does.
    gathering: Accord,
    gathered_near: Near,
    gathered_far: Far,
    awaited: Accord,
    awaited_near: Near,
    awaited_far: Far,
    twins: Twins<B>,
}

impl<B: Coded> Model for Parts<B> {
    ghost use Rattle.std.specs.Prelude.{◌≡◌, []};
    ghost use Rattle.images.specs.Gathers.{nothing_gathered};
    ghost use Rattle.group_commit.specs.Marks.{new_keeper, new_stopper, new_watcher};
    ghost use Rattle.store.specs.Openings.{Tables};

    ghost Value = { Tables };

    ghost view = { λ p. record {
      line = p.line;
      mark = p.mark;
      numbers = p.numbers;
      handoff = p.handoff;
      gathering = p.gathering;
      awaited = p.awaited;
      shelves = p.twins;
      from = p.maker.from;
    } };

    ghost invariant = { λ p. (p.seat ≡ record { table = p.line; all = []; clients = 0 })
        × (p.kept ≡ new_keeper p.mark)
        × (p.watcher ≡ new_watcher p.mark)
        × (p.maker ≡ record {
          table = p.numbers;
          from = p.maker.from;
          made = 0;
          reports = [];
        })
        × (p.sender ≡ record { table = p.handoff; sent = []; noted = [] })
        × (p.receiver ≡ record { table = p.handoff; received = []; noted = [] })
        × (p.gathered_near ≡ record { table = p.gathering; gather = nothing_gathered })
        × (p.gathered_far ≡ record { table = p.gathering; gather = nothing_gathered })
        × (p.awaited_near ≡ record { table = p.awaited; gather = nothing_gathered })
        × (p.awaited_far ≡ record { table = p.awaited; gather = nothing_gathered })
        × (p.stopper ≡ new_stopper p.mark) };
}

impl<D: Disk, B: Coded> Model for Opened<D, B> {
    ghost use Rattle.std.specs.Prelude.{◌≡◌};
    ghost use Rattle.std.specs.Coded.{codes, coded_ℕ, coded_bool};
    ghost use Rattle.std.specs.FinMap as maps;
    ghost use Rattle.std.specs.Ordering.{nat_cmp};
    ghost use Rattle.catalog.specs.Holdings.{catalog_code};
    ghost use Rattle.txn.specs.Books.{opened};
    ghost use Rattle.checkpoint.specs.Keepers.{IsFresh};
    ghost use Rattle.desks.specs.Told.{told_book};
    ghost use Rattle.store.specs.Openings.{OpenedState};

    ghost Value = { OpenedState D };

    ghost coded = { Prim.hlevel (codes, catalog_code, maps.code {R = nat_cmp} coded_ℕ coded_bool) };

    ghost view = { λ o. record {
      book = told_book B.collections o.book;
      keeper = o.keeper;
      tables = o.parts;
    } };

    ghost invariant = { λ o. (o.parts.from ≡ o.book.next) × IsFresh o.keeper ×
        (o.book ≡ opened o.book.state.format o.book.state.now o.book.next o.book.state.wear) };
}

impl<B: Coded> Parts<B> {
    // Parts of a store whose numbers begin there. Refused only for want of memory.
    fn new(alloc: Global, from: u64) -> Result<Self, Refusal>
        requires { from ≤ number_end }
        ensures from { IfOk result (λ p. p.from ≡ from) }
        ensures refusal { IsOkUnless result Refusal.NoMemory }
    {
        let (line, seat) = Line::new(alloc)?;
        let (mark, kept, stopper, watcher) = Mark::new(alloc)?;
        let (numbers, maker) = Numbers::new(alloc, from)?;
        let (handoff, sender, receiver) = Handoff::new(alloc)?;
        let (gathering, gathered_near, gathered_far) = Accord::new(alloc)?;
        let (awaited, awaited_near, awaited_far) = Accord::new(alloc)?;
        let twins = Twins::new(alloc)?;
        Ok(Parts {
            line,
            seat,
            mark,
            kept,
            stopper,
            watcher,
            numbers,
            maker,
            handoff,
            sender,
            receiver,
            gathering,
            gathered_near,
            gathered_far,
            awaited,
            awaited_near,
            awaited_far,
            twins,
        })
    }
}

impl<D: Disk> Opened<D> {
    /// Opens the store on a disk for threads. The area in use is read, transactions that had not
    /// ended are undone, and that is written to the disk. It takes the time and memory of
    /// `recovery::open`, and a few words more.
    ///
    /// NotAStore, Fault, Damaged, NoMemory, Full where the records of the undoing do not fit. Each
    /// hands the disk back. NotAStore, Damaged and Full come with nothing written. NoMemory may
    /// also come once the disk is open, and then what the opening wrote stays, and nothing more. A
    /// store that is refused so has the same content as before, and can be opened again. It comes
    /// only where the disk has a head of a store, if it read true.
    ///
    /// ```text
    /// let opened = Opened::open(alloc, disk).map_err(|(refusal, _disk)| refusal)?;
    /// ```
    pub fn open(alloc: Global, disk: D) -> Result<Opened<D>, (Refusal, D)>
        // What it answers, of a disk that read true.
        ensures opened { IfOk result (λ o. D.is_honest o.keeper.disk →
            IsOpened (D.seen disk) o.book o.keeper.area (D.seen o.keeper.disk)) }
        ensures ready { IfOk result (λ o. D.is_honest o.keeper.disk →
            IsAtRest D.seen D.may_leave disk →
            IsReadyStore D.seen D.may_leave (D.seen disk) o.book o.keeper.area o.keeper.disk) }
        ensures content { (content : List Collection) → StandsFor (D.seen disk) content →
            IfOk result (λ o. D.is_honest o.keeper.disk → o.book.state.now ≡ content) }
        // What a stop leaves.
        ensures kept { IfOk result (λ o. D.is_honest o.keeper.disk →
            KeepsContent D.seen D.may_leave D.moment D.left_since disk o.keeper.disk) }
        ensures kept_in_refusal { IfErr result (λ x. D.is_honest x.1 →
            KeepsContent D.seen D.may_leave D.moment D.left_since disk x.1) }
        // Why it is refused, and what was written then.
        ensures refused { IfErr result (λ x. IsOpenRefusal
            (Rises (D.fault_count disk) (D.fault_count x.1))
            (D.is_honest x.1 → HasNoHeader (D.seen disk))
            (λ place. D.is_honest x.1 → IsDamagedAt (D.seen disk) place)
            (D.is_honest x.1 → HasNoRoom (D.seen disk)) x.0) }
        ensures starved { IfErr result (λ x. x.0 ≡ Refusal.NoMemory → D.is_honest x.1 →
            HasHeader (D.seen disk)) }
        ensures unchanged { IfErr result
            (λ x. (x.0 ≡ Refusal.Fault → ⊥) → (x.0 ≡ Refusal.NoMemory → ⊥) →
            ReadsOnly D.seen D.may_leave D.moment D.left_since disk x.1) }
        ensures opened_at_most { IfErr result (λ x. x.0 ≡ Refusal.NoMemory →
            IsOpenedAtMost ⟦<D as Disk>⟧ disk x.1) }
        // What the device tells.
        ensures honest { IfOk result (λ o. D.is_honest o.keeper.disk → D.is_honest disk) }
        ensures honest_in_refusal { IfErr result (λ x. D.is_honest x.1 → D.is_honest disk) }
    {
        let (book, keeper) = open(alloc, disk)?;
        match Opened::over(alloc, book, keeper) {
            Ok(opened) => Ok(opened),
            Err((refusal, _book, keeper)) => Err((refusal, keeper.into_disk())),
        }
    }
}

impl<D: Disk, B: Coded> Opened<D, B> {
    /// The store of a book that was just opened, and of the keeper of its disk. Any collections
    /// will do that records tell of. It takes a few words of memory, and calls no device.
    ///
    /// NoMemory hands both back as they were.
    ///
    /// ```text
    /// let (book, keeper) = recovery::open(alloc, disk)?;
    /// let opened = Opened::over(alloc, book, keeper)?;
    /// ```
    pub fn over(
        alloc: Global,
        book: Book<B>,
        keeper: Keeper<D>,
    ) -> Result<Self, (Refusal, Book<B>, Keeper<D>)>
        requires book { book ≡ opened book.state.format book.state.now book.next book.state.wear }
        requires fresh { IsFresh keeper }
        ensures book { IfOk result (λ o. o.book ≡ told_book B.collections book) }
        ensures keeper { IfOk result (λ o. o.keeper ≡ keeper) }
        ensures refused { IfErr result (λ x. (x.0 ≡ Refusal.NoMemory) × (x.1 ≡ book) ×
            (x.2 ≡ keeper)) }
    {
        book.upheld();
        match Parts::new(alloc, book.next()) {
            Ok(parts) => Ok(Self {
                alloc,
                book,
                keeper,
                parts,
            }),
            Err(refusal) => Err((refusal, book, keeper)),
        }
    }

    /// The store, under its name, which the caller picks (see the crate's page). It takes no
    /// memory, calls no device and is never refused.
    pub fn named<J: Naming>(self) -> Store<D, J, B>
        requires { IsNamed ⟦<J as Naming>⟧ ⟦<D as Disk>⟧ self }
    {
        let Opened {
            alloc,
            book,
            keeper,
            parts,
        } = self;
        let Parts {
            line,
            seat,
            mark,
            kept,
            stopper,
            watcher,
            numbers,
            maker,
            handoff,
            sender,
            receiver,
            gathering,
            gathered_near,
            gathered_far,
            awaited,
            awaited_near,
            awaited_far,
            twins,
        } = parts;
        let Twins {
            twins,
            mut nears,
            fars,
        } = twins;
        let shared = Shared {
            line,
            mark,
            numbers,
            handoff,
            gathering,
            awaited,
            signal: Signal::new(),
            waiting: WaitQueue::new(),
            format: book.format(),
            of: PhantomData,
        };
        let extent = Extent::of(keeper.area());
        let (journal, shelves) = book.into_shelves();
        Store::new(
            Shelves::new(twins, &mut nears, fars, shelves),
            Desk::new(
                journal,
                nears,
                seat,
                sender,
                gathered_near,
                maker,
                watcher,
                extent,
            ),
            Vault::new(keeper, receiver, kept, awaited_near),
            Gatherer::new(alloc, gathered_far, awaited_far),
            Stopping::new(stopper),
            shared,
        )
    }
}
