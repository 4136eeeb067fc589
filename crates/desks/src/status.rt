// How an open store stands.
ghost use Rattle.std.specs.Prelude.{◌≡◌, IfOk, IsOkUnless};
ghost use Rattle.std.specs.List.{AllZip};
ghost use Rattle.std.specs.Sync.Mutex.{mutex_guard_value};
ghost use Rattle.calls.specs.declared.refusal.Refusal.{Refusal};
ghost use Rattle.catalog.specs.declared.four.Four.{Four};
ghost use Rattle.catalog.specs.Fours.{Which, which_of, pick};
ghost use Rattle.catalog.specs.Holdings.{Measures};
ghost use Rattle.steps.specs.Shelves.{ShelfState};
ghost use Rattle.steps.specs.Wholes.{contents};
ghost use Rattle.txn.specs.Shelved.{book_state, IsBook, IsJournal};
ghost use Rattle.desks.specs.Statuses.{IsStatusOf};
ghost use Rattle.desks.specs.Told.{told_book};
ghost use Rattle.desks.specs.Touches.{Leads};

use crate::budget::Fill;
use crate::counts::Counts;
use crate::desk::Desk;
use crate::extent::Extent;
use crate::naming::Naming;
use crate::quarter::Quarter;
use crate::shared::Shared;
use crate::shelf_desk::ShelfDesk;
use crate::shelves::{HeldAll, Shelves};
use crate::touch::Touch;
use calls::{Format, Refusal};
use catalog::{Four, Measured, Parts};
use group_commit::{Twin, TwinNear};
use records::Coded;
use std::alloc::Global;
use std::fmt;
use std::sync::MutexGuard;
use steps::Shelf;
use txn::Journal;

/// How an open store stands: what its book holds now, how far its area in use was filled when its
/// committer last said so, and how full it is.
#[derive(Drop)]
pub struct Status {
    /// The format of the store.
    pub format: Format,
    /// How far the area in use is filled.
    pub extent: Extent,
    /// How full the store is.
    pub fill: Fill,
    /// How many transactions have not ended, of those that have made a call.
    pub live: usize,
    /// How many records wait for a block.
    pub waiting: usize,
    /// A number above every number that was entered.
    pub next: u64,
    /// How often anything was entered, called, deferred, run in a commit or undone over the store's
    /// life, up to 2^61.
    pub wear: u64,
    /// What was done since the store was opened.
    pub counts: Counts,
    /// How large each collection is, in the order of making.
    pub collections: Vec<Measured>,
}

impl Status {
    /// How the book stands that a journal and these shelves are, where the area in use is filled so
    /// far, and the store so full. It takes memory for the names of the collections, and the time
    /// of as many names.
    ///
    /// NoMemory alone is refused.
    pub fn of<B: Coded>(
        alloc: Global,
        journal: &Journal<B>,
        shelves: &Four<&Shelf<B::Shelf>>,
        extent: Extent,
        fill: Fill,
        counts: Counts,
    ) -> Result<Self, Refusal>
        requires kept { IsJournal B.meaning B.making B.collections B.whole B.fits journal.now }
        ensures told { (f : Four (ShelfState B.Shelf)) →
            IsBook B.meaning B.making B.collections B.whole B.fits journal.now f →
            ((w : Which) → (pick shelves.now w).now ≡ pick f w) →
            IfOk result (IsStatusOf (told_book B.collections (book_state B.whole journal.now f))
            extent fill counts) }
        ensures refusal { (f : Four (ShelfState B.Shelf)) →
            IsBook B.meaning B.making B.collections B.whole B.fits journal.now f →
            ((w : Which) → (pick shelves.now w).now ≡ pick f w) →
            IsOkUnless result Refusal.NoMemory }
    {
        Ok(Self {
            format: journal.format(),
            extent,
            fill,
            live: journal.count_live(),
            waiting: journal.waiting(),
            next: journal.next(),
            wear: journal.wear(),
            counts,
            collections: measure(alloc, journal, shelves)?,
        })
    }

    // The numbers that are told behind the format, with their names.
    fn numbers(&self) -> [(&'static str, u64); 14] {
        [
            ("area", self.extent.area),
            ("in_use", u64::from(!self.extent.first)),
            ("used", self.extent.used),
            ("checkpoint", self.fill.checkpoint),
            ("full", self.fill.full),
            ("live", self.live as u64),
            ("waiting", self.waiting as u64),
            ("next", self.next),
            ("wear", self.wear),
            ("commits", self.counts.commits),
            ("aborts", self.counts.aborts),
            ("blocks", self.counts.blocks),
            ("checkpoints", self.counts.checkpoints),
            ("sleeping", self.counts.sleeping),
        ]
    }
}

/// One line, without its line feed: names with their values, a semicolon and a space between two;
/// each kind of which calls were refused Busy, with how many; and each collection with its kind,
/// its name and how many items it has.
impl fmt::Display for Status {
    fn fmt<W: fmt::Write>(&self, f: &mut fmt::Formatter<W>) -> fmt::Result {
        write!(f, "format {}", self.format.number())?;
        for (name, number) in self.numbers() {
            write!(f, "; {name} {number}")?;
        }
        for (kind, count) in self.counts.each_busy() {
            if count > 0 {
                write!(f, "; busy {kind} {count}")?;
            }
        }
        for Measured { kind, name, items } in &self.collections {
            write!(f, "; collection {kind} {} {items}", name.as_str())?;
        }
        Ok(())
    }
}

impl<J: Naming, B: Coded> Desk<J, B> {
    /// How the store stands: the book now, and the area in use as `cut_within` was last told, or as
    /// the store was opened. It takes memory for the names of the collections, and the time of as
    /// many names.
    ///
    /// NoMemory alone is refused.
    pub fn status(
        &mut self,
        alloc: Global,
        shelves: &Shelves<J, B>,
        shared: &Shared<J>,
        held: &mut HeldAll<'_, J, B>,
    ) -> Result<Status, Refusal>
        ensures { IsOkUnless result Refusal.NoMemory }
    {
        let Self {
            journal,
            nears,
            extent,
            budget,
            counts,
            ..
        } = self;
        compare(&shelves.twins.first, &mut nears.first, &mut held.first);
        compare(&shelves.twins.second, &mut nears.second, &mut held.second);
        compare(&shelves.twins.third, &mut nears.third, &mut held.third);
        compare(&shelves.twins.fourth, &mut nears.fourth, &mut held.fourth);
        let four = Four {
            first: shelf_of(&held.first),
            second: shelf_of(&held.second),
            third: shelf_of(&held.third),
            fourth: shelf_of(&held.fourth),
        };
        let counts = counts.with_sleeping(shared.waiting.count());
        Status::of(alloc, journal, &four, *extent, budget.fill(), counts)
    }
}

// How large each collection is, in the order of making.
fn measure<B: Coded>(
    alloc: Global,
    journal: &Journal<B>,
    shelves: &Four<&Shelf<B::Shelf>>,
) -> Result<Vec<Measured>, Refusal>
    requires kept { IsJournal B.meaning B.making B.collections B.whole B.fits journal.now }
    ensures all { (f : Four (ShelfState B.Shelf)) →
        IsBook B.meaning B.making B.collections B.whole B.fits journal.now f →
        ((w : Which) → (pick shelves.now w).now ≡ pick f w) →
        IfOk result (λ all. AllZip Measures
        (B.collections (B.whole journal.now.names (contents f))) all.items) }
    ensures refusal { (f : Four (ShelfState B.Shelf)) →
        IsBook B.meaning B.making B.collections B.whole B.fits journal.now f →
        ((w : Which) → (pick shelves.now w).now ≡ pick f w) →
        IsOkUnless result Refusal.NoMemory }
{
    let mut all = Vec::new(alloc);
    for at in 0..journal.count() {
        let place = at as u8;
        all.push(journal.measured(shelves.of(place), place)?)?;
    }
    Ok(all)
}

// The near end knows what the shelf holds.
fn compare<J: Naming, B: Coded, Q: Quarter>(
    twin: &Twin<Touch<Shelf<B::Shelf>>>,
    near: &mut TwinNear<Touch<Shelf<B::Shelf>>>,
    held: &mut MutexGuard<'_, ShelfDesk<J, B, Q>>,
)
    requires twin { twin.now ≡ pick J.shelves Q.which }
    requires near { near.old.table ≡ twin.now }
    ensures near { near.new ≡ near.old }
    ensures known { Leads near.old (mutex_guard_value held.new) }
{
    held.compare(twin, near);
}

// The shelf that is held.
fn shelf_of<'h, J: Naming, B: Coded, Q: Quarter>(
    held: &'h MutexGuard<'_, ShelfDesk<J, B, Q>>,
) -> &'h Shelf<B::Shelf>
    ensures { result.now ≡ mutex_guard_value held.now }
{
    held.shelf()
}
