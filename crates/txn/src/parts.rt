// A book as the collections that it is made of: opened and taken apart, made more of, gathered and
// measured.
ghost use Rattle.std.specs.Prelude.{◌≡◌, ◌≤◌, ◌<◌, OnOk, IfOk, IfErr, IsOkUnless, length};
ghost use Rattle.std.specs.List.{AllZip};
ghost use Rattle.calls.specs.Limits.{max_collections, number_end, max_wear};
ghost use Rattle.catalog.specs.Holdings.{Measures};
ghost use Rattle.catalog.specs.Places.{At};
ghost use Rattle.records.specs.Short.{AreShort};
ghost use Rattle.steps.specs.Machine.{IsSettled};
ghost use Rattle.images.specs.Gatherings.{GoesAlong};
ghost use Rattle.txn.specs.declared.actions.Action.{Action};
ghost use Rattle.txn.specs.Books.{opened, lsn, Takes, GoesOn, Notes};
ghost use Rattle.txn.specs.Freezing.{IsGatheredOf, BookGathers, FreezeAnswers};
ghost use Rattle.images.specs.Gatherings.{CanGoOn};
ghost use Rattle.txn.specs.Parts.{at_rest, IsCopy};
ghost use Rattle.txn.specs.Shelved.{IsBook};

use crate::{Book, Journal};
use boosted::Boosted;
use calls::{Format, Kind, Refusal};
use catalog::{Four, Measured, Part, Parts, Shelved};
use images::Gather;
use records::Coded;
use std::alloc::Global;
use steps::Shelf;

impl<B: Parts + Coded> Book<B> {
    /// A book of collections that were opened in a store of the format, with no live transaction
    /// and nothing pending. `next` is above every number that was entered before, and `wear` is
    /// what the collections are within.
    pub fn new(alloc: Global, format: Format, parts: B, next: u64, wear: u64) -> Self
        requires within { B.meaning.within parts wear }
        requires worn { wear ≤ max_wear }
        requires next { (1 ≤ next) × (next ≤ number_end) }
        requires short { AreShort format (B.collections parts) }
        requires few { length (B.making.names parts) ≤ max_collections }
        ensures { result ≡ opened format parts next wear }
    {
        let (names, shelves) = parts.apart();
        Self {
            shelves: shelved(alloc, shelves),
            journal: Journal::new(alloc, format, names, next, wear),
        }
    }

    /// The collections, where the book is no more needed.
    pub fn into_parts(self) -> B
        ensures { result ≡ self.state.now }
    {
        let (journal, shelves) = self.into_shelves();
        let Four {
            first,
            second,
            third,
            fourth,
        } = shelves;
        let held = Four {
            first: first.into_collections(),
            second: second.into_collections(),
            third: third.into_collections(),
            fourth: fourth.into_collections(),
        };
        B::together(journal.into_names(), held)
    }

    /// Makes an empty collection: a committed transaction of its own. Answers the count of commits
    /// and makes since the book was opened, this one included.
    ///
    /// Backlog at 16,384 pending records, then the refusals of `Parts::make`: BadName, TooLong,
    /// NameTaken, TooManyCollections, NoMemory. All but the last come before any memory is taken.
    pub fn make(&mut self, name: &str, kind: Kind) -> Result<u64, Refusal>
        ensures answer { Takes B.meaning B.making self.old (Action.Make name.now kind result)
            self.new }
        ensures settled { OnOk result ((c : B) → IsSettled B.meaning self.old.state c →
            (d : B) × B.making.makes c name.now kind d × IsSettled B.meaning self.new.state d) }
        ensures goes { OnOk result (GoesOn B.meaning B.making B.collections self.old self.new) }
        ensures notes { OnOk result (Notes B.meaning self.old (Action.Make name.now kind result)
            self.new) }
    {
        let Self { shelves, journal } = self;
        let shelf = shelves.of_mut((journal.count() % 4) as u8);
        journal.make(shelf, name, kind)
    }

    /// Goes on with a gathering of the book, one collection at a time: copies the next one by
    /// rising number, if one is left, and hands over the calls that were run on the collections
    /// since the last copy. Answers whether a collection is not copied yet. What is new begins a
    /// gathering, which replaces one that is under way. The book is as before but for what it
    /// notes.
    ///
    /// From the first copy on the calls of each step are noted: a call's, the one that takes
    /// another back, and each that a commit runs. A step with which there are more than 16,384
    /// gives the gathering up, and goes on.
    ///
    /// It takes time and memory in proportion to what the one collection holds.
    ///
    /// Outrun where the gathering is not under way: it was given up, replaced or frozen. Worn where
    /// 2^61 were begun, and another would be. NoMemory. Each changes nothing.
    pub fn gather(&mut self, gather: &mut Gather<B::Part>) -> Result<bool, Refusal>
        requires { IsGatheredOf B.collections self.old gather.old }
        ensures answer { BookGathers B.collections self.old gather.old result self.new gather.new }
        ensures along { OnOk result (GoesAlong B.collections self.new.gathering self.new.state.now
            (lsn self.new) gather.new) }
    {
        let part = next_part(&self.journal, &self.shelves, gather);
        self.journal.gather(part, gather)
    }

    /// Ends the gathering of the book, all collections of which are copied: hands over the rest of
    /// the calls, and notes beside them the live transactions with what they asked for, but for
    /// what a falling one deferred. What is gathered holds all of the book then, and is packed by
    /// itself. It marks the LSN behind the last record, which the image covers too: no block that
    /// `cut` hands over from now on holds records from both sides of it. Nothing else is changed.
    ///
    /// It takes time and memory in proportion to what the live transactions asked for.
    ///
    /// Unfinished for what is new. Outrun as `gather` says. Unfinished where a collection is not
    /// copied. NoMemory. Each changes nothing.
    pub fn freeze(&mut self, gather: &mut Gather<B::Part>) -> Result<(), Refusal>
        requires { IsGatheredOf B.collections self.old gather.old }
        ensures answer { FreezeAnswers B.collections self.old gather.old result self.new
            gather.new }
    {
        self.journal.freeze(gather)
    }

    /// How large each collection is, in the order of making. It takes memory for their names and
    /// for the list, and the time of as many names. This is no step.
    ///
    /// NoMemory alone is refused.
    pub fn measure(&self, alloc: Global) -> Result<Vec<Measured>, Refusal>
        ensures all { IfOk result (λ all. AllZip Measures (B.collections self.now.state.now)
            all.items) }
        ensures refusal { IsOkUnless result Refusal.NoMemory }
    {
        let mut all = Vec::new(alloc);
        for at in 0..self.journal.count() {
            all.push(self.measured(at as u8)?)?;
        }
        Ok(all)
    }

    // How large the collection of the number is, which is there.
    fn measured(&self, at: u8) -> Result<Measured, Refusal>
        requires { at < length (B.collections self.now.state.now) }
        ensures ok { IfOk result (λ measured. At (λ x. Measures x measured)
            (B.collections self.now.state.now) at) }
        ensures refusal { IsOkUnless result Refusal.NoMemory }
    {
        self.journal.measured(self.shelves.of(at), at)
    }
}

// Shelves with no need held on them. It takes no memory.
fn shelved<C: Boosted<At = u8>>(alloc: Global, shelves: Four<C>) -> Four<Shelf<C>>
    ensures { result ≡ at_rest shelves }
{
    let Four {
        first,
        second,
        third,
        fourth,
    } = shelves;
    Four {
        first: Shelf::new(alloc, first),
        second: Shelf::new(alloc, second),
        third: Shelf::new(alloc, third),
        fourth: Shelf::new(alloc, fourth),
    }
}

// A copy of the collection that `Journal::gather` wants next, if it wants one. NoMemory alone is
// refused.
fn next_part<B: Parts + Coded>(
    journal: &Journal<B>,
    shelves: &Four<Shelf<B::Shelf>>,
    gather: &Gather<B::Part>,
) -> Result<Option<B::Part>, Refusal>
    requires { IsBook B.meaning B.making B.collections B.whole B.fits journal.now shelves.now }
    ensures copied { CanGoOn journal.now.gathering gather.now → IfOk result
        (IsCopy B.Names.labels B.Shelf.holds B.Part.collection journal.now.names shelves.now
        (length gather.now.parts)) }
    ensures refusal { IfErr result (λ e. e ≡ Refusal.NoMemory) }
{
    let Some((at, name)) = journal.next_copy(gather) else {
        return Ok(None);
    };
    let part = shelves.of(at).collections().copy(at, name)?;
    Ok(Some(part))
}
