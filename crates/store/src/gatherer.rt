// What is gathered of the book for an image, up to where the keeper begins it.
ghost use Rattle.std.specs.Prelude.{◌≡◌, ◌≢◌, ◌<◌, ◌⊎◌, ◌↔◌, None, Some, Err, OnOk, OnErr, IfOk};
ghost use Rattle.std.specs.Prelude.{IfErr, IsNone, slice_get, IsSome, IsTrue, IfSome, IfNone};
ghost use Rattle.std.specs.Prelude.{Result, length, string_bytes};
ghost use Rattle.std.specs.Option.{option_map};
ghost use Rattle.calls.specs.Names.{IsName};
ghost use Rattle.calls.specs.declared.refusal.Refusal.{Refusal};
ghost use Rattle.catalog.specs.declared.four.Four.{Four};
ghost use Rattle.catalog.specs.Fours.{which_of};
ghost use Rattle.catalog.specs.Shelving.{CopyRefused};
ghost use Rattle.steps.specs.Shelves.{ShelfState};
ghost use Rattle.images.specs.Gathers.{GatherState, Packs};
ghost use Rattle.images.specs.Gatherings.{CanGoOn};
ghost use Rattle.txn.specs.declared.actions.Action.{Action};
ghost use Rattle.txn.specs.Freezing.{IsGatheredOf};
ghost use Rattle.txn.specs.Parts.{IsCopy};
ghost use Rattle.txn.specs.Shelved.{book_state, IsBook};
ghost use Rattle.images.specs.Gathers.{nothing_gathered};
ghost use Rattle.group_commit.specs.Lines.{stepped};
ghost use Rattle.group_commit.specs.Orders.{SenderState, noting, noting_too};
ghost use Rattle.group_commit.specs.Twins.{EndState};
ghost use Rattle.desks.specs.declared.touch.Touch.{Touch};
ghost use Rattle.desks.specs.Notes.{alone};
ghost use Rattle.desks.specs.Told.{told_book};
ghost use Rattle.desks.specs.Touches.{IsJournalDesk};
ghost use Rattle.store.specs.Gatherers.{IsKnown, IsGivenTo, as_next, Froze, left_gathered};
ghost use Rattle.store.specs.Turns.{CheckTells, FailsWith, IsPrepared, IsCheckRefusal};
ghost use Rattle.store.specs.Turns.{IsCopyRefusal, IsFreezeRefusal};

use crate::checkpointing::Checkpoint;
use crate::vault::{Vault, failure_told};
use calls::Refusal;
use catalog::{Part, Shelved};
use checkpoint::Keeper;
use desks::{
    Desk, Lock, Naming, Order, Quarter, Ranked, Shared, ShelfDesk, Shelves, lock_next, note_alone,
};
use disk_model::Disk;
use engine::{give_up_outrun, hold_frozen, pack};
use group_commit::{Accord, BookSeat, Far, Handoff, Near, OneGather, Receiver, Sender, Watcher};
use images::Gather;
use records::{Coded, Image};
use replay::blocks_len;
use std::alloc::Global;
use std::marker::{Brand, Model, PhantomData};
use std::mem;
use std::snapshot::Snapshot;
use std::sync::{Mutex, Wait};
use txn::Journal;

/// What is gathered of the book, with the far ends of what the journal's side and the keeper's know
/// of it. It belongs to the store, so whichever checkpointer takes the next turn goes on with it.
/// Contracts see all three.
#[derive(Drop)]
pub(crate) struct Gatherer<J: Naming, B: Coded> {
    alloc: Global,
    gather: Gather<B::Part>,
    // Whether the last gather left no collection to copy.
    is_whole: bool,
    // How many records the undoing takes of what was live at the freeze.
    undoing: u64,
    of_book: Far,
    of_keeper: Far,
    of: PhantomData<J>,
}

// The collection that is copied next, by its number, with its name.
#[derive(Drop)]
struct Next {
    at: u8,
    name: String,
}

impl<J: Naming, B: Coded> Model for Gatherer<J, B> {
    ghost use Rattle.std.specs.Coded.{codes};
    ghost use Rattle.catalog.specs.Holdings.{collection_code};
    ghost use Rattle.store.specs.Gatherers.{GathererState, IsGatherer};

    ghost Value = { GathererState };

    ghost coded = { Prim.hlevel (codes, collection_code) };

    ghost view = { λ g. record {
      gather = g.gather;
      of_book = g.of_book;
      of_keeper = g.of_keeper;
    } };

    ghost invariant = { λ g. IsGatherer ⟦<J as Naming>⟧ (record {
      gather = g.gather;
      of_book = g.of_book;
      of_keeper = g.of_keeper;
    }) };
}

impl<J: Naming, B: Coded> Ranked for Gatherer<J, B> {
    ghost level = { 1 };

    fn level() -> u8 {
        1
    }
}

impl<J: Naming, B: Coded> Gatherer<J, B> {
    /// Nothing is gathered. It takes no memory.
    pub(crate) fn new(alloc: Global, of_book: Far, of_keeper: Far) -> Self
        requires book { of_book ≡ record { table = J.gathering; gather = nothing_gathered } }
        requires keeper { of_keeper ≡ record { table = J.awaited; gather = nothing_gathered } }
    {
        Self {
            alloc,
            gather: Gather::new(alloc),
            is_whole: false,
            undoing: 0,
            of_book,
            of_keeper,
            of: PhantomData,
        }
    }

    /// Takes the next step towards an image: packs what is frozen, and begins the image; else
    /// freezes the book, where all collections are copied; else copies the next one. A freeze in
    /// whose way an image is that another checkpointer has begun meanwhile is given up, and the
    /// first collection is copied again.
    ///
    /// Of a copy Outrun, Worn, NoMemory; of a freeze Outrun, NoMemory, Failed; of what is packed
    /// NoMemory, Failed, Full where the image and the undoing of what was live at the freeze do not
    /// fit into an area. NoMemory leaves what is gathered, and the step can be taken again. With
    /// each other refusal it is given up, and the next step begins anew.
    pub(crate) fn turn<D: Disk, R: Wait>(
        &mut self,
        rt: &R,
        shared: &Shared<J>,
        shelves: &Shelves<J, B>,
        desk: &Lock<Desk<J, B>>,
        vault: &Mutex<Vault<D, J>>,
        watcher: &mut Watcher,
        order: Order,
    ) -> Result<Checkpoint, Refusal>
        requires watcher { watcher.old.table ≡ J.mark }
        requires order { order < 2 }
        ensures tells { CheckTells watcher.old result watcher.new }
        ensures prepared { IfOk result IsPrepared }
        ensures refused { IfErr result IsCheckRefusal }
    {
        if self.gather.image_head().is_some() {
            return self.pack(rt, shared, vault, watcher, order);
        }
        if let Some(frozen) = self.freeze_whole(rt, shared, shelves, desk, vault, watcher, order) {
            return frozen;
        }
        self.copy(rt, shared, shelves, desk, order)
    }

    // Freezes the book where all collections are copied. None where they are not, or a gathering is
    // to go on all the same.
    fn freeze_whole<D: Disk, R: Wait>(
        &mut self,
        rt: &R,
        shared: &Shared<J>,
        shelves: &Shelves<J, B>,
        desk: &Lock<Desk<J, B>>,
        vault: &Mutex<Vault<D, J>>,
        watcher: &mut Watcher,
        order: Order,
    ) -> Option<Result<Checkpoint, Refusal>>
        requires order { order < 2 }
        requires watcher { watcher.old.table ≡ J.mark }
        requires unfrozen { self.old.gather.frozen ≡ None }
        ensures tells { IfSome result (λ r. CheckTells watcher.old r watcher.new) }
        ensures prepared { IfSome result (λ r. IfOk r IsPrepared) }
        ensures refused { IfSome result (λ r. IfErr r IsCheckRefusal) }
        ensures none { IfNone result (watcher.new ≡ watcher.old) }
        ensures unfrozen { IfNone result (self.new.gather.frozen ≡ None) }
    {
        if !mem::replace(&mut self.is_whole, false) {
            return None;
        }
        match self.freeze(rt, shared, shelves, desk, vault, watcher, order) {
            Err(refusal) if goes_on(refusal) => None,
            frozen => Some(frozen),
        }
    }

    // Copies the next collection, and repeats on the copies what was run behind them under no lock
    // that clients take.
    fn copy<R: Wait>(
        &mut self,
        rt: &R,
        shared: &Shared<J>,
        shelves: &Shelves<J, B>,
        desk: &Lock<Desk<J, B>>,
        order: Order,
    ) -> Result<Checkpoint, Refusal>
        requires unfrozen { self.old.gather.frozen ≡ None }
        requires order { order < 3 }
        ensures prepared { IfOk result IsPrepared }
        ensures refused { IfErr result IsCopyRefusal }
    {
        match self.copy_next(rt, shared, shelves, desk, order) {
            Ok(more) => {
                self.is_whole = !more;
                self.gather.catch_up()?;
                Ok(Checkpoint::Gathered)
            }
            Err(refusal) => {
                give_up_outrun(self.alloc, refusal, &mut self.gather);
                Err(refusal)
            }
        }
    }

    // Finds the next collection, if one is left, under the journal's lock, and copies it under its
    // shelf's and the journal's: the refusals of `Journal::gather`. The journal's side knows what
    // is gathered then.
    fn copy_next<R: Wait>(
        &mut self,
        rt: &R,
        shared: &Shared<J>,
        shelves: &Shelves<J, B>,
        desk: &Lock<Desk<J, B>>,
        order: Order,
    ) -> Result<bool, Refusal>
        requires unfrozen { self.old.gather.frozen ≡ None }
        requires order { order < 3 }
        ensures unfrozen { self.new.gather.frozen ≡ None }
        ensures refused { IfErr result IsCopyRefusal }
    {
        let mut finding = order;
        let found = self.find_next(shared, &mut desk.lock(rt, &mut finding));
        match found {
            Ok(next) => self.copy_at(rt, shared, shelves, desk, &next, order),
            Err(gathered) => gathered,
        }
    }

    // The collection that is to be copied next. Where none is, or there is no memory for its name,
    // the step is taken here, without a copy.
    fn find_next(
        &mut self,
        shared: &Shared<J>,
        desk: &mut Desk<J, B>,
    ) -> Result<Next, Result<bool, Refusal>>
        requires { self.old.gather.frozen ≡ None }
        ensures same { OnOk result (self.new ≡ self.old) }
        ensures number { IfOk result (λ next. next.at ≡ length self.new.gather.parts) }
        ensures found { IfOk result (λ next. slice_get desk.new.names next.at ≡
            Some (string_bytes next.name)) }
        ensures name { IfOk result (λ next. IsName (string_bytes next.name)) }
        ensures unfrozen { self.new.gather.frozen ≡ None }
        ensures refused { IfErr result (λ r. IfErr r IsCopyRefusal) }
    {
        match next_of(&desk.journal, &self.gather) {
            Ok(next) => Ok(next),
            Err(part) => Err(gather_part(
                shared,
                &mut desk.journal,
                &mut desk.seat,
                &mut desk.near,
                part,
                &mut self.gather,
                &mut self.of_book,
            )),
        }
    }

    // Copies the collection under the lock of its shelf.
    fn copy_at<R: Wait>(
        &mut self,
        rt: &R,
        shared: &Shared<J>,
        shelves: &Shelves<J, B>,
        desk: &Lock<Desk<J, B>>,
        next: &Next,
        order: Order,
    ) -> Result<bool, Refusal>
        requires order { order < 3 }
        requires number { next.now.at ≡ length self.old.gather.parts }
        requires name { IsName (string_bytes next.now.name) }
        requires unfrozen { self.old.gather.frozen ≡ None }
        ensures unfrozen { self.new.gather.frozen ≡ None }
        ensures refused { IfErr result IsCopyRefusal }
    {
        if next.at % 4 == 0 {
            return self.copy_on(rt, shared, shelves, &shelves.first, desk, next, order);
        }
        if next.at % 4 == 1 {
            return self.copy_on(rt, shared, shelves, &shelves.second, desk, next, order);
        }
        if next.at % 4 == 2 {
            return self.copy_on(rt, shared, shelves, &shelves.third, desk, next, order);
        }
        self.copy_on(rt, shared, shelves, &shelves.fourth, desk, next, order)
    }

    // Copies the collection under the lock of this shelf, once those who wait for it have had it.
    // The journal's lock is taken behind that. Where the number is another collection's by then, it
    // is copied under both.
    fn copy_on<Q: Quarter, R: Wait>(
        &mut self,
        rt: &R,
        shared: &Shared<J>,
        shelves: &Shelves<J, B>,
        shelf: &Lock<ShelfDesk<J, B, Q>>,
        desk: &Lock<Desk<J, B>>,
        next: &Next,
        order: Order,
    ) -> Result<bool, Refusal>
        requires order { order < 3 }
        requires place { which_of next.now.at ≡ Q.which }
        requires number { next.now.at ≡ length self.old.gather.parts }
        requires name { IsName (string_bytes next.now.name) }
        requires unfrozen { self.old.gather.frozen ≡ None }
        ensures unfrozen { self.new.gather.frozen ≡ None }
        ensures refused { IfErr result IsCopyRefusal }
    {
        shelf.give_way(rt);
        let mut order = order;
        let mut held = shelf.lock(rt, &mut order);
        let part = held.copy(next.at, &next.name);
        let mut desk = desk.lock(rt, &mut order);
        match self.gather_copy(shared, shelves, &mut held, &mut desk, next, part) {
            Some(copied) => copied,
            None => self.copy_held(shared, shelves, &mut held, &mut desk),
        }
    }

    // Finds the next collection, which is on the shelf that is held, and copies it, under both
    // locks.
    fn copy_held<Q: Quarter>(
        &mut self,
        shared: &Shared<J>,
        shelves: &Shelves<J, B>,
        held: &mut ShelfDesk<J, B, Q>,
        desk: &mut Desk<J, B>,
    ) -> Result<bool, Refusal>
        requires place { which_of (length self.old.gather.parts) ≡ Q.which }
        requires unfrozen { self.old.gather.frozen ≡ None }
        ensures unfrozen { self.new.gather.frozen ≡ None }
        ensures refused { IfErr result IsCopyRefusal }
    {
        let next = match self.find_next(shared, desk) {
            Ok(next) => next,
            Err(gathered) => return gathered,
        };
        let part = held.copy(next.at, &next.name);
        match self.gather_copy(shared, shelves, held, desk, &next, part) {
            Some(copied) => copied,
            None => unreachable!(),
        }
    }

    // Goes on with the copy of a collection of the shelf that is held. None, with nothing changed,
    // where the collection does not have the number.
    fn gather_copy<Q: Quarter>(
        &mut self,
        shared: &Shared<J>,
        shelves: &Shelves<J, B>,
        held: &mut ShelfDesk<J, B, Q>,
        desk: &mut Desk<J, B>,
        next: &Next,
        part: Result<B::Part, Refusal>,
    ) -> Option<Result<bool, Refusal>>
        requires place { which_of next.now.at ≡ Q.which }
        requires number { next.now.at ≡ length self.old.gather.parts }
        requires copied { IfOk part (λ p. B.Shelf.holds held.old.now next.now.at
            (B.Part.collection p).content) }
        requires name { IfOk part (λ p. (B.Part.collection p).name ≡ string_bytes next.now.name) }
        requires refused { IfErr part (CopyRefused (B.Shelf.holds held.old.now next.now.at)) }
        requires unfrozen { self.old.gather.frozen ≡ None }
        ensures unfrozen { self.new.gather.frozen ≡ None }
        ensures refused { IfSome result (λ r. IfErr r IsCopyRefusal) }
        ensures none { IsNone result → self.new ≡ self.old }
        ensures there { slice_get desk.old.names next.now.at ≡ Some (string_bytes next.now.name) →
            IsSome result }
    {
        if !desk.journal.is_at(&next.name, next.at) {
            return None;
        }
        let twin = shelves.twins.of(next.at);
        let near = desk.nears.of_mut(next.at);
        held.compare(twin, near);
        Some(gather_part(
            shared,
            &mut desk.journal,
            &mut desk.seat,
            &mut desk.near,
            as_next(part),
            &mut self.gather,
            &mut self.of_book,
        ))
    }

    // Freezes the book under the locks of the keeper, of all shelves and of the journal, and holds
    // the end of its image. Where the keeper has failed, the failed flag is set.
    fn freeze<D: Disk, R: Wait>(
        &mut self,
        rt: &R,
        shared: &Shared<J>,
        shelves: &Shelves<J, B>,
        desk: &Lock<Desk<J, B>>,
        vault: &Mutex<Vault<D, J>>,
        watcher: &mut Watcher,
        order: Order,
    ) -> Result<Checkpoint, Refusal>
        requires order { order < 2 }
        requires watcher { watcher.old.table ≡ J.mark }
        requires unfrozen { self.old.gather.frozen ≡ None }
        ensures tells { CheckTells watcher.old result watcher.new }
        ensures prepared { IfOk result IsPrepared }
        ensures refused { IfErr result IsFreezeRefusal }
        ensures unfrozen { OnErr result (self.new.gather.frozen ≡ None) }
    {
        let mut order = order;
        let mut vault = lock_next(rt, vault, &mut order);
        let _held = shelves.lock_all(rt, &mut order);
        let mut desk = desk.lock(rt, &mut order);
        let frozen = freeze(
            self.alloc,
            shared,
            &mut desk,
            &mut vault,
            watcher,
            &mut self.gather,
            &mut self.of_book,
            &mut self.of_keeper,
        );
        match frozen {
            Ok(()) => {
                self.undoing = desk.undoing();
                desk.note_freeze(self.undoing);
                Ok(Checkpoint::Frozen)
            }
            Err(refusal) => Err(refusal),
        }
    }

    // Packs what is frozen under no lock, and begins the image under the keeper's, where the
    // undoing of what was live at the freeze fits behind it.
    fn pack<D: Disk, R: Wait>(
        &mut self,
        rt: &R,
        shared: &Shared<J>,
        vault: &Mutex<Vault<D, J>>,
        watcher: &mut Watcher,
        order: Order,
    ) -> Result<Checkpoint, Refusal>
        requires order { order < 2 }
        requires watcher { watcher.old.table ≡ J.mark }
        requires frozen { IsSome self.old.gather.frozen }
        ensures tells { CheckTells watcher.old result watcher.new }
        ensures prepared { IfOk result IsPrepared }
        ensures refused { IfErr result IsCheckRefusal }
    {
        let image = pack(self.alloc, &mut self.gather)?;
        let mut order = order;
        begin(
            shared,
            &mut lock_next(rt, vault, &mut order),
            watcher,
            &mut self.of_keeper,
            image,
            blocks_len(self.undoing),
        )?;
        Ok(Checkpoint::Packed)
    }
}

// Whether a gathering goes on behind a freeze that was refused so: a collection is left to copy, or
// an image is in progress.
fn goes_on(refusal: Refusal) -> bool
    ensures { IsTrue result ↔ ((refusal ≡ Refusal.Unfinished) ⊎ (refusal ≡ Refusal.Imaging)) }
{
    matches!(refusal, Refusal::Unfinished | Refusal::Imaging)
}

// The collection that is to be copied next. Else what is gone on with in place of a copy: none
// where none is to be copied, NoMemory where there was none for the name.
fn next_of<B: Coded>(
    journal: &Journal<B>,
    gather: &Gather<B::Part>,
) -> Result<Next, Result<Option<B::Part>, Refusal>>
    ensures number { IfOk result (λ next. next.at ≡ length gather.now.parts) }
    ensures found { IfOk result (λ next. option_map (λ x. x.name)
        (slice_get (B.Names.labels journal.now.names) next.at) ≡ Some (string_bytes next.name)) }
    ensures name { IfOk result (λ next. IsName (string_bytes next.name)) }
    ensures copied { IfErr result (λ part. (f : Four (ShelfState B.Shelf)) →
        CanGoOn journal.now.gathering gather.now → IfOk part (IsCopy B.Names.labels B.Shelf.holds
        B.Part.collection journal.now.names f (length gather.now.parts))) }
    ensures refused { IfErr result (λ part. IfErr part (λ e. e ≡ Refusal.NoMemory)) }
{
    let Some((at, name)) = journal.next_copy(gather) else {
        return Err(Ok(None));
    };
    match name.clone() {
        Ok(name) => Ok(Next { at, name }),
        Err(_) => Err(Err(Refusal::NoMemory)),
    }
}

// A copy, as what is gathered is gone on with.
fn as_next<P>(copied: Result<P, Refusal>) -> Result<Option<P>, Refusal>
    ensures { result ≡ as_next copied }
{
    copied.map(Some)
}

// Goes on with what is gathered by the part, a step of no client: the refusals of
// `Journal::gather`. The journal's side knows what is gathered then.
fn gather_part<J: Naming, B: Coded>(
    shared: &Shared<J>,
    journal: &mut Journal<B>,
    seat: &mut BookSeat,
    near: &mut Near,
    part: Result<Option<B::Part>, Refusal>,
    gather: &mut Gather<B::Part>,
    far: &mut Far,
) -> Result<bool, Refusal>
    requires given { (nears : Four (EndState (Touch (ShelfState B.Shelf)))) ×
        (sender : SenderState) × IsGivenTo ⟦<J as Naming>⟧ B.Names.labels B.Shelf.holds
        B.Part.collection B.meaning B.making B.collections B.whole B.fits journal.old nears seat.old
        sender near.old gather.old part }
    requires table { far.old.table ≡ J.gathering }
    requires known { IsKnown far.old gather.old }
    requires unfrozen { gather.old.frozen ≡ None }
    ensures desk { (nears : Four (EndState (Touch (ShelfState B.Shelf)))) (sender : SenderState) →
        IsGivenTo ⟦<J as Naming>⟧ B.Names.labels B.Shelf.holds B.Part.collection B.meaning B.making
        B.collections B.whole B.fits journal.old nears seat.old sender near.old gather.old part →
        IsJournalDesk ⟦<J as Naming>⟧ B.meaning B.making B.collections B.whole B.fits journal.new
        nears seat.new sender near.new }
    ensures seat { seat.new ≡ stepped seat.old (alone (Action.Gather result)) }
    ensures far { far.new ≡ record { table = J.gathering; gather = gather.new } }
    ensures unfrozen { gather.new.frozen ≡ None }
    ensures refused { IfErr result IsCopyRefusal }
{
    shared.gathering.compare(near, far);
    let copied = journal.gather(part, gather);
    agree::<Brand, _>(&shared.gathering, near, far, &Snapshot::of(gather));
    note_alone::<Brand, _>(&shared.line, seat, &copied);
    copied
}

// Freezes the book, a step of no client, and holds the end of its image: the refusals of
// `Journal::freeze`, then those of `Keeper::hold`. No block behind the freeze is kept before the
// end is held, as the locks of both are. Both ends of the hand-off note what is frozen, and the
// keeper's side knows it. No device is called.
fn freeze<D: Disk, J: Naming, B: Coded>(
    alloc: Global,
    shared: &Shared<J>,
    desk: &mut Desk<J, B>,
    vault: &mut Vault<D, J>,
    watcher: &mut Watcher,
    gather: &mut Gather<B::Part>,
    of_book: &mut Far,
    of_keeper: &mut Far,
) -> Result<(), Refusal>
    requires watcher { watcher.old.table ≡ J.mark }
    requires book { of_book.old.table ≡ J.gathering }
    requires keeper { of_keeper.old.table ≡ J.awaited }
    requires known { IsKnown of_book.old gather.old }
    requires unfrozen { gather.old.frozen ≡ None }
    ensures watcher { FailsWith watcher.old result watcher.new }
    ensures book { of_book.new ≡ of_book.old }
    ensures ok { OnOk result ((gather.new.frozen ≢ None) ×
        (of_keeper.new ≡ record { table = J.awaited; gather = gather.new })) }
    ensures err { OnErr result ((of_keeper.new ≡ of_keeper.old) ×
        (gather.new.frozen ≡ None) ×
        ((gather.new ≡ gather.old) ⊎ (gather.new ≡ nothing_gathered))) }
    ensures refused { IfErr result IsFreezeRefusal }
{
    shared.gathering.compare(&mut desk.near, of_book);
    shared
        .handoff
        .compare(&mut desk.sender, &mut vault.receiver);
    let frozen = freeze_journal(alloc, &mut desk.journal, &mut vault.keeper, gather);
    note_alone::<Brand, _>(&shared.line, &mut desk.seat, &frozen);
    failure_told(&shared.mark, &mut vault.mark, watcher, &frozen);
    frozen?;
    let shown = Snapshot::of(gather);
    note_frozen::<Brand, _>(
        &shared.handoff,
        &mut desk.sender,
        &mut vault.receiver,
        &shown,
    );
    agree::<Brand, _>(&shared.awaited, &mut vault.near, of_keeper, &shown);
    Ok(())
}

// Freezes the book of the journal, and asks the keeper to hold the end of its image. Where it is
// refused, what was gathered is as before or given up.
fn freeze_journal<D: Disk, B: Coded>(
    alloc: Global,
    journal: &mut Journal<B>,
    keeper: &mut Keeper<D>,
    gather: &mut Gather<B::Part>,
) -> Result<(), Refusal>
    requires gathered { (f : Four (ShelfState B.Shelf)) × IsBook B.meaning B.making B.collections
        B.whole B.fits journal.old f ×
        IsGatheredOf B.collections (book_state B.whole journal.old f) gather.old }
    ensures froze { (f : Four (ShelfState B.Shelf)) → IsBook B.meaning B.making B.collections
        B.whole B.fits journal.old f →
        IsGatheredOf B.collections (book_state B.whole journal.old f) gather.old →
        (frozen : Result (Unit {0}) Refusal) × (taken : GatherState) × Froze ⟦<D as Disk>⟧
        (told_book B.collections (book_state B.whole journal.old f)) keeper.old gather.old frozen
        result (told_book B.collections (book_state B.whole journal.new f)) keeper.new taken ×
        (gather.new ≡ left_gathered frozen result taken) }
    ensures kept { (f : Four (ShelfState B.Shelf)) → IsBook B.meaning B.making B.collections
        B.whole B.fits journal.old f → IsBook B.meaning B.making B.collections B.whole B.fits
        journal.new f }
{
    let frozen = journal.freeze(gather);
    hold_frozen(alloc, frozen, keeper, gather)
}

// Begins the image that was packed, where so many bytes behind it stay free: Failed or Full, as it
// is the one that the keeper awaits. Its side knows then that nothing is frozen.
fn begin<D: Disk, J: Naming>(
    shared: &Shared<J>,
    vault: &mut Vault<D, J>,
    watcher: &mut Watcher,
    far: &mut Far,
    image: Image,
    behind: u64,
) -> Result<(), Refusal>
    requires watcher { watcher.old.table ≡ J.mark }
    requires table { far.old.table ≡ J.awaited }
    requires packs { Packs far.old.gather image }
    ensures watcher { FailsWith watcher.old result watcher.new }
    ensures far { far.new ≡ record { table = J.awaited; gather = nothing_gathered } }
    ensures refused { IfErr result IsCheckRefusal }
{
    shared.awaited.compare(&mut vault.near, far);
    let begun = vault.keeper.begin_image(image, behind);
    failure_told(&shared.mark, &mut vault.mark, watcher, &begun);
    shared.awaited.agree::<Brand>(&mut vault.near, far);
    begun
}

// Both ends know what W names. It is there for who picks W.
fn agree<W: OneGather, P: Part>(
    accord: &Accord,
    near: &mut Near,
    far: &mut Far,
    gather: &Snapshot<Gather<P>>,
)
    requires near { near.old.table ≡ accord.now }
    requires far { far.old.table ≡ accord.now }
    ensures near { near.new ≡ record { table = near.old.table; gather = W.gather } }
    ensures far { far.new ≡ record { table = far.old.table; gather = W.gather } }
{
    let _ = gather;
    accord.agree::<W>(near, far);
}

// Both ends note what W names as frozen. It is there for who picks W.
fn note_frozen<W: OneGather, P: Part>(
    handoff: &Handoff,
    sender: &mut Sender,
    receiver: &mut Receiver,
    gather: &Snapshot<Gather<P>>,
)
    requires sender { sender.old.table ≡ handoff.now }
    requires receiver { receiver.old.table ≡ handoff.now }
    ensures sender { sender.new ≡ noting sender.old W.gather }
    ensures receiver { receiver.new ≡ noting_too receiver.old W.gather }
{
    let _ = gather;
    handoff.note::<W>(sender, receiver);
}
