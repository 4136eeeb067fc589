// The core as a list of steps.
ghost use Rattle.std.specs.Prelude.{◌≡◌, ◌≤◌, ◌↔◌, IsTrue, ℕ, List, ◌++◌, [], length, IfOk};
ghost use Rattle.std.specs.Prelude.{IfErr, OnErr, IsOkUnless, is_some};
ghost use Rattle.std.specs.List.{zip};
ghost use Rattle.std.specs.Option.{IsSomeAnd};
ghost use Rattle.calls.specs.Contents.{Collection};
ghost use Rattle.calls.specs.Transactions.{Leads};
ghost use Rattle.disk_model.specs.Disk.{LeavesOnly};
ghost use Rattle.checkpoint.specs.Imaging.{pieces_left};
ghost use Rattle.checkpoint.specs.Keepers.{IsFresh};
ghost use Rattle.recovery.specs.Openings.{IsOpened, IsReadyStore};
ghost use Rattle.world.specs.declared.step.Step.{Step};
ghost use Rattle.world.specs.declared.step.Answer.{Answer};
ghost use Rattle.world.specs.Pasts.{Past, acknowledged, AreAnswered};
ghost use Rattle.engine.specs.Marks.{mark_behind, mark_flipped};
ghost use Rattle.world.specs.Pasts.{Draws, alone, outcome, committed_in, IsOneHistory};
ghost use Rattle.checkpoint.specs.Crash.{Yields};
ghost use Rattle.world.specs.Worlds.{HasPast};
ghost use Rattle.images.specs.Gathers.{nothing_gathered};
ghost use Rattle.world.specs.Moves.{IsRoomPast, Moves};
ghost use Rattle.world.specs.OneStep.{parts, TakesStep};

use crate::step::{Answer, Step};
use crate::transit::Transit;
use calls::limits::NUMBER_END;
use calls::{Call, Kind, Name, Refusal, Reply, When};
use catalog::{Catalog, NamedHolding};
use checkpoint::{Keeper, Turn};
use disk_model::Disk;
use engine::{Room, give_up_outrun, hold_frozen, pack, undoing_behind};
use images::Gather;
use replay::blocks_len;
use std::alloc::Global;
use std::marker::Model;
use txn::Book;

/// A book, what is gathered of it for an image, a keeper, the blocks in transit, the mark, the next
/// number, and what is known of the undoing that a crash would ask for. Contracts see all of it.
///
/// It leaves room for that undoing: a block is handed over, and an image begun, only where the
/// undoing of what was live fits behind it, so that the disk can be opened again.
///
/// Each step has a method of its own. Whatever it answers, also a refusal, is one step of the core
/// (`TakesStep`): each past of the world goes on with it, and whatever a stop at any moment of it
/// might have left is what that past yields.
#[derive(Drop)]
pub struct World<D: Disk> {
    alloc: Global,
    book: Book<Catalog>,
    gather: Gather<NamedHolding>,
    keeper: Keeper<D>,
    transit: Transit,
    mark: u64,
    next: u64,
    // how many records the undoing takes, at most, of what was live behind the last block that was
    // handed over, and of what was live at the newest freeze
    undoing: u64,
    frozen: u64,
}

impl<D: Disk> Model for World<D> {
    ghost use Rattle.std.specs.Prelude.{◌≡◌};
    ghost use Rattle.std.specs.Coded.{codes, coded_ℕ, coded_bool};
    ghost use Rattle.std.specs.FinMap as maps;
    ghost use Rattle.std.specs.Ordering.{nat_cmp};
    ghost use Rattle.catalog.specs.Holdings.{catalog_code, collection_code};
    ghost use Rattle.world.specs.Moves.{Whole};
    ghost use Rattle.engine.specs.Gatherings.{IsOfBook};

    ghost Value = { Whole D };

    ghost coded = { Prim.hlevel (
      codes,
      catalog_code,
      collection_code,
      maps.code {R = nat_cmp} coded_ℕ coded_bool,
    ) };

    ghost view = { λ w. record {
      book = w.book;
      gather = w.gather;
      keeper = w.keeper;
      transit = w.transit.blocks.items;
      mark = w.mark;
      next = w.next;
      undoing = w.undoing;
      frozen = w.frozen;
    } };

    ghost invariant = { λ w. (w.mark ≡ w.keeper.mark) × IsOfBook w.book w.gather };
}

impl<D: Disk> World<D> {
    /// A world of an opened book and its keeper, which has brought nothing to the disk yet, with
    /// nothing in transit and nothing gathered. Numbers are drawn from the book's next one on. Its
    /// past begins there: what a stop leaves is what it leaves of the store that was opened.
    ///
    /// Refused only for want of memory, and then the disk is handed back.
    pub fn new(alloc: Global, book: Book<Catalog>, keeper: Keeper<D>) -> Result<Self, (Refusal, D)>
        requires { IsFresh keeper }
        ensures parts { IfOk result (λ w. (w.book ≡ book) ×
            (w.gather ≡ nothing_gathered) × (w.keeper ≡ keeper) × (w.transit ≡ []) ×
            (w.next ≡ book.next) × (w.undoing ≡ 0) × (w.frozen ≡ 0)) }
        ensures past { IfOk result (λ w. (bytes : List ℕ) →
            IsOpened bytes book keeper.area (D.seen keeper.disk) →
            IsReadyStore D.seen D.may_leave bytes book keeper.area keeper.disk →
            HasPast D.seen D.may_leave book.state.now [] (parts w)) }
        ensures refused { IfErr result (λ x. (x.0 ≡ Refusal.NoMemory) × (x.1 ≡ keeper.disk)) }
    {
        let next = book.next();
        match Transit::new(alloc) {
            Ok(transit) => Ok(Self {
                alloc,
                book,
                gather: Gather::new(alloc),
                keeper,
                transit,
                mark: 0,
                next,
                undoing: 0,
                frozen: 0,
            }),
            Err(_) => Err((Refusal::NoMemory, keeper.into_disk())),
        }
    }

    /// The book.
    pub fn book(&self) -> &Book<Catalog>
        ensures { result.now ≡ self.now.book }
    {
        &self.book
    }

    /// How many blocks of the image in progress are not yet written: none, where no image is in
    /// progress. This is no step.
    pub fn left(&self) -> Option<u64>
        ensures { result ≡ pieces_left self.now.keeper.stage }
    {
        self.keeper.left()
    }

    /// Whether what is gathered is frozen. This is no step.
    pub fn is_frozen(&self) -> bool
        ensures { result ≡ is_some self.now.gather.frozen }
    {
        self.gather.image_head().is_some()
    }

    /// The disk. No device is called.
    pub fn into_disk(self) -> D
        ensures { result ≡ self.keeper.disk }
    {
        let Self { keeper, .. } = self;
        keeper.into_disk()
    }

    /// Draws the next number.
    ///
    /// Worn where it is 2^61.
    pub fn draw(&mut self) -> Result<u64, Refusal>
        ensures { TakesStep ⟦<D as Disk>⟧ self.old (Step.Draw, outcome Answer.Drawn result)
            self.new }
    {
        if self.next >= NUMBER_END {
            return Err(Refusal::Worn);
        }
        let number = self.next;
        self.next += 1;
        Ok(number)
    }

    /// Makes an empty collection, and answers its place: the refusals of `Book::make`.
    pub fn make(&mut self, name: &Name, kind: Kind) -> Result<u64, Refusal>
        ensures { TakesStep ⟦<D as Disk>⟧ self.old
            (Step.Make name.now kind, outcome Answer.Placed result) self.new }
    {
        let made = self.book.make(name.as_str(), kind);
        self.book.upheld();
        made
    }

    /// Makes a number live: the refusals of `Book::enter`.
    pub fn enter(&mut self, number: u64) -> Result<(), Refusal>
        ensures { TakesStep ⟦<D as Disk>⟧ self.old
            (Step.Enter number, outcome (alone Answer.Entered) result) self.new }
    {
        let entered = self.book.enter(number);
        self.book.upheld();
        entered
    }

    /// What a live transaction asks of a collection, at once or deferred: the refusals of
    /// `Book::ask`.
    pub fn ask(
        &mut self,
        number: u64,
        collection: u8,
        asked: &Call,
        when: When,
    ) -> Result<Reply, Refusal>
        ensures { TakesStep ⟦<D as Disk>⟧ self.old
            (Step.Ask number collection asked.now when, outcome Answer.Replied result) self.new }
    {
        let replied = self.book.ask(number, collection, asked, when);
        self.book.upheld();
        replied
    }

    /// Commits a live transaction, and answers its place: the refusals of `Book::commit`.
    pub fn commit(&mut self, number: u64) -> Result<u64, Refusal>
        ensures { TakesStep ⟦<D as Disk>⟧ self.old
            (Step.Commit number, outcome Answer.Placed result) self.new }
    {
        let placed = self.book.commit(number);
        self.book.upheld();
        placed
    }

    /// Undoes the newest call of a live transaction, and answers whether there was one: the
    /// refusals of `Book::back`.
    pub fn back(&mut self, number: u64) -> Result<bool, Refusal>
        ensures { TakesStep ⟦<D as Disk>⟧ self.old (Step.Back number, outcome Answer.Backed result)
            self.new }
    {
        let backed = self.book.back(number);
        self.book.upheld();
        backed
    }

    /// Ends a live transaction whose calls are all undone: the refusals of `Book::ended`.
    pub fn ended(&mut self, number: u64) -> Result<(), Refusal>
        ensures { TakesStep ⟦<D as Disk>⟧ self.old
            (Step.Ended number, outcome (alone Answer.Ended) result) self.new }
    {
        let ended = self.book.ended(number);
        self.book.upheld();
        ended
    }

    /// Hands a block over, and answers whether there was one. The block leaves room in the area:
    /// the undoing of all that is live behind it fits behind it and the blocks in transit.
    ///
    /// Where the block may not go Imaging while an image is being written, as that may cover it,
    /// and else Full; then the refusals of `Book::cut`.
    pub fn cut(&mut self) -> Result<bool, Refusal>
        ensures { TakesStep ⟦<D as Disk>⟧ self.old (Step.Cut, outcome Answer.Cut result) self.new }
    {
        let undoing = undoing_behind(self.book.journal(), self.undoing, self.room())?;
        let cut = self.book.cut(&mut self.transit)?;
        self.undoing = undoing;
        Ok(cut)
    }

    // Where the next block goes, behind those in transit.
    fn room(&self) -> Room
        ensures { IsRoomPast self.now result }
    {
        let room = Room::of(&self.keeper);
        Room {
            free: self.transit.room_behind(room.free),
            covered: room.covered,
            image_end: room.image_end,
        }
    }

    /// Brings a block to the disk: the refusals of `Keeper::turn`. What it tells to be kept is the
    /// mark then.
    pub fn turn(&mut self) -> Result<Turn, Refusal>
        ensures { TakesStep ⟦<D as Disk>⟧ self.old (Step.Turn, outcome Answer.Turned result)
            self.new }
    {
        let turned = self.keeper.turn(&mut self.transit);
        self.mark = mark_after(self.mark, &turned);
        turned
    }

    /// Copies the next collection of the book for an image, if one is left, and repeats on the
    /// copies what was run behind them. Answers whether a collection is not copied yet: the
    /// refusals of `Book::gather`, then those of `Gather::catch_up`.
    ///
    /// Where it is Outrun with nothing frozen, what was gathered is given up, and the next gather
    /// begins anew.
    pub fn gather(&mut self) -> Result<bool, Refusal>
        ensures { TakesStep ⟦<D as Disk>⟧ self.old
            (Step.Gather, outcome Answer.Gathered result) self.new }
    {
        match self.book.gather(&mut self.gather) {
            Ok(more) => {
                self.gather.catch_up()?;
                Ok(more)
            }
            Err(refusal) => {
                give_up_outrun(self.alloc, refusal, &mut self.gather);
                Err(refusal)
            }
        }
    }

    /// Freezes the book, all collections of which are copied, and holds the end of its image: the
    /// refusals of `Book::freeze`, then those of `Keeper::hold`.
    ///
    /// Where it is Outrun with nothing frozen, or the keeper refuses, what was gathered is given
    /// up, and the next gather begins anew.
    pub fn freeze(&mut self) -> Result<(), Refusal>
        ensures { TakesStep ⟦<D as Disk>⟧ self.old
            (Step.Freeze, outcome (alone Answer.Frozen) result) self.new }
    {
        self.book.upheld();
        let frozen = self.book.freeze(&mut self.gather);
        hold_frozen(self.alloc, frozen, &mut self.keeper, &mut self.gather)?;
        self.frozen = self.book.undoing();
        Ok(())
    }

    /// Packs the image of what was frozen, and begins to write it. Nothing is gathered then. The
    /// undoing of what was live at the freeze has room behind the image.
    ///
    /// Unfinished where nothing is frozen; NoMemory, which leaves what is gathered, to be packed
    /// again; then the refusals of `Keeper::begin_image`, with which what was gathered is given up.
    pub fn pack(&mut self) -> Result<(), Refusal>
        ensures { TakesStep ⟦<D as Disk>⟧ self.old
            (Step.Pack, outcome (alone Answer.Packed) result) self.new }
    {
        if !self.is_frozen() {
            return Err(Refusal::Unfinished);
        }
        let image = pack(self.alloc, &mut self.gather)?;
        self.keeper.begin_image(image, blocks_len(self.frozen))
    }

    /// Writes a block of the image in progress, and answers whether another one is left.
    ///
    /// Unfinished where none is left, then the refusals of `Keeper::image_piece`.
    pub fn piece(&mut self) -> Result<bool, Refusal>
        ensures { TakesStep ⟦<D as Disk>⟧ self.old (Step.Piece, outcome Answer.Laid result)
            self.new }
    {
        if is_some_left(self.keeper.left()) {
            return self.keeper.image_piece();
        }
        Err(Refusal::Unfinished)
    }

    /// Makes the image in progress the store, and answers the mark: the refusals of `Keeper::flip`.
    pub fn flip(&mut self) -> Result<u64, Refusal>
        ensures { TakesStep ⟦<D as Disk>⟧ self.old (Step.Flip, outcome Answer.Flipped result)
            self.new }
    {
        let flipped = self.keeper.flip();
        self.mark = mark_then(self.mark, &flipped);
        flipped
    }

    /// Looks at the mark: so many commits are kept.
    pub fn look(&self) -> u64
        ensures { TakesStep ⟦<D as Disk>⟧ self.now (Step.Look, Answer.Marked result) self.now }
    {
        self.mark
    }

    /// Takes one step, and answers it.
    pub fn step(&mut self, step: &Step) -> Answer
        ensures { TakesStep ⟦<D as Disk>⟧ self.old (step.now, result) self.new }
    {
        match step {
            Step::Draw => self.draw().map_or_else(Answer::Refused, Answer::Drawn),
            Step::Make(name, kind) => {
                self.make(name, *kind)
                    .map_or_else(Answer::Refused, Answer::Placed)
            }
            Step::Enter(number) => answered(self.enter(*number), Answer::Entered),
            Step::Ask(number, collection, asked, when) => {
                self.ask(*number, *collection, asked, *when)
                    .map_or_else(Answer::Refused, Answer::Replied)
            }
            Step::Commit(number) => {
                self.commit(*number)
                    .map_or_else(Answer::Refused, Answer::Placed)
            }
            Step::Back(number) => self
                .back(*number)
                .map_or_else(Answer::Refused, Answer::Backed),
            Step::Ended(number) => answered(self.ended(*number), Answer::Ended),
            Step::Cut => self.cut().map_or_else(Answer::Refused, Answer::Cut),
            Step::Turn => self.turn().map_or_else(Answer::Refused, Answer::Turned),
            Step::Gather => { self.gather().map_or_else(Answer::Refused, Answer::Gathered) }
            Step::Freeze => answered(self.freeze(), Answer::Frozen),
            Step::Pack => answered(self.pack(), Answer::Packed),
            Step::Piece => self.piece().map_or_else(Answer::Refused, Answer::Laid),
            Step::Flip => self.flip().map_or_else(Answer::Refused, Answer::Flipped),
            Step::Look => Answer::Marked(self.look()),
        }
    }
}

/// Takes the steps in order, and answers each. The list of answers is reserved before the first
/// step.
///
/// For every past that the world has, it afterwards has that past followed by the steps with their
/// answers. The committed transactions, each run whole, one after another, with the replies that
/// its client got, lead from the start of the past to what the collections hold without the live
/// transactions. Whatever a stop at any moment since the call began might have left, also within a
/// device write, is sound and stands for a content that some beginning of the committed
/// transactions gives, run in the same way; and that beginning holds all that was acknowledged
/// before. Each step is answered as the book, the keeper or the mark answers it there (`Moves`), in
/// its own way or refused, and the draws among them give the next numbers, one after another.
///
/// Refused only for want of memory, with no step taken.
pub fn play<D: Disk>(
    alloc: Global,
    world: &mut World<D>,
    steps: &[Step],
) -> Result<Vec<Answer>, Refusal>
    // Which past the world has then.
    ensures past { (start : List Collection) (past : Past) →
        HasPast D.seen D.may_leave start past (parts world.old) →
        IfOk result (λ answers. HasPast D.seen D.may_leave start
        (past ++ zip steps.now answers.items) (parts world.new)) }
    // What a stop leaves.
    ensures any_moment { (start : List Collection) (past : Past) →
        HasPast D.seen D.may_leave start past (parts world.old) →
        IfOk result (λ answers. LeavesOnly D.moment D.left_since world.old.keeper.disk
        world.new.keeper.disk
        (Yields start (committed_in (past ++ zip steps.now answers.items))
        (acknowledged past))) }
    // What the past says of the book.
    ensures one_history { (start : List Collection) (past : Past) →
        HasPast D.seen D.may_leave start past (parts world.old) →
        IfOk result (λ answers. IsOneHistory start (past ++ zip steps.now answers.items)
        world.new.book) }
    // What it answers, step by step.
    ensures each { IfOk result (λ answers. length answers.items ≡ length steps.now) }
    ensures own { IfOk result (λ answers. AreAnswered (zip steps.now answers.items)) }
    ensures drawn { IfOk result (λ answers. Leads Draws (zip steps.now answers.items) world.old.next
        world.new.next) }
    // Why it is refused, and that no step is taken then.
    ensures only { IsOkUnless result Refusal.NoMemory }
    ensures err { OnErr result (world.new ≡ world.old) }
    // What the device tells, and how each step moves the parts.
    ensures honest { D.is_honest world.new.keeper.disk → D.is_honest world.old.keeper.disk }
    ensures moves { IfOk result (λ answers. Leads (Moves D.fault_count)
        (zip steps.now answers.items)
        world.old
        world.new) }
{
    let mut answers = Vec::with_capacity(alloc, steps.len())?;
    for step in steps {
        let answer = world.step(step);
        let _pushed = answers.push(answer);
    }
    Ok(answers)
}

// The answer of a step that has no result.
fn answered(done: Result<(), Refusal>, answer: Answer) -> Answer
    ensures { result ≡ outcome (alone answer) done }
{
    match done {
        Ok(()) => answer,
        Err(refusal) => Answer::Refused(refusal),
    }
}

// The mark behind a turn: the one that it told, if it told one.
fn mark_after(mark: u64, turned: &Result<Turn, Refusal>) -> u64
    ensures { result ≡ mark_behind mark turned.now }
{
    match turned {
        Ok(Turn::Kept(place)) => *place,
        _ => mark,
    }
}

// Whether a piece is left, of as many as are.
fn is_some_left(left: Option<u64>) -> bool
    ensures { IsTrue result ↔ IsSomeAnd left (λ n. 1 ≤ n) }
{
    match left {
        Some(pieces) => pieces >= 1,
        None => false,
    }
}

// The mark behind a flip.
fn mark_then(mark: u64, flipped: &Result<u64, Refusal>) -> u64
    ensures { result ≡ mark_flipped mark flipped.now }
{
    match flipped {
        Ok(place) => *place,
        Err(_) => mark,
    }
}
