// Images of what was gathered beside images taken at once.
ghost use Rattle.std.specs.Prelude.{◌≡◌, ◌+◌, ◌<◌, ◌^◌, Some, IfOk, IfSome, IsTrue, length};
ghost use Rattle.std.specs.Prelude.{slice_get};
ghost use Rattle.calls.specs.Contents.{AnswersAt};
ghost use Rattle.calls.specs.Formats.{widest};
ghost use Rattle.calls.specs.Limits.{number_end};
ghost use Rattle.calls.specs.Rules.{IsShort};
ghost use Rattle.workloads.specs.Gatherings.{IsGoing, HasRun, CanRun};

use crate::comparison::sequence::Sequence;
use boosted::Boosted;
use calls::limits::NUMBER_END;
use calls::{Bytes, Call, Format, Kind, Refusal};
use catalog::{Catalog, NamedHolding, Parts};
use images::{Effect, Gather, ImageHead};
use recovery::image_blocks;
use replay::Machine;
use std::alloc::Global;
use std::collections::VecDeque;
use std::fmt;

// How many images are gathered.
const GATHERINGS: u64 = 60;

// Which gathering of its collections each one is.
const MARK: u64 = 1;

// How many calls run before each copy, at most.
const CALLS: u32 = 40;

// How many keys, elements, priorities and tags there are: few, so that calls meet often.
const KEYS: u32 = 12;

// A collection of each kind, copies of the first of them, and the calls that were run and not
// handed over.
#[derive(Drop)]
struct Gathering {
    catalog: Catalog,
    gather: Gather<NamedHolding>,
    effects: VecDeque<Effect>,
    // how many calls were run
    lsn: u64,
}

// Seven collections, one of each kind.
fn one_of_each(alloc: Global) -> Result<Catalog, Refusal>
    ensures { IfOk result (λ catalog. HasRun catalog 7 0) }
{
    let mut catalog = Catalog::new(alloc);
    Parts::make(&mut catalog, "set", Kind::Set)?;
    Parts::make(&mut catalog, "map", Kind::Map)?;
    Parts::make(&mut catalog, "queue", Kind::Queue)?;
    Parts::make(&mut catalog, "counter", Kind::Counter)?;
    Parts::make(&mut catalog, "pool", Kind::Pool)?;
    Parts::make(&mut catalog, "stock", Kind::Stock)?;
    Parts::make(&mut catalog, "quotas", Kind::Quotas)?;
    Ok(catalog)
}

impl Gathering {
    // Nothing is gathered of a collection of each kind.
    fn new(alloc: Global) -> Result<Self, Refusal>
        ensures { IfOk result IsGoing }
    {
        Ok(Self {
            catalog: one_of_each(alloc)?,
            gather: Gather::new(alloc),
            effects: VecDeque::new(alloc),
            lsn: 0,
        })
    }

    // Whether the call can be asked or deferred.
    fn can_run(&self, at: u8, call: &Call) -> bool
        ensures { IsTrue result → CanRun self.now.catalog at call.now }
    {
        self.catalog.askable(at, call).is_ok() || self.catalog.deferrable(at, call).is_ok()
    }

    // Runs the call, if it can be asked or deferred.
    fn call(&mut self, at: u8, call: Call) -> Result<(), Refusal>
        requires { IsGoing self.old }
        ensures { IsGoing self.new }
    {
        if self.lsn >= NUMBER_END || !self.can_run(at, &call) {
            return Ok(());
        }
        let reply = self.catalog.look(at, &call)?;
        self.run(Effect {
            lsn: self.lsn + 1,
            collection: at,
            call,
            reply,
        })
    }

    // Runs the call, which is answered so, and notes it.
    fn run(&mut self, effect: Effect) -> Result<(), Refusal>
        requires going { IsGoing self.old }
        requires lsn { effect.lsn ≡ self.old.lsn + 1 }
        requires unworn { self.old.lsn < number_end }
        requires answered { AnswersAt self.old.catalog effect.collection effect.call effect.reply }
        requires short { IsShort widest effect.call }
        ensures { IsGoing self.new }
    {
        self.effects.reserve(1)?;
        self.catalog
            .run(effect.collection, &effect.call, &effect.reply)?;
        self.lsn = effect.lsn;
        self.effects.push_back_reserved(effect);
        Ok(())
    }

    // Copies the next collection, if there is one, and hands the calls over.
    fn copy_next(&mut self) -> Result<(), Refusal>
        requires { IsGoing self.old }
        ensures { IsGoing self.new }
    {
        match self.catalog.copy(self.gather.copied() as u8) {
            Ok(part) => self.gather(Some(part)),
            Err(Refusal::NoSuchCollection) => Ok(()),
            Err(refusal) => Err(refusal),
        }
    }

    // Gathers the copy of the next collection, if one was taken, and hands the calls over.
    fn gather(&mut self, part: Option<NamedHolding>) -> Result<(), Refusal>
        requires going { IsGoing self.old }
        requires next { IfSome part (λ p. slice_get self.old.catalog (length self.old.gather.parts)
            ≡ Some p) }
        ensures { IsGoing self.new }
    {
        self.gather.gather(MARK, part, self.lsn, &mut self.effects)
    }

    // Repeats what was handed over.
    fn catch_up(&mut self) -> Result<(), Refusal>
        requires { IsGoing self.old }
        ensures { IsGoing self.new }
    {
        self.gather.catch_up()
    }

    // Whether the image of what was gathered has the blocks of an image of the collections.
    fn agrees(self, alloc: Global) -> Result<bool, Refusal>
        requires { IsGoing self }
    {
        let Self {
            catalog,
            mut gather,
            mut effects,
            lsn,
        } = self;
        let machine = Machine::new(alloc, Format::Two, catalog, lsn);
        let image_head = ImageHead {
            format: Format::Two,
            next: 1,
            wear: lsn,
            end: lsn,
            place: 6,
        };
        gather.freeze(image_head, machine.live(), &mut effects)?;
        match gather.pack() {
            Ok(image) => Ok(image.blocks == image_blocks(alloc, &machine, 1)?),
            Err((refusal, _)) => Err(refusal),
        }
    }
}

// The next call of the sequence, and the place of its collection.
fn next_call(sequence: &mut Sequence, alloc: Global) -> Result<(u8, Call), Refusal> {
    let key = u64::from(sequence.below(KEYS));
    let other = u64::from(sequence.below(KEYS));
    Ok(match sequence.below(18) {
        0..=1 => (0, Call::SetAdd(key)),
        2 => (0, Call::SetRemove(key)),
        3..=4 => (
            1,
            Call::Put(key, Bytes::new(vec![in alloc; key as u8, other as u8]?)),
        ),
        5 => (1, Call::MapRemove(key)),
        6..=7 => (2, Call::QueueAdd(key, other)),
        8 => (2, Call::Take),
        9 => (3, Call::Bump(key as i64 - 6)),
        10 => (4, Call::Draw),
        11 => (4, Call::Release(key)),
        12 => (5, Call::Fill(key)),
        13 => (0, Call::Pick),
        14 => (6, Call::QuotaFill(key, other)),
        15 => (6, Call::QuotaSpend(key, other)),
        _ => (5, Call::Spend(other)),
    })
}

// Runs the next calls of the sequence.
fn run_some(
    gathering: &mut Gathering,
    sequence: &mut Sequence,
    alloc: Global,
) -> Result<(), Refusal>
    requires { IsGoing gathering.old }
    ensures { IsGoing gathering.new }
{
    let count = sequence.below(CALLS);
    for _ in 0..count {
        let (at, call) = next_call(sequence, alloc)?;
        gathering.call(at, call)?;
    }
    Ok(())
}

// Gathers the collections while calls of the sequence run on them: before each copy, and behind the
// last. Those are handed over, or left to the freeze.
fn gather_once(sequence: &mut Sequence, alloc: Global) -> Result<Gathering, Refusal>
    ensures { IfOk result IsGoing }
{
    let mut gathering = Gathering::new(alloc)?;
    for _ in 0..7 {
        run_some(&mut gathering, sequence, alloc)?;
        gathering.copy_next()?;
        if sequence.below(2) == 0 {
            gathering.gather(None)?;
        }
        if sequence.below(2) == 0 {
            gathering.catch_up()?;
        }
    }
    Ok(gathering)
}

/// What came of it.
#[derive(Clone, Copy)]
pub(crate) struct Summary {
    calls: u64,
    differences: u64,
}

impl fmt::Display for Summary {
    fn fmt<W: fmt::Write>(&self, f: &mut fmt::Formatter<W>) -> fmt::Result {
        write!(
            f,
            "{GATHERINGS} gathered, {} calls, {} differences",
            self.calls, self.differences
        )
    }
}

/// Gathers images, and compares each with the image that is taken of the collections at the end.
pub(crate) fn compare(alloc: Global) -> Result<Summary, Refusal> {
    let mut sequence = Sequence::new(3);
    let mut summary = Summary {
        calls: 0,
        differences: 0,
    };
    for _ in 0..GATHERINGS {
        let gathering = gather_once(&mut sequence, alloc)?;
        summary.calls = summary.calls.saturating_add(gathering.lsn);
        if !gathering.agrees(alloc)? {
            summary.differences = summary.differences.saturating_add(1);
        }
    }
    Ok(summary)
}
