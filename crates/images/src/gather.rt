// What is gathered of a book.
ghost use Rattle.std.specs.Prelude.{◌≡◌, ℕ, ◌≤◌, ◌++◌, [], None, OnOk, OnErr, IfOk};
ghost use Rattle.calls.specs.Formats.{widest};
ghost use Rattle.std.specs.Prelude.{IfErr, IfSome, IsSome, IsOkUnless, length};
ghost use Rattle.std.specs.Option.{option_map};
ghost use Rattle.std.specs.VecDeque.{deque_capacity};
ghost use Rattle.std.specs.List.{AllByRecursion};
ghost use Rattle.calls.specs.declared.refusal.Refusal.{Refusal};
ghost use Rattle.undo_log.specs.Logs.{Lives};
ghost use Rattle.records.specs.Records.{IsNumber};
ghost use Rattle.records.specs.Short.{HoldsShort};
ghost use Rattle.steps.specs.Machines.{IsAskedEntry};
ghost use Rattle.images.specs.Gathers.{CanCatchUp, HaveRepeated, Repeats, Freezes, Packs};
ghost use Rattle.images.specs.Gathers.{with_gathered};
ghost use Rattle.images.specs.Views.{copies_of};
ghost use Rattle.calls.specs.Rules.{IsShort};
ghost use Rattle.calls.specs.Limits.{number_end};

use crate::Effect;
use crate::packing::pack;
use crate::stamped::{Stamped, repeat};
use crate::telling::live_records;
use calls::{Format, Refusal};
use catalog::Part;
use records::{Image, Record};
use std::alloc::Global;
use std::collections::VecDeque;
use std::marker::Model;
use std::mem;
use undo_log::Live;

/// Where a book stands: the format of its store, a number above every one that was entered, the
/// wear, how many records came before, and how many commits and makes.
#[derive(Clone, Copy)]
pub struct ImageHead {
    pub format: Format,
    pub next: u64,
    pub wear: u64,
    pub end: u64,
    pub place: u64,
}

/// What was noted of a book when it was frozen.
#[derive(Drop)]
pub(crate) struct Frozen {
    pub(crate) image_head: ImageHead,
    pub(crate) live: Vec<Record>,
}

/// What is gathered of a book for an image: copies of its collections, taken at different moments,
/// the calls that were run behind them, and what stood beside the collections at the end. It is
/// filled while the book is held, and works by itself. Contracts see what the copies hold, with the
/// LSNs at which they were taken, the calls that are not repeated on them yet, and what was noted
/// at the freeze; and which gathering of the book it is, by a number, 0 where nothing was gathered
/// yet.
pub struct Gather<P: Part> {
    alloc: Global,
    mark: u64,
    copies: Vec<Stamped<P>>,
    effects: VecDeque<Effect>,
    frozen: Option<Frozen>,
}

// Written out, so that the crates above call it in place of proving it again.
impl<P: Part> Drop for Gather<P> {
    fn drop(self) {
        let Self {
            alloc: _alloc,
            mark: _mark,
            copies,
            effects,
            frozen,
        } = self;
        drop(copies);
        drop(effects);
        drop(frozen);
    }
}

impl<P: Part> Model for Gather<P> {
    ghost use Rattle.std.specs.Coded.{codes};
    ghost use Rattle.catalog.specs.Holdings.{collection_code};
    ghost use Rattle.images.specs.Gathers.{GatherState, IsGathered};
    ghost use Rattle.images.specs.Views.{gather_of};

    ghost Value = { GatherState };

    ghost coded = { Prim.hlevel (codes, collection_code) };

    ghost view = { λ g. gather_of P.collection g.mark g.copies.items g.effects.items g.frozen };

    ghost invariant = { λ g. IsGathered
        (gather_of P.collection g.mark g.copies.items g.effects.items g.frozen) };
}

impl<P: Part> Gather<P> {
    /// Nothing is gathered. It takes no memory.
    pub fn new(alloc: Global) -> Self
        ensures { result ≡ record { mark = 0; parts = []; effects = []; frozen = None } }
    {
        Self {
            alloc,
            mark: 0,
            copies: Vec::new(alloc),
            effects: VecDeque::new(alloc),
            frozen: None,
        }
    }

    /// How many copies there are.
    pub fn copied(&self) -> usize
        ensures { result ≡ length self.now.parts }
    {
        self.copies.len()
    }

    /// Which gathering of the book it is: the mark of the last gather, or 0.
    pub fn mark(&self) -> u64
        ensures { result ≡ self.now.mark }
    {
        self.mark
    }

    /// Where the book stood when it was frozen, if it was.
    pub fn image_head(&self) -> Option<ImageHead>
        ensures { result ≡ option_map (λ f. f.image_head) self.now.frozen }
    {
        match &self.frozen {
            Some(frozen) => Some(frozen.image_head),
            None => None,
        }
    }

    /// Takes a copy of the next collection, if one is left, and the calls that were run on the
    /// collections behind those that were taken before: all of them, in the order run. `stamp` is
    /// how many records came before the copy was taken, and no call was run behind it. `mark` tells
    /// which gathering of the book it is.
    ///
    /// NoMemory, which leaves the calls where they are, and all as before.
    pub fn gather(
        &mut self,
        mark: u64,
        part: Option<P>,
        stamp: u64,
        effects: &mut VecDeque<Effect>,
    ) -> Result<(), Refusal>
        requires short { IfSome part (λ p. HoldsShort widest (P.collection p).content) }
        requires can { CanCatchUp self.old.parts (self.old.effects ++ effects.old.items) }
        requires short_calls { AllByRecursion (λ e. IsShort widest e.call) effects.old.items }
        requires behind { AllByRecursion (λ e. e.lsn ≤ stamp)
            (self.old.effects ++ effects.old.items) }
        ensures ok { OnOk result (self.new ≡ with_gathered self.old mark
            (option_map P.collection part) stamp effects.old.items) }
        ensures taken { OnOk result (effects.new.items ≡ []) }
        ensures err { OnErr result (self.new ≡ self.old) }
        ensures kept { OnErr result (effects.new.items ≡ effects.old.items) }
        ensures capacity { deque_capacity effects.new ≡ deque_capacity effects.old }
        ensures refusal { IsOkUnless result Refusal.NoMemory }
    {
        self.copies.reserve(1)?;
        self.effects.append(effects)?;
        if let Some(part) = part {
            self.copies.push_reserved(Stamped { part, stamp });
        }
        self.mark = mark;
        Ok(())
    }

    /// Repeats the calls that are left, each on the copy of its collection where it came behind
    /// that, so that the copies come to what the collections held when the last of them was run.
    /// Its cost is that of these calls.
    ///
    /// NoMemory, which leaves what is repeated. It may be called again.
    pub fn catch_up(&mut self) -> Result<(), Refusal>
        ensures repeats { Repeats self.old self.new }
        ensures all { OnOk result (self.new.effects ≡ []) }
        ensures refusal { IsOkUnless result Refusal.NoMemory }
    {
        let mut effects = mem::replace(&mut self.effects, VecDeque::new(self.alloc));
        let done = repeat_all(&mut self.copies, &mut effects);
        self.effects = effects;
        done
    }

    /// Takes the rest of the calls that were run on the collections, and notes where the book
    /// stands, and the records that tell of its live transactions: that each began, by rising
    /// number, and then what they asked for in its order, but for calls that only read and what a
    /// falling one deferred. It takes time and memory in proportion to these.
    ///
    /// NoMemory, which leaves the calls where they are, and all as before.
    pub fn freeze(
        &mut self,
        image_head: ImageHead,
        live: &Live,
        effects: &mut VecDeque<Effect>,
    ) -> Result<(), Refusal>
        requires next { (1 ≤ image_head.next) × (image_head.next ≤ number_end) }
        requires numbers { (n : ℕ) → Lives live.now.live n → IsNumber n }
        requires asked { AllByRecursion (λ e. IsNumber e.0 × IsAskedEntry widest e.1)
            live.now.entries }
        requires can { CanCatchUp self.old.parts (self.old.effects ++ effects.old.items) }
        requires short_calls { AllByRecursion (λ e. IsShort widest e.call) effects.old.items }
        ensures ok { OnOk result (Freezes self.old image_head live.now effects.old.items self.new) }
        ensures taken { OnOk result (effects.new.items ≡ []) }
        ensures err { OnErr result (self.new ≡ self.old) }
        ensures kept { OnErr result (effects.new.items ≡ effects.old.items) }
        ensures capacity { deque_capacity effects.new ≡ deque_capacity effects.old }
        ensures refusal { IsOkUnless result Refusal.NoMemory }
    {
        let live = live_records(self.alloc, live)?;
        self.effects.append(effects)?;
        self.frozen = Some(Frozen { image_head, live });
        Ok(())
    }

    /// The image of what was gathered, which is frozen, in whole blocks: the head, the collections
    /// with their items, the records of the live transactions, and the end. The calls that are left
    /// are repeated first, as `catch_up` does.
    ///
    /// It takes time and memory in proportion to what was gathered, of which the image is one copy;
    /// beside it the items of one collection at a time are copied.
    ///
    /// NoMemory, which hands back what was gathered, with what is repeated.
    pub fn pack(mut self) -> Result<Image, (Refusal, Self)>
        requires { IsSome self.frozen }
        ensures ok { IfOk result (λ image. Packs self image) }
        ensures refusal { IfErr result (λ x. x.0 ≡ Refusal.NoMemory) }
        ensures back { IfErr result (λ x. Repeats self x.1) }
    {
        if let Err(refusal) = self.catch_up() {
            return Err((refusal, self));
        }
        match self.image() {
            Ok(image) => Ok(image),
            Err(refusal) => Err((refusal, self)),
        }
    }

    // The image of what was gathered, where nothing is left to repeat.
    fn image(&self) -> Result<Image, Refusal>
        requires frozen { IsSome self.now.frozen }
        requires done { self.now.effects ≡ [] }
        ensures ok { IfOk result (λ image. Packs self.now image) }
        ensures refusal { IsOkUnless result Refusal.NoMemory }
    {
        match &self.frozen {
            Some(frozen) => Ok(Image {
                blocks: pack(self.alloc, &self.copies, frozen)?,
                end: frozen.image_head.end,
                place: frozen.image_head.place,
            }),
            None => unreachable!(),
        }
    }
}

// Repeats the calls on the copies, the first of them first. NoMemory leaves those that are not
// repeated.
fn repeat_all<P: Part>(
    copies: &mut [Stamped<P>],
    effects: &mut VecDeque<Effect>,
) -> Result<(), Refusal>
    requires can { CanCatchUp (copies_of P.collection copies.old) effects.old.items }
    ensures repeated { HaveRepeated (copies_of P.collection copies.old) effects.old.items
        (copies_of P.collection copies.new) effects.new.items }
    ensures all { OnOk result (effects.new.items ≡ []) }
    ensures refusal { IsOkUnless result Refusal.NoMemory }
{
    while let Some(effect) = effects.pop_front() {
        if let Err(refusal) = repeat(copies, &effect) {
            effects.push_front_reserved(effect);
            return Err(refusal);
        }
        drop(effect);
    }
    Ok(())
}
