// The calls that are noted while a book is gathered, and what is handed over of them.
ghost use Rattle.std.specs.Prelude.{◌≡◌, ◌≢◌, ◌≤◌, ◌<◌, ◌↔◌, ℕ, List, [], ◌∷◌, map, length, true};
ghost use Rattle.std.specs.Prelude.{OnOk, OnErr, IfOk, IfErr, IfSome, IsTrue, IsOkUnless};
ghost use Rattle.std.specs.List.{AllByRecursion};
ghost use Rattle.std.specs.Option.{option_to_list};
ghost use Rattle.calls.specs.Contents.{Collection};
ghost use Rattle.calls.specs.Formats.{widest};
ghost use Rattle.calls.specs.Limits.{number_end};
ghost use Rattle.calls.specs.Rules.{Askable, IsShort};
ghost use Rattle.calls.specs.Transactions.{laters_of};
ghost use Rattle.boosted.specs.Meaning.{Undoes};
ghost use Rattle.undo_log.specs.Entries.{event_of, stamped_entry};
ghost use Rattle.undo_log.specs.Logs.{Lives};
ghost use Rattle.records.specs.Records.{IsNumber};
ghost use Rattle.records.specs.Short.{HoldsShort, IsShortReply};
ghost use Rattle.steps.specs.Machine.{State};
ghost use Rattle.steps.specs.Machines.{IsAskedEntry};
ghost use Rattle.images.specs.declared.effect.Effect.{Effect};
ghost use Rattle.images.specs.Gatherings.{none_begun, noted, to_note, given_up, effect_at};
ghost use Rattle.images.specs.Gatherings.{TakesBack, CanGoOn, IsNextOf, part_of, IsMarked};
ghost use Rattle.images.specs.Gatherings.{IsUnderWay, GoesAlong, GatherAnswers};
ghost use Rattle.images.specs.Gatherings.{IsWhole, FreezeRefused, HoldsAll};

use crate::effects::{effect_of, laters_in, undoing_of};
use crate::{Effect, Gather, ImageHead};
use boosted::Boosted;
use calls::Refusal;
use calls::limits::NUMBER_END;
use catalog::{Part, Parts};
use std::alloc::Global;
use std::collections::VecDeque;
use std::marker::Model;
use undo_log::{Live, Logged, Stamped};

// How many calls are noted between two copies, at most.
const MAX_EFFECTS: usize = 16_384;

/// What a book keeps of its gatherings beside its machine: how many were begun, whether the last of
/// them is under way, and the calls that were run since it was handed some. Where none is under way
/// a step costs two tests more.
pub struct Gathering {
    alloc: Global,
    begun: u64,
    going: bool,
    effects: VecDeque<Effect>,
}

// Written out, so that the crates above call it in place of proving it again.
impl Drop for Gathering {
    fn drop(self) {
        let Self {
            alloc: _alloc,
            begun: _begun,
            going: _going,
            effects,
        } = self;
        drop(effects);
    }
}

impl Model for Gathering {
    ghost use Rattle.std.specs.VecDeque.{deque_capacity};
    ghost use Rattle.images.specs.Gatherings.{GatheringState, IsKept};
    ghost use Rattle.images.specs.GatheringViews.{gathering_of};

    ghost Value = { GatheringState };

    ghost view = { λ n. gathering_of n.begun n.going n.effects.items };

    ghost invariant = { λ n. IsKept (gathering_of n.begun n.going n.effects.items)
        (deque_capacity n.effects) };
}

impl Gathering {
    /// Nothing was gathered yet. It takes no memory.
    pub fn new(alloc: Global) -> Self
        ensures { result ≡ none_begun }
    {
        Self {
            alloc,
            begun: 0,
            going: false,
            effects: VecDeque::new(alloc),
        }
    }

    /// The call as it is noted, which the record at the LSN tells of; none where no gathering is
    /// under way. It is a copy of the call and of its reply.
    ///
    /// NoMemory, which comes only while a gathering is under way.
    pub fn effect_of_call(&self, asked: &Logged, lsn: u64) -> Result<Option<Effect>, Refusal>
        ensures ok { IfOk result (λ effect. option_to_list effect ≡
            to_note self.now (effect_at lsn (event_of asked.now) ∷ [])) }
        ensures refusal { IsOkUnless result Refusal.NoMemory }
        ensures succeeds { OnErr result (self.now.going ≡ true) }
    {
        if !self.going {
            return Ok(None);
        }
        Ok(Some(effect_of(asked, lsn)?))
    }

    /// The call that takes this one back, if it had changed something, as it is noted; none where
    /// no gathering is under way. The record at the LSN tells of it. It costs what `Boosted::look`
    /// does, and a copy of a value.
    ///
    /// NoMemory, which comes only while a gathering is under way.
    pub fn effect_of_undoing<C: Boosted<At = u8>>(
        &self,
        collections: &C,
        newest: &Logged,
        lsn: u64,
    ) -> Result<Option<Effect>, Refusal>
        requires askable { Askable newest.now.call }
        requires told { IsShortReply widest newest.now.reply }
        requires undoes { (before : C) × Undoes C.meaning collections.now newest.now.at
            newest.now.call newest.now.reply before }
        ensures ok { IfOk result (λ effect. (before : C) × (es : List Effect) ×
            TakesBack C.meaning lsn (event_of newest.now) es collections.now before ×
            (option_to_list effect ≡ to_note self.now es)) }
        ensures refusal { IsOkUnless result Refusal.NoMemory }
        ensures succeeds { OnErr result (self.now.going ≡ true) }
    {
        if !self.going {
            return Ok(None);
        }
        undoing_of(collections, newest, lsn)
    }

    /// What a commit runs of these entries, as it is noted: what they deferred, and what their
    /// calls left, in the order asked; nothing where no gathering is under way. The record at the
    /// LSN tells of it.
    ///
    /// NoMemory, which comes only while a gathering is under way.
    pub fn effects_of_commit(
        &self,
        entries: &[Stamped],
        lsn: u64,
    ) -> Result<VecDeque<Effect>, Refusal>
        ensures ok { IfOk result (λ effects. effects.items ≡ to_note self.now
            (map (effect_at lsn) (laters_of (map stamped_entry entries.now)))) }
        ensures refusal { IsOkUnless result Refusal.NoMemory }
        ensures succeeds { OnErr result (self.now.going ≡ true) }
    {
        if !self.going {
            return Ok(VecDeque::new(self.alloc));
        }
        laters_in(self.alloc, entries, lsn)
    }

    /// Notes a call, if there is one, behind the others: it was run. With more than 16,384 the
    /// gathering is given up. It takes no memory.
    pub fn note(&mut self, effect: Option<Effect>)
        requires short { AllByRecursion (λ e. IsShort widest e.call) (option_to_list effect) }
        ensures { self.new ≡ noted self.old (option_to_list effect) }
    {
        if !self.going {
            drop(effect);
            return;
        }
        let Some(effect) = effect else {
            return;
        };
        if self.effects.len() < MAX_EFFECTS {
            self.effects.push_back_reserved(effect);
        } else {
            drop(effect);
            self.give_up();
        }
    }

    /// Notes these calls as `note` does, all or none of them. It takes no memory.
    pub fn note_all(&mut self, mut effects: VecDeque<Effect>)
        requires short { AllByRecursion (λ e. IsShort widest e.call) effects.items }
        ensures { self.new ≡ noted self.old effects.items }
    {
        if !self.going || effects.len() > MAX_EFFECTS - self.effects.len() {
            drop(effects);
            self.give_up();
        } else if self.effects.append(&mut effects).is_err() {
            unreachable!();
        }
    }

    /// Whether `gather` would go on with this: it is new, and another gathering can be begun, or it
    /// is of the one that is under way.
    pub fn can_go_on<P: Part>(&self, gather: &Gather<P>) -> bool
        ensures { IsTrue result ↔ CanGoOn self.now gather.now }
    {
        if gather.mark() == 0 {
            return self.begun < NUMBER_END;
        }
        self.is_under_way(gather)
    }

    /// Goes on with a gathering of collections, of which there are so many, and so many records
    /// told of them: takes the part, a copy of the next one by rising number, if one is left, and
    /// hands over the calls that were run since it was handed some. Answers whether a collection is
    /// not copied yet. What is new begins a gathering, which replaces one that is under way.
    ///
    /// Outrun where the gathering is not under way: it was given up, replaced or frozen. Worn where
    /// 2^61 were begun, and another would be. NoMemory, also where there was none for the part.
    /// Each leaves all as before.
    pub fn gather<B: Parts>(
        &mut self,
        count: usize,
        part: Result<Option<B::Part>, Refusal>,
        lsn: u64,
        gather: &mut Gather<B::Part>,
    ) -> Result<bool, Refusal>
        requires next { (now : B) × IsNextOf B.collections self.old now lsn gather.old count
            (part_of B.Part.collection part) }
        requires short { CanGoOn self.old gather.old → IfOk part (λ o. IfSome o
            (λ p. HoldsShort widest (B.Part.collection p).content)) }
        ensures answer { (now : B) → IsNextOf B.collections self.old now lsn gather.old count
            (part_of B.Part.collection part) →
            GatherAnswers (B.collections now) lsn self.old gather.old result self.new
            gather.new }
        ensures along { OnOk result ((now : B) → IsNextOf B.collections self.old now lsn
            gather.old count (part_of B.Part.collection part) →
            GoesAlong B.collections self.new now lsn gather.new) }
    {
        if gather.mark() == 0 {
            return self.begin::<B>(count, part, lsn, gather);
        }
        self.check_going(gather)?;
        let part = part?;
        gather.gather(self.begun, part, lsn, &mut self.effects)?;
        Ok(gather.copied() < count)
    }

    /// Whether `freeze` can end the gathering of collections, of which there are so many.
    ///
    /// Unfinished for what is new. Outrun as `gather` says. Unfinished where a collection is not
    /// copied.
    pub fn check_freeze<P: Part>(&self, count: usize, gather: &Gather<P>) -> Result<(), Refusal>
        ensures ok { OnOk result ((xs : List Collection) → (count ≡ length xs) →
            IsWhole xs self.now gather.now) }
        ensures err { IfErr result (λ e. (xs : List Collection) → (count ≡ length xs) →
            FreezeRefused xs self.now gather.now e) }
    {
        if gather.mark() == 0 {
            return Err(Refusal::Unfinished);
        }
        self.check_going(gather)?;
        if gather.copied() < count {
            return Err(Refusal::Unfinished);
        }
        Ok(())
    }

    /// Ends the gathering, which `check_freeze` lets: hands over the rest of the calls, and notes
    /// beside them the live transactions and the head of where the book stands.
    ///
    /// NoMemory, which leaves all as before.
    pub fn freeze<B: Parts>(
        &mut self,
        image_head: ImageHead,
        live: &Live,
        gather: &mut Gather<B::Part>,
    ) -> Result<(), Refusal>
        requires next { (1 ≤ image_head.next) × (image_head.next ≤ number_end) }
        requires numbers { (n : ℕ) → Lives live.now.live n → IsNumber n }
        requires asked { AllByRecursion (λ e. IsNumber e.0 × IsAskedEntry widest e.1)
            live.now.entries }
        requires along { (now : B) × GoesAlong B.collections self.old now image_head.end
            gather.old }
        ensures ended { OnOk result (self.new ≡ given_up self.old) }
        ensures mark { OnOk result (gather.new.mark ≡ gather.old.mark) }
        ensures holds { OnOk result ((s : State B) → IsMarked s live.now image_head →
            (length (B.collections s.now) ≤ length gather.old.parts) →
            GoesAlong B.collections self.old s.now image_head.end gather.old →
            HoldsAll B.collections image_head.next image_head.place image_head.end s gather.new) }
        ensures same { OnErr result ((self.new ≡ self.old) × (gather.new ≡ gather.old)) }
        ensures refusal { IsOkUnless result Refusal.NoMemory }
    {
        gather.freeze(image_head, live, &mut self.effects)?;
        self.going = false;
        Ok(())
    }

    // Begins a gathering.
    fn begin<B: Parts>(
        &mut self,
        count: usize,
        part: Result<Option<B::Part>, Refusal>,
        lsn: u64,
        gather: &mut Gather<B::Part>,
    ) -> Result<bool, Refusal>
        requires new { gather.old.mark ≡ 0 }
        requires next { (now : B) × IsNextOf B.collections self.old now lsn gather.old count
            (part_of B.Part.collection part) }
        requires short { CanGoOn self.old gather.old → IfOk part (λ o. IfSome o
            (λ p. HoldsShort widest (B.Part.collection p).content)) }
        ensures answer { (now : B) → IsNextOf B.collections self.old now lsn gather.old count
            (part_of B.Part.collection part) →
            GatherAnswers (B.collections now) lsn self.old gather.old result self.new
            gather.new }
        ensures along { OnOk result ((now : B) → IsNextOf B.collections self.old now lsn
            gather.old count (part_of B.Part.collection part) →
            GoesAlong B.collections self.new now lsn gather.new) }
    {
        if self.begun >= NUMBER_END {
            drop(part);
            return Err(Refusal::Worn);
        }
        let part = part?;
        self.effects.reserve(MAX_EFFECTS - self.effects.len())?;
        let mut none = VecDeque::new(self.alloc);
        gather.gather(self.begun + 1, part, lsn, &mut none)?;
        self.effects.clear();
        self.begun += 1;
        self.going = true;
        Ok(gather.copied() < count)
    }

    // Whether the gathering that this is of, which is not new, is under way.
    fn check_going<P: Part>(&self, gather: &Gather<P>) -> Result<(), Refusal>
        requires { gather.now.mark ≢ 0 }
        ensures ok { OnOk result (IsUnderWay self.now gather.now) }
        ensures err { OnErr result (IsUnderWay self.now gather.now → ⊥) }
        ensures refusal { IsOkUnless result Refusal.Outrun }
    {
        if self.is_under_way(gather) {
            return Ok(());
        }
        Err(Refusal::Outrun)
    }

    // Whether a gathering is under way, and this has its mark.
    fn is_under_way<P: Part>(&self, gather: &Gather<P>) -> bool
        ensures { IsTrue result ↔ ((self.now.going ≡ true) × (gather.now.mark ≡ self.now.begun)) }
    {
        self.going && gather.mark() == self.begun
    }

    // Gives the gathering up.
    fn give_up(&mut self)
        ensures { self.new ≡ given_up self.old }
    {
        self.effects.clear();
        self.going = false;
    }
}
