// What is gathered of a book for an image, one collection after another.
ghost use Rattle.std.specs.Prelude.{◌≡◌, ◌≤◌, Some, OnOk, IfSome, IsNone, length, slice_get};
ghost use Rattle.std.specs.Prelude.{◌<◌, IfOk, IsOkUnless, string_bytes};
ghost use Rattle.std.specs.Option.{option_map};
ghost use Rattle.calls.specs.Names.{IsName};
ghost use Rattle.catalog.specs.declared.four.Four.{Four};
ghost use Rattle.catalog.specs.Fours.{which_of, pick};
ghost use Rattle.catalog.specs.Holdings.{Measures};
ghost use Rattle.catalog.specs.Places.{At};
ghost use Rattle.steps.specs.Shelves.{ShelfState};
ghost use Rattle.steps.specs.Wholes.{contents};
ghost use Rattle.images.specs.Gatherings.{CanGoOn};
ghost use Rattle.txn.specs.Parts.{IsGivenNext, GathersOn};
ghost use Rattle.txn.specs.Freezing.{IsGatheredOf, FreezeAnswers};
ghost use Rattle.txn.specs.Shelved.{book_state, IsBook};

use crate::Journal;
use calls::Refusal;
use catalog::{Measured, Named, Parts, Shelved};
use images::{Gather, ImageHead};
use records::Coded;
use steps::Shelf;

impl<B: Parts + Coded> Journal<B> {
    /// The name of the collection of the number, if there is one. One index; this is no step.
    pub fn name(&self, at: u8) -> Option<&String>
        ensures there { option_map (λ name. string_bytes name.now) result ≡
            option_map (λ x. x.name) (slice_get (B.Names.labels self.now.names) at) }
        ensures good { IfSome result (λ name. IsName (string_bytes name.now)) }
    {
        self.names.name(at)
    }

    /// How large the collection of the number is, which is there, on its shelf. It takes memory for
    /// its name. This is no step.
    ///
    /// NoMemory alone is refused.
    pub fn measured(&self, shelf: &Shelf<B::Shelf>, at: u8) -> Result<Measured, Refusal>
        requires { at < length (B.Names.labels self.now.names) }
        ensures ok { (f : Four (ShelfState B.Shelf)) → IsBook B.meaning B.making B.collections
            B.whole B.fits self.now f → shelf.now ≡ pick f (which_of at) →
            IfOk result (λ measured. At (λ x. Measures x measured)
            (B.collections (B.whole self.now.names (contents f))) at) }
        ensures refusal { (f : Four (ShelfState B.Shelf)) → IsBook B.meaning B.making B.collections
            B.whole B.fits self.now f → shelf.now ≡ pick f (which_of at) →
            IsOkUnless result Refusal.NoMemory }
    {
        let Some(name) = self.name(at) else {
            unreachable!();
        };
        shelf.collections().measured(at, name)
    }

    /// The collection that `gather` wants a copy of next, by its number, with its name; none where
    /// it is refused or no collection is left. This is no step.
    pub fn next_copy(&self, gather: &Gather<B::Part>) -> Option<(u8, &String)>
        ensures number { IfSome result (λ next. next.0 ≡ length gather.now.parts) }
        ensures name { IfSome result (λ next. IsName (string_bytes next.1.now) ×
            (option_map (λ x. x.name) (slice_get (B.Names.labels self.now.names) next.0) ≡
            Some (string_bytes next.1.now))) }
        ensures none { IsNone result → CanGoOn self.now.gathering gather.now →
            length (B.Names.labels self.now.names) ≤ length gather.now.parts }
    {
        let copied = gather.copied();
        if !self.gathering.can_go_on(gather) || copied >= self.names.count() {
            return None;
        }
        let at = copied as u8;
        let name = self.name(at)?;
        Some((at, name))
    }

    /// Goes on with a gathering of the book, one collection at a time: takes the part, which is a
    /// copy of what `next_copy` tells, and hands over the calls that were run on the collections
    /// since the last copy. Answers whether a collection is not copied yet. What is new begins a
    /// gathering, which replaces one that is under way. The journal is as before but for what it
    /// notes.
    ///
    /// Outrun where the gathering is not under way: it was given up, replaced or frozen. Worn where
    /// 2^61 were begun, and another would be. NoMemory, also where there was none for the part.
    /// Each changes nothing.
    pub fn gather(
        &mut self,
        part: Result<Option<B::Part>, Refusal>,
        gather: &mut Gather<B::Part>,
    ) -> Result<bool, Refusal>
        requires next { (f : Four (ShelfState B.Shelf)) × IsGivenNext B.Names.labels B.Shelf.holds
            B.Part.collection B.meaning B.making B.collections B.whole B.fits self.old f gather.old
            part }
        ensures { (f : Four (ShelfState B.Shelf)) → IsGivenNext B.Names.labels B.Shelf.holds
            B.Part.collection B.meaning B.making B.collections B.whole B.fits self.old f gather.old
            part → GathersOn B.Names.labels B.Shelf.holds B.Part.collection B.meaning B.making
            B.collections B.whole B.fits self.old f gather.old result self.new gather.new }
    {
        let lsn = self.pending.lsn();
        let count = self.names.count();
        self.gathering.gather::<B>(count, part, lsn, gather)
    }

    /// Ends the gathering of the book, all collections of which are copied: hands over the rest of
    /// the calls, and notes beside them the live transactions with what they asked for, but for
    /// what a falling one deferred, and the head of where the book stands. It marks the LSN behind
    /// the last record too: no block that `cut` hands over from now on holds records from both
    /// sides of it.
    ///
    /// It takes time and memory in proportion to what the live transactions asked for.
    ///
    /// Unfinished for what is new. Outrun as `gather` says. Unfinished where a collection is not
    /// copied. NoMemory. Each changes nothing.
    pub fn freeze(&mut self, gather: &mut Gather<B::Part>) -> Result<(), Refusal>
        requires gathered { (f : Four (ShelfState B.Shelf)) × IsBook B.meaning B.making
            B.collections B.whole B.fits self.old f ×
            IsGatheredOf B.collections (book_state B.whole self.old f) gather.old }
        ensures answer { (f : Four (ShelfState B.Shelf)) → IsBook B.meaning B.making B.collections
            B.whole B.fits self.old f →
            IsGatheredOf B.collections (book_state B.whole self.old f) gather.old →
            FreezeAnswers B.collections (book_state B.whole self.old f) gather.old result
            (book_state B.whole self.new f) gather.new }
        ensures kept { (f : Four (ShelfState B.Shelf)) → IsBook B.meaning B.making B.collections
            B.whole B.fits self.old f → IsBook B.meaning B.making B.collections B.whole B.fits
            self.new f }
    {
        self.gathering.check_freeze(self.names.count(), gather)?;
        self.pending.reserve_seal()?;
        let image_head = ImageHead {
            format: self.transactions.format(),
            next: self.next,
            wear: self.transactions.wear(),
            end: self.pending.lsn(),
            place: self.places,
        };
        self.gathering
            .freeze::<B>(image_head, self.transactions.live(), gather)?;
        let Ok(()) = self.pending.seal() else {
            unreachable!();
        };
        Ok(())
    }
}
