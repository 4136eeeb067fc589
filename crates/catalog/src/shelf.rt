// A shelf of a catalog: every fourth collection.
ghost use Rattle.std.specs.Prelude.{◌≡◌, ◌<◌, ℕ, [], ◌∷◌, ◌++◌, OnOk, OnErr, IfOk, IfErr};
ghost use Rattle.std.specs.Prelude.{MatchOption, IsOkUnless, string_bytes};
ghost use Rattle.calls.specs.Contents.{Content, kind_of_content};
ghost use Rattle.calls.specs.Names.{IsName};
ghost use Rattle.catalog.specs.Fours.{Which, which_of};
ghost use Rattle.catalog.specs.Holdings.{content_of, Measures, Shows};
ghost use Rattle.catalog.specs.Making.{IsNew};
ghost use Rattle.catalog.specs.Shelving.{CopyRefused};
ghost use Rattle.catalog.specs.Woven.{names_in, shelf_meaning, IsHeld, IsAbsent};
ghost use Rattle.catalog.specs.Laws.OnShelves.{shelf_laws};

use crate::measured::measured_of;
use crate::shown::shown_of;
use crate::{Holding, Measured, NamedHolding, Names, Part, Shown};
use boosted::{Boosted, check_asked, check_deferred};
use calls::{Call, Refusal, Reply};
use std::alloc::Global;
use std::marker::Model;

/// Collections without their names, at every fourth number, whose calls can be undone.
pub trait Shelved: Boosted<At = u8> {
    /// A copy of one collection.
    type Part: Part;

    /// Which of four it is.
    ghost index: { Self → Which };

    /// The collection of the number is on the shelf and holds the content.
    ghost holds: { Self → ℕ → Content → Type 0 };

    /// A copy of the collection of the number, under the name. It takes time and memory in
    /// proportion to what the collection holds.
    ///
    /// NoSuchCollection where it is not on the shelf, then NoMemory.
    fn copy(&self, at: u8, name: &String) -> Result<Self::Part, Refusal>
        requires { IsName (string_bytes name.now) }
        ensures ok { IfOk result (λ part. holds self.now at (Self.Part.collection part).content) }
        ensures name { IfOk result (λ part.
            (Self.Part.collection part).name ≡ string_bytes name.now) }
        ensures err { IfErr result (CopyRefused (holds self.now at)) };

    /// How large the collection of the number is, under the name, of which it takes a copy.
    ///
    /// NoSuchCollection where it is not on the shelf, then NoMemory.
    fn measured(&self, at: u8, name: &String) -> Result<Measured, Refusal>
        ensures ok { IfOk result (λ measured. (k : Content) × holds self.now at k ×
            Measures (record { name = string_bytes name.now; content = k }) measured) }
        ensures err { IfErr result (CopyRefused (holds self.now at)) };
}

/// A quarter of a catalog: the collections whose numbers leave its index on division by 4, in the
/// order of their numbers. Contracts see the index and what the collections hold.
pub struct CatalogShelf {
    index: u8,
    holdings: Vec<Holding>,
}

// Written out, so that the crates above call it in place of proving it again.
impl Drop for CatalogShelf {
    fn drop(self) {
        let Self {
            index: _index,
            holdings,
        } = self;
        drop(holdings);
    }
}

impl Model for CatalogShelf {
    ghost use Rattle.std.specs.Prelude.{◌<◌, map};
    ghost use Rattle.catalog.specs.Fours.{which_of};
    ghost use Rattle.catalog.specs.Holdings.{content_of};
    ghost use Rattle.catalog.specs.Woven.{ShelfContent, shelf_code};

    ghost Value = { ShelfContent };

    ghost coded = { shelf_code };

    ghost view = { λ shelf. record {
      index = which_of shelf.index;
      held = map content_of shelf.holdings.items;
    } };

    ghost invariant = { λ shelf. shelf.index < 4 };
}

impl CatalogShelf {
    // A shelf with no collection. It takes no memory.
    pub(crate) fn new(index: u8, alloc: Global) -> Self
        requires { index < 4 }
        ensures { result ≡ record { index = which_of index; held = [] } }
    {
        Self {
            index,
            holdings: Vec::new(alloc),
        }
    }

    // The collection of the number, if it is on the shelf.
    pub(crate) fn holding(&self, at: u8) -> Option<&Holding>
        ensures { MatchOption result (IsAbsent self.now at)
            (λ holding. IsHeld self.now at (content_of holding.now)) }
    {
        if at % 4 != self.index {
            return None;
        }
        self.holdings.get(usize::from(at / 4))
    }

    // What is shown of the collection of the number, under the name.
    //
    // NoSuchCollection where it is not on the shelf, then NoMemory.
    pub(crate) fn shown(&self, at: u8, name: &String) -> Result<Shown, Refusal>
        requires { IsName (string_bytes name.now) }
        ensures ok { IfOk result (λ shown. (k : Content) × IsHeld self.now at k ×
            Shows (record { name = string_bytes name.now; content = k }) shown) }
        ensures err { IfErr result (CopyRefused (IsHeld self.now at)) }
    {
        match self.holding(at) {
            Some(holding) => Ok(shown_of(name, holding)?),
            None => Err(Refusal::NoSuchCollection),
        }
    }

    // Puts a collection at the end, and its name at the end of the names. NoMemory leaves both as
    // before: room is made here first.
    pub(crate) fn put(
        &mut self,
        names: &mut Names,
        name: &str,
        holding: Holding,
    ) -> Result<(), Refusal>
        requires { IsNew (names_in names.old) name.now }
        ensures names { OnOk result (names.new ≡ names.old ++
            record { name = name.now; kind = kind_of_content (content_of holding) } ∷ []) }
        ensures held { OnOk result (self.new ≡ record self.old {
          held = self.old.held ++ content_of holding ∷ [];
        }) }
        ensures names_as_before { OnErr result (names.new ≡ names.old) }
        ensures as_before { OnErr result (self.new ≡ self.old) }
        ensures refusal { IsOkUnless result Refusal.NoMemory }
    {
        self.holdings.reserve(1)?;
        names.add(name, holding.kind())?;
        self.holdings.push_reserved(holding);
        Ok(())
    }
}

impl Boosted for CatalogShelf {
    type At = u8;

    ghost meaning = { shelf_meaning };

    fn look(&self, at: u8, call: &Call) -> Result<Reply, Refusal> {
        match self.holding(at) {
            Some(holding) => holding.look(call),
            None => unreachable!(),
        }
    }

    fn fits(&self, at: u8, call: &Call, reply: &Reply) -> bool {
        match self.holding(at) {
            Some(holding) => holding.fits(call, reply),
            None => false,
        }
    }

    fn run(&mut self, at: u8, call: &Call, reply: &Reply) -> Result<(), Refusal> {
        self.holdings[usize::from(at / 4)].run(call, reply)
    }

    fn askable(&self, at: u8, call: &Call) -> Result<(), Refusal> {
        match self.holding(at) {
            Some(holding) => check_asked(holding.kind(), call),
            None => Err(Refusal::NoSuchCollection),
        }
    }

    fn deferrable(&self, at: u8, call: &Call) -> Result<(), Refusal> {
        match self.holding(at) {
            Some(holding) => check_deferred(holding.kind(), call),
            None => Err(Refusal::NoSuchCollection),
        }
    }

    ghost laws = { shelf_laws };
}

impl Shelved for CatalogShelf {
    type Part = NamedHolding;

    ghost index = { λ s. s.index };

    ghost holds = { IsHeld };

    fn copy(&self, at: u8, name: &String) -> Result<NamedHolding, Refusal> {
        match self.holding(at) {
            Some(holding) => NamedHolding::copy_of(name, holding),
            None => Err(Refusal::NoSuchCollection),
        }
    }

    fn measured(&self, at: u8, name: &String) -> Result<Measured, Refusal> {
        match self.holding(at) {
            Some(holding) => Ok(measured_of(name, holding)?),
            None => Err(Refusal::NoSuchCollection),
        }
    }
}
