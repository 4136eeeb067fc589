// Named collections, in the order of making.
ghost use Rattle.std.specs.Prelude.{◌≡◌, ◌≤◌, [], ◌∷◌, ◌++◌, false, IsTrue, length};
ghost use Rattle.std.specs.Prelude.{IfOk, IfErr, OnOk, OnErr, IsOkUnless};
ghost use Rattle.std.specs.List.{AllZip};
ghost use Rattle.calls.specs.Limits.{max_collections};
ghost use Rattle.catalog.specs.Holdings.{content_of, Shows, ShowRefused, AreItems, Loads};
ghost use Rattle.catalog.specs.Holdings.{LoadRefused};
ghost use Rattle.catalog.specs.Places.{At};
ghost use Rattle.catalog.specs.Making.{names_of, AreDistinct, IsNew};
ghost use Rattle.catalog.specs.Meaning.{catalog_meaning, catalog_making};
ghost use Rattle.catalog.specs.Woven.{woven, Fits};
ghost use Rattle.catalog.specs.Laws.Catalogs.{catalog_laws, making_laws};
ghost use Rattle.catalog.specs.Laws.Shelves.{catalog_shelves};

use crate::holding::are_items;
use crate::{CatalogShelf, Four, Holding, Named, NamedHolding, Names, Parts, Shelved, Shown};
use boosted::Boosted;
use calls::{Call, Item, Kind, Refusal, Reply};
use std::alloc::Global;
use std::marker::Model;

/// Named collections, at most 256, in the order of making: the place of a collection is its number.
/// Contracts see the list of them, each with its name and what it holds. It can be taken apart into
/// the names and four shelves: the collection of number n is on shelf n % 4, at place n / 4.
pub struct Catalog {
    names: Names,
    shelves: Four<CatalogShelf>,
}

// Written out, so that the crates above call it in place of proving it again.
impl Drop for Catalog {
    fn drop(self) {
        let Self { names, shelves } = self;
        drop(names);
        drop(shelves);
    }
}

impl Model for Catalog {
    ghost use Rattle.std.specs.Prelude.{List};
    ghost use Rattle.calls.specs.Contents.{Collection};
    ghost use Rattle.catalog.specs.Holdings.{catalog_code};

    ghost Value = { List Collection };

    ghost coded = { catalog_code };

    ghost use Rattle.catalog.specs.Woven.{woven, Fits};

    ghost view = { λ catalog. woven catalog.names catalog.shelves };

    ghost invariant = { λ catalog. Fits catalog.names catalog.shelves };
}

impl Catalog {
    /// A catalog with no collection. It takes no memory.
    pub fn new(alloc: Global) -> Self
        ensures { result ≡ [] }
    {
        Self {
            names: Names::new(alloc),
            shelves: Four {
                first: CatalogShelf::new(0, alloc),
                second: CatalogShelf::new(1, alloc),
                third: CatalogShelf::new(2, alloc),
                fourth: CatalogShelf::new(3, alloc),
            },
        }
    }

    /// How many collections there are.
    pub fn len(&self) -> usize
        ensures len { result ≡ length self.now }
        ensures few { result ≤ max_collections }
        ensures distinct { AreDistinct (names_of self.now) }
    {
        self.names.count()
    }

    // Puts a collection at the end.
    fn add(&mut self, name: &str, holding: Holding) -> Result<(), Refusal>
        requires { IsNew (names_of self.old) name.now }
        ensures ok { OnOk result (self.new ≡ self.old ++
            record { name = name.now; content = content_of holding } ∷ []) }
        ensures err { OnErr result (self.new ≡ self.old) }
        ensures refusal { IsOkUnless result Refusal.NoMemory }
    {
        let Self { names, shelves } = self;
        let turn = (names.count() % 4) as u8;
        shelves.of_mut(turn).put(names, name, holding)
    }

    /// Puts a collection of the name, the kind and these items at the end; false, with nothing
    /// changed, where no collection of the kind has these items in this order.
    ///
    /// BadName and TooLong as `check_name` says, then NameTaken, TooManyCollections where there are
    /// 256, and NoMemory only where it is not false. Each of them leaves everything as before.
    pub fn load(&mut self, name: &str, kind: Kind, items: Vec<Item>) -> Result<bool, Refusal>
        ensures new { IfOk result (λ loaded. IsNew (names_of self.old) name.now) }
        ensures loads { IfOk result (λ loaded. IsTrue loaded →
            Loads self.old name.now kind items.items self.new) }
        ensures not { IfOk result (λ loaded. loaded ≡ false →
            (self.new ≡ self.old) × (AreItems kind items.items → ⊥)) }
        ensures as_before { OnErr result (self.new ≡ self.old) }
        ensures err { IfErr result (LoadRefused (names_of self.old) name.now kind items.items) }
    {
        self.check_new(name)?;
        if !are_items(kind, &items) {
            return Ok(false);
        }
        let alloc = self.names.alloc();
        let holding = Holding::of_items(kind, items, alloc)?;
        self.add(name, holding)?;
        Ok(true)
    }

    /// The name, which is a good one, the kind and the items of the collection at the place, the
    /// items in their order.
    ///
    /// NoSuchCollection where there is none, then NoMemory.
    pub fn show(&self, at: u8) -> Result<Shown, Refusal>
        ensures ok { IfOk result (λ shown. At (λ x. Shows x shown) self.now at) }
        ensures err { IfErr result (ShowRefused self.now at) }
    {
        match self.names.name(at) {
            Some(name) => self.shelves.of(at).shown(at, name),
            None => Err(Refusal::NoSuchCollection),
        }
    }
}

impl Boosted for Catalog {
    type At = u8;

    ghost meaning = { catalog_meaning };

    fn look(&self, at: u8, call: &Call) -> Result<Reply, Refusal> {
        self.shelves.of(at).look(at, call)
    }

    fn fits(&self, at: u8, call: &Call, reply: &Reply) -> bool {
        self.shelves.of(at).fits(at, call, reply)
    }

    fn run(&mut self, at: u8, call: &Call, reply: &Reply) -> Result<(), Refusal> {
        self.shelves.of_mut(at).run(at, call, reply)
    }

    fn askable(&self, at: u8, call: &Call) -> Result<(), Refusal> {
        self.shelves.of(at).askable(at, call)
    }

    fn deferrable(&self, at: u8, call: &Call) -> Result<(), Refusal> {
        self.shelves.of(at).deferrable(at, call)
    }

    ghost laws = { catalog_laws };
}

impl Parts for Catalog {
    type Part = NamedHolding;

    type Names = Names;

    type Shelf = CatalogShelf;

    ghost collections = { λ s. s };

    ghost making = { catalog_making };

    ghost whole = { woven };

    ghost fits = { Fits };

    fn find(&self, name: &str) -> Result<u8, Refusal> {
        self.names.find(name)
    }

    fn check_new(&self, name: &str) -> Result<(), Refusal> {
        self.names.check_new(name)
    }

    fn make(&mut self, name: &str, kind: Kind) -> Result<u8, Refusal> {
        let Self { names, shelves } = self;
        let turn = (names.count() % 4) as u8;
        Self::make_on(names, shelves.of_mut(turn), name, kind)
    }

    fn count(&self) -> usize {
        self.len()
    }

    fn copy(&self, at: u8) -> Result<NamedHolding, Refusal> {
        match self.names.name(at) {
            Some(name) => self.shelves.of(at).copy(at, name),
            None => Err(Refusal::NoSuchCollection),
        }
    }

    fn apart(self) -> (Names, Four<CatalogShelf>) {
        let Self { names, shelves } = self;
        (names, shelves)
    }

    fn together(names: Names, shelves: Four<CatalogShelf>) -> Self
        requires { Fits names shelves }
        ensures { result ≡ woven names shelves }
    {
        Self { names, shelves }
    }

    fn make_on(
        names: &mut Names,
        shelf: &mut CatalogShelf,
        name: &str,
        kind: Kind,
    ) -> Result<u8, Refusal> {
        names.check_new(name)?;
        let at = names.count();
        shelf.put(names, name, Holding::new(kind, names.alloc()))?;
        Ok(at as u8)
    }

    ghost laws = { making_laws };

    ghost shelf_laws = { catalog_shelves };
}
