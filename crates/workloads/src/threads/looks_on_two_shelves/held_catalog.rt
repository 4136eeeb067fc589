// A catalog whose looks on its shelves are held.
ghost use Rattle.std.specs.Prelude.{◌≡◌};
ghost use Rattle.catalog.specs.Meaning.{catalog_meaning, catalog_making};
ghost use Rattle.catalog.specs.Woven.{woven, Fits};
ghost use Rattle.catalog.specs.Laws.Catalogs.{catalog_laws, making_laws};
ghost use Rattle.catalog.specs.Laws.Shelves.{catalog_shelves};
ghost use Rattle.records.specs.Told.{tells_itself};

use crate::threads::looks_on_two_shelves::held_shelf::HeldShelf;
use crate::threads::looks_on_two_shelves::signals::Signals;
use boosted::Boosted;
use calls::{Call, Item, Kind, Refusal, Reply};
use catalog::{Catalog, CatalogShelf, Four, NamedHolding, Names, Parts, Shown};
use records::Coded;
use std::marker::Model;

/// A catalog like the one in it, the looks on the shelves of which are held (`HeldShelf`).
/// Contracts see the list of its collections.
#[derive(Drop)]
pub struct HeldCatalog<'s> {
    catalog: Catalog,
    signals: &'s Signals,
}

impl<'s> Model for HeldCatalog<'s> {
    ghost use Rattle.std.specs.Prelude.{List};
    ghost use Rattle.calls.specs.Contents.{Collection};
    ghost use Rattle.catalog.specs.Holdings.{catalog_code};

    ghost Value = { List Collection };

    ghost coded = { catalog_code };

    ghost view = { λ held. held.catalog };
}

impl<'s> HeldCatalog<'s> {
    /// The catalog, held from now on.
    pub fn new(catalog: Catalog, signals: &'s Signals) -> Self
        ensures { result ≡ catalog }
    {
        HeldCatalog { catalog, signals }
    }
}

impl<'s> Boosted for HeldCatalog<'s> {
    type At = u8;

    ghost meaning = { catalog_meaning };

    fn look(&self, at: u8, call: &Call) -> Result<Reply, Refusal> {
        self.catalog.look(at, call)
    }

    fn fits(&self, at: u8, call: &Call, reply: &Reply) -> bool {
        self.catalog.fits(at, call, reply)
    }

    fn run(&mut self, at: u8, call: &Call, reply: &Reply) -> Result<(), Refusal> {
        self.catalog.run(at, call, reply)
    }

    fn askable(&self, at: u8, call: &Call) -> Result<(), Refusal> {
        self.catalog.askable(at, call)
    }

    fn deferrable(&self, at: u8, call: &Call) -> Result<(), Refusal> {
        self.catalog.deferrable(at, call)
    }

    ghost laws = { catalog_laws };
}

impl<'s> Parts for HeldCatalog<'s> {
    type Part = NamedHolding;

    type Names = Names;

    type Shelf = HeldShelf<'s>;

    ghost collections = { λ s. s };

    ghost making = { catalog_making };

    ghost whole = { woven };

    ghost fits = { Fits };

    fn find(&self, name: &str) -> Result<u8, Refusal> {
        self.catalog.find(name)
    }

    fn check_new(&self, name: &str) -> Result<(), Refusal> {
        self.catalog.check_new(name)
    }

    fn make(&mut self, name: &str, kind: Kind) -> Result<u8, Refusal> {
        self.catalog.make(name, kind)
    }

    fn count(&self) -> usize {
        self.catalog.count()
    }

    fn copy(&self, at: u8) -> Result<NamedHolding, Refusal> {
        self.catalog.copy(at)
    }

    fn apart(self) -> (Names, Four<HeldShelf<'s>>) {
        let Self { catalog, signals } = self;
        let (names, shelves) = catalog.apart();
        (names, held(shelves, signals))
    }

    fn together(names: Names, shelves: Four<HeldShelf<'s>>) -> Self
        requires { Fits names shelves }
        ensures { result ≡ woven names shelves.entry }
    {
        let signals = shelves.first.signals;
        HeldCatalog {
            catalog: Catalog::together(names, free(shelves)),
            signals,
        }
    }

    fn make_on(
        names: &mut Names,
        shelf: &mut HeldShelf<'s>,
        name: &str,
        kind: Kind,
    ) -> Result<u8, Refusal> {
        Catalog::make_on(names, &mut shelf.shelf, name, kind)
    }

    ghost laws = { making_laws };

    ghost shelf_laws = { catalog_shelves };
}

impl<'s> Coded for HeldCatalog<'s> {
    fn shown(&self, at: u8) -> Result<Shown, Refusal> {
        self.catalog.shown(at)
    }

    fn load(&mut self, name: &str, kind: Kind, items: Vec<Item>) -> Result<bool, Refusal> {
        self.catalog.load(name, kind, items)
    }

    ghost told = { tells_itself };
}

// The shelves, held from now on.
fn held<'s>(shelves: Four<CatalogShelf>, signals: &'s Signals) -> Four<HeldShelf<'s>>
    ensures { result ≡ shelves }
{
    let Four {
        first,
        second,
        third,
        fourth,
    } = shelves;
    Four {
        first: HeldShelf::new(first, signals),
        second: HeldShelf::new(second, signals),
        third: HeldShelf::new(third, signals),
        fourth: HeldShelf::new(fourth, signals),
    }
}

// The shelves, held no more.
fn free(shelves: Four<HeldShelf<'_>>) -> Four<CatalogShelf>
    ensures { result ≡ shelves.entry }
{
    let Four {
        first,
        second,
        third,
        fourth,
    } = shelves;
    Four {
        first: first.shelf,
        second: second.shelf,
        third: third.shelf,
        fourth: fourth.shelf,
    }
}
