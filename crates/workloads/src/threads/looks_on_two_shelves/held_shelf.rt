// A shelf whose looks are held.
ghost use Rattle.std.specs.Prelude.{◌≡◌};
ghost use Rattle.catalog.specs.Woven.{shelf_meaning, IsHeld};
ghost use Rattle.catalog.specs.Laws.OnShelves.{shelf_laws};

use crate::threads::looks_on_two_shelves::signals::Signals;
use boosted::Boosted;
use calls::{Call, Refusal, Reply};
use catalog::{CatalogShelf, Measured, NamedHolding, Shelved};
use std::marker::Model;

/// A shelf like the one in it, each look on which is held until one on another shelf has begun.
/// Contracts see what the collections hold.
#[derive(Drop)]
pub struct HeldShelf<'s> {
    pub shelf: CatalogShelf,
    pub signals: &'s Signals,
}

impl<'s> Model for HeldShelf<'s> {
    ghost use Rattle.catalog.specs.Woven.{ShelfContent, shelf_code};

    ghost Value = { ShelfContent };

    ghost coded = { shelf_code };

    ghost view = { λ held. held.shelf };
}

impl<'s> HeldShelf<'s> {
    /// The shelf, held from now on.
    pub fn new(shelf: CatalogShelf, signals: &'s Signals) -> Self
        ensures { result ≡ shelf }
    {
        HeldShelf { shelf, signals }
    }
}

impl<'s> Boosted for HeldShelf<'s> {
    type At = u8;

    ghost meaning = { shelf_meaning };

    fn look(&self, at: u8, call: &Call) -> Result<Reply, Refusal> {
        self.signals.hold_look(at);
        self.shelf.look(at, call)
    }

    fn fits(&self, at: u8, call: &Call, reply: &Reply) -> bool {
        self.shelf.fits(at, call, reply)
    }

    fn run(&mut self, at: u8, call: &Call, reply: &Reply) -> Result<(), Refusal> {
        self.shelf.run(at, call, reply)
    }

    fn askable(&self, at: u8, call: &Call) -> Result<(), Refusal> {
        self.shelf.askable(at, call)
    }

    fn deferrable(&self, at: u8, call: &Call) -> Result<(), Refusal> {
        self.shelf.deferrable(at, call)
    }

    ghost laws = { shelf_laws };
}

impl<'s> Shelved for HeldShelf<'s> {
    type Part = NamedHolding;

    ghost index = { λ s. s.index };

    ghost holds = { IsHeld };

    fn copy(&self, at: u8, name: &String) -> Result<NamedHolding, Refusal> {
        self.shelf.copy(at, name)
    }

    fn measured(&self, at: u8, name: &String) -> Result<Measured, Refusal> {
        self.shelf.measured(at, name)
    }
}
