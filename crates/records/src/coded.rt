// Collections that records tell of.
ghost use Rattle.std.specs.Prelude.{◌≡◌, false, IsTrue, IfOk, IfErr, OnErr};
ghost use Rattle.catalog.specs.Places.{At};
ghost use Rattle.catalog.specs.Holdings.{Shows, ShowRefused, AreItems, Loads, LoadRefused};
ghost use Rattle.catalog.specs.Making.{IsNew};
ghost use Rattle.records.specs.Told.{Tells, tells_itself};

use calls::{Item, Kind, Refusal};
use catalog::{Catalog, Parts, Shown};

/// Named collections that records tell of: what is in a journal says what their calls do, and what
/// is in an image says what they hold.
pub trait Coded: Parts {
    /// The name, which is a good one, the kind and the items of the collection at the place, the
    /// items in their order.
    ///
    /// NoSuchCollection where there is none, then NoMemory.
    fn shown(&self, at: u8) -> Result<Shown, Refusal>
        ensures ok { IfOk result (λ shown. At (λ x. Shows x shown) (Self.collections self.now) at) }
        ensures err { IfErr result (ShowRefused (Self.collections self.now) at) };

    /// Puts a collection of the name, the kind and these items at the end; false, with nothing
    /// changed, where no collection of the kind has these items in this order.
    ///
    /// BadName and TooLong as `check_name` says, then NameTaken, TooManyCollections where there are
    /// 256, and NoMemory only where it is not false. Each of them leaves everything as before.
    fn load(&mut self, name: &str, kind: Kind, items: Vec<Item>) -> Result<bool, Refusal>
        ensures new { IfOk result (λ loaded. IsNew (Self.making.names self.old) name.now) }
        ensures loads { IfOk result (λ loaded. IsTrue loaded →
            Loads (Self.collections self.old) name.now kind items.items
            (Self.collections self.new)) }
        ensures not { IfOk result (λ loaded. loaded ≡ false →
            (self.new ≡ self.old) × (AreItems kind items.items → ⊥)) }
        ensures as_before { OnErr result (self.new ≡ self.old) }
        ensures err { IfErr result (LoadRefused (Self.making.names self.old) name.now kind
            items.items) };

    /// The collections tell all of a content, and what its calls and makings do.
    ghost told: { Tells Self.meaning Self.making Self.collections };
}

impl Coded for Catalog {
    fn shown(&self, at: u8) -> Result<Shown, Refusal> {
        self.show(at)
    }

    fn load(&mut self, name: &str, kind: Kind, items: Vec<Item>) -> Result<bool, Refusal> {
        Catalog::load(self, name, kind, items)
    }

    ghost told = { tells_itself };
}
