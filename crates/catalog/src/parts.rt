// Collections that are found and made by name.
ghost use Rattle.std.specs.Prelude.{◌≡◌, List, Some, length, slice_get, IfOk, OnOk, OnErr, IfErr};
ghost use Rattle.calls.specs.Contents.{Collection};
ghost use Rattle.calls.specs.Names.{IsName};
ghost use Rattle.catalog.specs.Making.{Making, IsPlaceOf, FindRefused, IsNew, NewRefused};
ghost use Rattle.catalog.specs.Making.{MakeRefused, MakingLaws};
ghost use Rattle.catalog.specs.Holdings.{ShowRefused};
ghost use Rattle.catalog.specs.declared.four.Four.{Four};
ghost use Rattle.catalog.specs.Fours.{which_of};
ghost use Rattle.catalog.specs.Shelving.{MakesOn, ShelfLaws};
ghost use Rattle.catalog.specs.Woven.{names_in};

use crate::{Four, Named, Part, Shelved};
use boosted::Boosted;
use calls::{Kind, Refusal};

/// Named collections at their places, whose calls can be undone.
pub trait Parts: Boosted<At = u8> {
    /// A copy of one collection.
    type Part: Part;

    /// The names of the collections, with their kinds.
    type Names: Named;

    /// A quarter of the collections, without their names.
    type Shelf: Shelved<Part = Self::Part>;

    /// The content, as named collections in the order of making.
    ghost collections: { Self → List Collection };

    /// The names, in the order of making, and where the making of an empty collection leads.
    ghost making: { Making Self };

    /// The whole that names and four shelves are.
    ghost whole: { Self.Names → Four Self.Shelf → Self };

    /// They belong together: each number below the count of the names has its place on its shelf,
    /// and no other number has one.
    ghost fits: { Self.Names → Four Self.Shelf → Type 0 };

    /// The place of the collection of the name. It takes no memory.
    ///
    /// BadName and TooLong as `check_name` says, then NoSuchCollection where no collection has the
    /// name.
    fn find(&self, name: &str) -> Result<u8, Refusal>
        ensures ok { IfOk result (λ at. IsName name.now ×
            IsPlaceOf (making.names self.now) name.now at) }
        ensures err { IfErr result (FindRefused (making.names self.now) name.now) };

    /// Whether a collection can be made under the name. It takes no memory.
    ///
    /// BadName and TooLong as `check_name` says, then NameTaken, TooManyCollections where there are
    /// 256.
    fn check_new(&self, name: &str) -> Result<(), Refusal>
        ensures ok { OnOk result (IsNew (making.names self.now) name.now) }
        ensures err { IfErr result (NewRefused (making.names self.now) name.now) };

    /// Makes an empty collection, at the end. The answer is its place, which is how many there were
    /// before.
    ///
    /// BadName and TooLong as `check_name` says, then NameTaken, TooManyCollections where there are
    /// 256, NoMemory.
    /// Each of them leaves everything as before.
    fn make(&mut self, name: &str, kind: Kind) -> Result<u8, Refusal>
        ensures ok { IfOk result (λ at. IsName name.now × (at ≡ length (making.names self.old)) ×
            making.makes self.old name.now kind self.new) }
        ensures as_before { OnErr result (self.new ≡ self.old) }
        ensures err { IfErr result (MakeRefused (making.names self.old) name.now) };

    /// How many collections there are.
    fn count(&self) -> usize
        ensures { result ≡ length (collections self.now) };

    /// A copy of the collection at the place, with its name. It takes time and memory in proportion
    /// to what the collection holds.
    ///
    /// NoSuchCollection where there is none, then NoMemory.
    fn copy(&self, at: u8) -> Result<Self::Part, Refusal>
        ensures ok { IfOk result (λ part. slice_get (collections self.now) at ≡
            Some (Self.Part.collection part)) }
        ensures err { IfErr result (ShowRefused (collections self.now) at) };

    /// The names and the four shelves that it is. It takes no memory, and nothing is copied.
    fn apart(self) -> (Self::Names, Four<Self::Shelf>)
        ensures fit { fits result.0 result.1 }
        ensures whole { self ≡ whole result.0 result.1 };

    /// The whole of names and four shelves that belong together. It takes no memory, and nothing is
    /// copied.
    fn together(names: Self::Names, shelves: Four<Self::Shelf>) -> Self
        requires { fits names shelves }
        ensures { result ≡ whole names shelves };

    /// Makes an empty collection over the names and the shelf of the next number, whatever the
    /// other shelves are. The answer is its number, which is how many names there were before. It
    /// costs what `make` does.
    ///
    /// BadName and TooLong as `check_name` says, then NameTaken, TooManyCollections where there are
    /// 256, NoMemory.
    /// Each of them leaves names and shelf as before.
    fn make_on(
        names: &mut Self::Names,
        shelf: &mut Self::Shelf,
        name: &str,
        kind: Kind,
    ) -> Result<u8, Refusal>
        requires { Self.Shelf.index shelf.old ≡ which_of (length (Self.Names.labels names.old)) }
        ensures ok { IfOk result (λ at. IsName name.now ×
            (at ≡ length (Self.Names.labels names.old))) }
        ensures makes { OnOk result (MakesOn Self.Names.labels whole fits making names.old shelf.old
            name.now kind names.new shelf.new) }
        ensures names_as_before { OnErr result (names.new ≡ names.old) }
        ensures as_before { OnErr result (shelf.new ≡ shelf.old) }
        ensures err { IfErr result
            (MakeRefused (names_in (Self.Names.labels names.old)) name.now) };

    /// Calls leave the names and the making of others possible, and a making leaves what calls did.
    ghost laws: { MakingLaws Self.meaning making };

    /// A call on a shelf is one on the whole and leaves the other shelves, and names, kinds and
    /// contents there are those of the whole.
    ghost shelf_laws: { ShelfLaws Self.Names.labels whole fits Self.meaning making collections
        Self.Shelf.meaning Self.Shelf.index Self.Shelf.holds };
}
