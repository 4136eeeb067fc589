// The making of a collection, over the names and the shelf of the next number.
ghost use Rattle.std.specs.Prelude.{◌≡◌, OnOk, length};
ghost use Rattle.catalog.specs.Fours.{which_of};
ghost use Rattle.txn.specs.declared.actions.Action.{Action};
ghost use Rattle.txn.specs.Shelved.{IsOfBook, LeadsOn, IsServed, SettlesMade};

use crate::Journal;
use calls::{Kind, Name, Refusal};
use catalog::{Named, Parts};
use records::{Coded, Record};
use steps::Shelf;

// The bytes of a record of a making but for the name.
const MAKE_HEAD: usize = 3;

impl<B: Parts + Coded> Journal<B> {
    /// How many collections there are. This is no step.
    pub fn count(&self) -> usize
        ensures { result ≡ length (B.Names.labels self.now.names) }
    {
        self.names.count()
    }

    /// Makes an empty collection, on the shelf of the next number: a committed transaction of its
    /// own. Answers the count of commits and makes since the book was opened, this one included.
    ///
    /// Backlog at 16,384 pending records, then the refusals of `Parts::make_on`: BadName, TooLong,
    /// NameTaken, TooManyCollections, NoMemory. All but the last come before any memory is taken.
    /// Each leaves journal and shelf as before.
    pub fn make(
        &mut self,
        shelf: &mut Shelf<B::Shelf>,
        name: &str,
        kind: Kind,
    ) -> Result<u64, Refusal>
        requires kept { IsOfBook B.meaning B.making B.collections B.whole B.fits
            (which_of (length (B.Names.labels self.old.names))) self.old shelf.old }
        ensures { LeadsOn B.meaning B.making B.collections B.whole B.fits
            (λ b c. IsServed B.meaning B.making B.collections (Action.Make name.now kind) result
            (OnOk result (SettlesMade B.meaning B.making name.now kind b c)) b c)
            (which_of (length (B.Names.labels self.old.names))) self.old shelf.old self.new
            shelf.new }
    {
        self.check_backlog()?;
        self.names.check_new(name)?;
        self.pending.reserve(MAKE_HEAD + name.len())?;
        let spelled = Name::new(name.to_string(self.alloc)?);
        let at = B::make_on(&mut self.names, shelf.collections_mut(), name, kind)?;
        prove!(at <= u8::MAX);
        self.pending.push(Record::Make(kind, spelled));
        self.places += 1;
        Ok(self.places)
    }
}
