// Checkpoints of a store that threads use.
ghost use Rattle.std.specs.Prelude.{◌≡◌, IfErr, IfNone, IfSome};
ghost use Rattle.store.specs.Turns.{CheckTells, IsCheckRefusal};

use crate::gatherer::Gatherer;
use crate::vault::Vault;
use calls::Refusal;
use catalog::Catalog;
use desks::{Desk, Fill, Lock, Naming, Order, Shared, Shelves, lock_next};
use disk_model::Disk;
use group_commit::Watcher;
use records::Coded;
use std::marker::Model;
use std::sync::{Mutex, Wait};

/// What a turn of a checkpointer did.
#[derive(Clone, Copy, Debug, PartialEq, Eq)]
pub enum Checkpoint {
    /// A collection was copied, if one was left, and what was run behind the copies is repeated.
    Gathered,
    /// The book was frozen, all collections of which are copied.
    Frozen,
    /// What was frozen is packed, and its image is in progress.
    Packed,
    /// A piece of the image was written.
    Piece,
    /// The image is the store, and all commits up to this place are kept: it is the mark.
    Flipped(u64),
}

/// Takes checkpoints of a store, step by step: the collections are copied one at a time while
/// clients go on, an image of them goes into the area that is not in use, and then one byte makes
/// it the store, with no journal behind it. A store has one checkpoint under way, with which each
/// checkpointer goes on. Contracts see what it has loaded of the mark.
#[derive(Drop)]
pub struct Checkpointer<'s, D: Disk, J: Naming, B: Coded = Catalog> {
    shelves: &'s Shelves<J, B>,
    desk: &'s Lock<Desk<J, B>>,
    vault: &'s Mutex<Vault<D, J>>,
    gatherer: &'s Mutex<Gatherer<J, B>>,
    shared: &'s Shared<J>,
    watcher: Watcher,
}

impl<'s, D: Disk, J: Naming, B: Coded> Model for Checkpointer<'s, D, J, B> {
    ghost use Rattle.std.specs.Prelude.{◌≡◌};
    ghost use Rattle.group_commit.specs.Marks.{WatcherState};

    ghost Value = { WatcherState };

    ghost view = { λ c. c.watcher };

    ghost invariant = { λ c. c.watcher.table ≡ J.mark };
}

impl<'s, D: Disk, J: Naming, B: Coded> Checkpointer<'s, D, J, B> {
    pub(crate) fn new(
        shelves: &'s Shelves<J, B>,
        desk: &'s Lock<Desk<J, B>>,
        vault: &'s Mutex<Vault<D, J>>,
        gatherer: &'s Mutex<Gatherer<J, B>>,
        shared: &'s Shared<J>,
        watcher: Watcher,
    ) -> Self
        requires { watcher.table ≡ J.mark }
        ensures { result ≡ watcher }
    {
        Self {
            shelves,
            desk,
            vault,
            gatherer,
            shared,
            watcher,
        }
    }

    /// Takes the next step of a checkpoint. Where an image is in progress it writes a piece of it,
    /// which is one write, or makes the image the store where no piece is left, which is a write
    /// and two syncs. Both go on under the keeper's lock alone, so clients go on meanwhile.
    ///
    /// Else it goes on towards an image. It lets those who wait for the lock of the next
    /// collection's shelf have it, and copies the collection under it, in the time and memory that
    /// one copy takes. So a client of that shelf waits for one copy as a rule, and not for several
    /// in a row; clients of the other three go on. The journal's lock is taken once before it, to
    /// find the collection, and once behind it. What was run behind the copies is repeated under no
    /// lock that clients take. Where all are copied it freezes the book under the locks of the
    /// keeper, of all shelves and of the journal, in the time of what the live transactions asked
    /// for, with no device called. Then it packs the image under no lock, and begins it under the
    /// keeper's. Take turns until `Flipped`.
    ///
    /// An image is begun only where it leaves room in its area: the undoing of all that was live at
    /// the freeze fits behind it, so that the disk can be opened again once the image is the store.
    ///
    /// Towards an image it is refused: Outrun where more calls were run between two copies than are
    /// noted; NoMemory; Worn where 2^61 gatherings were begun; Full where the image, with that
    /// undoing, does not fit into an area; Failed after a Fault. NoMemory leaves what was gathered,
    /// and the next turn goes on with it; with each other refusal it is given up, and the next turn
    /// begins anew. What clients see is as before. Of a piece Failed and Fault, of a flip too.
    /// After Failed and Fault each client that waits is told Lost, and the disk is to be opened
    /// again.
    pub fn turn<R: Wait>(&mut self, rt: &R) -> Result<Checkpoint, Refusal>
        ensures tells { CheckTells self.old result self.new }
        ensures refused { IfErr result IsCheckRefusal }
    {
        if let Some(done) = self.lay(rt) {
            return done;
        }
        self.prepare(rt)
    }

    /// How full the store is. It takes the journal's lock once.
    pub fn fill<R: Wait>(&self, rt: &R) -> Fill {
        let desk = self.desk;
        desk.lock(rt, &mut Order::new()).fill()
    }

    // Writes a piece of the image in progress, or makes it the store, and then the journal's side
    // knows what the image takes. None where none is in progress.
    fn lay<R: Wait>(&mut self, rt: &R) -> Option<Result<Checkpoint, Refusal>>
        ensures some { IfSome result (λ r. CheckTells self.old r self.new) }
        ensures refused { IfSome result (λ r. IfErr r IsCheckRefusal) }
        ensures none { IfNone result (self.new ≡ self.old) }
    {
        let (desk, vault) = (self.desk, self.vault);
        let mut order = Order::new();
        let mut vault = lock_next(rt, vault, &mut order);
        let done = vault.lay(self.shared, &mut self.watcher);
        if let Some(Ok(Checkpoint::Flipped(_))) = &done {
            desk.lock(rt, &mut order).note_image(vault.extent());
        }
        done
    }

    // Takes the next step towards an image.
    fn prepare<R: Wait>(&mut self, rt: &R) -> Result<Checkpoint, Refusal>
        ensures tells { CheckTells self.old result self.new }
        ensures refused { IfErr result IsCheckRefusal }
    {
        let mut order = Order::new();
        let mut gatherer = lock_next(rt, self.gatherer, &mut order);
        gatherer.turn(
            rt,
            self.shared,
            self.shelves,
            self.desk,
            self.vault,
            &mut self.watcher,
            order,
        )
    }
}
