// Committers of a store.
ghost use Rattle.std.specs.Prelude.{◌≡◌, ◌+◌, IfErr};
ghost use Rattle.engine.specs.declared.room.Room.{Room};
ghost use Rattle.store.specs.Turns.{TurnTells, IsTurnRefusal};
ghost use Rattle.store.specs.Vaults.{IsRoomUnderLock};

use crate::vault::Vault;
use calls::Refusal;
use catalog::Catalog;
use checkpoint::Turn;
use desks::{Desk, Lock, Naming, Order, Shared, lock_next};
use disk_model::Disk;
use engine::told;
use group_commit::{Stopper, Watcher};
use records::Coded;
use std::marker::Model;
use std::sync::{Mutex, Wait};

/// Brings what a store's clients did to its disk, block by block. One thread has it at a time, and
/// takes its turns in a loop. Contracts see what it has loaded of the mark, and how often it
/// stopped.
#[derive(Drop)]
pub struct Committer<'s, D: Disk, J: Naming, B: Coded = Catalog> {
    desk: &'s Lock<Desk<J, B>>,
    vault: &'s Mutex<Vault<D, J>>,
    shared: &'s Shared<J>,
    watcher: Watcher,
    stopper: Stopper,
}

impl<'s, D: Disk, J: Naming, B: Coded> Model for Committer<'s, D, J, B> {
    ghost use Rattle.std.specs.Prelude.{◌≡◌};
    ghost use Rattle.store.specs.Turns.{CommitterState};

    ghost Value = { CommitterState };

    ghost view = { λ c. record { watched = c.watcher; stops = c.stopper.stops } };

    ghost invariant = { λ c. (c.watcher.table ≡ J.mark) × (c.stopper.table ≡ J.mark) };
}

impl<'s, D: Disk, J: Naming, B: Coded> Committer<'s, D, J, B> {
    pub(crate) fn new(
        desk: &'s Lock<Desk<J, B>>,
        vault: &'s Mutex<Vault<D, J>>,
        shared: &'s Shared<J>,
        watcher: Watcher,
        stopper: Stopper,
    ) -> Self
        requires watcher { watcher.table ≡ J.mark }
        requires stopper { stopper.table ≡ J.mark }
        ensures { result ≡ record { watched = watcher; stops = stopper.stops } }
    {
        Self {
            desk,
            vault,
            shared,
            watcher,
            stopper,
        }
    }

    /// Takes one turn: cuts a block of at most 65,535 bytes from what waits, and writes the next
    /// block to the disk, with two writes and two syncs. `Turn::Kept` gives a place: all commits
    /// and makings up to it are kept. `Turn::Idle` says that nothing was there to do.
    ///
    /// A block is cut only where it leaves room in the area: the undoing of all that is live behind
    /// the block fits behind it, so that the disk can be opened again. While an image is written no
    /// block past it is cut, and none that does not fit, as the image may cover it: `Turn::Held`.
    ///
    /// The block is cut under the journal's lock and written under the keeper's alone, which is
    /// held where it is cut. It takes no memory. How far the area in use is filled then is told for
    /// `Client::status`.
    ///
    /// Failed after a Fault; Fault where the disk failed; Full where the block, with that undoing,
    /// does not fit into the area: it is not cut, and goes to the disk once a checkpoint has made
    /// room. After Fault and Failed each client that waits is told Lost, and the disk is to be
    /// opened again.
    pub fn turn<R: Wait>(&mut self, rt: &R) -> Result<Turn, Refusal>
        ensures tells { TurnTells self.old.watched result self.new.watched }
        ensures stops { self.new.stops ≡ self.old.stops }
        ensures refused { IfErr result IsTurnRefusal }
    {
        let desk = self.desk;
        let vault = self.vault;
        let mut order = Order::new();
        let mut vault = lock_next(rt, vault, &mut order);
        let cut = desk
            .lock(rt, &mut order)
            .cut(rt, self.shared, vault.room(), vault.extent());
        let turned = vault.turn(rt, self.shared, &mut self.watcher);
        told(cut.err(), turned)
    }

    /// How many bytes the area in use has behind its blocks, at a moment of the call. It takes the
    /// keeper's lock.
    pub fn free<R: Wait>(&self, rt: &R) -> u64
        ensures { (room : Room) × IsRoomUnderLock ⟦<J as Naming>⟧ ⟦<D as Disk>⟧ room ×
            (result ≡ room.free) }
    {
        let vault = self.vault;
        lock_next(rt, vault, &mut Order::new()).room().free
    }

    /// Tells every client that waits for a ticket which is not kept yet, now or later, that it is
    /// Lost. For a committer that takes no more turns. It takes no memory, and waits for nobody.
    pub fn stop(&mut self)
        ensures { self.new ≡ record self.old { stops = self.old.stops + 1 } }
    {
        self.shared.mark.stop(&mut self.stopper);
    }
}
