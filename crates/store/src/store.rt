// The store.
ghost use Rattle.std.specs.Prelude.{◌≡◌, ◌++◌, IfOk, IsOkUnless};
ghost use Rattle.calls.specs.declared.refusal.Refusal.{Refusal};
ghost use Rattle.group_commit.specs.Lines.{HaveSeenOne};
ghost use Rattle.group_commit.specs.Marks.{new_watcher};
ghost use Rattle.clients.specs.Known.{newcomer, both_left, all_left};
ghost use Rattle.desks.specs.Told.{told_book};
ghost use Rattle.store.specs.Closing.{Closes};
ghost use Rattle.store.specs.Turns.{new_committer};

use crate::checkpointing::Checkpointer;
use crate::closing::close;
use crate::committing::Committer;
use crate::gatherer::Gatherer;
use crate::stopping::Stopping;
use crate::vault::Vault;
use calls::Refusal;
use catalog::Catalog;
use checkpoint::Keeper;
use clients::{Client, Seen};
use desks::{Desk, Lock, Naming, Order, Shared, Shelves, Signal};
use disk_model::Disk;
use records::Coded;
use std::sync::{Mutex, Wait};
use txn::Book;

/// A store of named collections that threads share. The book, which runs transactions in memory,
/// lies under five locks: each of its four shelves under one, which has every fourth collection,
/// and its journal under one. The keeper of the disk lies under another, and what is gathered for
/// an image under one that checkpointers alone take. A last one is taken where a committer is made,
/// and none beside it. No device is called under a lock that clients take, so a client waits for
/// the disk only in `Client::wait`, and where many records wait for it already.
///
/// Who takes several of them takes them in this order: what is gathered, the keeper, the shelves by
/// rising number, the journal.
pub struct Store<D: Disk, J: Naming, B: Coded = Catalog> {
    shelves: Shelves<J, B>,
    desk: Lock<Desk<J, B>>,
    vault: Mutex<Vault<D, J>>,
    gatherer: Mutex<Gatherer<J, B>>,
    stopping: Mutex<Stopping<J>>,
    shared: Shared<J>,
}

// Written out, so that the crates above call it in place of proving it again.
impl<D: Disk + Drop, J: Naming, B: Coded> Drop for Store<D, J, B> {
    fn drop(self) {
        let Self {
            shelves,
            desk,
            vault,
            gatherer,
            stopping,
            shared,
        } = self;
        drop(shelves);
        drop(desk);
        drop(vault);
        drop(gatherer);
        drop(stopping);
        drop(shared);
    }
}

impl<D: Disk, J: Naming, B: Coded> Store<D, J, B> {
    pub(crate) fn new(
        shelves: Shelves<J, B>,
        desk: Desk<J, B>,
        vault: Vault<D, J>,
        gatherer: Gatherer<J, B>,
        stopping: Stopping<J>,
        shared: Shared<J>,
    ) -> Self {
        Self {
            shelves,
            desk: Lock::new(desk),
            vault: Mutex::new(vault),
            gatherer: Mutex::new(gatherer),
            stopping: Mutex::new(stopping),
            shared,
        }
    }

    /// A new client, for one thread at a time, with no transaction. It takes the journal's lock
    /// once, and no memory.
    ///
    /// Worn where 65,536 clients were made since the store was opened. Everything is as before
    /// then.
    ///
    /// ```text
    /// let mut client = store.client(rt)?;
    /// ```
    pub fn client<R: Wait>(&self, rt: &R) -> Result<Client<'_, J, B>, Refusal>
        ensures client { IfOk result (λ c. c ≡ newcomer c.number) }
        ensures worn { IsOkUnless result Refusal.Worn }
    {
        let (line, watcher, drawer) = self.desk.lock(rt, &mut Order::new()).client(&self.shared)?;
        Ok(Client::new(
            &self.shelves,
            &self.desk,
            &self.shared,
            line,
            watcher,
            drawer,
        ))
    }

    /// A committer, whose turns bring what clients did to the disk. A store may have several. It
    /// takes the journal's lock once, and no memory, and is never refused.
    pub fn committer<R: Wait>(&self, rt: &R) -> Committer<'_, D, J, B>
        ensures { result ≡ new_committer J.mark }
    {
        let watcher = self.desk.lock(rt, &mut Order::new()).watcher(&self.shared);
        let stopper = self.stopping.lock(rt).stopper(&self.shared);
        Committer::new(&self.desk, &self.vault, &self.shared, watcher, stopper)
    }

    /// A checkpointer, whose turns write an image of the store and make it the store. It takes the
    /// journal's lock once, and no memory, and is never refused.
    pub fn checkpointer<R: Wait>(&self, rt: &R) -> Checkpointer<'_, D, J, B>
        ensures { result ≡ new_watcher J.mark }
    {
        let watcher = self.desk.lock(rt, &mut Order::new()).watcher(&self.shared);
        Checkpointer::new(
            &self.shelves,
            &self.desk,
            &self.vault,
            &self.gatherer,
            &self.shared,
            watcher,
        )
    }

    /// What wakes the store's committer, and tells it when no more commits come.
    pub fn signal(&self) -> &Signal {
        &self.shared.signal
    }

    /// What two clients of this store had seen when they left, or two lots of them, together, for
    /// `close`: what each had seen, in order, and the counts that any of them loaded. Of any two of
    /// them, what one had seen begins what the other had. It takes no memory, and waits for nobody.
    pub fn together(&self, one: Seen<J>, other: Seen<J>) -> Seen<J>
        ensures both { result ≡ both_left one other }
        ensures one_history { HaveSeenOne result.clients }
    {
        let Seen {
            line,
            mut watcher,
            ..
        } = one;
        let Seen {
            line: other_line,
            watcher: mut other_watcher,
            ..
        } = other;
        let line = self.shared.line.gather(line, other_line);
        self.shared.mark.inform(&mut other_watcher, &mut watcher);
        Seen::new(line, watcher)
    }

    /// Ends the store, and gives its book and its keeper, and how many clients it made. What was
    /// not brought to the disk yet is dropped, so let the committer take turns before, until it
    /// answers Idle. `last` is what clients of this store left, if one did: the contract says more
    /// then. No device is called.
    ///
    /// The book stands where a legal history from the opened content ends, which begins with what
    /// each of these clients had seen. Where they are as many as the store made, each step of a
    /// client in it is of one of them. Whatever a stop leaves of the disk is sound, and stands for
    /// a content that a beginning of its committed transactions gives. That beginning holds all
    /// that was told to be kept.
    pub fn close(self, last: Option<Seen<J>>) -> (Book<B>, Keeper<D>, u64)
        ensures { Closes ⟦<J as Naming>⟧ ⟦<D as Disk>⟧ (all_left last) result.2
            (told_book B.collections result.0) result.1 }
    {
        let Store {
            shelves,
            desk,
            vault,
            gatherer,
            stopping,
            shared,
        } = self;
        drop(gatherer);
        drop(stopping);
        close(
            &shared,
            shelves,
            desk.into_inner(),
            vault.into_inner(),
            last,
        )
    }
}
