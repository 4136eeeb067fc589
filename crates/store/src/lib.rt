//! A store of named collections that threads share. Many clients run transactions on one book, a
//! committer brings what they did to the disk, and a checkpointer writes images.
//!
//! Each thread makes its own `Client`, `Committer` or `Checkpointer` of `&store`:
//!
//! ```text
//! let mut client = store.client(rt)?;
//! client.make(rt, "hits", Kind::Counter)?;
//! client.begin()?;
//! client.call(rt, "hits", &Call::Bump(1))?;
//! let ticket = client.commit(rt)?;      // in effect for all
//! client.wait(rt, &ticket)?;            // kept through a stop
//! ```
//!
//! A commit is kept once a committer has brought it to the disk, so some thread must take turns. A
//! call that another transaction is in the way of answers Busy at once: the client tries it again,
//! or aborts. Two clients may be in each other's way for ever, so abort after some tries.
//!
//! No device is called under a lock that clients take. `begin`, `kept`, `meet` and `stop` wait for
//! nobody.
//!
//! Three lines open a store, the second in a function that is generic in its name:
//!
//! ```text
//! let opened = Opened::open(alloc, disk)?;
//! serve::<Brand, _, _>(&rt, opened)      // in `serve<J: Naming, ..>`:
//! let store = opened.named::<J>();
//! ```
//!
//! `serve` requires `IsNamed ⟦<J as Naming>⟧ ⟦<D as Disk>⟧ opened`, and the caller's
//! `Invariants.antt` picks the name from the argument (the caller, here `serve_any` of a crate
//! NAME, is generic in the disk alone):
//!
//! ```text
//! use Rattle.store.specs.Openings.{naming_of}
//! use Rattle.NAME.proofs.serve_any.Given as goal
//!
//! abbrev pub ghosts-serve : goal.ghosts-serve
//! ghosts-serve g a = naming_of g.D.Disk a.opened
//! ```
//!
//! **Where its argument stands.** Under the journal's lock is a `Desk` (crate `desks`), which
//! knows what each shelf holds, under a shelf's a `ShelfDesk`, under the keeper's a vault
//! (`specs/Vaults`): for every history of a book that sent those blocks, the keeper has received
//! them, and a stop at any moment since the opening leaves a beginning of what it commits, with all
//! that the mark had told by then. `proofs/VaultSteps` keeps that over each step of the keeper,
//! `proofs/Freezes` over a freeze, which has the journal's lock and the keeper's; there `Closes` is
//! proved. `proofs/Copied` keeps what lies under the journal's lock over a copy and a freeze. What
//! threads share beside the locks are tables of `group_commit`.
//!
//! **To change it.** A step of the committer or the checkpointer is a method of the vault or of the
//! gatherer. What lies under a lock is known by its type's invariant alone, so a new field has its
//! law there.
#![tactic(auto)]

mod checkpointing;
mod closing;
mod committing;
mod crossing;
mod gatherer;
mod opened;
mod stopping;
mod store;
mod twins;
mod vault;

pub use checkpointing::{Checkpoint, Checkpointer};
pub use clients::{Attempt, Client, Seen, Ticket, Transaction};
pub use committing::Committer;
pub use desks::{Extent, Fill, Measured, Naming, Signal, Status};
pub use opened::Opened;
pub use store::Store;
