// Clients of a server, and what they are told, against what is kept on the disk.
ghost use Rattle.std.specs.Prelude.{IfOk};
ghost use Rattle.fizgaloms.specs.Works.{AreTold, WasOpened};
ghost use Rattle.boost_main.specs.Talking.{TellsTalks, IsBorneOut};

use crate::doorway::Doorway;
use crate::fifos::Fifos;
use crate::multiplex::Multiplex;
use crate::served::Served;
use calls::Refusal;
use disk_model::Disk;
use fizgaloms::{Closed, run};
use std::alloc::AllocGlobal;
use std::io::{Read, Write};
use std::rt::Clock;
use std::sync::Wait;
use std::thread::Threads;

/// Opens the store of a disk, serves the clients that share an input and an output, and closes it:
/// `run`. What the client of each thread was told it was told in talks that this client held: so a
/// place that it was told is that of a commit or making of its own in the history, and what it was
/// told is kept is kept on the disk.
pub fn serve_input<
    D: Disk + Drop + Send,
    R: Threads + Wait + Clock + AllocGlobal + Sync,
    F: Fifos + Drop + Sync,
    I: Read + Drop + Send,
    O: Write + Drop + Send,
    E: Write + Drop + Send,
>(rt: &R, disk: D, clients: &Multiplex<'_, F, I, O, E>) -> (Result<Vec<Served>, Refusal>, Closed<D>)
    ensures told { IfOk result.0 (λ answers. WasOpened ⟦<D as Disk>⟧
        (λ o. AreTold (TellsTalks o) answers.items result.1.kept) disk result.1.disk
        result.1.kept) }
    ensures borne_out { IfOk result.0 (λ answers. WasOpened ⟦<D as Disk>⟧
        (λ o. AreTold (IsBorneOut o) answers.items result.1.kept) disk result.1.disk
        result.1.kept) }
{
    run(rt, disk, clients, clients.threads())
}

/// The same with the clients that come by a door.
pub fn serve_door<
    D: Disk + Drop + Send,
    R: Threads + Wait + Clock + AllocGlobal + Sync,
    F: Fifos + Drop + Sync,
    E: Write + Drop + Send,
>(rt: &R, disk: D, clients: &Doorway<'_, F, E>) -> (Result<Vec<Served>, Refusal>, Closed<D>)
    ensures told { IfOk result.0 (λ answers. WasOpened ⟦<D as Disk>⟧
        (λ o. AreTold (TellsTalks o) answers.items result.1.kept) disk result.1.disk
        result.1.kept) }
    ensures borne_out { IfOk result.0 (λ answers. WasOpened ⟦<D as Disk>⟧
        (λ o. AreTold (IsBorneOut o) answers.items result.1.kept) disk result.1.disk
        result.1.kept) }
{
    run(rt, disk, clients, clients.threads())
}
