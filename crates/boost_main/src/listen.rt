// Keeping a store open for clients that come and go.
use crate::command_line::tell_cause;
use crate::doorway::Doorway;
use crate::fifos::Fifos;
use crate::files::{StoreDisk, cannot_open};
use crate::listening::{serve_door, serve_input};
use crate::multiplex::Multiplex;
use crate::served::Served;
use crate::state::ServerState;
use crate::trouble::Trouble;
use boost::{Failure, report};
use calls::Refusal;
use disk_model::Content;
use fizgaloms::{Closed, Watch};
use std::alloc::AllocGlobal;
use std::io::{self, Read, Write};
use std::rt::Clock;
use std::sync::Wait;
use std::thread::Threads;
use std::time::Duration;

/// Keeps the store of a disk open, and serves the clients that share an input and an output.
/// Answers the status: 0 at the end of the input, once all that was committed is kept.
///
/// Else it is 1 where the store could not be opened, where keeping ended early, and where memory or
/// a thread is wanting; and 4 where the input could not be read or the output not be written.
pub fn listen_to_input<
    'a,
    S: Content + Send,
    R: Threads + Wait + Clock + AllocGlobal + Sync,
    F: Fifos + Drop + Sync,
    I: Read + Drop + Send,
    O: Write + Drop + Send,
    E: Write + Drop + Send,
    W: Watch + Sync,
>(
    rt: &R,
    disk: StoreDisk<'_, S, W>,
    clients: Multiplex<'_, F, I, O, E>,
) -> Result<u8, Failure<'a>> {
    let (served, closed) = serve_input(rt, disk, &clients);
    let mut notes = clients.into_notes();
    Ok(status_of(closed, first_trouble(served), None, &mut notes))
}

/// Keeps the store of a disk open, and serves the clients that come by the door of a folder. One
/// that is silent for the time `idle`, where that is given, has its transaction undone. What is
/// passed over there is told. Answers the status: 0 at the line `end` there, once all that was
/// committed is kept.
///
/// Else it is as `listen_to_input` answers it, with 4 where the door cannot be read.
pub fn listen_at_door<
    'a,
    S: Content + Send,
    R: Threads + Wait + Clock + AllocGlobal + Sync,
    F: Fifos + Drop + Sync,
    W: Watch + Sync,
>(
    rt: &R,
    disk: StoreDisk<'_, S, W>,
    fifos: F,
    folder: &'a str,
    idle: Option<Duration>,
    state: ServerState<'_>,
    err: &mut (impl Write + Send),
) -> Result<u8, Failure<'a>> {
    let door = format!(in rt.alloc(); "{folder}/door")?;
    let clients = Doorway::new(rt.alloc(), fifos, folder, idle, state, &mut *err)?;
    let (served, closed) = serve_door(rt, disk, &clients);
    let mut notes = clients.into_notes();
    let door = Door {
        folder,
        path: door.as_str(),
    };
    Ok(status_of(closed, first_trouble(served), Some(door), &mut notes))
}

// The door of a folder, and its path.
#[derive(Clone, Copy)]
struct Door<'a> {
    folder: &'a str,
    path: &'a str,
}

// The first trouble that the threads had which serve clients, if they had any. Refused where no
// thread served.
fn first_trouble(served: Result<Vec<Served>, Refusal>) -> Result<Option<Trouble>, Refusal> {
    for one in served? {
        if let Err(trouble) = one.ended {
            return Ok(Some(trouble));
        }
    }
    Ok(None)
}

// Why an input or an output could not be used.
fn unusable(error: &io::Error) -> Failure<'static> {
    match error.kind() {
        io::ErrorKind::OutOfMemory => Failure::Refused(Refusal::NoMemory),
        _ => Failure::Unwritten,
    }
}

// The status where a store was closed. Why it was not opened is told, or what ended keeping early,
// each with the system's words; or else what trouble there was: at the door of a folder, or with
// input and output.
fn status_of<S: Content, W: Watch>(
    closed: Closed<StoreDisk<'_, S, W>>,
    trouble: Result<Option<Trouble>, Refusal>,
    door: Option<Door<'_>>,
    err: &mut impl Write,
) -> u8 {
    let Closed { disk, ended_by, .. } = closed;
    let ended = match ended_by {
        Some(refusal) => Err(refusal),
        None => trouble,
    };
    match ended {
        Ok(trouble) => status_of_trouble(trouble, door, err),
        Err(refusal) => {
            let status = report(&Failure::Refused(refusal), err);
            tell_cause(&disk, err);
            status
        }
    }
}

// The status where that trouble was met, if any was.
fn status_of_trouble(trouble: Option<Trouble>, door: Option<Door<'_>>, err: &mut impl Write) -> u8 {
    match (trouble, door) {
        (None, _) => 0,
        (Some(Trouble::Unusable(error)), Some(door)) => {
            report(&cannot_open(door.path, &error), err)
        }
        (Some(Trouble::Unusable(error)), None) => report(&unusable(&error), err),
        (Some(Trouble::InUse), Some(door)) => {
            let _written = writeln!(err, "boost: another run has {}", door.folder);
            4
        }
        (Some(trouble), _) => {
            let _written = writeln!(err, "boost: {trouble}");
            1
        }
    }
}
