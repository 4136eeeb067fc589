// A script through the store that threads share, on one thread.
ghost use Rattle.std.specs.Prelude.{IsOkUnless};
ghost use Rattle.calls.specs.declared.refusal.Refusal.{Refusal};
ghost use Rattle.store.specs.Openings.{IsNamed};

use crate::plays::runs::Ran;
use boost::{Action, End, Failure, Line, Request, Response, Session, Speaker, parse, report};
use calls::Refusal;
use checkpoint::Turn;
use disk_model::Disk;
use std::alloc::{AllocError, Global};
use std::io::{self, Write};
use std::marker::Brand;
use std::sync::Wait;
use store::{Checkpoint, Checkpointer, Committer, Naming, Opened, Store};

// A script's clients are numbered from 1 to so many.
const CLIENTS: usize = 64;

// So many bytes of answers are written without more memory.
const ROOM: usize = 1 << 16;

/// The clients of a script on a store, its committer and its checkpointer.
#[derive(Drop)]
pub struct Stage<'c, 's, D: Disk, J: Naming> {
    pub sessions: Vec<Session<'s, J>>,
    pub committer: &'c mut Committer<'s, D, J>,
    checkpointer: Checkpointer<'s, D, J>,
    has_failed: bool,
    // whether a block waits for a checkpoint
    waits: bool,
}

/// A session for each client of a script.
pub fn sessions<'s, D: Disk, J: Naming, R: Wait + AllocGlobal>(
    rt: &R,
    store: &'s Store<D, J>,
) -> Result<Vec<Session<'s, J>>, Refusal> {
    let mut sessions = Vec::with_capacity(rt.alloc(), CLIENTS)?;
    for _ in 0..CLIENTS {
        sessions.push(Session::new(store.client(rt)?))?;
    }
    Ok(sessions)
}

impl<'c, 's, D: Disk, J: Naming> Stage<'c, 's, D, J> {
    /// Before the first line.
    pub fn new<R: Wait>(
        rt: &R,
        store: &'s Store<D, J>,
        sessions: Vec<Session<'s, J>>,
        committer: &'c mut Committer<'s, D, J>,
    ) -> Self {
        Self {
            sessions,
            committer,
            checkpointer: store.checkpointer(rt),
            has_failed: false,
            waits: false,
        }
    }

    /// What a line answers. Whether the disk has failed is noted.
    pub fn answer<R: Wait>(&mut self, rt: &R, action: &Action) -> Response {
        let done = self.act(rt, action);
        self.response(done)
    }

    /// What a request of a client of this number is answered.
    pub fn asked<R: Wait>(&mut self, rt: &R, client: usize, request: &Request) -> Response {
        let done = self.ask(rt, client, request);
        self.response(done)
    }

    // What is said of what was done or refused.
    fn response(&mut self, done: Result<Response, Refusal>) -> Response {
        match done {
            Ok(response) => response,
            Err(refusal) => {
                self.has_failed |= matches!(refusal, Refusal::Fault | Refusal::Failed);
                Response::Refused(refusal)
            }
        }
    }

    // Does what a line asks for.
    fn act<R: Wait>(&mut self, rt: &R, action: &Action) -> Result<Response, Refusal> {
        match action {
            Action::Turn => Ok(Response::Turned(self.turn(rt)?)),
            Action::Checkpoint => Ok(Response::Flipped(self.checkpoint(rt)?)),
            Action::Client(number, request) => self.ask(rt, usize::from(*number), request),
        }
    }

    // What a client's request is answered.
    fn ask<R: Wait>(
        &mut self,
        rt: &R,
        client: usize,
        request: &Request,
    ) -> Result<Response, Refusal> {
        match self.sessions.get_mut(client.wrapping_sub(1)) {
            Some(session) => Ok(session.say(rt, request)),
            // each of the 64 has a session
            None => Err(Refusal::Worn),
        }
    }

    /// The number of the first client that has a transaction open.
    pub fn busy_client(&self) -> Option<usize> {
        let at = self.sessions.iter().position(|session| session.is_open())?;
        Some(at.wrapping_add(1))
    }

    /// How the store stands, as the first client is told.
    pub fn status<R: Wait>(&self, rt: &R, alloc: Global) -> Result<String, Refusal>
        ensures { IsOkUnless result Refusal.NoMemory }
    {
        match self.sessions.first() {
            Some(session) => session.status(rt, alloc),
            None => Err(Refusal::NoMemory),
        }
    }

    /// What the first client is told of its last ticket.
    pub fn end_of_first<R: Wait>(&mut self, rt: &R) -> End {
        match self.sessions.first_mut() {
            Some(session) => session.end(rt),
            None => End::NoTicket,
        }
    }

    /// Whether the first client hears that keeping has failed.
    pub fn has_failed(&mut self) -> bool {
        match self.sessions.first_mut() {
            Some(session) => session.has_failed(),
            None => false,
        }
    }

    // A turn of the committer. Whether its block waits for a checkpoint is noted.
    fn turn<R: Wait>(&mut self, rt: &R) -> Result<Turn, Refusal> {
        let turned = self.committer.turn(rt);
        self.waits = matches!(turned, Ok(Turn::Held) | Err(Refusal::Full));
        turned
    }

    // Turns of the checkpointer, until an image is the store. Where a block waits for it, the
    // committer asks behind each of them whether the block may go, as in a server.
    fn checkpoint<R: Wait>(&mut self, rt: &R) -> Result<u64, Refusal> {
        for _ in rt.forever() {
            if let Checkpoint::Flipped(place) = self.checkpointer.turn(rt)? {
                return Ok(place);
            }
            if self.waits {
                let _turned = self.turn(rt);
            }
        }
        unreachable!()
    }

    // Runs a line and prints what it is answered. Whether memory was refused.
    fn play_once<R: Wait>(&mut self, rt: &R, line: &Line, out: &mut Vec<u8>) -> io::Result<bool> {
        let response = self.answer(rt, &line.what);
        writeln!(out, "{}: {response}", line.number)?;
        Ok(matches!(response, Response::Refused(Refusal::NoMemory)))
    }

    // Runs lines, each once more where memory was refused.
    fn play<R: Wait>(&mut self, rt: &R, lines: &[Line], out: &mut Vec<u8>) -> io::Result<()> {
        for line in lines {
            if self.play_once(rt, line, out)? {
                let _is_refused_again = self.play_once(rt, line, out)?;
            }
        }
        Ok(())
    }

    // Prints what each client that has a ticket is told of it, where the disk has failed. Else it
    // might wait for ever.
    fn tell_ends<R: Wait>(&mut self, rt: &R, ends: &mut Vec<u8>) -> io::Result<()> {
        let mut client = 1u64;
        for session in self.sessions.iter_mut() {
            tell_end(client, session.end(rt), ends)?;
            client = client.wrapping_add(1);
        }
        Ok(())
    }
}

// Prints what a client is told of its last ticket, if it has one.
fn tell_end(client: u64, end: End, ends: &mut Vec<u8>) -> io::Result<()> {
    match end {
        End::NoTicket => Ok(()),
        End::Kept | End::Lost => writeln!(ends, "c{client}: {end}"),
    }
}

// Runs lines on a store, and then asks after each client's ticket, where the disk has failed.
fn play_on<D: Disk, J: Naming, R: Wait + AllocGlobal>(
    rt: &R,
    store: &Store<D, J>,
    lines: &[Line],
    out: &mut Vec<u8>,
    ends: &mut Vec<u8>,
) -> Result<(), Failure<'static>> {
    let sessions = sessions(rt, store)?;
    let mut committer = store.committer(rt);
    let mut stage = Stage::new(rt, store, sessions, &mut committer);
    stage.play(rt, lines, out)?;
    if stage.has_failed {
        stage.tell_ends(rt, ends)?;
    }
    Ok(())
}

// The same on a store that was opened, which is closed then.
fn play_opened<J: Naming, D: Disk + Drop, R: Wait + AllocGlobal>(
    rt: &R,
    opened: Opened<D>,
    lines: &[Line],
    out: &mut Vec<u8>,
    ends: &mut Vec<u8>,
) -> (Result<(), Failure<'static>>, D)
    requires { IsNamed ⟦<J as Naming>⟧ ⟦<D as Disk>⟧ opened }
{
    let store = opened.named::<J>();
    let done = play_on(rt, &store, lines, out, ends);
    let (_, keeper, _) = store.close(None);
    (done, keeper.into_disk())
}

// The same on the store of a disk, under a name of its own.
fn play_lines<D: Disk + Drop, R: Wait + AllocGlobal>(
    rt: &R,
    opened: Opened<D>,
    lines: &[Line],
    out: &mut Vec<u8>,
    ends: &mut Vec<u8>,
) -> (Result<(), Failure<'static>>, D) {
    play_opened::<Brand, D, R>(rt, opened, lines, out, ends)
}

// Runs a script on the store of a disk.
fn play_script<D: Disk + Drop, R: Wait + AllocGlobal>(
    rt: &R,
    disk: D,
    script: &[u8],
    out: &mut Vec<u8>,
    ends: &mut Vec<u8>,
) -> (Result<(), Failure<'static>>, D) {
    match parse(rt.alloc(), script) {
        Ok(lines) => match Opened::open(rt.alloc(), disk) {
            Ok(opened) => play_lines(rt, opened, lines.as_slice(), out, ends),
            Err((refusal, disk)) => (Err(Failure::Refused(refusal)), disk),
        },
        Err(error) => (Err(Failure::from(error)), disk),
    }
}

/// What a script was answered through the store, and, where the disk failed, what each client was
/// told of its last ticket then.
#[derive(Drop)]
pub struct Played {
    pub ran: Ran,
    pub ends: Vec<u8>,
}

/// Runs a script through the store that threads share, on one thread, as the program plays it. A
/// line that is refused for want of memory is run once more.
pub fn play<D: Disk + Drop, R: Wait + AllocGlobal>(
    rt: &R,
    disk: D,
    script: &[u8],
) -> Result<(Played, D), AllocError> {
    let alloc = rt.alloc();
    let mut out = Vec::with_capacity(alloc, ROOM)?;
    let (mut err, mut ends) = (Vec::new(alloc), Vec::new(alloc));
    let (done, disk) = play_script(rt, disk, script, &mut out, &mut ends);
    let status = match done {
        Ok(()) => 0,
        Err(failure) => report(&failure, &mut err),
    };
    let ran = Ran { status, out, err };
    Ok((Played { ran, ends }, disk))
}
