// A script's clients and its committer, line by line.
ghost use Rattle.std.specs.Prelude.{◌≡◌, replicate};
ghost use Rattle.talks.specs.Plays.{IsPlayed};
ghost use Rattle.talks.specs.Requests.{Obeys, Acts, Answers, PlaysLines, nobody, response_kept};

use crate::checkpointer::checkpoint;
use crate::client::Client;
use crate::committer::turn;
use crate::texts::Response;
use calls::{Refusal, When};
use disk_model::Disk;
use script::{Action, Line, Operation, Request};
use std::io::{self, Write};
use world::World;

// A script has so many clients.
const CLIENTS: usize = 64;

/// A world, and what the clients of a script have from line to line.
#[derive(Drop)]
pub struct Player<D: Disk> {
    world: World<D>,
    clients: [Client; CLIENTS],
}

impl<D: Disk> Player<D> {
    /// Before the first line.
    pub fn new(world: World<D>) -> Self
        ensures world { result.world ≡ world }
        ensures clients { result.clients ≡ replicate 64 nobody }
    {
        Self {
            world,
            clients: [Client::NEW; CLIENTS],
        }
    }

    /// The disk. No device is called.
    pub fn into_disk(self) -> D
        ensures { result ≡ self.world.keeper.disk }
    {
        let Self { world, .. } = self;
        world.into_disk()
    }

    /// Carries lines out, and prints for each its number and its answer. All that they do to the
    /// world is to take steps:
    /// each past of it goes on with them, and whatever a stop at any moment since might have left
    /// is what that yields.
    pub fn play_lines<O: Write>(&mut self, lines: Vec<Line>, out: &mut O) -> io::Result<()>
        ensures plays { IsPlayed ⟦<D as Disk>⟧ self.old.world self.new.world }
        ensures lines { PlaysLines ⟦<D as Disk>⟧ self.old.clients self.old.world lines.items result
            self.new.clients self.new.world }
    {
        for Line { number, what } in lines {
            let response = self.answer(what);
            write_line(out, number, response)?;
        }
        Ok(())
    }

    // What a line answers.
    fn answer(&mut self, action: Action) -> Response
        ensures { Answers ⟦<D as Disk>⟧ self.old.clients self.old.world action result
            self.new.clients self.new.world }
    {
        match self.act(action) {
            Ok(response) => response,
            Err(refusal) => Response::Refused(refusal),
        }
    }

    // Does what a line asks for.
    fn act(&mut self, action: Action) -> Result<Response, Refusal>
        ensures { Acts ⟦<D as Disk>⟧ self.old.clients self.old.world action result self.new.clients
            self.new.world }
    {
        match action {
            Action::Turn => Ok(Response::Turned(turn(&mut self.world)?)),
            Action::Checkpoint => Ok(Response::Flipped(checkpoint(&mut self.world)?)),
            // clients are numbered from 1 to 64
            Action::Client(number, request) => {
                let client = &mut self.clients[usize::from(number) % CLIENTS];
                obey(&mut self.world, client, request)
            }
        }
    }
}

// Prints a line's number and its answer.
fn write_line<O: Write>(out: &mut O, number: u64, response: Response) -> io::Result<()> {
    writeln!(out, "{number}: {response}")
}

// Carries a client's request out.
fn obey<D: Disk>(
    world: &mut World<D>,
    client: &mut Client,
    request: Request,
) -> Result<Response, Refusal>
    ensures { Obeys ⟦<D as Disk>⟧ client.old world.old request result client.new world.new }
{
    match request {
        Request::Make(kind, name) => Ok(Response::Placed(client.make(world, kind, &name)?)),
        Request::Begin => Ok(Response::Begun(client.begin(world)?)),
        Request::Call(name, operation) => {
            let reply = client.ask(world, &name, operation, When::Now)?;
            Ok(Response::Replied(reply))
        }
        Request::Later(name, call) => {
            let reply = client.ask(world, &name, Operation::Call(call), When::AtCommit)?;
            Ok(Response::Replied(reply))
        }
        Request::Commit => Ok(Response::Placed(client.commit(world)?)),
        Request::Abort => {
            client.abort(world)?;
            Ok(Response::Aborted)
        }
        Request::Kept => Ok(response_of(client.is_kept(world))),
    }
}

/// What is said of a client's ticket: whether it is kept, if there is one.
pub fn response_of(kept: Option<bool>) -> Response
    ensures { result ≡ response_kept kept }
{
    match kept {
        None => Response::NoTicket,
        Some(true) => Response::Kept,
        Some(false) => Response::NotYet,
    }
}
