// The threads of a script's clients.
ghost use Rattle.std.specs.Prelude.{◌≡◌, ◌↔◌, Any, length, IfOk, IsOkUnless, IsTrue};
ghost use Rattle.calls.specs.declared.refusal.Refusal.{Refusal};
ghost use Rattle.boost_main.specs.Serving.{HaveLines, IsOfClient};

use calls::Refusal;
use fizgaloms::Work;
use script::{Action, Line};
use std::alloc::{AllocGlobal, Global};
use std::marker::Model;
use std::rt::Clock;
use std::sync::Wait;
use store::{Client, Naming};
use talks::{Transcript, run_lines};

// Clients are numbered from 1 to so many.
const CLIENTS: u8 = 64;

/// The lines of a script as work on a store: each client that has lines runs its own in a thread of
/// its own, by rising number, and answers what it was told. Lines without a client are passed over.
#[derive(Drop)]
pub struct Script<'a> {
    lines: &'a [Line],
    clients: Vec<u8>,
}

impl<'a> Model for Script<'a> {
    ghost use Rattle.boost_main.specs.Serving.{ScriptState};

    ghost Value = { ScriptState };

    ghost view = { λ s. record { lines = s.lines.now; clients = s.clients.items } };
}

impl<'a> Script<'a> {
    /// The script of the lines. Refused only for want of memory.
    pub fn new(alloc: Global, lines: &'a [Line]) -> Result<Script<'a>, Refusal>
        ensures lines { IfOk result (λ script. script.lines ≡ lines.now) }
        ensures clients { IfOk result (λ script. HaveLines script.clients lines.now) }
        ensures refused { IsOkUnless result Refusal.NoMemory }
    {
        let clients = clients_of(alloc, lines)?;
        Ok(Script { lines, clients })
    }

    /// How many threads run it: one for each client that has lines.
    pub fn threads(&self) -> usize
        ensures { result ≡ length self.now.clients }
    {
        self.clients.len()
    }
}

impl Work for Script<'_> {
    ghost use Rattle.boost_main.specs.Serving.{Tells};

    type Output = Result<Option<Transcript>, Refusal>;

    ghost says = { Tells };

    /// Runs the lines of a client (`run_lines`), and answers what it was told; none for a thread
    /// behind those of the clients.
    ///
    /// NoMemory where the answers take more than there is.
    fn work<J: Naming, R: Wait + Clock + AllocGlobal>(
        &self,
        rt: &R,
        client: &mut Client<'_, J>,
        thread: usize,
    ) -> Result<Option<Transcript>, Refusal> {
        let Some(number) = self.clients.get(thread) else {
            return Ok(None);
        };
        Ok(Some(run_lines(rt, rt.alloc(), client, *number, self.lines)?))
    }
}

// The numbers of the clients that have lines, rising.
fn clients_of(alloc: Global, lines: &[Line]) -> Result<Vec<u8>, Refusal>
    ensures clients { IfOk result (λ clients. HaveLines clients.items lines.now) }
    ensures refused { IsOkUnless result Refusal.NoMemory }
{
    let mut clients = Vec::new(alloc);
    for client in 1..CLIENTS + 1 {
        if has_lines(lines, client) {
            clients.push(client)?;
        }
    }
    Ok(clients)
}

// Whether a line is a request of the client of this number.
fn has_lines(lines: &[Line], client: u8) -> bool
    ensures { IsTrue result ↔ Any (IsOfClient client) lines.now }
{
    for line in lines {
        if is_of_client(line, client) {
            return true;
        }
    }
    false
}

// Whether the line is a request of the client of this number.
fn is_of_client(line: &Line, client: u8) -> bool
    ensures { IsTrue result ↔ IsOfClient client line.now }
{
    matches!(&line.what, Action::Client(number, _) if *number == client)
}
