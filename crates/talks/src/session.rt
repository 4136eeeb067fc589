// A client of a store that threads share, as a talk speaks with it.
ghost use Rattle.std.specs.Prelude.{◌≡◌, None};
ghost use Rattle.talks.specs.Sessions.{session};

use crate::requests::{end, say};
use crate::{End, Response, Speaker};
use calls::{Refusal, Reply};
use clients::{Client, Moment, Ticket};
use desks::Naming;
use script::Request;
use std::alloc::Global;
use std::marker::Model;
use std::rt::Clock;
use std::sync::Wait;

/// A client of a store that threads share, to speak with: what it knows of the store, and the
/// ticket of what it last committed or made.
#[derive(Drop)]
pub struct Session<'s, J: Naming> {
    client: Client<'s, J>,
    ticket: Option<Ticket>,
}

impl<'s, J: Naming> Model for Session<'s, J> {
    ghost use Rattle.talks.specs.Sessions.{SessionState, session};

    ghost Value = { SessionState };

    ghost view = { λ s. session s.client s.ticket };
}

impl<'s, J: Naming> Session<'s, J> {
    /// A session that has no ticket yet.
    pub fn new(client: Client<'s, J>) -> Self
        ensures { result ≡ session client.entry None }
    {
        Self {
            client,
            ticket: None,
        }
    }

    // The same with no ticket.
    pub(crate) fn begin_anew(&mut self)
        ensures { self.new ≡ session self.old.known None }
    {
        self.ticket = None;
    }

    /// The client, behind what was said.
    pub fn into_client(self) -> Client<'s, J>
        ensures { result ≡ self.entry.known }
    {
        let Self {
            client,
            ticket: _ticket,
        } = self;
        client
    }
}

impl<J: Naming> Speaker for Session<'_, J> {
    ghost use Rattle.std.specs.Prelude.{◌≡◌, [], ◌∷◌};
    ghost use Rattle.talks.specs.Sessions.{Says, Ends, response_place, IsRefusal};
    ghost use Rattle.clients.specs.Calls.{Hears, IsOpen};

    type Response = Response;

    ghost says = { Says J.origin };

    ghost ends = { λ old end new. Ends old.known old.ticket end new.known ×
        (new.ticket ≡ old.ticket) };

    ghost hears = { λ old failed new. Hears old.known [] (failed ∷ []) new.known ×
        (new.ticket ≡ old.ticket) };

    ghost is_open = { λ s. IsOpen s.known.phase };

    ghost placed = { response_place };

    ghost refuses = { IsRefusal };

    /// Carries a request out, and says what it is answered: a refusal of the store too. It waits
    /// for locks of the book alone.
    fn say<R: Wait>(&mut self, rt: &R, request: &Request) -> Response {
        let mut ticket = self.ticket;
        let response = say(rt, &mut self.client, &mut ticket, request);
        self.ticket = ticket;
        response
    }

    /// Waits for the client's last ticket, if it has one: some committer has to take turns
    /// meanwhile, or have met a fault of the disk.
    fn end<R: Wait>(&mut self, rt: &R) -> End {
        end(rt, &mut self.client, self.ticket)
    }

    /// Whether keeping has failed, as `Client::has_failed` tells it.
    fn has_failed(&mut self) -> bool {
        self.client.has_failed()
    }

    /// How the store stands, as `Client::status` tells it, in one line.
    fn status<R: Wait>(&self, rt: &R, alloc: Global) -> Result<String, Refusal> {
        let status = self.client.status(rt, alloc)?;
        Ok(format!(in alloc; "{status}")?)
    }

    /// Lines up with those who wait, as `Client::line_up` does.
    fn line_up<R: Wait + Clock>(&mut self, rt: &R, alike: u64) {
        self.client.line_up(rt, alike);
    }

    /// Sleeps until another try may be worth it, as `Client::await_change` does.
    fn await_change<R: Wait + Clock>(&mut self, rt: &R, until: Moment) -> bool {
        self.client.await_change(rt, until)
    }

    /// Waits no more, as `Client::leave_line` says.
    fn leave_line<R: Wait>(&mut self, rt: &R) {
        self.client.leave_line(rt);
    }

    fn is_open(&self) -> bool {
        self.client.is_open()
    }

    fn place(response: &Response) -> Option<u64> {
        match response {
            Response::Placed(place) => Some(*place),
            _ => None,
        }
    }

    fn is_refusal(response: &Response) -> bool {
        matches!(response, Response::Refused(_))
    }

    fn is_fruitless(response: &Response) -> bool {
        matches!(
            response,
            Response::Replied(Reply::Nothing) | Response::Refused(Refusal::Busy(_))
        )
    }
}
