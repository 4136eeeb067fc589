// The clients of a script as one who talks for them all.
ghost use Rattle.std.specs.Prelude.{◌≡◌, ◌↔◌, ⊤, IsTrue};
ghost use Rattle.talks.specs.Sessions.{response_place, IsRefusal};

use crate::plays::through_store::Stage;
use boost::{Action, End, Line, Request, Response, Speaker};
use calls::{Refusal, Reply};
use checkpoint::Turn;
use disk_model::Disk;
use std::alloc::Global;
use std::rt::Clock;
use std::sync::Wait;
use store::Naming;
use talks::Moment;

// So many turns keep all that a dialogue commits.
const TURNS: u64 = 1 << 16;

/// Talks for the clients of a script: each line of the talk is the next request of the script, by
/// whichever client. Turns and checkpoints are taken where they stand in it. Behind the script, or
/// without one, it is the client with a transaction that talks, and else the first one.
#[derive(Drop)]
pub struct Crowd<'l, 'c, 's, D: Disk, J: Naming> {
    pub stage: Stage<'c, 's, D, J>,
    lines: &'l [Line],
    /// How many of the lines were done.
    done: usize,
    /// Whether a client has a transaction open.
    is_busy: bool,
}

impl<'l, 'c, 's, D: Disk, J: Naming> Crowd<'l, 'c, 's, D, J> {
    /// Before the first line.
    pub fn new(stage: Stage<'c, 's, D, J>, lines: &'l [Line]) -> Self {
        Self {
            stage,
            lines,
            done: 0,
            is_busy: false,
        }
    }

    // Does what stands in the script before the next request, and answers whose that is.
    fn next_client<R: Wait>(&mut self, rt: &R) -> usize {
        let lines = self.lines;
        for line in lines.iter().skip(self.done) {
            self.done = self.done.wrapping_add(1);
            match &line.what {
                Action::Client(number, _) => return usize::from(*number),
                action => {
                    let _said = self.stage.answer(rt, action);
                }
            }
        }
        self.stage.busy_client().unwrap_or(1)
    }
}

impl<D: Disk, J: Naming> Speaker for Crowd<'_, '_, '_, D, J> {
    type Response = Response;

    ghost says = { λ _ _ _ _. ⊤ };

    ghost ends = { λ _ _ _. ⊤ };

    ghost hears = { λ _ _ _. ⊤ };

    ghost is_open = { λ s. IsTrue s.is_busy };

    ghost placed = { response_place };

    ghost refuses = { IsRefusal };

    fn say<R: Wait>(&mut self, rt: &R, request: &Request) -> Response {
        let client = self.next_client(rt);
        let response = self.stage.asked(rt, client, request);
        self.is_busy = self.stage.busy_client().is_some();
        response
    }

    /// There is no committer but this thread: it takes turns until all is kept.
    fn end<R: Wait>(&mut self, rt: &R) -> End {
        for _ in 0..TURNS {
            match self.stage.committer.turn(rt) {
                Ok(Turn::Idle) | Err(_) => break,
                Ok(_) => {}
            }
        }
        self.stage.end_of_first(rt)
    }

    fn has_failed(&mut self) -> bool {
        self.stage.has_failed()
    }

    fn status<R: Wait>(&self, rt: &R, alloc: Global) -> Result<String, Refusal> {
        self.stage.status(rt, alloc)
    }

    fn line_up<R: Wait + Clock>(&mut self, rt: &R, alike: u64) {
        let _ = rt;
        let _ = alike;
    }

    /// Nobody else is there.
    fn await_change<R: Wait + Clock>(&mut self, rt: &R, until: Moment) -> bool {
        let _ = rt;
        let _ = until;
        false
    }

    fn leave_line<R: Wait>(&mut self, rt: &R) {
        let _ = rt;
    }

    fn is_open(&self) -> bool {
        self.is_busy
    }

    fn place(response: &Response) -> Option<u64>
        ensures { result ≡ response_place response.now }
    {
        match response {
            Response::Placed(place) => Some(*place),
            _ => None,
        }
    }

    fn is_refusal(response: &Response) -> bool
        ensures { IsTrue result ↔ IsRefusal response.now }
    {
        matches!(response, Response::Refused(_))
    }

    fn is_fruitless(response: &Response) -> bool {
        matches!(
            response,
            Response::Replied(Reply::Nothing) | Response::Refused(Refusal::Busy(_))
        )
    }
}
