// Talks with a client of a store, of which it is noted what the client was told.
ghost use Rattle.std.specs.Prelude.{◌≡◌, true};
ghost use Rattle.clients.specs.Calls.{IsOpen};
ghost use Rattle.talks.specs.Dialogues.{LeadsOn};

use crate::hearing::Hearer;
use crate::noting::Noting;
use crate::session::Session;
use crate::talking::{Ended, Lines, talk};
use crate::texts::Response;
use crate::why::Why;
use clients::Client;
use core::mem::replace_with;
use desks::Naming;
use std::alloc::AllocGlobal;
use std::rt::Clock;
use std::sync::Wait;

/// Talks with a client of a store: `talk`, by a session that has no ticket yet. What the client is
/// told is noted. Gives the lines and the hearer back.
pub fn talk_with<R: Wait + Clock + AllocGlobal, J: Naming, I: Lines, H: Hearer<Response>>(
    rt: &R,
    client: &mut Client<'_, J>,
    lines: I,
    hearer: Noting<H>,
) -> (Ended, I, Noting<H>)
    ensures told { LeadsOn J.origin client.old hearer.noted.told client.new result.2.noted.told }
    ensures closed { result.0.is_taken_back ≡ true → IsOpen client.new.phase → ⊥ }
{
    replace_with(client, (rt, lines, hearer), talk_by)
}

/// Talks with a client of a store until no more lines come, and says why that ended. A `bye` ends a
/// talk, and the next one begins. What the client is told is noted.
pub fn talk_on_with<R: Wait + Clock + AllocGlobal, J: Naming, I: Lines, H: Hearer<Response>>(
    rt: &R,
    client: &mut Client<'_, J>,
    lines: I,
    hearer: Noting<H>,
) -> (Why, I, Noting<H>)
    ensures { LeadsOn J.origin client.old hearer.noted.told client.new result.2.noted.told }
{
    replace_with(client, (rt, lines, hearer), talk_on_by)
}

// A talk with a client that is handed over, and handed back.
fn talk_by<'s, R: Wait + Clock + AllocGlobal, J: Naming, I: Lines, H: Hearer<Response>>(
    client: Client<'s, J>,
    with: (&R, I, Noting<H>),
) -> (Client<'s, J>, (Ended, I, Noting<H>))
    ensures told { LeadsOn J.origin client.entry with.entry.2.noted.told result.0
        result.1.2.noted.told }
    ensures closed { result.1.0.is_taken_back ≡ true → IsOpen result.0.phase → ⊥ }
{
    let (rt, lines, hearer) = with;
    let mut lines = lines;
    let mut hearer = hearer;
    let mut session = Session::new(client);
    let ended = talk_once(rt, &mut session, &mut lines, &mut hearer);
    (session.into_client(), (ended, lines, hearer))
}

// Talks, one after another, with a client that is handed over, and handed back.
fn talk_on_by<'s, R: Wait + Clock + AllocGlobal, J: Naming, I: Lines, H: Hearer<Response>>(
    client: Client<'s, J>,
    with: (&R, I, Noting<H>),
) -> (Client<'s, J>, (Why, I, Noting<H>))
    ensures { LeadsOn J.origin client.entry with.entry.2.noted.told result.0
        result.1.2.noted.told }
{
    let (rt, lines, hearer) = with;
    let mut lines = lines;
    let mut hearer = hearer;
    let mut session = Session::new(client);
    let why = talk_through(rt, &mut session, &mut lines, &mut hearer);
    (session.into_client(), (why, lines, hearer))
}

// Talks, one after another, until no more lines come.
fn talk_through<R: Wait + Clock + AllocGlobal, J: Naming, I: Lines, H: Hearer<Response>>(
    rt: &R,
    session: &mut Session<'_, J>,
    lines: &mut I,
    hearer: &mut Noting<H>,
) -> Why
    ensures { LeadsOn J.origin session.old.known hearer.old.noted.told session.new.known
        hearer.new.noted.told }
{
    for _ in 0..u64::MAX {
        match talk_once(rt, session, lines, hearer) {
            Ended {
                why: Why::Bye,
                is_taken_back: true,
            } => {}
            Ended { why, .. } => return why,
        }
    }
    Why::Gone
}

// A talk of a session that forgets its ticket first.
fn talk_once<R: Wait + Clock + AllocGlobal, J: Naming, I: Lines, H: Hearer<Response>>(
    rt: &R,
    session: &mut Session<'_, J>,
    lines: &mut I,
    hearer: &mut Noting<H>,
) -> Ended
    ensures told { LeadsOn J.origin session.old.known hearer.old.noted.told session.new.known
        hearer.new.noted.told }
    ensures closed { result.is_taken_back ≡ true → IsOpen session.new.known.phase → ⊥ }
{
    session.begin_anew();
    talk(rt, session, lines, hearer)
}
