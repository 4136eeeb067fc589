// A client that runs its lines of a script.
ghost use Rattle.std.specs.Prelude.{IfOk, IsOkUnless};
ghost use Rattle.calls.specs.declared.refusal.Refusal.{Refusal};
ghost use Rattle.talks.specs.Sessions.{Answers, CarriesOut, IsRun, session};

use crate::requests::{end, say};
use crate::transcript::{Answer, Transcript};
use calls::Refusal;
use clients::{Client, Ticket};
use desks::Naming;
use script::{Action, Line};
use std::alloc::Global;
use std::sync::Wait;

/// Runs the lines that are requests of the client of this number, one after another, by a client of
/// a store that threads share; then waits for its last ticket, and answers what it was told.
///
/// NoMemory where the answers take more than there is: then the lines behind are not run.
pub fn run_lines<J: Naming, R: Wait>(
    rt: &R,
    alloc: Global,
    client: &mut Client<'_, J>,
    number: u8,
    lines: &[Line],
) -> Result<Transcript, Refusal>
    ensures run { IfOk result (IsRun J.origin number client.old lines.now client.new) }
    ensures refused { IsOkUnless result Refusal.NoMemory }
{
    let mut ticket = None;
    let answers = carry_out(rt, alloc, client, &mut ticket, number, lines)?;
    let end = end(rt, client, ticket);
    Ok(Transcript {
        client: number,
        answers,
        end,
    })
}

// Runs the lines that are requests of the client of this number.
fn carry_out<J: Naming, R: Wait>(
    rt: &R,
    alloc: Global,
    client: &mut Client<'_, J>,
    ticket: &mut Option<Ticket>,
    number: u8,
    lines: &[Line],
) -> Result<Vec<Answer>, Refusal>
    ensures carried { IfOk result (λ answers. CarriesOut J.origin number
        (session client.old ticket.old) lines.now answers.items (session client.new ticket.new)) }
    ensures refused { IsOkUnless result Refusal.NoMemory }
{
    let mut answers = Vec::new(alloc);
    for line in lines {
        if let Some(told) = answer(rt, client, ticket, number, line) {
            answers.push(told)?;
        }
    }
    Ok(answers)
}

// What a line answers the client of this number, if it is one of its requests.
fn answer<J: Naming, R: Wait>(
    rt: &R,
    client: &mut Client<'_, J>,
    ticket: &mut Option<Ticket>,
    number: u8,
    line: &Line,
) -> Option<Answer>
    ensures { Answers J.origin number (session client.old ticket.old) line.now result
        (session client.new ticket.new) }
{
    match &line.what {
        Action::Client(of, request) if *of == number => {
            Some(Answer {
                number: line.number,
                response: say(rt, client, ticket, request),
            })
        }
        _ => None,
    }
}
