// Calls that stand in one line, with which a transaction ends.
ghost use Rattle.std.specs.Prelude.{◌≡◌, [], true, Some, MatchOption};
ghost use Rattle.calls.specs.declared.refusal.Refusal.{Refusal};
ghost use Rattle.talks.specs.declared.told.Told.{Told};
ghost use Rattle.talks.specs.declared.transacting.Outcome.{Outcome};
ghost use Rattle.talks.specs.Talks.{Does, Transacts, Finishes, Commits, Stops, RunsCalls};
ghost use Rattle.talks.specs.Talks.{IsTakenBack, IsUndone};

use crate::speaking::Speaker;
use crate::told::Told;
use calls::Refusal;
use crossbeam_utils::Backoff;
use script::Request;
use std::alloc::Global;
use std::sync::Wait;

// How often a taking back is tried.
const TRIES: u32 = 100_000;

// What became of a transaction.
#[derive(Drop)]
pub enum Outcome<S> {
    // It is committed: what its calls were answered, and the place.
    Committed(Vec<S>, u64),
    // It is not: what the client is told, and whether all of it is taken back.
    Refused(Told<S>, bool),
}

// Runs calls in the open transaction, where one is, and else in one of their own, and commits it.
// What is refused takes all of it back, and so what the client did in it before.
pub fn run_line<R: Wait, S: Speaker>(
    rt: &R,
    alloc: Global,
    speaker: &mut S,
    calls: &[Request],
) -> Outcome<S::Response>
    ensures { Does ⟦<S as Speaker>⟧ speaker.old calls.now result speaker.new }
{
    if speaker.is_open() {
        finish(rt, alloc, speaker, calls)
    } else {
        transact(rt, alloc, speaker, calls)
    }
}

// Runs calls in a transaction of their own, and commits it. What is refused takes all of it back.
pub fn transact<R: Wait, S: Speaker>(
    rt: &R,
    alloc: Global,
    speaker: &mut S,
    calls: &[Request],
) -> Outcome<S::Response>
    ensures { Transacts ⟦<S as Speaker>⟧ speaker.old calls.now result speaker.new }
{
    let begun = speaker.say(rt, &Request::Begin);
    if S::is_refusal(&begun) {
        return Outcome::Refused(Told::Response(begun), true);
    }
    drop(begun);
    finish(rt, alloc, speaker, calls)
}

// Runs calls in the open transaction, and commits it. What is refused takes all of it back.
fn finish<R: Wait, S: Speaker>(
    rt: &R,
    alloc: Global,
    speaker: &mut S,
    calls: &[Request],
) -> Outcome<S::Response>
    ensures { Finishes ⟦<S as Speaker>⟧ speaker.old calls.now result speaker.new }
{
    let mut responses = Vec::new(alloc);
    match run_calls(rt, speaker, calls, &mut responses) {
        None => commit(rt, speaker, responses),
        Some(told) => Outcome::Refused(told, take_back(rt, speaker)),
    }
}

// Commits the open transaction, whose calls were answered so.
pub fn commit<R: Wait, S: Speaker>(
    rt: &R,
    speaker: &mut S,
    responses: Vec<S::Response>,
) -> Outcome<S::Response>
    ensures { Commits ⟦<S as Speaker>⟧ speaker.old responses.items result speaker.new }
{
    let response = speaker.say(rt, &Request::Commit);
    match S::place(&response) {
        Some(place) => Outcome::Committed(responses, place),
        None => Outcome::Refused(Told::Response(response), take_back(rt, speaker)),
    }
}

// Runs calls in the open transaction up to the first that is refused, and answers what is told of
// that one.
pub fn run_calls<R: Wait, S: Speaker>(
    rt: &R,
    speaker: &mut S,
    calls: &[Request],
    responses: &mut Vec<S::Response>,
) -> Option<Told<S::Response>>
    requires { responses.old.items ≡ [] }
    ensures { MatchOption result
        (RunsCalls ⟦<S as Speaker>⟧ speaker.old calls.now responses.new.items speaker.new)
        (λ told. Stops ⟦<S as Speaker>⟧ speaker.old calls.now told speaker.new) }
{
    for call in calls {
        let response = speaker.say(rt, call);
        if S::is_refusal(&response) {
            return Some(Told::Response(response));
        }
        let Ok(()) = responses.push(response) else {
            return Some(Told::Refused(Refusal::NoMemory));
        };
    }
    None
}

// Takes back what was left open. Whether something was, and is no more.
pub fn undo<R: Wait, S: Speaker>(rt: &R, speaker: &mut S) -> bool
    ensures { IsUndone ⟦<S as Speaker>⟧ speaker.old result speaker.new }
{
    speaker.is_open() && take_back(rt, speaker)
}

// Takes the open transaction back, if there is one. Whether there is none any more.
pub fn take_back<R: Wait, S: Speaker>(rt: &R, speaker: &mut S) -> bool
    ensures { IsTakenBack ⟦<S as Speaker>⟧ speaker.old result speaker.new }
{
    let backoff = Backoff::new();
    for _ in 0..TRIES {
        if !speaker.is_open() {
            return true;
        }
        let _said = speaker.say(rt, &Request::Abort);
        backoff.snooze();
    }
    !speaker.is_open()
}
