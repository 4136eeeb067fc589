// What is done behind a line.
ghost use Rattle.std.specs.Prelude.{◌≡◌, [], Bool, MatchResult, IsTrue, ◌↔◌};
ghost use Rattle.std.specs.Io.BufRead.{strip_last};
ghost use Rattle.script.specs.declared.wishes.Wish.{Wish};
ghost use Rattle.talks.specs.declared.told.Told.{Told};
ghost use Rattle.talks.specs.declared.why.Why.{Why};
ghost use Rattle.talks.specs.declared.speaking.End.{End};
ghost use Rattle.talks.specs.declared.transacting.Outcome.{Outcome};
ghost use Rattle.talks.specs.Hearing.{Hears};
ghost use Rattle.talks.specs.Talks.{Exchanges, CarriesOut, KeepsOpen, KeepsOutcome, IsWished};
ghost use Rattle.talks.specs.Talks.{IsUnwished, IsUnlessFailed, TellsPlace, WantsKeeping};
ghost use Rattle.talks.specs.Talks.{told_end, told_kept, told_outcome};
ghost use Rattle.talks.specs.Talks.{telling, IsStatus};

use crate::doubting::reason;
use crate::hearing::Hearer;
use crate::patience::transact_within;
use crate::speaking::{End, Speaker};
use crate::told::Told;
use crate::transacting::{Outcome, run_line};
use crate::why::Why;
use calls::Refusal;
use script::{Request, Wish, wish_of};
use std::alloc::{AllocGlobal, Global};
use std::rt::Clock;
use std::sync::Wait;

// A line without the carriage return at its end, if one is there.
fn without_return(line: &[u8]) -> &[u8]
    ensures { result.now ≡ strip_last 13 line.now }
{
    match line.last() {
        Some(b'\r') => &line[..line.len() - 1],
        _ => line,
    }
}

// Whether a line asks for nothing, and so is not answered.
pub fn is_passed_over(line: &[u8]) -> bool
    ensures { IsTrue result ↔ IsWished line.now Wish.Nothing }
{
    matches!(without_return(line), [] | [b'#', ..])
}

// What a line asks for, or what is told of a line that asks for nothing.
pub fn wish_in<S>(alloc: Global, line: &[u8]) -> Result<Wish, Told<S>>
    ensures { MatchResult result (IsWished line.now) (IsUnwished line.now) }
{
    let line = without_return(line);
    match wish_of(alloc, line) {
        Ok(Some(wish)) => Ok(wish),
        Ok(None) => Err(Told::NotUnderstood(reason(alloc, line))),
        Err(_) => Err(Told::Refused(Refusal::NoMemory)),
    }
}

// Does what a line asks for. Answers what the client is told, and why the talk ends, if it does.
//
// Once keeping has failed, what commits or makes something, and what asks whether something is
// kept, is told Lost and not done. Where it is found to have failed behind a commit, the client is
// told Lost in place of its place.
pub fn exchange<R: Wait + Clock + AllocGlobal, S: Speaker, H: Hearer<S::Response>>(
    rt: &R,
    speaker: &mut S,
    hearer: &mut H,
    wish: &Wish,
) -> (Option<Told<S::Response>>, Option<Why>)
    ensures done { Exchanges ⟦<S as Speaker>⟧ speaker.old wish.now result.0 result.1 speaker.new }
    ensures still { Hears (H.heard hearer.old) (H.heard hearer.new) [] }
{
    if wants_keeping(wish) && speaker.has_failed() {
        return with_next(Told::Refused(Refusal::Lost));
    }
    let (told, next) = carry_out(rt, speaker, hearer, wish);
    unless_failed(speaker, told, next)
}

// Whether a wish commits or makes something, or asks whether something is kept.
fn wants_keeping(wish: &Wish) -> bool
    ensures { IsTrue result ↔ WantsKeeping wish.now }
{
    match wish {
        Wish::Ask(Request::Make(..) | Request::Commit | Request::Kept) => true,
        Wish::Keep | Wish::Do(_) | Wish::DoAndKeep(_) => true,
        Wish::DoWithin(..) | Wish::KeepWithin(..) => true,
        _ => false,
    }
}

// What a client is told in place of a place, where keeping has failed meanwhile.
fn unless_failed<S: Speaker>(
    speaker: &mut S,
    told: Option<Told<S::Response>>,
    next: Option<Why>,
) -> (Option<Told<S::Response>>, Option<Why>)
    ensures { IsUnlessFailed ⟦<S as Speaker>⟧ speaker.old told next result.0 result.1 speaker.new }
{
    if tells_place::<S>(&told) && speaker.has_failed() {
        return with_next(Told::Refused(Refusal::Lost));
    }
    (told, next)
}

// Whether a client is told the place of something that is perhaps not kept.
fn tells_place<S: Speaker>(told: &Option<Told<S::Response>>) -> bool
    ensures { IsTrue result ↔ TellsPlace ⟦<S as Speaker>⟧ told.now }
{
    match told {
        Some(Told::Response(response)) => S::place(response).is_some(),
        Some(Told::Done(..)) => true,
        _ => false,
    }
}

// Does what a line asks for. Answers what the client is told, and why the talk ends, if it does.
fn carry_out<R: Wait + Clock + AllocGlobal, S: Speaker, H: Hearer<S::Response>>(
    rt: &R,
    speaker: &mut S,
    hearer: &mut H,
    wish: &Wish,
) -> (Option<Told<S::Response>>, Option<Why>)
    ensures done { CarriesOut ⟦<S as Speaker>⟧ speaker.old wish.now result.0 result.1 speaker.new }
    ensures still { Hears (H.heard hearer.old) (H.heard hearer.new) [] }
{
    match wish {
        Wish::Nothing => (None, None),
        Wish::Ask(request) => (Some(Told::Response(speaker.say(rt, request))), None),
        Wish::Wait => with_next(wait(rt, speaker, hearer)),
        Wish::Keep => with_next(keep(rt, speaker, hearer)),
        Wish::Do(calls) => told_of(run_line(rt, rt.alloc(), speaker, calls.as_slice())),
        Wish::DoAndKeep(calls) => {
            let outcome = run_line(rt, rt.alloc(), speaker, calls.as_slice());
            keep_outcome(rt, speaker, hearer, outcome)
        }
        Wish::DoWithin(limit, calls) => {
            let alloc = rt.alloc();
            told_of(transact_within(rt, alloc, speaker, hearer, *limit, calls.as_slice()))
        }
        Wish::KeepWithin(limit, calls) => {
            let alloc = rt.alloc();
            let outcome = transact_within(rt, alloc, speaker, hearer, *limit, calls.as_slice());
            keep_outcome(rt, speaker, hearer, outcome)
        }
        Wish::Status => (Some(status(rt, rt.alloc(), speaker)), None),
        Wish::Bye => with_next(Told::Bye),
    }
}

// How what the speaker speaks with stands.
fn status<R: Wait, S: Speaker>(rt: &R, alloc: Global, speaker: &mut S) -> Told<S::Response>
    ensures { (has_failed : Bool) × S.hears speaker.old has_failed speaker.new ×
        IsStatus has_failed result }
{
    let has_failed = speaker.has_failed();
    match speaker.status(rt, alloc) {
        Ok(text) => Told::Status(text, has_failed),
        Err(refusal) => Told::Refused(refusal),
    }
}

// What is told behind a wait or at the end, and why the talk ends, if it does.
fn with_next<S>(told: Told<S>) -> (Option<Told<S>>, Option<Why>)
    ensures { result ≡ telling told }
{
    let next = match &told {
        Told::Refused(Refusal::Lost) => Some(Why::Lost),
        Told::Bye => Some(Why::Bye),
        _ => None,
    };
    (Some(told), next)
}

// Waits until what was last committed or made is kept. What was told before is sent on first.
fn end<R: Wait, S: Speaker, H: Hearer<S::Response>>(rt: &R, speaker: &mut S, hearer: &mut H) -> End
    ensures done { S.ends speaker.old result speaker.new }
    ensures still { Hears (H.heard hearer.old) (H.heard hearer.new) [] }
{
    // who does not hear is met at the next line
    let _sent = hearer.send();
    speaker.end(rt)
}

// A wait.
fn wait<R: Wait, S: Speaker, H: Hearer<S::Response>>(
    rt: &R,
    speaker: &mut S,
    hearer: &mut H,
) -> Told<S::Response>
    ensures done { (end : End) × S.ends speaker.old end speaker.new × (result ≡ told_end end) }
    ensures still { Hears (H.heard hearer.old) (H.heard hearer.new) [] }
{
    match end(rt, speaker, hearer) {
        End::Lost => Told::Refused(Refusal::Lost),
        end => Told::Waited(end),
    }
}

// A commit of the open transaction, and a wait until it is kept.
fn keep<R: Wait, S: Speaker, H: Hearer<S::Response>>(
    rt: &R,
    speaker: &mut S,
    hearer: &mut H,
) -> Told<S::Response>
    ensures done { KeepsOpen ⟦<S as Speaker>⟧ speaker.old result speaker.new }
    ensures still { Hears (H.heard hearer.old) (H.heard hearer.new) [] }
{
    let response = speaker.say(rt, &Request::Commit);
    let Some(place) = S::place(&response) else {
        return Told::Response(response);
    };
    drop(response);
    kept(end(rt, speaker, hearer), Told::Kept(place))
}

// What is told of a commit that was waited for.
fn kept<S: Drop>(end: End, told: Told<S>) -> Told<S>
    ensures { result ≡ told_kept told end }
{
    match end {
        End::Kept => told,
        End::Lost | End::NoTicket => Told::Refused(Refusal::Lost),
    }
}

// What is told of a transaction that a line ends.
fn told_of<S>(outcome: Outcome<S>) -> (Option<Told<S>>, Option<Why>)
    ensures { result ≡ told_outcome outcome }
{
    match outcome {
        Outcome::Committed(responses, place) => (Some(Told::Done(responses, place)), None),
        Outcome::Refused(told, true) => (Some(told), None),
        Outcome::Refused(told, false) => (Some(told), Some(Why::Broken)),
    }
}

// What is told of a transaction that a line ends, once it is kept.
fn keep_outcome<R: Wait, S: Speaker, H: Hearer<S::Response>>(
    rt: &R,
    speaker: &mut S,
    hearer: &mut H,
    outcome: Outcome<S::Response>,
) -> (Option<Told<S::Response>>, Option<Why>)
    ensures done { KeepsOutcome ⟦<S as Speaker>⟧ speaker.old outcome result.0 result.1 speaker.new }
    ensures still { Hears (H.heard hearer.old) (H.heard hearer.new) [] }
{
    match outcome {
        Outcome::Committed(responses, place) => {
            with_next(kept(
                end(rt, speaker, hearer),
                Told::DoneAndKept(responses, place),
            ))
        }
        refused => told_of(refused),
    }
}
