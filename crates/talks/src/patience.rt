// A transaction of calls that waits for something to do.
ghost use Rattle.std.specs.Prelude.{◌≡◌, []};
ghost use Rattle.talks.specs.Hearing.{Hears};
ghost use Rattle.talks.specs.Talks.{TransactsWithin, IsTried, Settles, GivesUp};

use crate::hearing::{Attention, Hearer};
use crate::speaking::Speaker;
use crate::told::Told;
use crate::transacting::{Outcome, commit, run_calls, take_back, transact};
use calls::Call;
use clients::Moment;
use script::{Limit, Operation, Request};
use std::alloc::Global;
use std::rt::Clock;
use std::sync::Wait;
use std::time::Duration;

// For how many milliseconds it sleeps at most before it looks whether its client is still there.
const LOOK: u64 = 500;

// What became of a try.
#[derive(Drop)]
enum Tried<S> {
    // What became of a transaction that does not wait.
    Transacted(Outcome<S>),
    // It found nothing to do. Whether all of it is taken back.
    TakenBack(bool),
}

// Why a sleep ended.
#[derive(Clone, Copy)]
enum Sleep {
    // Another try may be worth it.
    Woken,
    // The time is over, or all is to end soon.
    Over,
    // The client has gone.
    Left,
}

// Runs calls in a transaction of their own, and commits it, as `transact` does: as soon as none of
// them is Busy and none is answered nothing, or as they are once the time is over. Each try before
// is taken back whole, and then it sleeps until somebody else has ended something that the calls
// ask for. Where its client goes meanwhile nothing is done.
pub fn transact_within<R: Wait + Clock, S: Speaker, H: Hearer<S::Response>>(
    rt: &R,
    alloc: Global,
    speaker: &mut S,
    hearer: &mut H,
    limit: Limit,
    calls: &[Request],
) -> Outcome<S::Response>
    ensures done { TransactsWithin ⟦<S as Speaker>⟧ speaker.old calls.now result speaker.new }
    ensures still { Hears (H.heard hearer.old) (H.heard hearer.new) [] }
{
    let until = Moment::within(rt, Duration::from_millis(limit.thousandths));
    speaker.line_up(rt, limit.alike);
    let outcome = try_until(rt, alloc, speaker, hearer, until, calls);
    speaker.leave_line(rt);
    outcome
}

// Tries until something is found, or until then.
fn try_until<R: Wait + Clock, S: Speaker, H: Hearer<S::Response>>(
    rt: &R,
    alloc: Global,
    speaker: &mut S,
    hearer: &mut H,
    until: Moment,
    calls: &[Request],
) -> Outcome<S::Response>
    ensures done { TransactsWithin ⟦<S as Speaker>⟧ speaker.old calls.now result speaker.new }
    ensures still { Hears (H.heard hearer.old) (H.heard hearer.new) [] }
{
    for _ in 0..u64::MAX {
        match attempt(rt, alloc, speaker, hearer, calls) {
            Tried::Transacted(outcome) => return outcome,
            Tried::TakenBack(false) => return Outcome::Refused(Told::Idle, false),
            Tried::TakenBack(true) => {}
        }
        match rest(rt, speaker, hearer, until) {
            Sleep::Woken => {}
            Sleep::Over => return transact(rt, alloc, speaker, calls),
            Sleep::Left => return Outcome::Refused(Told::Idle, true),
        }
    }
    transact(rt, alloc, speaker, calls)
}

// A try: a transaction of the calls that is taken back where it found nothing to do, and where its
// client has gone.
fn attempt<R: Wait, S: Speaker, H: Hearer<S::Response>>(
    rt: &R,
    alloc: Global,
    speaker: &mut S,
    hearer: &mut H,
    calls: &[Request],
) -> Tried<S::Response>
    ensures done { IsTried ⟦<S as Speaker>⟧ speaker.old calls.now result speaker.new }
    ensures still { Hears (H.heard hearer.old) (H.heard hearer.new) [] }
{
    let begun = speaker.say(rt, &Request::Begin);
    if S::is_refusal(&begun) {
        return Tried::Transacted(Outcome::Refused(Told::Response(begun), true));
    }
    drop(begun);
    let mut responses = Vec::new(alloc);
    match run_calls(rt, speaker, calls, &mut responses) {
        None => settle(rt, speaker, hearer, calls, responses),
        Some(told) => give_up(rt, speaker, told),
    }
}

// Commits the open transaction, whose calls were answered so; or takes it back, where one was
// answered nothing or the client has gone.
fn settle<R: Wait, S: Speaker, H: Hearer<S::Response>>(
    rt: &R,
    speaker: &mut S,
    hearer: &mut H,
    calls: &[Request],
    responses: Vec<S::Response>,
) -> Tried<S::Response>
    ensures done { Settles ⟦<S as Speaker>⟧ speaker.old responses.items result speaker.new }
    ensures still { Hears (H.heard hearer.old) (H.heard hearer.new) [] }
{
    let is_there = is_there(hearer);
    if is_there && found_all::<S>(calls, responses.as_slice()) {
        return Tried::Transacted(commit(rt, speaker, responses));
    }
    Tried::TakenBack(take_back(rt, speaker))
}

// Takes the open transaction back, of which a call was refused.
fn give_up<R: Wait, S: Speaker>(
    rt: &R,
    speaker: &mut S,
    told: Told<S::Response>,
) -> Tried<S::Response>
    ensures { GivesUp ⟦<S as Speaker>⟧ speaker.old told result speaker.new }
{
    let is_fruitless = is_fruitless::<S>(&told);
    let is_back = take_back(rt, speaker);
    if is_fruitless {
        return Tried::TakenBack(is_back);
    }
    Tried::Transacted(Outcome::Refused(told, is_back))
}

// Whether no call found nothing, of those that were answered so.
fn found_all<S: Speaker>(calls: &[Request], responses: &[S::Response]) -> bool {
    for (call, response) in calls.iter().zip(responses) {
        if S::is_fruitless(response) && !is_put(call) {
            return false;
        }
    }
    true
}

// Whether a call puts a value into a map, which is answered nothing where the key is new.
fn is_put(call: &Request) -> bool {
    matches!(call, Request::Call(_, Operation::Call(Call::Put(..))))
}

// Whether a call was refused as somebody was in its way.
fn is_fruitless<S: Speaker>(told: &Told<S::Response>) -> bool {
    match told {
        Told::Response(response) => S::is_fruitless(response),
        _ => false,
    }
}

// Whether the client has not gone.
fn is_there<S, H: Hearer<S>>(hearer: &mut H) -> bool
    ensures { Hears (H.heard hearer.old) (H.heard hearer.new) [] }
{
    !matches!(hearer.attention(), Attention::Gone)
}

// Sleeps until another try may be worth it, or until then. What was told before is sent on first.
fn rest<R: Wait + Clock, S: Speaker, H: Hearer<S::Response>>(
    rt: &R,
    speaker: &mut S,
    hearer: &mut H,
    until: Moment,
) -> Sleep
    ensures same { speaker.new ≡ speaker.old }
    ensures still { Hears (H.heard hearer.old) (H.heard hearer.new) [] }
{
    // who does not hear is met at the next line
    let _sent = hearer.send();
    for _ in 0..u64::MAX {
        match hearer.attention() {
            Attention::Gone => return Sleep::Left,
            Attention::Hurried => return Sleep::Over,
            Attention::Patient => {}
        }
        if speaker.await_change(rt, next_look(rt, until)) {
            return Sleep::Woken;
        }
        if until.is_over(Moment::now(rt)) {
            break;
        }
    }
    Sleep::Over
}

// The moment of the next look, not behind the last one.
fn next_look<R: Clock>(rt: &R, last: Moment) -> Moment {
    let next = Moment::within(rt, Duration::from_millis(LOOK));
    if last.is_over(next) { last } else { next }
}
