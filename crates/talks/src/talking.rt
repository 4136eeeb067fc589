// A talk with one client.
ghost use Rattle.std.specs.Prelude.{◌≡◌, Option, None, true, List, ℕ};
ghost use Rattle.talks.specs.Lines.{Begins};
ghost use Rattle.talks.specs.declared.told.Told.{Told};
ghost use Rattle.talks.specs.declared.why.Why.{Why};
ghost use Rattle.talks.specs.Hearing.{IsHeard};
ghost use Rattle.talks.specs.Talks.{IsAnswered, IsLineAnswered, Turns, TalksOn};
ghost use Rattle.talks.specs.Talks.{IsTakenBack, IsTurnedAway};

use crate::answering::{exchange, is_passed_over, wish_in};
use crate::hearing::Hearer;
use crate::speaking::Speaker;
use crate::told::Told;
use crate::transacting::{take_back, undo};
use crate::why::Why;
use crate::{Found, read_line};
use std::alloc::AllocGlobal;
use std::io::{BufRead, BufReader, Read};
use std::rt::Clock;
use std::sync::Wait;

/// The lines of a client, as they come.
pub trait Lines: BufRead {
    /// Whether a whole line is at hand, so that reading it waits for nobody.
    fn has_line(&self) -> bool;
}

impl<I: Read + Drop> Lines for BufReader<I> {
    fn has_line(&self) -> bool {
        self.buffer().contains(&b'\n')
    }
}

/// How a talk ended.
#[derive(Clone, Copy)]
pub struct Ended {
    pub why: Why,
    /// Whether the client has no transaction any more.
    pub is_taken_back: bool,
}

/// Talks with a client until it says `bye` or its lines end: has a speaker carry out what each line
/// asks for, one after another, and tells the client what became of it. Behind the last line the
/// transaction that is open is taken back, however the talk ended, so a client that has gone holds
/// nothing.
///
/// Where its lines are silent for so long that their reader answers `TimedOut`, what it has open is
/// taken back too. The next line that asks for something is told `Idle` then, whatever it is, and
/// is not carried out; the lines behind it are. A client that has nothing open may be silent for
/// ever.
///
/// What was told is sent on before the talk waits, for a line, or until a commit is kept; and at
/// its end, once what was open is taken back. A line of several calls finishes the transaction that
/// is open, and where none is it is one of its own: all of it is committed as one, or none is. The
/// bytes behind the last line feed are passed over.
///
/// The taking back is refused where too many records wait for the disk, or memory is wanting; it is
/// tried many times. Where it is refused for good `is_taken_back` is false, and the speaker must
/// not have another talk.
pub fn talk<R: Wait + Clock + AllocGlobal, S: Speaker, I: Lines, H: Hearer<S::Response>>(
    rt: &R,
    speaker: &mut S,
    lines: &mut I,
    hearer: &mut H,
) -> Ended
    ensures talked { (mid : S) ×
        TalksOn ⟦<S as Speaker>⟧ (I.remaining lines.old) (I.remaining lines.new)
        (H.heard hearer.old) (H.heard hearer.new) speaker.old result.why mid ×
        IsTakenBack ⟦<S as Speaker>⟧ mid result.is_taken_back speaker.new }
    ensures closed { result.is_taken_back ≡ true → S.is_open speaker.new → ⊥ }
{
    let why = talk_on(rt, speaker, lines, hearer);
    let is_taken_back = take_back(rt, speaker);
    // who does not hear has gone
    let _sent = hearer.send();
    Ended { why, is_taken_back }
}

// What is pending between two lines.
#[derive(Drop)]
struct Pending {
    // What has come of the next line.
    line: Vec<u8>,
    // Whether a transaction was taken back in a silence, which the client was not told yet.
    is_undone: bool,
}

// Talks with a client.
fn talk_on<R: Wait + Clock + AllocGlobal, S: Speaker, I: Lines, H: Hearer<S::Response>>(
    rt: &R,
    speaker: &mut S,
    lines: &mut I,
    hearer: &mut H,
) -> Why
    ensures { TalksOn ⟦<S as Speaker>⟧ (I.remaining lines.old) (I.remaining lines.new)
        (H.heard hearer.old) (H.heard hearer.new) speaker.old result speaker.new }
{
    let mut pending = Pending {
        line: Vec::new(rt.alloc()),
        is_undone: false,
    };
    for _ in 0..u64::MAX {
        if let Some(why) = turn(rt, speaker, lines, hearer, &mut pending) {
            return why;
        }
    }
    Why::Broken
}

// Reads a line and answers it, and says why the talk ends, if it does.
fn turn<R: Wait + Clock + AllocGlobal, S: Speaker, I: Lines, H: Hearer<S::Response>>(
    rt: &R,
    speaker: &mut S,
    lines: &mut I,
    hearer: &mut H,
    pending: &mut Pending,
) -> Option<Why>
    ensures { (begun : List ℕ) → Begins 4095 begun pending.old.line.items →
        Turns ⟦<S as Speaker>⟧ (I.remaining lines.old) (I.remaining lines.new)
        (H.heard hearer.old) (H.heard hearer.new) begun speaker.old pending.old.is_undone result
        speaker.new pending.new.is_undone pending.new.line.items }
{
    if !lines.has_line() {
        if let Err(error) = hearer.send() {
            return Some(Why::of(&error));
        }
    }
    match read_line(lines, &mut pending.line) {
        Ok(found) => {
            let next = answer(rt, speaker, found, pending, hearer);
            if !matches!(found, Found::Silence) {
                pending.line.clear();
            }
            next
        }
        Err(error) => Some(Why::of(&error)),
    }
}

// Answers what was found, and says why the talk ends, if it does. In a silence what is open is
// taken back, and the next line that asks for something is told so, and no more.
fn answer<R: Wait + Clock + AllocGlobal, S: Speaker, H: Hearer<S::Response>>(
    rt: &R,
    speaker: &mut S,
    found: Found,
    pending: &mut Pending,
    hearer: &mut H,
) -> Option<Why>
    ensures line { pending.new.line ≡ pending.old.line }
    ensures answered { (told : Option (Told S.Response)) × (next : Option Why) ×
        IsAnswered ⟦<S as Speaker>⟧ found speaker.old pending.old.is_undone pending.old.line.items
        told next speaker.new pending.new.is_undone ×
        IsHeard (H.heard hearer.old) (H.heard hearer.new) told next result }
{
    match found {
        Found::Line | Found::TooLong if pending.is_undone => turn_away(found, pending, hearer),
        Found::Line => answer_line(rt, speaker, pending.line.as_slice(), hearer),
        Found::TooLong => tell(hearer, Some(Told::TooLong), None),
        Found::Cut | Found::End => tell(hearer, None, Some(Why::Gone)),
        Found::Silence => {
            pending.is_undone |= undo(rt, speaker);
            tell(hearer, None, None)
        }
    }
}

// Tells the client at its line that what was open is taken back, and says why the talk ends, if it
// does. A line that asks for nothing is passed over.
fn turn_away<S, H: Hearer<S>>(found: Found, pending: &mut Pending, hearer: &mut H) -> Option<Why>
    requires { pending.old.is_undone ≡ true }
    ensures line { pending.new.line ≡ pending.old.line }
    ensures answered { (told : Option (Told S)) ×
        IsTurnedAway found pending.old.line.items told pending.new.is_undone ×
        IsHeard (H.heard hearer.old) (H.heard hearer.new) told None result }
{
    if matches!(found, Found::Line) && is_passed_over(pending.line.as_slice()) {
        return tell(hearer, None, None);
    }
    pending.is_undone = false;
    tell(hearer, Some(Told::Idle), None)
}

// Answers a line, and says why the talk ends, if it does.
fn answer_line<R: Wait + Clock + AllocGlobal, S: Speaker, H: Hearer<S::Response>>(
    rt: &R,
    speaker: &mut S,
    line: &[u8],
    hearer: &mut H,
) -> Option<Why>
    ensures { (told : Option (Told S.Response)) × (next : Option Why) ×
        IsLineAnswered ⟦<S as Speaker>⟧ speaker.old line.now told next speaker.new ×
        IsHeard (H.heard hearer.old) (H.heard hearer.new) told next result }
{
    match wish_in(rt.alloc(), line) {
        Ok(wish) => {
            let (told, next) = exchange(rt, speaker, hearer, &wish);
            tell(hearer, told, next)
        }
        Err(told) => tell(hearer, Some(told), None),
    }
}

// Tells a client something, if there is something. The talk ends where it does not hear.
fn tell<S, H: Hearer<S>>(hearer: &mut H, told: Option<Told<S>>, next: Option<Why>) -> Option<Why>
    ensures { IsHeard (H.heard hearer.old) (H.heard hearer.new) told next result }
{
    let Some(told) = told else {
        return next;
    };
    match hearer.hear(told) {
        Ok(()) => next,
        Err(error) => Some(Why::of(&error)),
    }
}
