// What the lines of a client ask for that talks with an open store.
ghost use Rattle.std.specs.Prelude.{List, IfOk, MatchOption};
ghost use Rattle.script.specs.declared.action.Request.{Request};
ghost use Rattle.script.specs.declared.wishes.Wish.{Wish};
ghost use Rattle.script.specs.Wishes.{IsWishOf, AreCallsOf, IsPart, IsLaterPart, IsWithinOf};

use crate::action::Request;
use crate::phrases::{called, deferral, request};
use crate::seconds::{Limit, seconds};
use crate::words::{behind, same, split_at_byte};
use std::alloc::{AllocError, Global};

/// What a line of a client asks for that talks with an open store.
#[derive(Drop)]
pub enum Wish {
    /// Nothing: the line is empty or a remark.
    Nothing,
    /// A request, as scripts have it.
    Ask(Request),
    /// A wait until what the client last committed or made is kept.
    Wait,
    /// A commit of the open transaction, and a wait until it is kept.
    Keep,
    /// These calls, some of which may be deferred to the commit, and a commit: of the transaction
    /// that is open, and where none is of one of their own.
    Do(Vec<Request>),
    /// The same, and a wait until it is kept.
    DoAndKeep(Vec<Request>),
    /// A transaction of these calls alone, for which it waits until no call of it is Busy and none
    /// is answered nothing, or up to that limit.
    DoWithin(Limit, Vec<Request>),
    /// The same as `DoWithin`, and a wait until it is kept.
    KeepWithin(Limit, Vec<Request>),
    /// How the store stands.
    Status,
    /// The end.
    Bye,
}

// A deferred call among the calls of a line.
fn later_part(alloc: Global, text: &[u8]) -> Result<Option<Request>, AllocError>
    ensures { IfOk result (λ found. MatchOption found ((r : Request) → IsLaterPart r text.now → ⊥)
        (λ r. IsLaterPart r text.now)) }
{
    match behind(text, b"later ") {
        Some(rest) => deferral(alloc, rest),
        None => Ok(None),
    }
}

// One of the calls of a line.
fn part(alloc: Global, text: &[u8]) -> Result<Option<Request>, AllocError>
    ensures { IfOk result (λ found. MatchOption found ((r : Request) → IsPart r text.now → ⊥)
        (λ r. IsPart r text.now)) }
{
    match later_part(alloc, text)? {
        Some(request) => Ok(Some(request)),
        None => called(alloc, text),
    }
}

// The calls that stand behind one another, with a semicolon and a space between.
fn calls_of(alloc: Global, text: &[u8]) -> Result<Option<Vec<Request>>, AllocError>
    ensures { IfOk result (λ found. MatchOption found
        ((rs : List Request) → AreCallsOf rs text.now → ⊥)
        (λ rs. AreCallsOf rs.items text.now)) }
{
    let mut calls = Vec::new(alloc);
    let mut rest = text;
    while let Some((front, back)) = split_at_byte(rest, b';') {
        let Some(call) = part(alloc, front)? else {
            return Ok(None);
        };
        calls.push(call)?;
        let Some(next) = behind(back, b" ") else {
            return Ok(None);
        };
        rest = next;
    }
    let Some(last) = part(alloc, rest)? else {
        return Ok(None);
    };
    calls.push(last)?;
    Ok(Some(calls))
}

// Calls that may wait for so long, behind their word.
fn within(alloc: Global, text: &[u8]) -> Result<Option<Wish>, AllocError>
    ensures { IfOk result (λ found. MatchOption found ((w : Wish) → IsWithinOf w text.now → ⊥)
        (λ w. IsWithinOf w text.now)) }
{
    let Some((front, back)) = split_at_byte(text, b' ') else {
        return Ok(None);
    };
    let Some(thousandths) = seconds(front) else {
        return Ok(None);
    };
    if let Some(rest) = behind(back, b"do ") {
        return match calls_of(alloc, rest)? {
            Some(calls) => Ok(Some(Wish::DoWithin(Limit::of(thousandths, rest), calls))),
            None => Ok(None),
        };
    }
    let Some(rest) = behind(back, b"keep ") else {
        return Ok(None);
    };
    match calls_of(alloc, rest)? {
        Some(calls) => Ok(Some(Wish::KeepWithin(Limit::of(thousandths, rest), calls))),
        None => Ok(None),
    }
}

/// What a line of a client asks for, which has no line feed. No line is understood but those that
/// this program knows, word for word, with one space between two words. None where the line is not
/// understood; refused only for want of memory.
pub fn wish_of(alloc: Global, line: &[u8]) -> Result<Option<Wish>, AllocError>
    ensures { IfOk result (λ found. MatchOption found ((w : Wish) → IsWishOf w line.now → ⊥)
        (λ w. IsWishOf w line.now)) }
{
    if let [] | [b'#', ..] = line {
        return Ok(Some(Wish::Nothing));
    }
    if same(line, b"wait") {
        return Ok(Some(Wish::Wait));
    }
    if same(line, b"keep") {
        return Ok(Some(Wish::Keep));
    }
    if same(line, b"bye") {
        return Ok(Some(Wish::Bye));
    }
    if same(line, b"status") {
        return Ok(Some(Wish::Status));
    }
    if let Some(rest) = behind(line, b"do ") {
        return match calls_of(alloc, rest)? {
            Some(calls) => Ok(Some(Wish::Do(calls))),
            None => Ok(None),
        };
    }
    if let Some(rest) = behind(line, b"keep ") {
        return match calls_of(alloc, rest)? {
            Some(calls) => Ok(Some(Wish::DoAndKeep(calls))),
            None => Ok(None),
        };
    }
    if let Some(rest) = behind(line, b"within ") {
        return within(alloc, rest);
    }
    match request(alloc, line)? {
        Some(asked) => Ok(Some(Wish::Ask(asked))),
        None => Ok(None),
    }
}
