// What a line asks for.
ghost use Rattle.std.specs.Prelude.{◌≡◌, ℕ, ◌<◌, ◌^◌, ℤ, ◌++◌, codes, IfOk, MatchOption};
ghost use Rattle.std.specs.Int.{w64};
ghost use Rattle.std.specs.Int.RustNames.{FitsSigned};
ghost use Rattle.std.specs.Fmt.{decimal, signed_decimal};
ghost use Rattle.calls.specs.declared.call.Call.{Call};
ghost use Rattle.script.specs.declared.action.Request.{Request};
ghost use Rattle.script.specs.declared.action.Action.{Action};
ghost use Rattle.script.specs.ScriptTexts.{IsRequestOf, IsLineOf, IsClientLine, IsMakeOf, IsCallOf};
ghost use Rattle.script.specs.ScriptTexts.{IsLaterOf, CanBeDeferred, later_text};

use crate::action::{Action, Request};
use crate::operations::operation;
use crate::words::{behind, client, natural, number, same, split_at_byte, word};
use calls::{Call, Kind};
use std::alloc::{AllocError, Global};

// What stands behind the word call.
pub fn called(alloc: Global, text: &[u8]) -> Result<Option<Request>, AllocError>
    ensures { IfOk result (λ found. MatchOption found ((r : Request) → IsCallOf r text.now → ⊥)
        (λ r. IsCallOf r text.now)) }
{
    let Some((front, back)) = split_at_byte(text, b' ') else {
        return Ok(None);
    };
    let Some(name) = word(alloc, front)? else {
        return Ok(None);
    };
    match operation(alloc, back)? {
        Some(asked) => Ok(Some(Request::Call(name, asked))),
        None => Ok(None),
    }
}

// The bump of a number.
fn bump(text: &[u8]) -> Option<Call>
    ensures { MatchOption result ((n : ℤ) → FitsSigned w64 n → text.now ≡ signed_decimal n → ⊥)
        (λ c. CanBeDeferred c × (later_text c ≡ codes "bump " ++ text.now)) }
{
    match number(text) {
        Some(by) => Some(Call::Bump(by)),
        None => None,
    }
}

// The fill of a number.
fn fill(text: &[u8]) -> Option<Call>
    ensures { MatchOption result ((n : ℕ) → n < 2 ^ 64 → text.now ≡ decimal n → ⊥)
        (λ c. CanBeDeferred c × (later_text c ≡ codes "fill " ++ text.now)) }
{
    match natural(text) {
        Some(amount) => Some(Call::Fill(amount)),
        None => None,
    }
}

// The call that the text defers.
fn deferred(text: &[u8]) -> Option<Call>
    ensures { MatchOption result ((c : Call) → CanBeDeferred c → text.now ≡ later_text c → ⊥)
        (λ c. CanBeDeferred c × (text.now ≡ later_text c)) }
{
    if let Some(rest) = behind(text, b"bump ") {
        return bump(rest);
    }
    match behind(text, b"fill ") {
        Some(rest) => fill(rest),
        None => None,
    }
}

// What stands behind the word later.
pub fn deferral(alloc: Global, text: &[u8]) -> Result<Option<Request>, AllocError>
    ensures { IfOk result (λ found. MatchOption found ((r : Request) → IsLaterOf r text.now → ⊥)
        (λ r. IsLaterOf r text.now)) }
{
    let Some((front, back)) = split_at_byte(text, b' ') else {
        return Ok(None);
    };
    let Some(call) = deferred(back) else {
        return Ok(None);
    };
    match word(alloc, front)? {
        Some(name) => Ok(Some(Request::Later(name, call))),
        None => Ok(None),
    }
}

// What stands behind the word make.
fn made(alloc: Global, text: &[u8]) -> Result<Option<Request>, AllocError>
    ensures { IfOk result (λ found. MatchOption found ((r : Request) → IsMakeOf r text.now → ⊥)
        (λ r. IsMakeOf r text.now)) }
{
    let Some((front, back)) = split_at_byte(text, b' ') else {
        return Ok(None);
    };
    let Some(kind) = Kind::named(front) else {
        return Ok(None);
    };
    match word(alloc, back)? {
        Some(name) => Ok(Some(Request::Make(kind, name))),
        None => Ok(None),
    }
}

// What a client asks for.
pub fn request(alloc: Global, text: &[u8]) -> Result<Option<Request>, AllocError>
    ensures { IfOk result (λ found. MatchOption found ((r : Request) → IsRequestOf r text.now → ⊥)
        (λ r. IsRequestOf r text.now)) }
{
    if same(text, b"begin") {
        return Ok(Some(Request::Begin));
    }
    if same(text, b"commit") {
        return Ok(Some(Request::Commit));
    }
    if same(text, b"abort") {
        return Ok(Some(Request::Abort));
    }
    if same(text, b"kept") {
        return Ok(Some(Request::Kept));
    }
    if let Some(rest) = behind(text, b"call ") {
        return called(alloc, rest);
    }
    if let Some(rest) = behind(text, b"later ") {
        return deferral(alloc, rest);
    }
    match behind(text, b"make ") {
        Some(rest) => made(alloc, rest),
        None => Ok(None),
    }
}

// What a client's line asks for, behind the letter c.
fn of_client(alloc: Global, text: &[u8]) -> Result<Option<Action>, AllocError>
    ensures { IfOk result (λ found. MatchOption found ((a : Action) → IsClientLine a text.now → ⊥)
        (λ a. IsClientLine a text.now)) }
{
    let Some((front, back)) = split_at_byte(text, b' ') else {
        return Ok(None);
    };
    let Some(number) = client(front) else {
        return Ok(None);
    };
    match request(alloc, back)? {
        Some(asked) => Ok(Some(Action::Client(number, asked))),
        None => Ok(None),
    }
}

// What a line asks for.
pub fn action(alloc: Global, line: &[u8]) -> Result<Option<Action>, AllocError>
    ensures { IfOk result (λ found. MatchOption found ((a : Action) → IsLineOf a line.now → ⊥)
        (λ a. IsLineOf a line.now)) }
{
    if same(line, b"turn") {
        return Ok(Some(Action::Turn));
    }
    if same(line, b"checkpoint") {
        return Ok(Some(Action::Checkpoint));
    }
    match behind(line, b"c") {
        Some(rest) => of_client(alloc, rest),
        None => Ok(None),
    }
}
