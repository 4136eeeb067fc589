// What a line asks of a collection.
ghost use Rattle.std.specs.Prelude.{◌≡◌, ◌<◌, ◌++◌, ◌∷◌, Some, None, IfOk, IfSome};
ghost use Rattle.std.specs.Prelude.{IfNone, MatchOption};
ghost use Rattle.std.specs.Fmt.{decimal};
ghost use Rattle.script.specs.declared.action.Operation.{Operation};
ghost use Rattle.script.specs.declared.operations.Verb.{Verb};
ghost use Rattle.script.specs.declared.operations.Numbers.{Numbers};
ghost use Rattle.script.specs.ScriptTexts.{CanBeDone, verb_text, said, operation_text};
ghost use Rattle.script.specs.ScriptTexts.{HasArguments, IsKeyed, IsKeyOrPair, AreNumbers};

use crate::action::Operation;
use crate::words::{natural, number, same, split_at_byte, value};
use calls::Call;
use std::alloc::{AllocError, Global};

/// The first word of an operation.
#[derive(Clone, Copy)]
pub enum Verb {
    Contains,
    Add,
    Remove,
    Get,
    Put,
    Ceiling,
    Take,
    Least,
    Bump,
    Read,
    Draw,
    Release,
    Spend,
    Level,
    Pick,
    Fill,
}

// Each verb.
const VERBS: [Verb; 16] = [
    Verb::Contains,
    Verb::Add,
    Verb::Remove,
    Verb::Get,
    Verb::Put,
    Verb::Ceiling,
    Verb::Take,
    Verb::Least,
    Verb::Bump,
    Verb::Read,
    Verb::Draw,
    Verb::Release,
    Verb::Spend,
    Verb::Level,
    Verb::Pick,
    Verb::Fill,
];

impl Verb {
    ghost use Rattle.script.specs.ScriptTexts.{verb_text};

    // Its text.
    fn text(self) -> &'static str
        ensures { result.now ≡ verb_text self }
    {
        match self {
            Verb::Contains => "contains",
            Verb::Add => "add",
            Verb::Remove => "remove",
            Verb::Get => "get",
            Verb::Put => "put",
            Verb::Ceiling => "ceiling",
            Verb::Take => "take",
            Verb::Least => "least",
            Verb::Bump => "bump",
            Verb::Read => "read",
            Verb::Draw => "draw",
            Verb::Release => "release",
            Verb::Spend => "spend",
            Verb::Level => "level",
            Verb::Pick => "pick",
            Verb::Fill => "fill",
        }
    }
}

// The verb that the text is.
fn verb_of(text: &[u8]) -> Option<Verb>
    ensures { MatchOption result ((v : Verb) → text.now ≡ verb_text v → ⊥)
        (λ v. text.now ≡ verb_text v) }
{
    for verb in VERBS {
        if same(text, verb.text().as_bytes()) {
            return Some(verb);
        }
    }
    None
}

// The operation that is a verb alone.
fn alone(verb: Verb) -> Option<Operation>
    ensures { MatchOption result ((o : Operation) → CanBeDone o → said o ≡ Some (verb, None) → ⊥)
        (λ o. CanBeDone o × (said o ≡ Some (verb, None))) }
{
    match verb {
        Verb::Take => Some(Operation::Call(Call::Take)),
        Verb::Least => Some(Operation::Call(Call::Least)),
        Verb::Read => Some(Operation::Call(Call::Read)),
        Verb::Draw => Some(Operation::Call(Call::Draw)),
        Verb::Level => Some(Operation::Call(Call::Level)),
        Verb::Pick => Some(Operation::Call(Call::Pick)),
        _ => None,
    }
}

// The operation of a verb with one key, if the verb takes one and can't take anything else.
fn keyed(verb: Verb, key: u64) -> Option<Operation>
    ensures some { IfSome result (λ o. CanBeDone o × (said o ≡ Some (verb, Some (decimal key)))) }
    ensures none { IfNone result (IsKeyed verb → ⊥) }
{
    match verb {
        Verb::Contains => Some(Operation::Call(Call::Contains(key))),
        Verb::Remove => Some(Operation::Remove(key)),
        Verb::Get => Some(Operation::Call(Call::Get(key))),
        Verb::Ceiling => Some(Operation::Call(Call::Ceiling(key))),
        Verb::Release => Some(Operation::Call(Call::Release(key))),
        Verb::Level => Some(Operation::Call(Call::QuotaLevel(key))),
        _ => None,
    }
}

// An operation on one key.
fn on_key(verb: Verb, text: &[u8]) -> Option<Operation>
    requires add { verb ≡ Verb.Add → ⊥ }
    requires put { verb ≡ Verb.Put → ⊥ }
    requires bump { verb ≡ Verb.Bump → ⊥ }
    requires spend { verb ≡ Verb.Spend → ⊥ }
    requires fill { verb ≡ Verb.Fill → ⊥ }
    ensures { MatchOption result (HasArguments verb text.now → ⊥)
        (λ o. CanBeDone o × (said o ≡ Some (verb, Some text.now))) }
{
    match natural(text) {
        Some(key) => keyed(verb, key),
        None => None,
    }
}

/// One number, or two with a space between them.
#[derive(Clone, Copy)]
pub enum Numbers {
    One(u64),
    Two(u64, u64),
}

// The one number, or the two, that the text is.
fn one_or_two(text: &[u8]) -> Option<Numbers>
    ensures { MatchOption result (IsKeyOrPair text.now → ⊥) (λ n. AreNumbers n text.now) }
{
    match split_at_byte(text, b' ') {
        Some((front, back)) => {
            let first = natural(front)?;
            let second = natural(back)?;
            Some(Numbers::Two(first, second))
        }
        None => {
            let key = natural(text)?;
            Some(Numbers::One(key))
        }
    }
}

// An addition to a set, or to a queue.
fn added(text: &[u8]) -> Option<Operation>
    ensures { MatchOption result (HasArguments Verb.Add text.now → ⊥)
        (λ o. CanBeDone o × (said o ≡ Some (Verb.Add, Some text.now))) }
{
    match one_or_two(text) {
        Some(Numbers::One(element)) => Some(Operation::Call(Call::SetAdd(element))),
        Some(Numbers::Two(priority, tag)) => Some(Operation::Call(Call::QueueAdd(priority, tag))),
        None => None,
    }
}

// A spend from a stock, or from a quota.
fn spent(text: &[u8]) -> Option<Operation>
    ensures { MatchOption result (HasArguments Verb.Spend text.now → ⊥)
        (λ o. CanBeDone o × (said o ≡ Some (Verb.Spend, Some text.now))) }
{
    match one_or_two(text) {
        Some(Numbers::One(amount)) => Some(Operation::Call(Call::Spend(amount))),
        Some(Numbers::Two(key, amount)) => Some(Operation::Call(Call::QuotaSpend(key, amount))),
        None => None,
    }
}

// A fill of a quota.
fn filled(text: &[u8]) -> Option<Operation>
    ensures { MatchOption result (HasArguments Verb.Fill text.now → ⊥)
        (λ o. CanBeDone o × (said o ≡ Some (Verb.Fill, Some text.now))) }
{
    match one_or_two(text) {
        Some(Numbers::Two(key, amount)) => Some(Operation::Call(Call::QuotaFill(key, amount))),
        Some(Numbers::One(_)) => None,
        None => None,
    }
}

// A value that is put at a key.
fn put(alloc: Global, text: &[u8]) -> Result<Option<Operation>, AllocError>
    ensures { IfOk result (λ found. MatchOption found (HasArguments Verb.Put text.now → ⊥)
        (λ o. CanBeDone o × (said o ≡ Some (Verb.Put, Some text.now)))) }
{
    let Some((front, back)) = split_at_byte(text, b' ') else {
        return Ok(None);
    };
    let Some(key) = natural(front) else {
        return Ok(None);
    };
    match value(alloc, back)? {
        Some(bytes) => Ok(Some(Operation::Call(Call::Put(key, bytes)))),
        None => Ok(None),
    }
}

// A bump of a counter.
fn bumped(text: &[u8]) -> Option<Operation>
    ensures { MatchOption result (HasArguments Verb.Bump text.now → ⊥)
        (λ o. CanBeDone o × (said o ≡ Some (Verb.Bump, Some text.now))) }
{
    match number(text) {
        Some(n) => Some(Operation::Call(Call::Bump(n))),
        None => None,
    }
}

// The operation of a verb with what stands behind it.
fn with_arguments(alloc: Global, verb: Verb, text: &[u8]) -> Result<Option<Operation>, AllocError>
    ensures { IfOk result (λ found. MatchOption found (HasArguments verb text.now → ⊥)
        (λ o. CanBeDone o × (said o ≡ Some (verb, Some text.now)))) }
{
    match verb {
        Verb::Add => Ok(added(text)),
        Verb::Put => put(alloc, text),
        Verb::Bump => Ok(bumped(text)),
        Verb::Spend => Ok(spent(text)),
        Verb::Fill => Ok(filled(text)),
        _ => Ok(on_key(verb, text)),
    }
}

// The operation of a verb with what stands behind it, if the word is a verb.
fn after_word(alloc: Global, word: &[u8], rest: &[u8]) -> Result<Option<Operation>, AllocError>
    ensures { IfOk result (λ found. MatchOption found
        ((v : Verb) → word.now ≡ verb_text v → HasArguments v rest.now → ⊥)
        (λ o. CanBeDone o × (operation_text o ≡ word.now ++ 32 ∷ rest.now))) }
{
    match verb_of(word) {
        Some(verb) => with_arguments(alloc, verb, rest),
        None => Ok(None),
    }
}

// The operation of a word alone, if the word is a verb.
fn one_word(word: &[u8]) -> Option<Operation>
    ensures { MatchOption result ((v : Verb) (o : Operation) → word.now ≡ verb_text v →
        CanBeDone o → said o ≡ Some (v, None) → ⊥)
        (λ o. CanBeDone o × (operation_text o ≡ word.now)) }
{
    alone(verb_of(word)?)
}

// The operation that the text asks for.
pub fn operation(alloc: Global, text: &[u8]) -> Result<Option<Operation>, AllocError>
    ensures { IfOk result (λ found. MatchOption found
        ((o : Operation) → CanBeDone o → text.now ≡ operation_text o → ⊥)
        (λ o. CanBeDone o × (text.now ≡ operation_text o))) }
{
    match split_at_byte(text, b' ') {
        Some((word, rest)) => after_word(alloc, word, rest),
        None => Ok(one_word(text)),
    }
}
