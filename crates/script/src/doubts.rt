// Why a line is not understood.
use crate::things::Thing;
use std::fmt::{self, Display, Formatter};

/// Why a line is not understood at a word.
#[derive(Clone, Copy)]
pub enum Why {
    /// The word is not what stands at its place.
    IsNo(Thing),
    /// What has to stand behind the word is not there, or behind more than one space.
    Wants(Thing),
    /// Nothing may stand where the word does.
    IsTooMuch,
    /// A space stands behind the last word.
    EndsInSpace,
    /// The line is not UTF-8.
    IsNoText,
}

impl Display for Why {
    fn fmt<W: fmt::Write>(&self, f: &mut Formatter<W>) -> fmt::Result {
        match self {
            Why::IsNo(thing) => write!(f, "no {thing}"),
            Why::Wants(thing) => write!(f, "behind it belong one space and a {thing}"),
            Why::IsTooMuch => f.write_str("nothing may stand here"),
            Why::EndsInSpace => f.write_str("a space stands behind it"),
            Why::IsNoText => f.write_str("the line is not UTF-8"),
        }
    }
}

// A text up to its first space, and what stands behind that.
fn front(text: &str) -> (&str, &str) {
    text.split_once(' ').unwrap_or((text, ""))
}

// Whether a word names a client.
fn is_client(word: &str) -> bool {
    match word.strip_prefix("c") {
        Some(number) => {
            Thing::Natural.is(number)
                && matches!(number.parse::<u64>(), Ok(n) if (1..=64).contains(&n))
        }
        None => false,
    }
}

// Of a text that has to begin with a word of a kind, behind another word.
fn at_word<'a>(before: &'a str, text: &'a str, thing: Thing) -> (&'a str, Why) {
    match front(text).0 {
        "" => (before, Why::Wants(thing)),
        word => (word, Why::IsNo(thing)),
    }
}

// Of what stands behind the last word that may stand there.
fn too_much<'a>(last: &'a str, text: &'a str) -> (&'a str, Why) {
    match front(text).0 {
        "" => (last, Why::EndsInSpace),
        word => (word, Why::IsTooMuch),
    }
}

// Of the words behind a verb, which are to be these things.
fn in_arguments<'a>(verb: &'a str, text: &'a str, wanted: &[Thing]) -> (&'a str, Why) {
    let mut before = verb;
    let mut rest = text;
    for thing in wanted {
        let (word, behind) = front(rest);
        if word.is_empty() || !thing.is(word) {
            return at_word(before, rest, *thing);
        }
        before = word;
        rest = behind;
    }
    too_much(before, rest)
}

// Of the words of a call behind the name of a collection.
fn in_call<'a>(name: &'a str, text: &'a str) -> (&'a str, Why) {
    let (verb, rest) = front(text);
    match verb {
        "take" | "least" | "read" | "draw" | "pick" => in_arguments(verb, rest, &[]),
        "contains" | "remove" | "get" | "ceiling" | "release" | "level" => {
            in_arguments(verb, rest, &[Thing::Natural])
        }
        "add" | "spend" | "fill" => in_arguments(verb, rest, &[Thing::Natural, Thing::Natural]),
        "put" => in_arguments(verb, rest, &[Thing::Natural, Thing::Value]),
        "bump" => in_arguments(verb, rest, &[Thing::Number]),
        _ => at_word(name, text, Thing::Call),
    }
}

// Of the words of a call that is deferred, behind the name of a collection.
fn in_deferred_call<'a>(name: &'a str, text: &'a str) -> (&'a str, Why) {
    let (verb, rest) = front(text);
    match verb {
        "bump" => in_arguments(verb, rest, &[Thing::Number]),
        "fill" => in_arguments(verb, rest, &[Thing::Natural]),
        _ => at_word(name, text, Thing::DeferredCall),
    }
}

// Of the words behind make.
fn in_making<'a>(make: &'a str, text: &'a str) -> (&'a str, Why) {
    let (kind, rest) = front(text);
    match kind {
        "set" | "map" | "queue" | "counter" | "pool" | "stock" | "quotas" => {
            in_arguments(kind, rest, &[Thing::Name])
        }
        _ => at_word(make, text, Thing::Kind),
    }
}

// Of a client's request.
fn in_request<'a>(client: &'a str, text: &'a str) -> (&'a str, Why) {
    let (word, rest) = front(text);
    match word {
        "begin" | "commit" | "abort" | "kept" => too_much(word, rest),
        "make" => in_making(word, rest),
        "call" | "later" => match front(rest) {
            ("", _) => (word, Why::Wants(Thing::Name)),
            (name, call) if word == "call" => in_call(name, call),
            (name, call) => in_deferred_call(name, call),
        },
        _ => at_word(client, text, Thing::Request),
    }
}

/// The word at which a line that is not understood ceases to be, and why.
pub fn doubt(line: &str) -> (&str, Why) {
    let (word, rest) = front(line);
    match word {
        "turn" | "checkpoint" => too_much(word, rest),
        _ if is_client(word) => in_request(word, rest),
        _ => (word, Why::IsNo(Thing::Action)),
    }
}

// Of the calls of a transaction in one line, with a semicolon and a space between them.
fn in_calls<'a>(word: &'a str, text: &'a str) -> (&'a str, Why) {
    for call in text.split("; ") {
        let (found, why) = in_part(word, call);
        if !matches!(why, Why::EndsInSpace) || call.ends_with(' ') {
            return (found, why);
        }
    }
    (word, Why::EndsInSpace)
}

// Of one of these calls, behind a word.
fn in_part<'a>(before: &'a str, call: &'a str) -> (&'a str, Why) {
    match front(call) {
        ("", _) => (before, Why::Wants(Thing::Name)),
        ("later", rest) => match front(rest) {
            ("", _) => ("later", Why::Wants(Thing::Name)),
            (name, asked) => in_deferred_call(name, asked),
        },
        (name, asked) => in_call(name, asked),
    }
}

// Of the words behind within: how long, and what is done.
fn in_within<'a>(within: &'a str, text: &'a str) -> (&'a str, Why) {
    let (time, rest) = front(text);
    if time.is_empty() || !Thing::Seconds.is(time) {
        return at_word(within, text, Thing::Seconds);
    }
    match front(rest) {
        (word @ ("do" | "keep"), calls) => in_calls(word, calls),
        _ => at_word(time, rest, Thing::DoOrKeep),
    }
}

/// The word at which a line of a server's client ceases to be understood, and why, where it is not
/// understood. The line is without the client's name.
pub fn doubt_wish(line: &str) -> (&str, Why) {
    let (word, rest) = front(line);
    match word {
        "wait" | "status" | "bye" => too_much(word, rest),
        "do" | "keep" => in_calls(word, rest),
        "within" => in_within(word, rest),
        "begin" | "commit" | "abort" | "kept" | "make" | "call" | "later" => in_request("", line),
        _ => (word, Why::IsNo(Thing::Wish)),
    }
}
