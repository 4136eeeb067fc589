// What stands in a line of a script.
use crate::seconds::seconds;
use crate::words::{natural, number};
use std::fmt::{self, Display, Formatter};

/// What may stand at a place of a line.
#[derive(Clone, Copy)]
pub enum Thing {
    Action,
    Request,
    Wish,
    Kind,
    Name,
    Call,
    DeferredCall,
    Natural,
    Number,
    Value,
    Seconds,
    DoOrKeep,
}

impl Display for Thing {
    fn fmt<W: fmt::Write>(&self, f: &mut Formatter<W>) -> fmt::Result {
        f.write_str(match self {
            Thing::Action => "turn, checkpoint or client, c1 to c64",
            Thing::Request => "request: make, begin, call, later, commit, abort or kept",
            Thing::Wish =>
                "request, as make, do, keep, within, begin, call, commit, abort or status",
            Thing::Kind => "kind: set, map, queue, counter, pool, stock or quotas",
            Thing::Name => "name",
            Thing::Call => "call of a collection",
            Thing::DeferredCall => "call that can be deferred: bump or fill",
            Thing::Natural => "number from 0 to 2^64 - 1 as it is printed",
            Thing::Number => "number from -2^63 to 2^63 - 1 as it is printed",
            Thing::Seconds => "number of seconds from 0 to 86400, with at most three places",
            Thing::DoOrKeep => "transaction: do or keep, and its calls",
            Thing::Value => "value: pairs of small hexadecimal digits, or - for none",
        })
    }
}

impl Thing {
    /// Whether a word is such a number or value; a word of another kind is taken for any.
    pub fn is(self, word: &str) -> bool {
        match self {
            Thing::Natural => natural(word.as_bytes()).is_some(),
            Thing::Number => number(word.as_bytes()).is_some(),
            Thing::Seconds => seconds(word.as_bytes()).is_some(),
            Thing::Value => word == "-" || are_pairs(word.as_bytes()),
            _ => true,
        }
    }
}

// Whether a text is pairs of small hexadecimal digits.
fn are_pairs(text: &[u8]) -> bool {
    text.len() % 2 == 0 && text.iter().all(|&b| matches!(b, b'0'..=b'9' | b'a'..=b'f'))
}
