// What a collection is.
ghost use Rattle.std.specs.Prelude.{◌≡◌, MatchOption};
ghost use Rattle.calls.specs.declared.kind.Kind.{Kind};
ghost use Rattle.calls.specs.Contents.{kind_text};

use std::fmt;

/// What a collection is.
#[derive(Clone, Copy, Debug, PartialEq, Eq)]
pub enum Kind {
    /// A finite set of numbers.
    Set,
    /// A finite map from numbers to bytes.
    Map,
    /// A finite multiset of pairs of a priority and a tag, the least first.
    Queue,
    /// A whole number, 0 when made.
    Counter,
    /// A finite set of taken identifiers.
    Pool,
    /// An amount that is never less than nothing, 0 when made.
    Stock,
    /// At each number an amount that is never less than nothing, 0 when made.
    Quotas,
}

// Each kind.
const KINDS: [Kind; 7] = [
    Kind::Set,
    Kind::Map,
    Kind::Queue,
    Kind::Counter,
    Kind::Pool,
    Kind::Stock,
    Kind::Quotas,
];

impl Kind {
    /// The name of the kind in scripts, and in what the program prints.
    pub fn name(&self) -> &'static str
        ensures { result.now ≡ kind_text self.now }
    {
        match self {
            Kind::Set => "set",
            Kind::Map => "map",
            Kind::Queue => "queue",
            Kind::Counter => "counter",
            Kind::Pool => "pool",
            Kind::Stock => "stock",
            Kind::Quotas => "quotas",
        }
    }

    /// The kind of this name, if there is one. It takes no memory.
    pub fn named(text: &[u8]) -> Option<Self>
        ensures { MatchOption result ((k : Kind) → text.now ≡ kind_text k → ⊥)
            (λ k. text.now ≡ kind_text k) }
    {
        for kind in KINDS {
            if kind.name().as_bytes() == text {
                return Some(kind);
            }
        }
        None
    }
}

impl fmt::Display for Kind {
    fn fmt<W: fmt::Write>(&self, f: &mut fmt::Formatter<W>) -> fmt::Result {
        f.write_str(self.name())
    }
}
