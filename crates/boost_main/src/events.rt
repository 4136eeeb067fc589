// What happens to a server.
use std::fmt;
use std::time::Duration;

/// What happens to a server, for who runs it.
#[derive(Clone, Copy)]
pub enum Event<'a> {
    /// The store is open, and the opening took so long.
    Opened(Duration),
    /// The client of a word is served.
    Came(&'a str),
    /// It is served no more, and what it had open was taken back.
    Went(&'a str),
    /// A checkpoint became the store, and took so long.
    Checkpoint(Duration),
}

impl fmt::Display for Event<'_> {
    fn fmt<W: fmt::Write>(&self, f: &mut fmt::Formatter<W>) -> fmt::Result {
        match self {
            Event::Opened(took) => write!(f, "opened in {} ms", took.as_millis()),
            Event::Came(word) => write!(f, "{word} came"),
            Event::Went(word) => write!(f, "{word} went"),
            Event::Checkpoint(took) => write!(f, "checkpoint in {} ms", took.as_millis()),
        }
    }
}
