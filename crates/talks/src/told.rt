// What a client is told.
use crate::speaking::End;
use calls::Refusal;
use std::fmt;

/// What a client is told behind a line.
#[derive(Drop)]
pub enum Told<S> {
    /// What its request was answered, or the call or commit at which all of a line was refused.
    Response(S),
    /// Why all that the line asked for was refused; or Lost, where keeping has failed.
    Refused(Refusal),
    /// How its wait ended.
    Waited(End),
    /// The commit of this place is kept.
    Kept(u64),
    /// What the calls of a transaction were answered, and the place of its commit.
    Done(Vec<S>, u64),
    /// The same, and the commit is kept.
    DoneAndKept(Vec<S>, u64),
    /// How the store stands, and whether keeping has failed.
    Status(String, bool),
    /// The line asks for nothing that is known. Behind it the word at which it ceases to, and why,
    /// where that can be told.
    NotUnderstood(Option<String>),
    /// The line is longer than may be.
    TooLong,
    /// What was open was taken back while the client said nothing, so its line is not carried out.
    Idle,
    /// The talk ends.
    Bye,
}

/// One line, without its line feed.
impl<S: fmt::Display> fmt::Display for Told<S> {
    fn fmt<W: fmt::Write>(&self, f: &mut fmt::Formatter<W>) -> fmt::Result {
        match self {
            Told::Response(response) => write!(f, "{response}"),
            Told::Refused(refusal) => write!(f, "refused {} {refusal}", refusal.number()),
            Told::Waited(end) => write!(f, "{end}"),
            Told::Kept(place) => write!(f, "kept {place}"),
            Told::Done(responses, place) => {
                write_all(f, responses.as_slice())?;
                write!(f, "place {place}")
            }
            Told::DoneAndKept(responses, place) => {
                write_all(f, responses.as_slice())?;
                write!(f, "kept {place}")
            }
            Told::Status(text, false) => f.write_str(text.as_str()),
            Told::Status(text, true) => write!(f, "{text}; failed"),
            Told::NotUnderstood(None) => f.write_str("error NotUnderstood"),
            Told::NotUnderstood(Some(reason)) => write!(f, "error NotUnderstood: {reason}"),
            Told::TooLong => f.write_str("error LineTooLong"),
            Told::Idle => f.write_str("error Idle"),
            Told::Bye => f.write_str("bye"),
        }
    }
}

// What each call was answered, with a semicolon behind it.
fn write_all<S: fmt::Display, W: fmt::Write>(
    f: &mut fmt::Formatter<W>,
    responses: &[S],
) -> fmt::Result {
    for response in responses {
        write!(f, "{response}; ")?;
    }
    Ok(())
}
