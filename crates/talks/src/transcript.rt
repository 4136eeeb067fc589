// What the clients of a script are told.
use crate::{End, Response};
use std::fmt;

/// What a line of a script was answered.
#[derive(Drop)]
pub struct Answer {
    /// The number of the line.
    pub number: u64,
    pub response: Response,
}

/// What a client's lines were answered, in their order, and what it was told at the end.
#[derive(Drop)]
pub struct Transcript {
    /// The client's number.
    pub client: u8,
    pub answers: Vec<Answer>,
    pub end: End,
}

/// The client's number, a line for each answer with the number of its line, and the end.
impl fmt::Display for Transcript {
    fn fmt<W: fmt::Write>(&self, f: &mut fmt::Formatter<W>) -> fmt::Result {
        writeln!(f, "c{}:", self.client)?;
        for Answer { number, response } in &self.answers {
            writeln!(f, "{number}: {response}")?;
        }
        writeln!(f, "end: {}", self.end)
    }
}
