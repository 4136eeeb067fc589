// Who writes what a client is told.
ghost use Rattle.std.specs.Prelude.{[], ◌∷◌, None};
ghost use Rattle.talks.specs.Hearing.{Hears};

use crate::hearing::{Attention, Hearer};
use crate::keeping_state::KeepingState;
use crate::told::Told;
use calls::Refusal;
use std::alloc::Global;
use std::fmt::Display;
use std::io::{self, Write};

// How many bytes are kept back at most.
const MOST_BACK: usize = 65_536;

/// An output that may know whether somebody still reads it.
pub trait Output: Write {
    /// Whether somebody still waits for what is written.
    fn attention(&mut self) -> Attention;
}

/// Writes what a client is told, a line each, to an output. Lines are kept back until they are
/// asked for, or are many; each write has whole lines.
#[derive(Drop)]
pub struct Printer<'a, O> {
    text: Vec<u8>,
    output: O,
    state: Option<&'a KeepingState<'a>>,
}

impl<'a, O: Output + Drop> Printer<'a, O> {
    /// A printer that has written nothing yet.
    pub fn new(alloc: Global, output: O) -> Self {
        Self {
            text: Vec::new(alloc),
            output,
            state: None,
        }
    }

    /// The same, behind whose Lost stands what ended keeping, and behind a status since when a
    /// write or sync of the disk goes on, while one does.
    pub fn with_state(self, state: &'a KeepingState<'a>) -> Self {
        Self {
            state: Some(state),
            ..self
        }
    }

    // Writes what is told, with what stands behind it.
    fn write_told<S: Display>(&mut self, told: &Told<S>) -> io::Result<()> {
        match (told, self.state) {
            (Told::Refused(Refusal::Lost), Some(state)) => writeln!(self.text, "{told}: {state}"),
            (Told::Status(_, _), Some(state)) => self.write_status(told, state),
            _ => writeln!(self.text, "{told}"),
        }
    }

    // Writes how the store stands.
    fn write_status<S: Display>(
        &mut self,
        told: &Told<S>,
        state: &KeepingState<'_>,
    ) -> io::Result<()> {
        match state.writing_since() {
            Some(since) => writeln!(self.text, "{told}; writing_since {since}"),
            None => writeln!(self.text, "{told}"),
        }
    }

    fn write_out(&mut self) -> io::Result<()> {
        if self.text.is_empty() {
            return Ok(());
        }
        self.output.write_all(self.text.as_slice())?;
        self.output.flush()?;
        self.text.clear();
        Ok(())
    }
}

impl<S: Display + Drop, O: Output + Drop> Hearer<S> for Printer<'_, O> {
    fn hear(&mut self, told: Told<S>) -> io::Result<()>
        ensures { Hears {S = S} None None (told ∷ []) }
    {
        self.write_told(&told)?;
        if self.text.len() > MOST_BACK {
            self.write_out()?;
        }
        Ok(())
    }

    fn send(&mut self) -> io::Result<()>
        ensures { Hears {S = S} None None [] }
    {
        self.write_out()
    }

    fn attention(&mut self) -> Attention
        ensures { Hears {S = S} None None [] }
    {
        self.output.attention()
    }
}
