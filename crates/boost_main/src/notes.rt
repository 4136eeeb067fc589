// Lines for who runs the server.
use crate::events::Event;
use crate::fifos::Fifos;
use std::io::{self, Write};

// So many notes are written into a FIFO at most. They take less than it has room for, so that one
// that nobody reads holds nobody up.
const MOST: u64 = 200;

/// Lines about who is passed over, and about a store that is nearly full; and where that is asked
/// for, about what happens. Where standard error is a FIFO, 200 of them are written, and the others
/// are dropped. What is no FIFO, as a file or a terminal, is told all.
#[derive(Drop)]
pub struct Notes<E> {
    output: E,
    // How many more are written, where that has an end.
    left: Option<u64>,
}

impl<E: Write> Notes<E> {
    /// Notes into this output, which is standard error.
    pub fn new(fifos: &impl Fifos, output: E) -> Self {
        let left = fifos.has_standard_error().then_some(MOST);
        Self { output, left }
    }

    /// Notes who is passed over, and why. Where it cannot be written, that changes nothing.
    pub fn passed_over(&mut self, word: &str, error: &io::Error) {
        if self.takes_one() {
            let _written = writeln!(self.output, "boost: passed over {word}: {error}");
            self.end_line();
        }
    }

    /// Notes that the store is full so far, in hundredths. Where it cannot be written, that changes
    /// nothing.
    pub fn nearly_full(&mut self, full: u64) {
        if self.takes_one() {
            let _written = writeln!(self.output, "boost: the store is {full} of 100 full");
            self.end_line();
        }
    }

    /// Notes what happened. Where it cannot be written, that changes nothing.
    pub fn event(&mut self, event: Event<'_>) {
        if self.takes_one() {
            let _written = writeln!(self.output, "boost: {event}");
            self.end_line();
        }
    }

    // Whether one more is written.
    fn takes_one(&mut self) -> bool {
        if self.left == Some(0) {
            return false;
        }
        self.left = self.left.map(|left| left.saturating_sub(1));
        true
    }

    // Ends a note, and says where it was the last one.
    fn end_line(&mut self) {
        if self.left == Some(0) {
            let _written = writeln!(self.output, "boost: what else comes is not told");
        }
        let _flushed = self.output.flush();
    }

    /// The output.
    pub fn into_output(self) -> E {
        let Self {
            output,
            left: _left,
        } = self;
        output
    }
}
