// The output that clients share, for the lines of one of them.
use crate::shell::{Manner, PROMPT};
use std::io::{self, Write};
use std::sync::atomic::{AtomicBool, Ordering};
use std::sync::{Mutex, Wait};
use talks::{Attention, Output};

/// A shared output as a writer of one client: each line begins with `c`, the client's number and a
/// space. What is written at once goes out at once, and nothing of others comes between. Call it
/// with whole lines. In a shell the lines of client 1 have nothing before them, and a prompt stands
/// behind the last one.
#[derive(Drop)]
pub struct Tagged<'a, O, R: Wait> {
    rt: &'a R,
    output: &'a Mutex<O>,
    client: usize,
    manner: Manner,
    is_over: &'a AtomicBool,
    text: Vec<u8>,
}

impl<'a, O, R: Wait> Tagged<'a, O, R> {
    /// The output for the client of this number. `is_over` says that no more input is read, and
    /// `text` is empty, and holds what is written.
    pub fn new(
        rt: &'a R,
        output: &'a Mutex<O>,
        client: usize,
        manner: Manner,
        is_over: &'a AtomicBool,
        text: Vec<u8>,
    ) -> Self {
        Self {
            rt,
            output,
            client,
            manner,
            is_over,
            text,
        }
    }

    // Puts a line behind the text.
    fn put(&mut self, line: &[u8]) -> io::Result<()> {
        if self.manner == Manner::Tagged || self.client > 1 {
            write!(self.text, "c{} ", self.client)?;
        }
        self.text.extend_from_slice(line)?;
        self.text.push(b'\n')?;
        Ok(())
    }
}

impl<O: Write, R: Wait> Write for Tagged<'_, O, R> {
    fn write(&mut self, buf: &[u8]) -> io::Result<usize> {
        self.text.clear();
        for line in buf.split(|byte| *byte == b'\n') {
            if !line.is_empty() {
                self.put(line)?;
            }
        }
        if self.manner == Manner::Shell {
            self.text.extend_from_slice(PROMPT)?;
        }
        let mut output = self.output.lock(self.rt);
        output.write_all(self.text.as_slice())?;
        output.flush()?;
        Ok(buf.len())
    }

    fn flush(&mut self) -> io::Result<()> {
        Ok(())
    }
}

/// Clients that share an output are there as long as it is.
impl<O: Write, R: Wait> Output for Tagged<'_, O, R> {
    fn attention(&mut self) -> Attention {
        if self.is_over.load(Ordering::SeqCst) {
            return Attention::Hurried;
        }
        Attention::Patient
    }
}
