// Lines of many clients, which are handed out to each.
use crate::shell::{HELP, Manner, PROMPT, WELCOME};
use crossbeam_channel::Sender;
use script::addressed;
use std::alloc::{AllocError, Global};
use std::io::{self, BufReader, Read, Write};
use std::mem;
use std::sync::{Mutex, Wait};
use talks::{Found, read_line};

// How many bytes one read takes at most.
const READ_SIZE: usize = 65_536;

/// Hands lines out to their clients, batch by batch: those that follow one another and are one
/// client's, of what one read brought, go together.
#[derive(Drop)]
pub struct Handing<'a, O, R: Wait> {
    rt: &'a R,
    alloc: Global,
    output: &'a Mutex<O>,
    manner: Manner,
    senders: Vec<Sender<Vec<u8>>>,
    // The client of the lines that are collected, from 0 on, and the lines.
    of: usize,
    batch: Vec<u8>,
}

impl<'a, O: Write, R: Wait> Handing<'a, O, R> {
    /// Hands lines out to these channels, the first of which is client 1's.
    pub fn new(
        rt: &'a R,
        alloc: Global,
        output: &'a Mutex<O>,
        manner: Manner,
        senders: Vec<Sender<Vec<u8>>>,
    ) -> Self {
        Self {
            rt,
            alloc,
            output,
            manner,
            senders,
            of: 0,
            batch: Vec::new(alloc),
        }
    }

    /// Says hello.
    pub fn say_hello(&self) -> io::Result<()> {
        self.tell(match self.manner {
            Manner::Tagged => b"- hello boost 1\n",
            Manner::Shell => WELCOME,
        })
    }

    /// Hands out all lines of an input, up to its end or to the line `end`. Whose line is no
    /// client's, or is too long, is told so; the latter by the client that it begins with.
    ///
    /// Refused where the input or the output is, and for want of memory.
    pub fn hand_out_all<I: Read + Drop>(&mut self, input: I) -> io::Result<()> {
        let mut reader = BufReader::with_capacity(self.alloc, READ_SIZE, input)?;
        let mut line = Vec::new(self.alloc);
        for _ in self.rt.forever() {
            if !reader.buffer().contains(&b'\n') {
                self.send()?;
            }
            let goes_on = match read_line(&mut reader, &mut line)? {
                Found::Silence => continue,
                Found::Line => self.hand_out(line.as_slice())?,
                Found::TooLong => {
                    self.hand_out_long(line.as_slice())?;
                    true
                }
                Found::Cut | Found::End => false,
            };
            if !goes_on {
                break;
            }
            line.clear();
        }
        Ok(self.send()?)
    }

    // Hands out the beginning of a line that is too long. With the words that name its client it is
    // too long for that client too, who is told so in its turn.
    fn hand_out_long(&mut self, line: &[u8]) -> io::Result<()> {
        match (addressed(line), self.manner) {
            (Some((client, _)), _) => self.add_line(usize::from(client).saturating_sub(1), line)?,
            (None, Manner::Shell) => self.add_line(0, line)?,
            (None, Manner::Tagged) => self.tell(b"- error LineTooLong\n")?,
        }
        Ok(())
    }

    // Hands a line out. Whether more are to come: not behind `end`. A carriage return at its end is
    // left to the client that takes it off.
    fn hand_out(&mut self, line: &[u8]) -> io::Result<bool> {
        match line.strip_suffix(b"\r").unwrap_or(line) {
            b"end" => return Ok(false),
            [] | [b'#', ..] if self.manner == Manner::Tagged => {}
            [] | [b'#', ..] => self.tell(b"")?,
            b"help" if self.manner == Manner::Shell => self.tell(HELP)?,
            _ => match (addressed(line), self.manner) {
                (Some((client, rest)), _) => {
                    self.add_line(usize::from(client).saturating_sub(1), rest)?;
                }
                (None, Manner::Shell) => self.add_line(0, line)?,
                (None, Manner::Tagged) => self.tell(b"- error NoClient\n")?,
            },
        }
        Ok(true)
    }

    // Writes lines that are no client's, and in a shell a prompt behind them.
    fn tell(&self, lines: &[u8]) -> io::Result<()> {
        let mut output = self.output.lock(self.rt);
        output.write_all(lines)?;
        if self.manner == Manner::Shell {
            output.write_all(PROMPT)?;
        }
        output.flush()
    }

    // Puts a line behind those that are collected, which are sent first where they are another
    // client's.
    fn add_line(&mut self, client: usize, line: &[u8]) -> Result<(), AllocError> {
        if client != self.of {
            self.send()?;
            self.of = client;
        }
        self.batch.extend_from_slice(line)?;
        self.batch.push(b'\n')?;
        Ok(())
    }

    // Sends the lines that are collected to their client.
    fn send(&mut self) -> Result<(), AllocError> {
        if self.batch.is_empty() {
            return Ok(());
        }
        let lines = mem::replace(&mut self.batch, Vec::new(self.alloc));
        if let Some(sender) = self.senders.get(self.of) {
            let _sent = sender.send(self.rt, lines);
        }
        Ok(())
    }
}
