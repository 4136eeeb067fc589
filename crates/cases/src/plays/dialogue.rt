// A talk with who talks for the clients of a script, over memory.
ghost use Rattle.store.specs.Openings.{IsNamed};

use crate::plays::crowd::Crowd;
use crate::plays::through_store::{Stage, sessions};
use boost::{Failure, Line};
use disk_model::Disk;
use std::alloc::Global;
use std::io::{self, BufReader, ErrorKind, Read, Write};
use std::marker::Brand;
use std::rt::Clock;
use std::sync::Wait;
use store::{Naming, Opened, Store};
use talks::{Attention, Ended, Output, Printer, talk};

/// The bytes of a client, of which each read brings a line at most.
#[derive(Drop)]
pub struct Typed<'a> {
    pub left: &'a [u8],
}

impl Read for Typed<'_> {
    fn read(&mut self, buf: &mut [u8]) -> io::Result<usize> {
        let line = line_len(self.left);
        let count = line.min(buf.len());
        let (now, later) = self.left.split_at(count.min(self.left.len()));
        for (to, from) in buf.iter_mut().zip(now) {
            *to = *from;
        }
        self.left = later;
        Ok(now.len())
    }
}

// How many bytes the first line has, with its line feed.
fn line_len(bytes: &[u8]) -> usize {
    match bytes.iter().position(|byte| *byte == b'\n') {
        Some(at) => at.wrapping_add(1),
        None => bytes.len(),
    }
}

/// What a client was told, up to the write that fails.
#[derive(Drop)]
pub struct Page<'a> {
    pub text: &'a mut Vec<u8>,
    /// How many writes go well before all fail.
    pub writes: u64,
}

impl Write for Page<'_> {
    fn write(&mut self, buf: &[u8]) -> io::Result<usize> {
        let Some(left) = self.writes.checked_sub(1) else {
            return Err(io::Error::from(ErrorKind::BrokenPipe));
        };
        self.writes = left;
        self.text.extend_from_slice(buf)?;
        Ok(buf.len())
    }

    fn flush(&mut self) -> io::Result<()> {
        Ok(())
    }
}

/// Nobody waits: there is no other thread.
impl Output for Page<'_> {
    fn attention(&mut self) -> Attention {
        Attention::Hurried
    }
}

/// What a talk is to be: the lines of a script for whose clients it is, or none; what is typed; how
/// many writes of what it is told go well; and what is typed behind it, in a talk of its own, by
/// the first client.
#[derive(Clone, Copy)]
pub struct Dialogue<'a> {
    pub lines: &'a [Line],
    pub typed: &'a [u8],
    pub writes: u64,
    pub behind: &'a [u8],
}

/// What was told in a talk, how it ended, and what was told in the one behind it.
#[derive(Drop)]
pub struct Heard {
    pub text: Vec<u8>,
    pub is_taken_back: bool,
    pub behind: Vec<u8>,
}

impl Heard {
    /// Nothing.
    pub fn none(alloc: Global) -> Self {
        Self {
            text: Vec::new(alloc),
            is_taken_back: false,
            behind: Vec::new(alloc),
        }
    }
}

// Talks with who talks for the clients.
fn hold<D: Disk, J: Naming, R: Wait + Clock + AllocGlobal>(
    rt: &R,
    crowd: &mut Crowd<'_, '_, '_, D, J>,
    typed: &[u8],
    writes: u64,
    text: &mut Vec<u8>,
) -> io::Result<Ended> {
    let mut lines = BufReader::new(rt.alloc(), Typed { left: typed })?;
    let mut printer = Printer::new(rt.alloc(), Page { text, writes });
    Ok(talk(rt, crowd, &mut lines, &mut printer))
}

// Holds a dialogue on a store.
fn hold_on<D: Disk, J: Naming, R: Wait + Clock + AllocGlobal>(
    rt: &R,
    store: &Store<D, J>,
    dialogue: &Dialogue<'_>,
    heard: &mut Heard,
) -> Result<(), Failure<'static>> {
    let sessions = sessions(rt, store)?;
    let mut committer = store.committer(rt);
    let stage = Stage::new(rt, store, sessions, &mut committer);
    let mut crowd = Crowd::new(stage, dialogue.lines);
    let ended = hold(
        rt,
        &mut crowd,
        dialogue.typed,
        dialogue.writes,
        &mut heard.text,
    )?;
    heard.is_taken_back = ended.is_taken_back;
    let _ended = hold(rt, &mut crowd, dialogue.behind, u64::MAX, &mut heard.behind)?;
    Ok(())
}

// The same on a store that was opened, which is closed then.
fn hold_opened<J: Naming, D: Disk + Drop, R: Wait + Clock + AllocGlobal>(
    rt: &R,
    opened: Opened<D>,
    dialogue: &Dialogue<'_>,
    heard: &mut Heard,
) -> Result<(), Failure<'static>>
    requires { IsNamed ⟦<J as Naming>⟧ ⟦<D as Disk>⟧ opened }
{
    let store = opened.named::<J>();
    let done = hold_on(rt, &store, dialogue, heard);
    let (_, keeper, _) = store.close(None);
    drop(keeper.into_disk());
    done
}

// The same on the store of a disk, under a name of its own.
fn hold_named<D: Disk + Drop, R: Wait + Clock + AllocGlobal>(
    rt: &R,
    opened: Opened<D>,
    dialogue: &Dialogue<'_>,
    heard: &mut Heard,
) -> Result<(), Failure<'static>> {
    hold_opened::<Brand, D, R>(rt, opened, dialogue, heard)
}

/// Holds a dialogue on the store of a disk, which is let go then.
pub fn converse<D: Disk + Drop, R: Wait + Clock + AllocGlobal>(
    rt: &R,
    disk: D,
    dialogue: &Dialogue<'_>,
) -> Result<Heard, Failure<'static>> {
    let alloc: Global = rt.alloc();
    let mut heard = Heard::none(alloc);
    match Opened::open(alloc, disk) {
        Ok(opened) => hold_named(rt, opened, dialogue, &mut heard)?,
        Err((refusal, _)) => return Err(Failure::Refused(refusal)),
    }
    Ok(heard)
}
