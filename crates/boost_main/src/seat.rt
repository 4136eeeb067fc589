// What one thread reads of its client, as the others see it.
use crate::fifos::{Fifos, Way, open_numbered};
use std::alloc::Global;
use std::fs::File;
use std::io::{self, Write};
use std::sync::{Mutex, Wait};

/// A byte that stands in no line. It wakes who waits in a read.
pub const WAKE: u8 = 0;

/// Why a read was woken.
#[derive(Clone, Copy, PartialEq, Eq)]
pub enum Call {
    /// Nothing has come for too long, or all is over.
    Silence,
    /// Its client is to go, as others wait.
    Leave,
}

// Whether a thread waits in a read.
#[derive(Clone, Copy)]
enum Waiting {
    No,
    // It does, since so many looks were taken.
    Since(u64),
    // It did until it was woken: a `WAKE` is in its FIFO, or will be.
    Woken(Call),
}

// The file of this number is read. It is open as long as it stands here.
#[derive(Clone, Copy)]
struct Reading {
    number: i32,
    waiting: Waiting,
    // Whether nothing has come since a `Silence`.
    is_silent: bool,
}

/// What a thread reads of its client, if it has one.
#[derive(Drop)]
pub struct Seat {
    reading: Mutex<Option<Reading>>,
}

impl Seat {
    /// A seat with no client.
    pub fn new() -> Self {
        Self {
            reading: Mutex::new(None),
        }
    }

    /// The file of this number is read from now on. `leave` before it is closed.
    pub fn take<R: Wait>(&self, rt: &R, number: i32) {
        *self.reading.lock(rt) = Some(Reading {
            number,
            waiting: Waiting::No,
            is_silent: false,
        });
    }

    /// Nothing is read any more.
    pub fn leave<R: Wait>(&self, rt: &R) {
        *self.reading.lock(rt) = None;
    }

    /// Whether a file is read.
    pub fn is_taken<R: Wait>(&self, rt: &R) -> bool {
        self.reading.lock(rt).is_some()
    }

    /// A read begins, when so many looks were taken. `is_silent` says whether nothing has come
    /// since a `Silence`.
    pub fn begin<R: Wait>(&self, rt: &R, look: u64, is_silent: bool) {
        if let Some(reading) = &mut *self.reading.lock(rt) {
            reading.waiting = Waiting::Since(look);
            reading.is_silent = is_silent;
        }
    }

    /// The read ends. Why it was woken, if it was, so that a `WAKE` is in the FIFO or will be.
    pub fn end<R: Wait>(&self, rt: &R) -> Option<Call> {
        let Some(reading) = &mut *self.reading.lock(rt) else {
            return None;
        };
        let call = match reading.waiting {
            Waiting::Woken(call) => Some(call),
            Waiting::No | Waiting::Since(_) => None,
        };
        reading.waiting = Waiting::No;
        call
    }

    /// Wakes who has waited in a read since that look or an earlier one; to leave where it may, and
    /// was silent before. Answers what it was told.
    pub fn wake<R: Wait>(
        &self,
        rt: &R,
        alloc: Global,
        fifos: &impl Fifos,
        look: u64,
        may_leave: bool,
    ) -> Option<Call> {
        // where the FIFO is gone, nobody reads it
        let Ok(Some((mut writer, call))) = self.claim(rt, alloc, fifos, look, may_leave) else {
            return None;
        };
        let _woken = writer.write_all(&[WAKE]);
        Some(call)
    }

    // The other side of the FIFO in which a thread has waited since that look, which is taken to be
    // woken, and why it is. It is opened while the number is that FIFO's for sure, and written to
    // only then, under no lock: who is woken makes room in it.
    fn claim<R: Wait>(
        &self,
        rt: &R,
        alloc: Global,
        fifos: &impl Fifos,
        look: u64,
        may_leave: bool,
    ) -> io::Result<Option<(File, Call)>> {
        let mut held = self.reading.lock(rt);
        let Some(reading) = &mut *held else {
            return Ok(None);
        };
        match reading.waiting {
            Waiting::Since(since) if since <= look => {}
            _ => return Ok(None),
        }
        let call = if may_leave && reading.is_silent {
            Call::Leave
        } else {
            Call::Silence
        };
        let writer = open_numbered(fifos, alloc, reading.number, Way::Write)?;
        reading.waiting = Waiting::Woken(call);
        Ok(Some((writer, call)))
    }
}
