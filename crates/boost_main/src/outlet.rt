// What one thread writes to its client, as the others see it.
use crate::fifos::{Fifos, Way, open_numbered};
use std::alloc::Global;
use std::fs::File;
use std::io::{self, Read};
use std::sync::{Mutex, Wait};

// How many bytes are taken out of the FIFO of who is given up. A thread waits for no more room.
const TAKEN: usize = 4096;

// The file of this number is written. It is open as long as it stands here.
#[derive(Clone, Copy)]
struct Writing {
    number: i32,
    // A write waits, perhaps, since so many looks were taken.
    since: Option<u64>,
    is_given_up: bool,
}

/// What a thread writes to its client, if it has one.
#[derive(Drop)]
pub struct Outlet {
    writing: Mutex<Option<Writing>>,
}

impl Outlet {
    /// An outlet with no client.
    pub fn new() -> Self {
        Self {
            writing: Mutex::new(None),
        }
    }

    /// The file of this number is written from now on. `leave` before it is closed.
    pub fn take<R: Wait>(&self, rt: &R, number: i32) {
        *self.writing.lock(rt) = Some(Writing {
            number,
            since: None,
            is_given_up: false,
        });
    }

    /// Nothing is written any more.
    pub fn leave<R: Wait>(&self, rt: &R) {
        *self.writing.lock(rt) = None;
    }

    /// Whether a file is written.
    pub fn is_taken<R: Wait>(&self, rt: &R) -> bool {
        self.writing.lock(rt).is_some()
    }

    /// A write begins, when so many looks were taken; none, where the client is given up. Whether
    /// it is.
    pub fn begin<R: Wait>(&self, rt: &R, look: u64) -> bool {
        let Some(writing) = &mut *self.writing.lock(rt) else {
            return false;
        };
        writing.since = Some(look);
        writing.is_given_up
    }

    /// The write ends. Whether the client was given up meanwhile.
    pub fn end<R: Wait>(&self, rt: &R) -> bool {
        let Some(writing) = &mut *self.writing.lock(rt) else {
            return false;
        };
        writing.since = None;
        writing.is_given_up
    }

    /// Gives a client up to which a write has waited since that look or an earlier one. Then the
    /// write ends, as bytes are taken out of the FIFO, and so does all that would be written.
    pub fn give_up<R: Wait>(&self, rt: &R, alloc: Global, fifos: &impl Fifos, look: u64) {
        // where the FIFO is gone, nobody writes it
        if let Ok(Some(reader)) = self.claim(rt, alloc, fifos, look) {
            let _taken = take_bytes(reader);
        }
    }

    // The other side of the FIFO into which a write has waited since that look, whose client is
    // given up. It is opened while the number is that FIFO's for sure.
    fn claim<R: Wait>(
        &self,
        rt: &R,
        alloc: Global,
        fifos: &impl Fifos,
        look: u64,
    ) -> io::Result<Option<File>> {
        let mut held = self.writing.lock(rt);
        let Some(writing) = &mut *held else {
            return Ok(None);
        };
        match writing.since {
            Some(since) if since <= look && !writing.is_given_up => {}
            _ => return Ok(None),
        }
        let reader = open_numbered(fifos, alloc, writing.number, Way::Read)?;
        writing.is_given_up = true;
        Ok(Some(reader))
    }
}

// Takes bytes out of a FIFO. Where its client has taken all of them just now, it waits for the end,
// which comes once the write has ended.
fn take_bytes(reader: File) -> io::Result<usize> {
    let mut reader = reader;
    reader.read(&mut [0; TAKEN])
}
