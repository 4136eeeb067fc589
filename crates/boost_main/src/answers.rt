// What a client is told, into a FIFO that it may not read.
ghost use Rattle.std.specs.Io.{WritesAtMost};

use crate::fifos::Held;
use crate::outlet::Outlet;
use std::io::{self, ErrorKind, Write};
use std::sync::Wait;
use std::sync::atomic::{AtomicBool, AtomicU64, Ordering};
use talks::{Attention, Output};

// How many bytes one write has at most: those for which a FIFO has room or has not, as a whole.
const PIECE: usize = 4096;

/// A writer of a FIFO whose client may be given up, by its outlet: where it reads nothing for too
/// long. Then a write is refused `BrokenPipe`, and so are all behind it. The client finds a
/// beginning of what it was told, perhaps in the middle of a line, and the end behind that.
#[derive(Drop)]
pub struct Answers<'a, O, R: Wait> {
    rt: &'a R,
    output: O,
    outlet: &'a Outlet,
    looks: &'a AtomicU64,
    is_over: &'a AtomicBool,
    // Whether its client was seen to hold the lock of the FIFO.
    was_held: bool,
}

impl<'a, O: Write, R: Wait> Answers<'a, O, R> {
    /// A writer that has written nothing yet. The outlet is that of its file.
    pub fn new(
        rt: &'a R,
        output: O,
        outlet: &'a Outlet,
        looks: &'a AtomicU64,
        is_over: &'a AtomicBool,
    ) -> Self {
        Self {
            rt,
            output,
            outlet,
            looks,
            is_over,
            was_held: false,
        }
    }

    // Writes a piece of it, which may have to wait for room.
    fn write_piece(&mut self, buf: &[u8]) -> io::Result<usize>
        ensures { WritesAtMost result buf.now }
    {
        let piece = &buf[..buf.len().min(PIECE)];
        Ok(self.output.write(piece)?.min(piece.len()))
    }
}

impl<O: Write, R: Wait> Write for Answers<'_, O, R> {
    fn write(&mut self, buf: &[u8]) -> io::Result<usize> {
        let look = self.looks.load(Ordering::SeqCst);
        if self.outlet.begin(self.rt, look) {
            return Err(io::Error::from(ErrorKind::BrokenPipe));
        }
        let written = self.write_piece(buf);
        if self.outlet.end(self.rt) {
            return Err(io::Error::from(ErrorKind::BrokenPipe));
        }
        written
    }

    fn flush(&mut self) -> io::Result<()> {
        self.output.flush()
    }
}

/// A client that was seen to hold the lock of its FIFO, and holds it no more, has gone. One that
/// never held it is taken to be there.
impl<O: Write + Held, R: Wait> Output for Answers<'_, O, R> {
    fn attention(&mut self) -> Attention {
        let is_held = self.output.is_held();
        if self.was_held && !is_held {
            return Attention::Gone;
        }
        self.was_held = is_held;
        if self.is_over.load(Ordering::SeqCst) {
            return Attention::Hurried;
        }
        Attention::Patient
    }
}
