// A FIFO, up to the end of all.
use crate::seat::{Call, Seat, WAKE};
use std::io::{self, ErrorKind, Read};
use std::sync::Wait;
use std::sync::atomic::{AtomicBool, AtomicU64, Ordering};

/// A reader of a FIFO that ends once all is over. Another thread may wake it by its seat, at the
/// end or where nothing came for too long; then it answers `TimedOut`, and may be read on. Or it is
/// woken to leave, and ends.
///
/// Who wakes it says so in the seat first, and writes one `WAKE`. So as many of these bytes are
/// taken out as were written, wherever they stand between those of the client.
#[derive(Drop)]
pub struct Until<'a, I, R: Wait> {
    rt: &'a R,
    reader: I,
    seat: &'a Seat,
    looks: &'a AtomicU64,
    is_over: &'a AtomicBool,
    // How many bytes that woke it are still to come.
    wakes: usize,
    // Whether nothing has come since it answered `TimedOut`.
    is_silent: bool,
}

impl<'a, I: Read, R: Wait> Until<'a, I, R> {
    /// A reader of which nothing was read, and which nobody has woken. The seat is that of its
    /// file.
    pub fn new(
        rt: &'a R,
        reader: I,
        seat: &'a Seat,
        looks: &'a AtomicU64,
        is_over: &'a AtomicBool,
    ) -> Self {
        Self {
            rt,
            reader,
            seat,
            looks,
            is_over,
            wakes: 0,
            is_silent: false,
        }
    }

    // Takes the bytes out that woke it. How many are left of the others, which stand in front.
    fn without_wakes(&mut self, bytes: &mut [u8]) -> usize {
        if self.wakes == 0 {
            return bytes.len();
        }
        let mut left = 0;
        for at in 0..bytes.len() {
            let byte = bytes[at];
            if byte == WAKE && self.wakes > 0 {
                self.wakes -= 1;
            } else if let Some(place) = bytes.get_mut(left) {
                *place = byte;
                left += 1;
            }
        }
        left
    }

    // Waits for bytes. How many came, none at the end; and why it was woken, if it was.
    fn wait(&mut self, buf: &mut [u8]) -> io::Result<(usize, Option<Call>)> {
        let look = self.looks.load(Ordering::SeqCst);
        self.seat.begin(self.rt, look, self.is_silent);
        if self.is_over.load(Ordering::SeqCst) {
            return Ok((0, None));
        }
        let read = self.reader.read(buf);
        let call = self.seat.end(self.rt);
        self.wakes = self.wakes.saturating_add(usize::from(call.is_some()));
        if self.is_over.load(Ordering::SeqCst) {
            return Ok((0, None));
        }
        Ok((read?, call))
    }
}

impl<I: Read, R: Wait> Read for Until<'_, I, R> {
    fn read(&mut self, buf: &mut [u8]) -> io::Result<usize> {
        for _ in self.rt.forever() {
            let (count, call) = self.wait(buf)?;
            let came = count.min(buf.len());
            let left = self.without_wakes(&mut buf[..came]).min(came);
            if left > 0 || count == 0 {
                self.is_silent = false;
                return Ok(left);
            }
            match call {
                Some(Call::Silence) => {
                    self.is_silent = true;
                    return Err(io::Error::from(ErrorKind::TimedOut));
                }
                Some(Call::Leave) => return Ok(0),
                None => {}
            }
        }
        Ok(0)
    }
}
