// What comes for a client that shares its input with others, as a reader.
use crossbeam_channel::{Receiver, RecvTimeoutError};
use std::io::{self, ErrorKind, Read};
use std::rt::Clock;
use std::sync::Wait;
use std::time::Duration;

/// The batches of a channel as one reader. It ends where the channel is empty and no sender is
/// left. Where it is to wait no longer than so, and nothing comes, it answers `TimedOut`, and may
/// be read on.
#[derive(Drop)]
pub struct Coming<'a, R: Wait> {
    rt: &'a R,
    batches: &'a Receiver<Vec<u8>>,
    idle: Option<Duration>,
    // The batch that is read, and how much of it was.
    batch: Vec<u8>,
    at: usize,
}

impl<'a, R: Wait> Coming<'a, R> {
    /// A reader of which nothing was read. `batch` is empty.
    pub fn new(
        rt: &'a R,
        batches: &'a Receiver<Vec<u8>>,
        idle: Option<Duration>,
        batch: Vec<u8>,
    ) -> Self {
        Self {
            rt,
            batches,
            idle,
            batch,
            at: 0,
        }
    }
}

impl<R: Wait + Clock> Coming<'_, R> {
    // The next batch, if one is still to come.
    fn next_batch(&self) -> io::Result<Option<Vec<u8>>> {
        let Some(idle) = self.idle else {
            return Ok(self.batches.recv(self.rt).ok());
        };
        match self.batches.recv_timeout(self.rt, idle) {
            Ok(batch) => Ok(Some(batch)),
            Err(RecvTimeoutError::Disconnected) => Ok(None),
            Err(RecvTimeoutError::Timeout) => Err(io::Error::from(ErrorKind::TimedOut)),
        }
    }
}

impl<R: Wait + Clock> Read for Coming<'_, R> {
    fn read(&mut self, buf: &mut [u8]) -> io::Result<usize> {
        if self.at >= self.batch.len() {
            match self.next_batch()? {
                Some(batch) => self.batch = batch,
                None => return Ok(0),
            }
            self.at = 0;
        }
        let left = &self.batch.as_slice()[self.at..];
        let count = left.len().min(buf.len());
        buf[..count].copy_from_slice(&left[..count]);
        self.at += count;
        Ok(count)
    }
}
