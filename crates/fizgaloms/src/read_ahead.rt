// Reading a file in large pieces.
ghost use Rattle.std.specs.Prelude.{◌≡◌, ◌≤◌, ◌<◌, ◌+◌, ◌-◌, take, drop, length};

use std::alloc::Global;
use std::fs::File;
use std::io;
use std::os::unix::fs::FileExt;

// How many bytes are read at once where fewer are asked for.
const PIECE: usize = 65_536;

/// Bytes of a file that were read before they are asked for. An opening asks for a few at a time,
/// one behind the other, and over a network each read is a round trip. Nobody writes the file
/// meanwhile.
#[derive(Drop)]
pub(crate) struct ReadAhead {
    // The first `count` of these bytes are those of the file from `at` on.
    piece: Vec<u8>,
    at: u64,
    count: usize,
}

impl ReadAhead {
    /// Nothing was read yet. From the first read on it takes 65,536 bytes of memory.
    pub(crate) fn new(alloc: Global) -> ReadAhead {
        ReadAhead {
            piece: Vec::new(alloc),
            at: 0,
            count: 0,
        }
    }

    /// Reads as many bytes as `out` has, from `at` on. What is not there yet is read with all that
    /// stands behind it in a piece, by one call of the system; or alone, where it is as much as a
    /// piece has, where memory for one is refused, and where the system does not read one. So what
    /// is refused is what is asked for.
    pub(crate) fn read_at(&mut self, file: &File, at: u64, out: &mut [u8]) -> io::Result<()> {
        let mut done = self.copy_out(at, out);
        let wanted = out.len() - done;
        if wanted > 0 && wanted < PIECE && self.fetch(file, at.wrapping_add(done as u64)) {
            done += self.copy_out(at.wrapping_add(done as u64), &mut out[done..]);
        }
        file.read_exact_at(&mut out[done..], at.wrapping_add(done as u64))
    }

    // Copies what is there of the bytes from `at` on, and answers how many that are: none where the
    // byte at `at` is not there.
    fn copy_out(&self, at: u64, out: &mut [u8]) -> usize
        ensures count { result ≤ length out.new }
        ensures bytes { take result out.new ≡
            take result (drop (at - self.now.at) self.now.piece.items) }
        ensures within { 0 < result →
            (self.now.at ≤ at) × (at - self.now.at + result ≤ self.now.count) }
    {
        let Some(skipped) = at.checked_sub(self.at) else {
            return 0;
        };
        let Some(there) = self.piece.get(skipped as usize..self.count) else {
            return 0;
        };
        let count = there.len().min(out.len());
        out[..count].copy_from_slice(&there[..count]);
        count
    }

    // Reads a piece from `at` on, or up to the end of the file. Whether it was read.
    fn fetch(&mut self, file: &File, at: u64) -> bool {
        self.count = 0;
        if self.piece.is_empty() && self.piece.resize(PIECE, 0).is_err() {
            return false;
        }
        let Ok(count) = file.read_at(&mut self.piece, at) else {
            return false;
        };
        self.at = at;
        self.count = count;
        true
    }
}
