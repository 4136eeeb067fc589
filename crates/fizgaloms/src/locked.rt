// Files under a lock.
use crate::read_ahead::ReadAhead;
use disk_model::DeviceFile;
use std::alloc::Global;
use std::fs::File;
use std::io;

/// A file under a lock, which is given up just before the file is closed. On a file system that is
/// served by a program the lock of a file that is closed may outlive it by some milliseconds.
///
/// Up to its first write it is read in pieces of 65,536 bytes, each by one call of the system, and
/// keeps the last one in memory. From then on each read is a call, and no memory is taken.
pub struct LockedFile {
    file: File,
    // What was read ahead. None from the first write on.
    ahead: Option<ReadAhead>,
}

impl LockedFile {
    // Takes a file whose lock was taken.
    pub(crate) fn new(alloc: Global, file: File) -> LockedFile {
        LockedFile {
            file,
            ahead: Some(ReadAhead::new(alloc)),
        }
    }

    /// The file. What is written by it is written before the first `DeviceFile::read_at`, which may
    /// have read more than it was asked for.
    pub fn file(&self) -> &File {
        &self.file
    }
}

impl Drop for LockedFile {
    fn drop(self) {
        let LockedFile {
            file,
            ahead: _ahead,
        } = self;
        let _unlocked = file.unlock();
    }
}

impl DeviceFile for LockedFile {
    fn len(&self) -> io::Result<u64> {
        self.file.len()
    }

    fn read_at(&mut self, at: u64, out: &mut [u8]) -> io::Result<()> {
        match &mut self.ahead {
            Some(ahead) => ahead.read_at(&self.file, at, out),
            None => DeviceFile::read_at(&mut self.file, at, out),
        }
    }

    fn write_at(&mut self, at: u64, bytes: &[u8]) -> io::Result<()> {
        self.ahead = None;
        DeviceFile::write_at(&mut self.file, at, bytes)
    }

    fn sync(&mut self) -> io::Result<()> {
        self.file.sync()
    }

    fn sync_all(&mut self) -> io::Result<()> {
        DeviceFile::sync_all(&mut self.file)
    }
}
