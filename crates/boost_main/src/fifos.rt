// The FIFOs by which clients come.
use std::alloc::{AllocGlobal, Global};
use std::fs::{self, File, Metadata, TryLockError};
use std::io;
use std::os::fd::AsRawFd;
use std::os::unix::fs::FileTypeExt;
use std::rt::Files;

// The number of the last of the files that each program has: standard input, output and error.
const STANDARD_ERROR: i32 = 2;

/// Which way a FIFO is opened.
#[derive(Clone, Copy, PartialEq, Eq)]
pub enum Way {
    /// What the other side writes is read.
    Read,
    /// What is written the other side reads. A write for which there is no room waits for some.
    Write,
}

/// Opens and removes FIFOs. Each is refused where the system refuses it, and for want of memory.
pub trait Fifos {
    /// Opens a FIFO for both ways: so it never ends, and nothing is waited for. InvalidInput for a
    /// file that is none, which is not opened.
    fn open_both(&self, path: &str) -> io::Result<File>;

    /// Opens a FIFO for one way, without waiting for the other side. InvalidInput for a file that
    /// is none.
    fn open(&self, alloc: Global, path: &str, way: Way) -> io::Result<File>;

    /// Takes the name away. Who has the FIFO open has it still.
    fn remove(&self, path: &str) -> io::Result<()>;

    /// The names of the FIFOs in a folder.
    fn names(&self, folder: &str) -> io::Result<Vec<String>>;

    /// Whether standard error is a FIFO.
    fn has_standard_error(&self) -> bool;
}

/// A file of which somebody else may hold the lock.
pub trait Held {
    /// Whether somebody else does. Where that cannot be told it is taken to be so.
    fn is_held(&self) -> bool;
}

impl Held for File {
    fn is_held(&self) -> bool {
        match self.try_lock_shared() {
            Ok(()) => {
                let _given_up = self.unlock();
                false
            }
            Err(TryLockError::WouldBlock | TryLockError::Error(_)) => true,
        }
    }
}

/// The other side of the FIFO that is open in this process under a number, or the same side once
/// more.
pub fn open_numbered(fifos: &impl Fifos, alloc: Global, number: i32, way: Way) -> io::Result<File> {
    let path = format!(in alloc; "/proc/self/fd/{number}")?;
    fifos.open(alloc, path.as_str(), way)
}

/// The FIFOs of the system.
#[derive(Drop)]
pub struct SystemFifos<'a, R>(pub &'a R);

impl<R: Files<File = File> + AllocGlobal + Clone + Drop> Fifos for SystemFifos<'_, R> {
    fn open_both(&self, path: &str) -> io::Result<File> {
        check_fifo(&fs::metadata(self.0, path)?)?;
        let both = File::options().read(true).write(true).open(self.0, path)?;
        check_fifo(&both.metadata()?)?;
        above_standard(both)
    }

    fn open(&self, alloc: Global, path: &str, way: Way) -> io::Result<File> {
        let both = self.open_both(path)?;
        let same = format!(in alloc; "/proc/self/fd/{}", both.as_raw_fd())?;
        let one = File::options()
            .read(way == Way::Read)
            .write(way == Way::Write)
            .open(self.0, same.as_str())?;
        above_standard(one)
    }

    fn remove(&self, path: &str) -> io::Result<()> {
        self.0.remove_file(path)
    }

    fn names(&self, folder: &str) -> io::Result<Vec<String>> {
        let alloc = self.0.alloc();
        let mut names = Vec::new(alloc);
        for entry in fs::read_dir(self.0, folder)? {
            let entry = entry?;
            if entry.file_type().is_ok_and(|found| found.is_fifo()) {
                names.push(String::from_str(alloc, entry.file_name())?)?;
            }
        }
        Ok(names)
    }

    fn has_standard_error(&self) -> bool {
        fs::metadata(self.0, "/proc/self/fd/2").is_ok_and(|found| found.file_type().is_fifo())
    }
}

// Refuses a file that is no FIFO.
fn check_fifo(found: &Metadata) -> io::Result<()> {
    if found.file_type().is_fifo() {
        return Ok(());
    }
    Err(io::Error::new(io::ErrorKind::InvalidInput, "it is no FIFO"))
}

// The file under a number above those of standard input, output and error, of which one may have
// been closed as the program was started.
fn above_standard(file: File) -> io::Result<File> {
    if file.as_raw_fd() > STANDARD_ERROR {
        return Ok(file);
    }
    file.try_clone()
}
