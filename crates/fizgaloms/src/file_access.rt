// Opening the file of a store that is there.
use crate::locked::LockedFile;
use crate::streams::fill_closed_streams;
use std::fs::{self, File, Metadata, OpenOptions, TryLockError};
use std::io;
use std::os::unix::fs::{FileTypeExt, MetadataExt};
use std::rt::Files;

/// What is done with the file of a store.
#[derive(Clone, Copy, PartialEq, Eq)]
pub enum Access {
    /// It is read, and others may read it meanwhile.
    Reads,
    /// It is read and written, by this run alone.
    Writes,
}

/// Why the file of a store is not opened.
#[derive(Debug, Drop)]
pub enum FileError {
    /// Another run has the file, or this one in another place.
    InUse,
    /// What the system says.
    System(io::Error),
}

impl From<io::Error> for FileError {
    fn from(error: io::Error) -> FileError {
        FileError::System(error)
    }
}

/// Opens the file of a store, and takes its lock for as long as it is open. Its number is above
/// those of the standard streams, also where the program was started without one. A file system
/// that locks no file that is open for reading alone goes without a lock there.
///
/// System where the system does not open the file, or not for that, or does not lock it; where it
/// is to be read, for a folder and for a FIFO. InUse where another run has it, or has just put
/// another file in its place.
pub fn open(
    rt: &(impl Files<File = File> + AllocGlobal),
    path: &str,
    access: Access,
) -> Result<LockedFile, FileError> {
    let may_write = access == Access::Writes;
    if !may_write {
        check_kind(&fs::metadata(rt, path)?)?;
    }
    let file = open_by(rt, File::options().read(true).write(may_write), path)?;
    if may_write {
        lock_alone(&file)?;
    } else {
        lock_to_read(&file)?;
    }
    check_is_same(&file, &fs::metadata(rt, path)?)?;
    Ok(LockedFile::new(rt.alloc(), file))
}

// Opens a file by these options, with a number above those of the standard streams.
pub fn open_by(rt: &impl Files<File = File>, how: &OpenOptions, path: &str) -> io::Result<File> {
    fill_closed_streams(rt)?;
    how.open(rt, path)
}

// Refuses what is no store and can be opened for reading alone: a folder, and a FIFO, of which who
// opens it so waits for a writer.
fn check_kind(found: &Metadata) -> io::Result<()> {
    let kind = found.file_type();
    if kind.is_dir() {
        return Err(io::Error::from(io::ErrorKind::IsADirectory));
    }
    if kind.is_fifo() {
        return Err(io::Error::from(io::ErrorKind::InvalidInput));
    }
    Ok(())
}

// Takes the lock of a file that is to be read, which keeps out who writes.
fn lock_to_read(file: &File) -> Result<(), FileError> {
    match file.try_lock_shared() {
        Err(TryLockError::WouldBlock) => Err(FileError::InUse),
        _ => Ok(()),
    }
}

// Takes a file for this run alone.
pub fn lock_alone(file: &File) -> Result<(), FileError> {
    match file.try_lock() {
        Ok(()) => Ok(()),
        Err(TryLockError::WouldBlock) => Err(FileError::InUse),
        Err(TryLockError::Error(error)) => Err(FileError::System(error)),
    }
}

// Refuses a file that is not the one that its name was found to have: between the two another run
// has put its own in the place.
pub fn check_is_same(file: &File, named: &Metadata) -> Result<(), FileError> {
    let own = file.metadata()?;
    if own.dev() != named.dev() || own.ino() != named.ino() {
        return Err(FileError::InUse);
    }
    Ok(())
}
