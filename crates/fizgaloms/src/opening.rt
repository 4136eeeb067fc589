// The file of a store.
ghost use Rattle.std.specs.Prelude.{◌≤◌, ◌↔◌, IfOk, IsOk, IsOkUnless};
ghost use Rattle.calls.specs.declared.refusal.Refusal.{Refusal};
ghost use Rattle.disk_model.specs.Disk.{IsAtRest};

use crate::{Access, FileError, LockedFile, Place, open};
use calls::Refusal;
use calls::limits::{MAX_AREA, MIN_AREA};
use disk_model::{Content, Disk, FileDisk};
use gate_block::layout::AREAS_AT;
use recovery::format;
use std::fs::{self, File};
use std::io;
use std::rt::Files;

/// Why the file of a store is not opened.
#[derive(Debug, Drop, thiserror::Error)]
pub enum OpenError {
    /// Another program, or this one in another place, has the file.
    #[error("another program has the file")]
    InUse,
    /// What the system says.
    #[error("{0}")]
    System(#[from] io::Error),
    /// What the store says.
    #[error("{0}")]
    Refused(#[from] Refusal),
}

impl From<FileError> for OpenError {
    fn from(error: FileError) -> OpenError {
        match error {
            FileError::InUse => OpenError::InUse,
            FileError::System(error) => OpenError::System(error),
        }
    }
}

/// Opens the file of a store for this program alone, and makes it where it is not there. A file
/// that is new, or that has no bytes, is made an empty store with two areas of so many bytes, from
/// 65,536 to 2^30: under its name with `.unfinished` behind it, which it has until it is whole. So
/// a stop leaves no file of its name that is no store. Its owner alone may read and write a new
/// file. Any other file keeps its bytes and its size: `run` opens it, and answers NotAStore where
/// it is none. The file is let go with the disk. It waits for the device.
///
/// Where this program was started without a standard stream, nothing that is printed is written
/// into the file: the root folder has that number from then on, which can be neither read nor
/// written.
///
/// Refused BadArg for another area, with no file made or opened; System where the system makes or
/// opens no file, does not lock it, give it its size or name, or sync it or its folder; InUse where
/// another program has the file, or makes it; Fault where an empty store cannot be written. What
/// was there before stays then, but where the folder alone could not be synced.
pub fn open_or_format<S: Content, R: Files<File = File> + AllocGlobal>(
    rt: &R,
    path: &str,
    area: u64,
) -> Result<FileDisk<S, LockedFile>, OpenError>
    ensures at_rest { IfOk result (λ disk. IsAtRest ⟦<FileDisk<S, LockedFile> as Disk>⟧.seen
        ⟦<FileDisk<S, LockedFile> as Disk>⟧.may_leave disk) }
{
    check_area(area)?;
    if holds_bytes(rt, path)? {
        return Ok(FileDisk::open(open(rt, path, Access::Writes)?)?);
    }
    make(rt, Place::look(rt, path)?, area)
}

// Whether a file is there that has bytes.
fn holds_bytes(rt: &impl Files<File = File>, path: &str) -> io::Result<bool> {
    match fs::metadata(rt, path) {
        Ok(found) => Ok(found.len() > 0),
        Err(error) if error.kind() == io::ErrorKind::NotFound => Ok(false),
        Err(error) => Err(error),
    }
}

// Whether a store can have areas of so many bytes.
fn check_area(area: u64) -> Result<(), Refusal>
    ensures ok { IsOk result ↔ ((MIN_AREA ≤ area) × (area ≤ MAX_AREA)) }
    ensures err { IsOkUnless result Refusal.BadArg }
{
    if area < MIN_AREA || area > MAX_AREA {
        return Err(Refusal::BadArg);
    }
    Ok(())
}

// Makes an empty store at a place.
fn make<S: Content, R: Files<File = File> + AllocGlobal>(
    rt: &R,
    place: Place,
    area: u64,
) -> Result<FileDisk<S, LockedFile>, OpenError>
    requires { area ≤ MAX_AREA }
    ensures at_rest { IfOk result (λ disk. IsAtRest ⟦<FileDisk<S, LockedFile> as Disk>⟧.seen
        ⟦<FileDisk<S, LockedFile> as Disk>⟧.may_leave disk) }
{
    let (making, file) = place.begin(rt, false)?;
    match formatted(file, area) {
        Ok(disk) => {
            making.finish(rt)?;
            Ok(disk)
        }
        Err(error) => {
            making.give_up(rt);
            Err(error)
        }
    }
}

// Makes an empty file an empty store.
fn formatted<S: Content>(file: LockedFile, area: u64) -> Result<FileDisk<S, LockedFile>, OpenError>
    requires { area ≤ MAX_AREA }
    ensures at_rest { IfOk result (λ disk. IsAtRest ⟦<FileDisk<S, LockedFile> as Disk>⟧.seen
        ⟦<FileDisk<S, LockedFile> as Disk>⟧.may_leave disk) }
{
    file.file().set_len(AREAS_AT + 2 * area)?;
    let mut disk = FileDisk::open(file)?;
    format(&mut disk, area)?;
    Ok(disk)
}
