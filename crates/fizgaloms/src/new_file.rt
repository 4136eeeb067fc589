// Making the file of a store.
use crate::file_access::{Access, FileError, check_is_same, lock_alone, open, open_by};
use crate::locked::LockedFile;
use std::alloc::Global;
use std::fs::{File, Metadata, Permissions};
use std::io;
use std::os::unix::fs::{MetadataExt, OpenOptionsExt, PermissionsExt, fchown};
use std::path::Path;
use std::rt::Files;

// Its owner may read and write a new file, and with the group of its folder that group too.
const OWNER_MODE: u32 = 0o600;

const GROUP_MODE: u32 = 0o660;
// The bits of a mode that `chmod` sets.
const MODE_BITS: u32 = 0o7777;

// What stands at the place of a file that is to be made.
#[derive(Drop)]
enum There {
    // Nothing does.
    Nothing,
    // A file, which nobody else takes meanwhile.
    Old(LockedFile),
    // A device, or a link that leads to nothing: it is written itself, and gets no other file.
    Special,
}

/// The place of a file that is to be made, and what is there. Nothing is changed yet.
#[derive(Drop)]
pub struct Place {
    // Its path, and that to which it leads where it is a link.
    path: String,
    there: There,
}

/// A file that is being made.
#[derive(Drop)]
pub struct Making {
    path: String,
    // What it is called until it is made; none where it is written in its place.
    unfinished: Option<String>,
    // What is in its place until then.
    old: Option<LockedFile>,
}

impl Place {
    /// Looks at the place of a file. One that is there is opened as `open` does for writing, with
    /// its refusals. System where the system does not tell what is there, and for want of memory.
    pub fn look<R: Files<File = File> + AllocGlobal>(
        rt: &R,
        path: &str,
    ) -> Result<Place, FileError> {
        let path = followed(rt, path)?;
        let there = match found_at(rt.metadata(path.as_str()))? {
            Some(found) if found.is_file() => There::Old(open(rt, path.as_str(), Access::Writes)?),
            Some(_) => There::Special,
            None if is_named(rt, path.as_str())? => There::Special,
            None => There::Nothing,
        };
        Ok(Place { path, there })
    }

    /// Whether a file is there that has bytes. Refused where the system does not tell.
    pub fn holds_bytes(&self) -> io::Result<bool> {
        match &self.there {
            There::Old(old) => Ok(old.file().metadata()?.len() > 0),
            _ => Ok(false),
        }
    }

    /// Begins to make a file there, under the name of the place with `.unfinished` behind it. One
    /// of that name that a stop left is taken, and emptied. The file has no bytes, the lock of
    /// `open`, and the mode, the owner and the group of the file that is there. A new one may be
    /// read and written by its owner alone. Where `for_group` is set, either is of the group of its
    /// folder, and that may read and write it too. What is there stays as it is, but for a device,
    /// and a link that leads to nothing: these are opened themselves.
    ///
    /// InUse where another run makes a file there, or has made one. System where the system does
    /// not make or lock the file, or does not give it its group or its owner; then no file of the
    /// other name is left.
    pub fn begin<R: Files<File = File> + AllocGlobal>(
        self,
        rt: &R,
        for_group: bool,
    ) -> Result<(Making, LockedFile), FileError> {
        let Place { path, there } = self;
        let old = match there {
            There::Special => return begin_in_place(rt, path),
            There::Old(old) => Some(old),
            There::Nothing => None,
        };
        let unfinished = unfinished_name(rt.alloc(), path.as_str())?;
        let file = take_unfinished(rt, unfinished.as_str())?;
        let making = Making {
            path,
            unfinished: Some(unfinished),
            old,
        };
        match making.prepare(rt, file.file(), for_group) {
            Ok(()) => Ok((making, file)),
            Err(error) => {
                making.give_up(rt);
                Err(error)
            }
        }
    }
}

impl Making {
    // Empties the file, and settles who may read and write it.
    fn prepare(
        &self,
        rt: &impl Files<File = File>,
        file: &File,
        for_group: bool,
    ) -> Result<(), FileError> {
        if self.old.is_none() && is_named(rt, self.path.as_str())? {
            return Err(FileError::InUse);
        }
        file.set_len(0)?;
        match &self.old {
            Some(old) => give_rights(file, &old.file().metadata()?)?,
            None => file.set_permissions(Permissions::from_mode(OWNER_MODE))?,
        }
        if for_group {
            let folder = rt.metadata(folder_of(self.path.as_str()))?;
            fchown(file, None, Some(folder.gid()))?;
            file.set_permissions(Permissions::from_mode(GROUP_MODE))?;
        }
        Ok(())
    }

    /// Gives the file its name, and brings that to the device. What was there before is gone.
    /// Refused where the system refuses that: then either file may have the name.
    pub fn finish(self, rt: &impl Files<File = File>) -> io::Result<()> {
        let Making {
            path,
            unfinished,
            old,
        } = self;
        let Some(unfinished) = unfinished else {
            return Ok(());
        };
        rt.rename(unfinished.as_str(), path.as_str())?;
        drop(old);
        File::open(rt, folder_of(path.as_str()))?.sync_all()
    }

    /// Makes no file: what was there stays. The other name is gone, unless the system refuses that.
    pub fn give_up(self, rt: &impl Files<File = File>) {
        if let Some(unfinished) = &self.unfinished {
            let _removed = rt.remove_file(unfinished.as_str());
        }
    }
}

// What a file is called until it is made.
fn unfinished_name(alloc: Global, path: &str) -> io::Result<String> {
    Ok(format!(in alloc; "{path}.unfinished")?)
}

// What the system tells of a path; nothing where it tells that nothing is there.
fn found_at(found: io::Result<Metadata>) -> io::Result<Option<Metadata>> {
    match found {
        Ok(found) => Ok(Some(found)),
        Err(error) if error.kind() == io::ErrorKind::NotFound => Ok(None),
        Err(error) => Err(error),
    }
}

// Whether something has the name, be it a link that leads to nothing; or the name is that of a
// folder or none.
fn is_named(rt: &impl Files<File = File>, path: &str) -> io::Result<bool> {
    let is_no_file = path.is_empty() || path.ends_with('/');
    Ok(is_no_file || found_at(rt.symlink_metadata(path))?.is_some())
}

// The path; where a link is there that leads to something, the path of that.
fn followed<R: Files<File = File> + AllocGlobal>(rt: &R, path: &str) -> io::Result<String> {
    let own = found_at(rt.symlink_metadata(path))?;
    if own.is_some_and(|found| found.is_symlink()) && found_at(rt.metadata(path))?.is_some() {
        let target = rt.canonicalize(rt.alloc(), path)?;
        return Ok(String::from_str(rt.alloc(), target.as_str())?);
    }
    Ok(String::from_str(rt.alloc(), path)?)
}

// The path of the folder that a path leads into.
fn folder_of(path: &str) -> &str {
    match Path::new(path).parent() {
        Some(folder) if !folder.as_str().is_empty() => folder.as_str(),
        _ => ".",
    }
}

// Opens a device, or what a link would lead to.
fn begin_in_place<R: Files<File = File> + AllocGlobal>(
    rt: &R,
    path: String,
) -> Result<(Making, LockedFile), FileError> {
    let mut how = File::options();
    how.read(true).write(true).create(true).mode(OWNER_MODE);
    let file = open_by(rt, &how, path.as_str())?;
    lock_alone(&file)?;
    let making = Making {
        path,
        unfinished: None,
        old: None,
    };
    Ok((making, LockedFile::new(rt.alloc(), file)))
}

// Takes the file of the name for this run, and makes it where it is not there.
fn take_unfinished(
    rt: &(impl Files<File = File> + AllocGlobal),
    name: &str,
) -> Result<LockedFile, FileError> {
    let mut how = File::options();
    how.read(true).write(true).create(true).mode(OWNER_MODE);
    let file = open_by(rt, &how, name)?;
    lock_alone(&file)?;
    let file = LockedFile::new(rt.alloc(), file);
    check_is_same(file.file(), &rt.symlink_metadata(name)?)?;
    Ok(file)
}

// Gives a file the owner, the group and the mode that another one has.
fn give_rights(file: &File, other: &Metadata) -> io::Result<()> {
    let own = file.metadata()?;
    if own.uid() != other.uid() || own.gid() != other.gid() {
        fchown(file, Some(other.uid()), Some(other.gid()))?;
    }
    file.set_permissions(Permissions::from_mode(other.mode() & MODE_BITS))
}
