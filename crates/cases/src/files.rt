// Files, and disks that are one.
use crate::plays::runs::{run_on, to_play};
use crate::plays::told::Told;
use crate::plays::values::{bytes, not_understood, number, numbers, pair, three};
use crate::plays::workbench::Workbench;
use disk_model::{Disk, FileDisk, Unknown};
use std::fs::{self, File};
use std::io::{self, Seek, SeekFrom, Write};
use std::rt::Files;

/// Gives a file a size.
pub fn set_size(rt: &impl Files<File = File>, line: &str) -> io::Result<()> {
    let (path, size) = pair(line, " ")?;
    let size = number(size)?;
    let file = File::options().write(true).create(true).open(rt, path)?;
    file.set_len(size)
}

/// Writes bytes into a file: where they begin, and which.
pub fn write(rt: &(impl Files<File = File> + AllocGlobal), line: &str) -> io::Result<()> {
    let (path, at, rest) = three(line)?;
    let at = number(at)?;
    let added = bytes(rt.alloc(), rest)?;
    write_at(rt, path, at, added.as_slice())
}

fn write_at(rt: &impl Files<File = File>, path: &str, at: u64, added: &[u8]) -> io::Result<()> {
    let mut file = File::options().write(true).open(rt, path)?;
    file.seek(SeekFrom::Start(at))?;
    file.write_all(added)
}

/// Writes bytes `a7` by one call of a disk that is the file, and brings them to the device: where
/// they begin, and how many.
pub fn write_wide(rt: &(impl Files<File = File> + AllocGlobal), line: &str) -> io::Result<()> {
    let (path, rest) = pair(line, " ")?;
    let (at, count) = numbers(rest)?;
    let file = File::options().read(true).write(true).open(rt, path)?;
    let mut disk: FileDisk<Unknown> = FileDisk::open(file)?;
    let size = disk.size();
    if count > size || at > size - count {
        return Err(not_understood());
    }
    let added = vec![in rt.alloc(); 0xA7; count as usize]?;
    let is_done = disk.write_at(at, added.as_slice()).is_ok() && disk.sync().is_ok();
    if !is_done {
        return Err(io::Error::from(io::ErrorKind::WriteZero));
    }
    Ok(())
}

/// Tells bytes of a file: where they begin, and how many.
pub fn read(
    rt: &(impl Files<File = File> + AllocGlobal),
    line: &str,
    told: &mut Told,
) -> io::Result<()> {
    let (path, rest) = pair(line, " ")?;
    let (at, count) = numbers(rest)?;
    let bytes = fs::read(rt, path)?;
    tell_range(bytes.as_slice(), at as usize, count as usize, told)
}

// Tells so many of the bytes, from one place on.
fn tell_range(bytes: &[u8], at: usize, count: usize, told: &mut Told) -> io::Result<()> {
    match bytes.get(at..at.saturating_add(count)) {
        Some(found) => {
            told.tell_bytes(found);
            Ok(())
        }
        None => Err(not_understood()),
    }
}

/// Plays the script on a file that is opened for reading alone, and tells what that answers.
pub fn play_read_only(
    rt: &(impl Files<File = File> + AllocGlobal),
    bench: &mut Workbench,
    path: &str,
    told: &mut Told,
) -> io::Result<()> {
    let disk: FileDisk<Unknown> = FileDisk::open(File::open(rt, path)?)?;
    let script = bench.take_script(rt.alloc());
    let (ran, _) = run_on(rt.alloc(), to_play(rt.alloc()), disk, script.as_slice());
    ran.tell(usize::MAX, told);
    Ok(())
}
