// Questions of the disk itself: its bytes, a call that fails, and a stop.
use crate::plays::told::Told;
use crate::plays::values::{self, not_understood, number, numbers, pair};
use crate::plays::workbench::Workbench;
use disk_model::{Disk, MemDisk};
use std::alloc::{AllocError, Global};
use std::io;

/// Bytes of a disk, so many from one place on.
pub fn bytes_at(alloc: Global, disk: &mut MemDisk, at: u64, count: u64) -> io::Result<Vec<u8>> {
    if at > disk.size() || count > disk.size() - at {
        return Err(not_understood());
    }
    let mut bytes = vec![in alloc; 0; count as usize]?;
    match disk.read_at(at, &mut bytes) {
        Ok(()) => Ok(bytes),
        Err(_) => Err(not_understood()),
    }
}

/// Puts bytes in the place of those that stand there.
pub fn put_at(disk: &mut MemDisk, at: u64, bytes: &[u8]) -> io::Result<()> {
    if at > disk.size() || bytes.len() as u64 > disk.size() - at {
        return Err(not_understood());
    }
    match disk.write_at(at, bytes) {
        Ok(()) => Ok(()),
        Err(_) => Err(not_understood()),
    }
}

/// A disk with bytes in the place of those that stood there.
pub fn changed(disk: MemDisk, at: u64, bytes: &[u8]) -> io::Result<MemDisk> {
    let mut disk = disk;
    put_at(&mut disk, at, bytes)?;
    Ok(disk)
}

/// A disk of these bytes.
pub fn disk_of(alloc: Global, bytes: &[u8]) -> io::Result<MemDisk> {
    changed(MemDisk::new(alloc, bytes.len() as u64)?, 0, bytes)
}

/// A disk of these bytes, at rest.
pub fn at_rest(alloc: Global, bytes: &[u8]) -> io::Result<MemDisk> {
    Ok(disk_of(alloc, bytes)?.stop(&[]))
}

/// All bytes of a disk.
pub fn bytes_of(alloc: Global, disk: MemDisk) -> io::Result<Vec<u8>> {
    let mut disk = disk;
    let size = disk.size();
    bytes_at(alloc, &mut disk, 0, size)
}

/// Tells bytes of the disk: where they begin, and how many.
pub fn read(alloc: Global, bench: &mut Workbench, text: &str, told: &mut Told) -> io::Result<()> {
    let (at, count) = numbers(text)?;
    let bytes = bytes_at(alloc, &mut bench.disk, at, count)?;
    told.tell_bytes(bytes.as_slice());
    Ok(())
}

/// Writes bytes to the disk: where they begin, and which.
pub fn write(alloc: Global, bench: &mut Workbench, text: &str) -> io::Result<()> {
    let (at, rest) = pair(text, " ")?;
    let at = number(at)?;
    let bytes = values::bytes(alloc, rest)?;
    put_at(&mut bench.disk, at, bytes.as_slice())
}

/// A disk of so many zeros.
pub fn resize(alloc: Global, bench: &mut Workbench, text: &str) -> io::Result<()> {
    bench.disk = MemDisk::new(alloc, number(text)?)?;
    bench.fail_in = 0;
    Ok(())
}

/// Each byte that a stop may leave otherwise than a read gives, with this value.
pub fn all_as(alloc: Global, size: u64, value: u8) -> Result<Vec<(u64, u8)>, AllocError> {
    let mut picks = Vec::new(alloc);
    for at in (0..520).chain(4_096..size) {
        picks.push((at, value))?;
    }
    Ok(picks)
}

// A byte that is named: its place, a colon and its value.
fn pick(word: &str) -> io::Result<(u64, u8)> {
    let (at, value) = pair(word, ":")?;
    Ok((number(at)?, values::byte(value)?))
}

// The bytes that are named.
fn chosen(alloc: Global, text: &str) -> io::Result<Vec<(u64, u8)>> {
    let mut picks = Vec::new(alloc);
    for word in text.split(' ') {
        picks.push(pick(word)?)?;
    }
    Ok(picks)
}

// Which bytes a stop leaves otherwise than a read gives: none, all with a value, or those that are
// named.
fn picks(alloc: Global, size: u64, text: &str) -> io::Result<Vec<(u64, u8)>> {
    if text.is_empty() {
        return Ok(Vec::new(alloc));
    }
    match text.strip_prefix("all ") {
        Some(value) => Ok(all_as(alloc, size, values::byte(value)?)?),
        None => chosen(alloc, text),
    }
}

/// Stops the disk.
pub fn stop(alloc: Global, bench: &mut Workbench, text: &str) -> io::Result<()> {
    let picks = picks(alloc, bench.disk.size(), text)?;
    let disk = bench.take_disk(alloc)?;
    bench.disk = disk.stop(picks.as_slice());
    bench.fail_in = 0;
    Ok(())
}
