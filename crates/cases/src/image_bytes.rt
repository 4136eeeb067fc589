// Images that are written to a disk by hand.
use crate::plays::disks::put_at;
use crate::plays::runs::{carry_out, to_check, to_show};
use crate::plays::told::Told;
use crate::plays::values::{bytes, not_understood};
use crate::plays::workbench::{Workbench, empty_store};
use disk_model::MemDisk;
use gate_block::layout::AREAS_AT;
use std::alloc::Global;
use std::io;

// A block with this body: an open gate, the length, the body, and a closed gate.
fn block(alloc: Global, body: &[u8]) -> io::Result<Vec<u8>> {
    let Ok(length) = u32::try_from(body.len()) else {
        return Err(not_understood());
    };
    let mut bytes = Vec::from_slice(alloc, &[0xa7])?;
    bytes.extend_from_slice(&length.to_be_bytes())?;
    bytes.extend_from_slice(body)?;
    bytes.push(0)?;
    Ok(bytes)
}

// Writes a block with the body that is told at this place, and answers where the next one stands. A
// dash is for none: the closed gate stays.
fn write_block(alloc: Global, disk: &mut MemDisk, at: u64, body: &str) -> io::Result<u64> {
    if body == "-" {
        return Ok(at);
    }
    let body = bytes(alloc, body)?;
    let block = block(alloc, body.as_slice())?;
    put_at(disk, at, block.as_slice())?;
    Ok(at.saturating_add(block.len() as u64).saturating_sub(1))
}

// Writes blocks from the first area's beginning on, with a bar between the bodies of each two.
// Answers where the last one stands.
fn write_blocks(alloc: Global, disk: &mut MemDisk, bodies: &str) -> io::Result<u64> {
    let mut last = AREAS_AT;
    let mut next = AREAS_AT;
    for body in bodies.split(" | ") {
        last = next;
        next = write_block(alloc, disk, last, body)?;
    }
    Ok(last)
}

/// An empty store whose image is these blocks: tells where the last one stands, what the store is
/// checked as, and what it shows, which opens it. That is what the disk of the case is then.
pub fn open(alloc: Global, bench: &mut Workbench, bodies: &str, told: &mut Told) -> io::Result<()> {
    bench.disk = empty_store(alloc)?;
    let last = write_blocks(alloc, &mut bench.disk, bodies)?;
    told.tell(format_args!("last block at {last}"));
    carry_out(alloc, bench, to_check(alloc), told)?;
    carry_out(alloc, bench, to_show(alloc), told)
}
