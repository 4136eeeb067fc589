// Stores whose area in use has bytes of a generator.
use crate::plays::disks::{changed, disk_of};
use crate::plays::runs::{Ran, run_on, to_check, to_show, to_show_read_only};
use crate::plays::through_store::play;
use crate::plays::told::Told;
use crate::plays::values::numbers;
use crate::plays::workbench::{Workbench, empty_store};
use disk_model::MemDisk;
use gate_block::layout::AREAS_AT;
use rand_core::utils::NextWord;
use rand_pcg::Pcg32;
use std::alloc::{AllocError, Global};
use std::io;
use std::sync::Wait;

const JOURNAL_AT: u64 = 4119;

// How many areas were opened and how many refused, how many bytes of them were drawn, and how many
// were answered in two ways.
#[derive(Clone, Copy)]
struct Counts {
    opened: u64,
    refused: u64,
    bytes: u64,
    unlike: u64,
}

impl Counts {
    const NONE: Counts = Counts {
        opened: 0,
        refused: 0,
        bytes: 0,
        unlike: 0,
    };

    // Counts an area: what a check made of it, a show that writes nothing, an opening for threads,
    // and a show.
    fn add(&mut self, bytes: u64, checked: &Ran, seen: &Ran, shared: &Ran, shown: &Ran) {
        self.bytes = self.bytes.saturating_add(bytes);
        match shown.status {
            0 => self.opened = self.opened.saturating_add(1),
            _ => self.refused = self.refused.saturating_add(1),
        }
        let is_seen = seen.is_alike(shown) && seen.out == shown.out;
        if !(is_seen && checked.is_alike(shown) && shown.is_alike(shared) && shown.status <= 1) {
            self.unlike = self.unlike.saturating_add(1);
        }
    }

    fn tell(&self, told: &mut Told) {
        let Counts {
            opened,
            refused,
            bytes,
            unlike,
        } = *self;
        told.tell(format_args!(
            "{bytes} bytes drawn: {opened} opened, {refused} refused, {unlike} answered in two ways"
        ));
    }
}

// So many bytes, of which only the bits of a mask may be set.
fn draw(alloc: Global, chance: &mut Pcg32, count: u64, mask: u8) -> Result<Vec<u8>, AllocError> {
    let mut bytes = Vec::new(alloc);
    for _ in 0..count {
        let byte = chance.next_word().to_le_bytes()[0];
        bytes.push(byte & mask)?;
    }
    Ok(bytes)
}

// A block of an open gate with a body of bytes that small numbers are, and a closed gate.
fn block(alloc: Global, chance: &mut Pcg32) -> Result<Vec<u8>, AllocError> {
    let length = 1 + chance.next_word() % 64;
    let body = draw(alloc, chance, u64::from(length), 0x0f)?;
    let mut block = Vec::from_slice(alloc, &[0xa7])?;
    block.extend_from_slice(&length.to_be_bytes())?;
    block.extend_from_slice(body.as_slice())?;
    block.push(0)?;
    Ok(block)
}

// The store of these bytes with one to three of the first hundred bytes of its journal changed.
fn scratched(alloc: Global, chance: &mut Pcg32, ground: &[u8]) -> io::Result<(u64, MemDisk)> {
    let mut disk = disk_of(alloc, ground)?;
    let count = u64::from(1 + chance.next_word() % 3);
    for _ in 0..count {
        let at = JOURNAL_AT + u64::from(chance.next_word() % 100);
        let byte = draw(alloc, chance, 1, 0xff)?;
        disk = changed(disk, at, byte.as_slice())?;
    }
    Ok((count, disk))
}

// A disk with bytes that were drawn, and how many: all of an area, a block of an image, a block of
// a journal, or some bytes of the journal of the store that stands there.
fn drawn(
    alloc: Global,
    chance: &mut Pcg32,
    number: u64,
    ground: &[u8],
) -> io::Result<(u64, MemDisk)> {
    let (at, bytes) = match number % 4 {
        0 => (AREAS_AT + 1, draw(alloc, chance, 65_535, 0xff)?),
        1 => (AREAS_AT, block(alloc, chance)?),
        2 => (JOURNAL_AT, block(alloc, chance)?),
        _ => return scratched(alloc, chance, ground),
    };
    let disk = changed(empty_store(alloc)?, at, bytes.as_slice())?;
    Ok((bytes.len() as u64, disk))
}

/// Opens so many stores with bytes of the generator of a seed, in a check, in a show that writes
/// nothing, in a show and for threads, and tells how many bytes were drawn, and how many stores
/// were opened and refused. A quarter of them are the store of the case with one to three bytes of
/// its journal changed.
pub fn open_all<R: Wait + AllocGlobal>(
    rt: &R,
    bench: &mut Workbench,
    text: &str,
    told: &mut Told,
) -> io::Result<()> {
    let alloc = rt.alloc();
    let (seed, count) = numbers(text)?;
    let ground = bench.bytes(alloc)?;
    let mut chance = Pcg32::new(seed, 1);
    let mut counts = Counts::NONE;
    for number in 0..count {
        let (bytes, disk) = drawn(alloc, &mut chance, number, ground.as_slice())?;
        let (checked, disk) = run_on(alloc, to_check(alloc), disk, &[]);
        let (seen, disk) = run_on(alloc, to_show_read_only(alloc), disk, &[]);
        let (shared, disk) = play(rt, disk, &[])?;
        let (shown, _) = run_on(alloc, to_show(alloc), disk, &[]);
        counts.add(bytes, &checked, &seen, &shared.ran, &shown);
    }
    counts.tell(told);
    Ok(())
}
