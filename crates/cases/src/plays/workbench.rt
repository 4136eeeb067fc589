// What the questions of a case are asked on: a disk in memory, and a script that is being written.
use crate::plays::compared::Compared;
use crate::plays::disks::{at_rest, bytes_at};
use crate::plays::values::number;
use calls::limits::MIN_AREA;
use disk_model::{Disk, MemDisk};
use gate_block::layout::AREAS_AT;
use recovery::format;
use std::alloc::{AllocError, Global};
use std::{io, mem};

// The size of a disk with two of the least areas.
const SIZE: u64 = AREAS_AT + 2 * MIN_AREA;

/// A disk in memory, which of its calls is to fail (0 for none), a script, and how many lines of
/// what the next run prints are told. Behind them is how the scripts compare through the store, and
/// in a talk.
#[derive(Drop)]
pub struct Workbench {
    pub disk: MemDisk,
    pub fail_in: u64,
    pub script: Vec<u8>,
    pub last: usize,
    pub compared: Compared,
    pub talked: Compared,
}

impl Workbench {
    /// A bench with a disk of no bytes.
    pub fn new(alloc: Global) -> Result<Self, AllocError> {
        Ok(Self {
            disk: MemDisk::new(alloc, 0)?,
            fail_in: 0,
            script: Vec::new(alloc),
            last: usize::MAX,
            compared: Compared::new("through the store"),
            talked: Compared::new("in a talk"),
        })
    }

    /// Takes the disk out.
    pub fn take_disk(&mut self, alloc: Global) -> Result<MemDisk, AllocError> {
        let none = MemDisk::new(alloc, 0)?;
        Ok(mem::replace(&mut self.disk, none))
    }

    /// Takes the script out.
    pub fn take_script(&mut self, alloc: Global) -> Vec<u8> {
        mem::replace(&mut self.script, Vec::new(alloc))
    }

    /// Takes out how many lines of the next run are told; of those behind it all are.
    pub fn take_last(&mut self) -> usize {
        mem::replace(&mut self.last, usize::MAX)
    }

    /// Of what the next run prints only so many lines are told.
    pub fn tell_last(&mut self, text: &str) -> io::Result<()> {
        self.last = number(text)? as usize;
        Ok(())
    }

    /// A case begins: an empty store with two of the least areas, and no script.
    pub fn begin(&mut self, alloc: Global) -> io::Result<()> {
        self.disk = empty_store(alloc)?;
        self.fail_in = 0;
        self.script = Vec::new(alloc);
        self.last = usize::MAX;
        Ok(())
    }

    /// The call of the disk of this number from now fails.
    pub fn fail_at(&mut self, number: u64) {
        self.fail_in = number;
        self.disk.fail_at(number);
    }

    /// All bytes of the disk. This counts as no call of it.
    pub fn bytes(&mut self, alloc: Global) -> io::Result<Vec<u8>> {
        self.disk.fail_at(0);
        let size = self.disk.size();
        let bytes = bytes_at(alloc, &mut self.disk, 0, size)?;
        self.disk.fail_at(self.fail_in);
        Ok(bytes)
    }

    /// A disk of the same bytes, at rest, whose same call is to fail.
    pub fn copy(&mut self, alloc: Global) -> io::Result<MemDisk> {
        let bytes = self.bytes(alloc)?;
        let mut copy = at_rest(alloc, bytes.as_slice())?;
        copy.fail_at(self.fail_in);
        Ok(copy)
    }

    /// Puts the disk back behind a run. Once a call has failed, none is to fail.
    pub fn put_back(&mut self, disk: MemDisk) {
        self.disk = disk;
        if self.disk.faults() > 0 {
            self.fail_in = 0;
        }
    }
}

/// An empty store with two of the least areas.
pub fn empty_store(alloc: Global) -> io::Result<MemDisk> {
    let mut disk = MemDisk::new(alloc, SIZE)?;
    match format(&mut disk, MIN_AREA) {
        Ok(()) => Ok(disk),
        Err(_) => Err(io::Error::from(io::ErrorKind::OutOfMemory)),
    }
}
