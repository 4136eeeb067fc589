// A disk on which checkpoints are counted.
use disk_model::{Disk, Fault};

// Where the byte lies that says which area is the store's: a checkpoint ends by writing it.
const ROOT_AT: u64 = 512;

/// A disk like the one in it, on which checkpoints are counted.
#[derive(Drop)]
pub struct CountingDisk<D> {
    disk: D,
    checkpoints: u64,
}

impl<D: Disk> CountingDisk<D> {
    /// The disk, on which no checkpoint was counted yet.
    pub fn new(disk: D) -> Self {
        CountingDisk {
            disk,
            checkpoints: 0,
        }
    }

    /// The disk, and how many checkpoints were counted on it.
    pub fn into_parts(self) -> (D, u64) {
        let CountingDisk { disk, checkpoints } = self;
        (disk, checkpoints)
    }
}

impl<D: Disk> Disk for CountingDisk<D> {
    ghost seen = { λ d. D.seen d.disk };

    ghost may_leave = { λ d. D.may_leave d.disk };

    ghost moment = { λ d. D.moment d.disk };

    ghost left_since = { λ d. D.left_since d.disk };

    ghost fault_count = { λ d. D.fault_count d.disk };

    ghost is_honest = { λ d. D.is_honest d.disk };

    ghost seen_may_stay = { λ d. D.seen_may_stay d.disk };

    ghost keeps_size = { λ d. D.keeps_size d.disk };

    ghost counts_now = { λ d. D.counts_now d.disk };

    ghost only_now = { λ d. D.only_now d.disk };

    fn size(&self) -> u64 {
        self.disk.size()
    }

    fn read_at(&mut self, at: u64, out: &mut [u8]) -> Result<(), Fault> {
        self.disk.read_at(at, out)
    }

    fn write_at(&mut self, at: u64, bytes: &[u8]) -> Result<(), Fault> {
        if at == ROOT_AT {
            self.checkpoints = self.checkpoints.wrapping_add(1);
        }
        self.disk.write_at(at, bytes)
    }

    fn sync(&mut self) -> Result<(), Fault> {
        self.disk.sync()
    }

    fn faults(&self) -> u64 {
        self.disk.faults()
    }
}
