// A disk whose syncs are held.
use crate::threads::second_call_during_sync::signals::Signals;
use disk_model::{Disk, Fault};

/// A disk like the one in it, each sync of which is held until a client has its answer.
#[derive(Drop)]
pub struct HeldDisk<'a, D> {
    disk: D,
    signals: &'a Signals,
}

impl<'a, D: Disk> HeldDisk<'a, D> {
    /// The disk, held from now on.
    pub fn new(disk: D, signals: &'a Signals) -> Self {
        HeldDisk { disk, signals }
    }
}

impl<'a, D: Disk> Disk for HeldDisk<'a, D> {
    ghost seen = { λ d. D.seen d.disk };

    ghost may_leave = { λ d. D.may_leave d.disk };

    ghost moment = { λ d. D.moment d.disk };

    ghost left_since = { λ d. D.left_since d.disk };

    ghost fault_count = { λ d. D.fault_count d.disk };

    ghost is_honest = { λ d. D.is_honest d.disk };

    ghost seen_may_stay = { λ d. D.seen_may_stay d.disk };

    ghost keeps_size = { λ d. D.keeps_size d.disk };

    ghost counts_now = { λ d. D.counts_now d.disk };

    ghost only_now = { λ d. D.only_now d.disk };

    fn size(&self) -> u64 {
        self.disk.size()
    }

    fn read_at(&mut self, at: u64, out: &mut [u8]) -> Result<(), Fault> {
        self.disk.read_at(at, out)
    }

    fn write_at(&mut self, at: u64, bytes: &[u8]) -> Result<(), Fault> {
        self.disk.write_at(at, bytes)
    }

    fn sync(&mut self) -> Result<(), Fault> {
        self.signals.hold_sync();
        self.disk.sync()
    }

    fn faults(&self) -> u64 {
        self.disk.faults()
    }
}
