// A disk that is a file of the system.
ghost use Rattle.std.specs.Prelude.{◌≡◌, ◌⊎◌, ◌↔◌, List, ℕ, [], length, IfOk, IfSome};
ghost use Rattle.std.specs.Prelude.{MatchResult, IsNone, None, Some, Err};
ghost use Rattle.std.proofs.Common.{inl};
ghost use Rattle.disk_model.specs.Marks.{Leaves, leaves_seen, leaves_size, length-marks};
ghost use Rattle.disk_model.specs.Events.{padded, seen_of, marks_of, moments_of, IsHonest};
ghost use Rattle.disk_model.specs.Events.{MightHaveLeft, only_since};
ghost use Rattle.disk_model.specs.Disk.{IsAtRest};

use crate::call::DeviceCall;
use crate::faults::Faults;
use crate::log::Log;
use crate::{Disk, Fault};
use std::fs::File;
use std::io;
use std::marker::PhantomData;
use std::os::unix::fs::FileExt;

/// What a file held as it was opened, which no code can know. A function over `S: Content` is
/// proved for any, and a clause that cites `S` speaks of the file only where that is what it held.
pub trait Content {
    ghost content: { List ℕ };
}

/// The type for a program to name, where it runs code that is proved for any content.
#[derive(Drop)]
pub struct Unknown;

impl Content for Unknown {
    ghost content = { [] };
}

/// What a disk asks of the file that it is: a file of the system, or one that a case watches. No
/// contract can say what such a call does; each one fails with the cause.
pub trait DeviceFile {
    /// How many bytes the file has.
    fn len(&self) -> io::Result<u64>;

    /// Reads as many bytes as `out` has, from `at` on.
    fn read_at(&mut self, at: u64, out: &mut [u8]) -> io::Result<()>;

    /// Writes all of the bytes, from `at` on.
    fn write_at(&mut self, at: u64, bytes: &[u8]) -> io::Result<()>;

    /// Brings the bytes that were written to the device.
    fn sync(&mut self) -> io::Result<()>;

    /// Brings all that the system holds of the file to the device, its length too.
    fn sync_all(&mut self) -> io::Result<()>;
}

impl DeviceFile for File {
    fn len(&self) -> io::Result<u64> {
        Ok(self.metadata()?.len())
    }

    fn read_at(&mut self, at: u64, out: &mut [u8]) -> io::Result<()> {
        self.read_exact_at(out, at)
    }

    fn write_at(&mut self, at: u64, bytes: &[u8]) -> io::Result<()> {
        self.write_all_at(bytes, at)
    }

    fn sync(&mut self) -> io::Result<()> {
        self.sync_data()
    }

    fn sync_all(&mut self) -> io::Result<()> {
        File::sync_all(self)
    }
}

/// A disk that is a file, which held what `S` says. What a read gives and what a stop may leave is
/// read off a record of the calls, which only clauses read.
///
/// That the file is such a disk is a premise, which no code can test: all of it is on the device as
/// it is opened, nobody else writes it, a write that succeeds is what a read gives from then on,
/// one that fails is not seen, and a stop leaves each byte as it is, but for those that were
/// written, or were to be, since the last sync that succeeded. `is_honest` says the part of it that
/// reads can show.
#[derive(Drop)]
pub struct FileDisk<S: Content, F: DeviceFile + Drop = File> {
    file: F,
    size: u64,
    faults: Faults,
    // Why a sync failed, if one did.
    broken_by: Option<io::Error>,
    log: Log,
    start: PhantomData<S>,
    ghost sized: { length (seen_of (padded S.Content.content size) log.events) ≡ size },
    ghost marked: { length (marks_of size log.events) ≡ size },
}

impl<S: Content, F: DeviceFile + Drop> FileDisk<S, F> {
    /// Takes a file as a disk of the file's length, and syncs it first. The file is open for
    /// reading and writing, and the caller has given it its size, as by `set_len`. Refused where
    /// the file's length or the sync is.
    pub fn open(mut file: F) -> io::Result<FileDisk<S, F>>
        ensures content { IfOk result (λ disk. ⟦<FileDisk<S, F> as Disk>⟧.seen disk ≡
            padded S.Content.content (length (⟦<FileDisk<S, F> as Disk>⟧.seen disk))) }
        ensures at_rest { IfOk result (λ disk.
            IsAtRest ⟦<FileDisk<S, F> as Disk>⟧.seen ⟦<FileDisk<S, F> as Disk>⟧.may_leave disk) }
        ensures honest { IfOk result (λ disk. ⟦<FileDisk<S, F> as Disk>⟧.is_honest disk) }
        ensures faults { IfOk result (λ disk. ⟦<FileDisk<S, F> as Disk>⟧.fault_count disk ≡ 0) }
    {
        let size = file.len()?;
        file.sync_all()?;
        Ok(FileDisk {
            file,
            size,
            faults: Faults::new(),
            broken_by: None,
            log: Log::new(),
            start: PhantomData,
        })
    }

    /// Why the last call of the disk that failed did; none where none failed. A sync behind one
    /// that failed is not asked of the system, and fails for the same reason.
    pub fn last_error(&self) -> Option<&io::Error>
        ensures { IsNone result ↔ (⟦<FileDisk<S, F> as Disk>⟧.fault_count self.now ≡ 0) }
    {
        self.faults.last()
    }
}

// Syncs the file. After a sync that failed, the system may answer the next one well with nothing
// kept: none is asked again, and each is refused for what broke that one.
fn sync_unless_broken<F: DeviceFile>(
    file: &mut F,
    broken_by: &mut Option<io::Error>,
) -> io::Result<()>
    ensures stays { IfSome broken_by.old (λ error. result ≡ Err error) }
    ensures breaks { MatchResult result (λ _. broken_by.new ≡ None)
        (λ error. broken_by.new ≡ Some error) }
{
    if let Some(error) = *broken_by {
        return Err(error);
    }
    let done = file.sync();
    *broken_by = done.err();
    done
}

impl<S: Content, F: DeviceFile + Drop> Disk for FileDisk<S, F> {
    ghost seen = { λ d. seen_of (padded S.Content.content d.size) d.log.events };

    ghost may_leave = { λ d c. Leaves (seen_of (padded S.Content.content d.size) d.log.events)
        (marks_of d.size d.log.events) c };

    ghost moment = { λ d. moments_of d.log.events };

    ghost left_since = { λ d t c. Leaves (seen_of (padded S.Content.content d.size) d.log.events)
        (marks_of d.size d.log.events) c ⊎
        MightHaveLeft (padded S.Content.content d.size) d.size d.log.events t c };

    ghost fault_count = { λ d. d.faults.count };

    ghost is_honest = { λ d. IsHonest (padded S.Content.content d.size) d.log.events };

    ghost seen_may_stay = { λ d. leaves_seen
        (seen_of (padded S.Content.content d.size) d.log.events) (marks_of d.size d.log.events)
        (length-marks _ _ d.size d.marked d.sized) };

    ghost keeps_size = { λ d c left. leaves_size
        (seen_of (padded S.Content.content d.size) d.log.events) (marks_of d.size d.log.events) c
        left };

    ghost counts_now = { λ d t c le now. inl now };

    ghost only_now = { λ d c left. only_since (padded S.Content.content d.size) d.size d.log.events
        (Leaves (seen_of (padded S.Content.content d.size) d.log.events)
        (marks_of d.size d.log.events) c) c left };

    fn size(&self) -> u64 {
        self.size
    }

    fn read_at(&mut self, at: u64, out: &mut [u8]) -> Result<(), Fault> {
        let ok = self.faults.is_done(self.file.read_at(at, out));
        if !ok {
            return Err(Fault);
        }
        self.log.note(&[DeviceCall::Read(at)], out);
        Ok(())
    }

    fn write_at(&mut self, at: u64, bytes: &[u8]) -> Result<(), Fault> {
        let ok = self.faults.is_done(self.file.write_at(at, bytes));
        self.log.note(&[DeviceCall::Write(at, ok)], bytes);
        if !ok {
            return Err(Fault);
        }
        Ok(())
    }

    fn sync(&mut self) -> Result<(), Fault> {
        let done = sync_unless_broken(&mut self.file, &mut self.broken_by);
        let ok = self.faults.is_done(done);
        self.log.note(&[DeviceCall::Sync(ok)], &[]);
        if !ok {
            return Err(Fault);
        }
        Ok(())
    }

    fn faults(&self) -> u64 {
        self.faults.count()
    }
}
