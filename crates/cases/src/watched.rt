// What a disk that is a file asks of it, on a file in memory that is watched.
use crate::plays::runs::{Ran, run_on, text, to_play};
use crate::plays::told::Told;
use crate::plays::workbench::Workbench;
use disk_model::{DeviceFile, FileDisk, Unknown};
use std::alloc::Global;
use std::cell::{RefCell, RefMut};
use std::fmt;
use std::io::{self, ErrorKind};

// A call of a file: of a read and of a write where it begins, and how many bytes it has.
#[derive(Clone, Copy)]
enum FileCall {
    Len,
    Read(u64, usize),
    Write(u64, usize),
    Sync,
    SyncAll,
}

impl fmt::Display for FileCall {
    fn fmt<W: fmt::Write>(&self, f: &mut fmt::Formatter<W>) -> fmt::Result {
        match self {
            FileCall::Len => f.write_str("length"),
            FileCall::Read(at, count) => write!(f, "read {at} {count}"),
            FileCall::Write(at, count) => write!(f, "write {at} {count}"),
            FileCall::Sync => f.write_str("sync"),
            FileCall::SyncAll => f.write_str("sync all"),
        }
    }
}

// The bytes of a file, what it was asked, and the number of the call that fails, from 1 on; 0 where
// none does.
#[derive(Drop)]
struct Watched {
    bytes: Vec<u8>,
    calls: Vec<FileCall>,
    failing: usize,
}

// A file that somebody watches.
#[derive(Drop)]
struct WatchedFile<'a> {
    watched: &'a RefCell<Watched>,
}

impl WatchedFile<'_> {
    // Notes a call, and lends the file for it. The call that is to fail fails.
    fn ask(&self, call: FileCall) -> io::Result<RefMut<'_, Watched>> {
        let Ok(mut watched) = self.watched.try_borrow_mut() else {
            return Err(io::Error::from(ErrorKind::ResourceBusy));
        };
        watched.calls.push(call)?;
        if watched.calls.len() == watched.failing {
            return Err(io::Error::from(ErrorKind::StorageFull));
        }
        Ok(watched)
    }
}

impl DeviceFile for WatchedFile<'_> {
    fn len(&self) -> io::Result<u64> {
        Ok(self.ask(FileCall::Len)?.bytes.len() as u64)
    }

    fn read_at(&mut self, at: u64, out: &mut [u8]) -> io::Result<()> {
        let watched = self.ask(FileCall::Read(at, out.len()))?;
        for (to, from) in out.iter_mut().zip(watched.bytes.iter().skip(at as usize)) {
            *to = *from;
        }
        Ok(())
    }

    fn write_at(&mut self, at: u64, bytes: &[u8]) -> io::Result<()> {
        let mut watched = self.ask(FileCall::Write(at, bytes.len()))?;
        for (to, from) in watched.bytes.iter_mut().skip(at as usize).zip(bytes) {
            *to = *from;
        }
        Ok(())
    }

    fn sync(&mut self) -> io::Result<()> {
        self.ask(FileCall::Sync)?;
        Ok(())
    }

    fn sync_all(&mut self) -> io::Result<()> {
        self.ask(FileCall::SyncAll)?;
        Ok(())
    }
}

// Plays a script on a watched file.
fn play_on(alloc: Global, watched: &RefCell<Watched>, script: &[u8]) -> io::Result<Ran> {
    let disk: FileDisk<Unknown, WatchedFile<'_>> = FileDisk::open(WatchedFile { watched })?;
    let (ran, disk) = run_on(alloc, to_play(alloc), disk, script);
    drop(disk);
    Ok(ran)
}

// Plays a script on a file of these bytes, of which a call fails, if its number is not 0. Answers
// what the play answered, and what the file was asked.
fn play_watched(
    alloc: Global,
    bytes: Vec<u8>,
    failing: usize,
    script: &[u8],
) -> (io::Result<Ran>, Vec<FileCall>) {
    let watched = RefCell::new(Watched {
        bytes,
        calls: Vec::new(alloc),
        failing,
    });
    let played = play_on(alloc, &watched, script);
    (played, watched.into_inner().calls)
}

/// Plays the script on a file with the bytes of the disk. Tells each call that the file got, in
/// order, and then what the play answered.
pub fn watch(alloc: Global, bench: &mut Workbench, told: &mut Told) -> io::Result<()> {
    let bytes = bench.bytes(alloc)?;
    let script = bench.take_script(alloc);
    let (played, calls) = play_watched(alloc, bytes, 0, script.as_slice());
    for call in &calls {
        told.tell(*call);
    }
    played?.tell(bench.take_last(), told);
    Ok(())
}

/// Plays the script on such a file once for each of its calls, which fails then. Tells of each that
/// call, how many came behind it, and how the play ended: its status, and each line that it
/// printed.
pub fn watch_failures(alloc: Global, bench: &mut Workbench, told: &mut Told) -> io::Result<()> {
    let script = bench.take_script(alloc);
    for failing in 1..usize::MAX {
        let bytes = bench.bytes(alloc)?;
        let (played, calls) = play_watched(alloc, bytes, failing, script.as_slice());
        let Some(call) = calls.get(failing - 1) else {
            break;
        };
        let behind = calls.len().saturating_sub(failing);
        told.add_text(format_args!("{call}, {behind} behind: "));
        match played {
            Ok(ran) => tell_in_line(&ran, told),
            Err(_) => told.tell("not opened"),
        }
    }
    Ok(())
}

// Tells how a play ended in one line.
fn tell_in_line(ran: &Ran, told: &mut Told) {
    told.add_text(format_args!("= {}", ran.status));
    for line in text(&ran.out).lines().chain(text(&ran.err).lines()) {
        told.add_text(format_args!("; {line}"));
    }
    told.add(b"\n");
}
