// The command line: understands its words, opens the files that they name, and carries the command
// out.
ghost use Rattle.std.specs.Prelude.{◌≤◌, IsOk};
ghost use Rattle.calls.specs.Formats.{max_area, widest};

use crate::fifos::Fifos;
use crate::files::{
    StoreDisk, area_of_copy, begin_disk, check_area, format_numbered, look_at, open_disk, opened,
    read_script, settle,
};
use crate::lint::{lint, tell_first_unclear};
use crate::listen::{listen_at_door, listen_to_input};
use crate::multiplex::Multiplex;
use crate::serving::serve;
use crate::state::ServerState;
use crate::watching::{Doing, Shared, Watches, Watching};
use boost::{Edit, Failure, Invocation, Task, command, report, run, run_copy};
use calls::{Format, Refusal};
use clap::error::ErrorKind;
use disk_model::{Content, Disk, MemDisk};
use fizgaloms::{Access, Watch};
use std::alloc::Global;
use std::fs::File;
use std::io::{Read, Write};
use std::rt::{Clock, Files};
use std::sync::{Mutex, Wait};
use std::thread::Threads;
use std::time::{Duration, Instant};
use talks::KeepingState;

// What an argument has to be.
const FORMATS: &str = "--format is 1 or 2";

const AREAS: &str = "--area is from 65536 (64K) to 1073741824 (1G)";

const WIDE_AREAS: &str = "--area is from 65536 (64K) to 68719476736 (64G)";

const TWO_PATHS: &str = "OLD and NEW are two files";

const NO_FOLDER: &str = "--shell has no FOLDER";

// The status where the store refused.
const REFUSED: u8 = 1;
// The status where a line of a script is not understood.
const NOT_UNDERSTOOD: u8 = 3;

// What was found, or where it is refused what the argument has to be.
fn given<'a, T: Drop>(found: Result<T, Refusal>, range: &'static str) -> Result<T, Failure<'a>> {
    match found {
        Ok(value) => Ok(value),
        Err(_) => Err(Failure::BadArgument(range)),
    }
}

// Refuses an area that no disk of the format has.
fn check_given_area<'a>(format: Format, area: u64) -> Result<(), Failure<'a>>
    ensures { IsOk result → area ≤ max_area widest }
{
    let range = match format {
        Format::One => AREAS,
        Format::Two => WIDE_AREAS,
    };
    match check_area(format, area) {
        Ok(()) => Ok(()),
        Err(_) => Err(Failure::BadArgument(range)),
    }
}

// Carries a command out on the disk of a file. What the system says of a call that failed is told
// where the store refused. Answers the status.
fn run_on<S: Content, W: Watch>(
    alloc: Global,
    task: &Task,
    disk: StoreDisk<'_, S, W>,
    script: &[u8],
    out: &mut impl Write,
    err: &mut impl Write,
) -> u8 {
    let (status, disk) = run(alloc, task, disk, script, out, err);
    if status == REFUSED {
        tell_cause(&disk, err);
    }
    status
}

// Makes the file of a disk with two such areas, of the format of the number, an empty store.
// Refused BadArg where there is no such format, or such an area in it, before the file is touched;
// and where the file holds bytes, and it is not forced.
fn format_new<'a, S: Content, W: Watch, R: Files<File = File> + AllocGlobal>(
    rt: &R,
    task: &'a Task,
    watch: &W,
    out: &mut impl Write,
    err: &mut impl Write,
) -> Result<u8, Failure<'a>> {
    let Task::Format {
        disk: path,
        area,
        version,
        reserve,
        group,
        force,
    } = task
    else {
        return Ok(0);
    };
    let path = path.as_str();
    check_given_area(given(format_numbered(*version), FORMATS)?, *area)?;
    let place = look_at(rt, path)?;
    if !*force && opened(path, place.holds_bytes())? {
        return Err(Failure::HoldsBytes(path));
    }
    let (making, disk) = begin_disk::<S, W, R>(rt, path, place, *area, *reserve, *group, watch)?;
    let status = run_on(rt.alloc(), task, disk, &[], out, err);
    settle(rt, path, making, status == 0)?;
    Ok(status)
}

// Copies the store in a file to another file with the edits made, with two such areas, or with two
// as large as its own where none are asked for. Refused BadArg where the two paths are one, before
// a file is touched; the same file under two names is refused by its lock. The other file is as it
// was until it holds the copy.
fn copy_store<'a, S: Content, W: Watch, R: Files<File = File> + AllocGlobal>(
    rt: &R,
    old: &'a str,
    new: &'a str,
    area: Option<u64>,
    group: bool,
    edits: &[Edit],
    watch: &W,
    out: &mut impl Write,
    err: &mut impl Write,
) -> Result<u8, Failure<'a>> {
    if let Some(area) = area {
        check_given_area(Format::Two, area)?;
    }
    if old == new {
        return Err(Failure::BadArgument(TWO_PATHS));
    }
    let from = open_disk::<S, W>(rt, old, Access::Reads, watch)?;
    let area = area_of_copy(area, from.size())?;
    let place = look_at(rt, new)?;
    let (making, to) = begin_disk::<S, W, R>(rt, new, place, area, false, group, watch)?;
    let mut told = Vec::new(rt.alloc());
    let (status, from, to) = run_copy(rt.alloc(), from, to, area, edits, &mut told, err);
    if status == REFUSED {
        tell_cause(&from, err);
        tell_cause(&to, err);
    }
    settle(rt, new, making, status != REFUSED)?;
    drop((from, to));
    if out.write_all(told.as_slice()).is_err() || out.flush().is_err() {
        return Err(Failure::Unwritten);
    }
    Ok(status)
}

// Opens the file of a disk, and carries a command out on it.
fn run_on_old<'a, S: Content, W: Watch, R: Files<File = File> + AllocGlobal>(
    rt: &R,
    task: &Task,
    path: &'a str,
    access: Access,
    script: &[u8],
    watch: &W,
    out: &mut impl Write,
    err: &mut impl Write,
) -> Result<u8, Failure<'a>> {
    let disk = open_disk::<S, W>(rt, path, access, watch)?;
    Ok(run_on(rt.alloc(), task, disk, script, out, err))
}

// Reads a script, opens the file of a disk, and carries a command out on it.
fn run_with_script<'a, S: Content, W: Watch, R: Files<File = File> + AllocGlobal>(
    rt: &R,
    task: &Task,
    path: &'a str,
    script: &'a str,
    watch: &W,
    input: impl Read + Drop,
    out: &mut impl Write,
    err: &mut impl Write,
) -> Result<u8, Failure<'a>> {
    let text = read_script(rt, script, input)?;
    let lines = text.as_slice();
    let status = run_on_old::<S, W, R>(rt, task, path, Access::Writes, lines, watch, out, err)?;
    if status == NOT_UNDERSTOOD {
        tell_first_unclear(rt.alloc(), text.as_slice(), err);
    }
    Ok(status)
}

// Tells the lines of a script that are not understood.
fn lint_script<'a, R: Files<File = File> + AllocGlobal>(
    rt: &R,
    script: &'a str,
    input: impl Read + Drop,
    out: &mut impl Write,
    err: &mut impl Write,
) -> Result<u8, Failure<'a>> {
    let text = read_script(rt, script, input)?;
    Ok(lint(rt.alloc(), text.as_slice(), out, err)?)
}

// Reads a script, opens the file of a disk, and serves the script on it. Where that is asked, what
// the system says of the file is told behind it.
fn serve_script<
    'a,
    S: Content + Send,
    W: Watch + Sync,
    R: Files<File = File> + Threads + Wait + Clock + AllocGlobal + Sync,
>(
    rt: &R,
    path: &'a str,
    script: &'a str,
    why: bool,
    watch: &W,
    input: impl Read + Drop,
    out: &mut impl Write,
    err: &mut impl Write,
) -> Result<u8, Failure<'a>> {
    let text = read_script(rt, script, input)?;
    let disk = open_disk::<S, W>(rt, path, Access::Writes, watch)?;
    let (status, closed) = serve(rt, disk, text.as_slice(), why, out, err);
    if status == NOT_UNDERSTOOD {
        tell_first_unclear(rt.alloc(), text.as_slice(), err);
    }
    if why || status == REFUSED {
        tell_cause(&closed.disk, err);
    }
    Ok(status)
}

/// Writes a line with the system's words for the last call of the disk that failed, if one did.
/// Where it cannot be written, that changes nothing.
pub(crate) fn tell_cause<S: Content, W: Watch>(disk: &StoreDisk<'_, S, W>, err: &mut impl Write) {
    if let Some(error) = disk.last_error() {
        let _written = writeln!(err, "boost: {error}");
        let _flushed = err.flush();
    }
}

// Plays the stored script on a disk in memory.
fn demo<'a>(
    alloc: Global,
    task: &Task,
    out: &mut impl Write,
    err: &mut impl Write,
) -> Result<u8, Failure<'a>> {
    let disk = MemDisk::new(alloc, 0)?;
    Ok(run(alloc, task, disk, &[], out, err).0)
}

// Opens the files of a command and carries it out. Answers the status, unless a file is missing or
// an argument is bad.
fn carry_out<
    'a,
    S: Content + Send,
    R: Files<File = File> + Threads + Wait + Clock + AllocGlobal + Sync,
    F: Fifos + Drop + Sync,
    W: Watches + Sync,
>(
    rt: &R,
    asked: &'a Invocation,
    input: impl Read + Drop + Send,
    fifos: F,
    watch: &W,
    out: &mut (impl Write + Send),
    err: &mut (impl Write + Send),
) -> Result<u8, Failure<'a>> {
    match asked {
        Invocation::Run(task) => perform::<S, _, R>(rt, task, input, watch, out, err),
        Invocation::Copy {
            old,
            new,
            area,
            group,
            edits,
        } => {
            copy_store::<S, _, R>(
                rt,
                old.as_str(),
                new.as_str(),
                *area,
                *group,
                edits.as_slice(),
                watch,
                out,
                err,
            )
        }
        Invocation::Lint { script } => lint_script(rt, script.as_str(), input, out, err),
        Invocation::Serve { disk, script, why } => {
            let (disk, script) = (disk.as_str(), script.as_str());
            serve_script::<S, _, R>(rt, disk, script, *why, watch, input, out, err)
        }
        Invocation::Listen {
            folder: Some(_),
            shell: true,
            ..
        } => Err(Failure::BadArgument(NO_FOLDER)),
        Invocation::Listen {
            disk,
            folder,
            idle,
            shell,
            log,
        } => {
            let began = if *log { Instant::now(rt).ok() } else { None };
            let disk = open_disk::<S, _>(rt, disk.as_str(), Access::Writes, watch)?;
            let idle = idle.map(Duration::from_secs);
            let state = ServerState {
                keeping: KeepingState::new(watch.fault(), watch.writing_since()),
                counts: watch.counts(),
                began,
            };
            if let Some(folder) = folder {
                return listen_at_door(rt, disk, fifos, folder.as_str(), idle, state, err);
            }
            let clients = Multiplex::new(rt.alloc(), fifos, input, out, &mut *err, idle, state)?;
            let clients = if *shell { clients.as_shell() } else { clients };
            listen_to_input(rt, disk, clients)
        }
    }
}

// Opens the files of a task and carries it out.
fn perform<'a, S: Content, W: Watch, R: Files<File = File> + AllocGlobal>(
    rt: &R,
    task: &'a Task,
    input: impl Read + Drop,
    watch: &W,
    out: &mut impl Write,
    err: &mut impl Write,
) -> Result<u8, Failure<'a>> {
    match task {
        Task::Format { .. } => format_new::<S, W, R>(rt, task, watch, out, err),
        Task::Play { disk, script } => {
            let (disk, script) = (disk.as_str(), script.as_str());
            run_with_script::<S, W, R>(rt, task, disk, script, watch, input, out, err)
        }
        Task::Show {
            disk,
            read_only: false,
        }
        | Task::Upgrade { disk } => {
            run_on_old::<S, W, R>(
                rt,
                task,
                disk.as_str(),
                Access::Writes,
                &[],
                watch,
                out,
                err,
            )
        }
        Task::Show { disk, .. } | Task::Check { disk } | Task::Stat { disk, .. } => {
            run_on_old::<S, W, R>(rt, task, disk.as_str(), Access::Reads, &[], watch, out, err)
        }
        Task::Demo => demo(rt.alloc(), task, out, err),
    }
}

// Carries a command out whose disks are watched, and says why it was not. Answers the status.
fn answer<
    S: Content + Send,
    R: Files<File = File> + Threads + Wait + Clock + AllocGlobal + Sync,
    F: Fifos + Drop + Sync,
    W: Watches + Sync,
>(
    rt: &R,
    asked: &Invocation,
    input: impl Read + Drop + Send,
    fifos: F,
    watch: &W,
    out: &mut (impl Write + Send),
    err: &mut (impl Write + Send),
) -> u8 {
    match carry_out::<S, R, F, W>(rt, asked, input, fifos, watch, out, err) {
        Ok(status) => status,
        Err(failure) => report(&failure, err),
    }
}

// Carries a command out, and says why it was not, and how far it is while it takes long. Answers
// the status.
fn answer_watched<
    S: Content + Send,
    R: Files<File = File> + Threads + Wait + Clock + AllocGlobal + Sync,
    F: Fifos + Drop + Sync,
>(
    rt: &R,
    asked: &Invocation,
    input: impl Read + Drop + Send,
    fifos: F,
    out: &mut (impl Write + Send),
    err: &mut (impl Write + Send),
) -> u8 {
    let shared = Mutex::new(err);
    let watching = Watching::new(rt, &shared, Doing::of(asked));
    let mut err = Shared::new(rt, &shared);
    answer::<S, R, F, _>(rt, asked, input, fifos, &watching, out, &mut err)
}

// Says why a command line is not understood, or what it asks to be told, and answers the status.
fn explain(error: &clap::Error, out: &mut impl Write, err: &mut impl Write) -> u8 {
    if error.kind() == ErrorKind::OutOfMemory {
        return report(&Failure::Refused(Refusal::NoMemory), err);
    }
    if error.use_stderr() {
        let _written = write!(err, "{error}");
        return 2;
    }
    match write!(out, "{error}") {
        Ok(()) => 0,
        Err(_) => report(&Failure::Unwritten, err),
    }
}

/// Understands the words of a command line and carries them out. Answers the status. A listening
/// store reads its clients' lines from `input`, or comes by a door of `fifos`; nothing else uses
/// the two.
///
/// What the files hold is `S`: this is proved for any, so what the commands promise of a disk holds
/// of the files that are there. A program names `Unknown`, in one place.
pub fn obey<
    'a,
    S: Content + Send,
    R: Files<File = File> + Threads + Wait + Clock + AllocGlobal + Sync,
    F: Fifos + Drop + Sync,
>(
    rt: &R,
    words: &'a [&'a str],
    input: impl Read + Drop + Send,
    fifos: F,
    out: &mut (impl Write + Send),
    err: &mut (impl Write + Send),
) -> u8 {
    match command(rt.alloc(), words) {
        Ok(asked) => answer_watched::<S, R, F>(rt, &asked, input, fifos, out, err),
        Err(error) => explain(&error, out, err),
    }
}
