// Commands that are carried out on the disk of a case.
use crate::plays::disks::bytes_of;
use crate::plays::told::Told;
use crate::plays::values::{area_and_version, not_understood, number, pair};
use crate::plays::workbench::Workbench;
use crate::plays::{talked, through_store};
use boost::{Edit, Task, run, run_copy};
use calls::Name;
use disk_model::{Disk, MemDisk};
use std::alloc::Global;
use std::io;
use std::rt::Clock;
use std::sync::Wait;

/// What a run answered: its status, and what it printed.
#[derive(Drop)]
pub struct Ran {
    pub status: u8,
    pub out: Vec<u8>,
    pub err: Vec<u8>,
}

impl Ran {
    /// Tells its status, the last lines of what it printed, so many of them, and each line of its
    /// errors behind a mark.
    pub fn tell(&self, last: usize, told: &mut Told) {
        told.tell(format_args!("= {}", self.status));
        told.tell_last(text(&self.out), last, "");
        told.tell_last(text(&self.err), usize::MAX, "! ");
    }

    /// Whether another run ended alike: with the same status and errors.
    pub fn is_alike(&self, other: &Ran) -> bool {
        self.status == other.status && self.err == other.err
    }
}

/// What was printed, as a text.
pub fn text(bytes: &Vec<u8>) -> &str {
    std::str::from_utf8(bytes.as_slice()).unwrap_or("no text")
}

/// A task that plays.
pub fn to_play(alloc: Global) -> Task {
    Task::Play {
        disk: String::new(alloc),
        script: String::new(alloc),
    }
}

/// A task that shows.
pub fn to_show(alloc: Global) -> Task {
    Task::Show {
        disk: String::new(alloc),
        read_only: false,
    }
}

/// A task that shows and writes nothing.
pub fn to_show_read_only(alloc: Global) -> Task {
    Task::Show {
        disk: String::new(alloc),
        read_only: true,
    }
}

/// A task that tells what room a store takes, as JSON where that is asked.
pub fn to_stat(alloc: Global, json: bool) -> Task {
    Task::Stat {
        disk: String::new(alloc),
        json,
    }
}

/// A task that checks.
pub fn to_check(alloc: Global) -> Task {
    Task::Check {
        disk: String::new(alloc),
    }
}

/// A task that formats, with areas of so many bytes, in the format of the number.
pub fn to_format(alloc: Global, area: u64, version: u8) -> Task {
    Task::Format {
        disk: String::new(alloc),
        area,
        version,
        reserve: false,
        group: false,
        force: false,
    }
}

/// A task that brings a store to format 2.
pub fn to_upgrade(alloc: Global) -> Task {
    Task::Upgrade {
        disk: String::new(alloc),
    }
}

/// Carries a task out on a disk. Answers the disk behind what the run answered.
pub fn run_on<D: Disk>(alloc: Global, task: Task, disk: D, script: &[u8]) -> (Ran, D) {
    let (mut out, mut err) = (Vec::new(alloc), Vec::new(alloc));
    let (status, disk) = run(alloc, &task, disk, script, &mut out, &mut err);
    (Ran { status, out, err }, disk)
}

/// Copies the store of a disk to another one, with areas of so many bytes and these edits. Answers
/// both disks behind what that answered.
pub fn copy_on<D: Disk, N: Disk>(
    alloc: Global,
    old: D,
    new: N,
    area: u64,
    edits: &[Edit],
) -> (Ran, D, N) {
    let (mut out, mut err) = (Vec::new(alloc), Vec::new(alloc));
    let (status, old, new) = run_copy(alloc, old, new, area, edits, &mut out, &mut err);
    (Ran { status, out, err }, old, new)
}

/// Copies the store of the case to a disk of so many zeros, with areas of so many bytes and the
/// edits behind them, and tells what that answered. The new disk is that of the case from then on,
/// where the store was copied.
pub fn copy(alloc: Global, bench: &mut Workbench, text: &str, told: &mut Told) -> io::Result<()> {
    let (size, rest) = pair(text, " ")?;
    let size = number(size)?;
    let (area, edits) = match rest.split_once(" ") {
        Some((area, edits)) => (number(area)?, edits_of(alloc, edits)?),
        None => (number(rest)?, Vec::new(alloc)),
    };
    let before = bench.bytes(alloc)?;
    let old = bench.take_disk(alloc)?;
    let new = MemDisk::new(alloc, size)?;
    let (ran, old, new) = copy_on(alloc, old, new, area, edits.as_slice());
    bench.put_back(old);
    ran.tell(bench.take_last(), told);
    if bench.bytes(alloc)? != before {
        told.tell("the old disk has changed");
    }
    if ran.status == 0 {
        bench.put_back(new);
    }
    Ok(())
}

// Edits of a copy, each behind a `; `.
fn edits_of(alloc: Global, text: &str) -> io::Result<Vec<Edit>> {
    let mut edits = Vec::new(alloc);
    for edit in text.split("; ") {
        edits.push(edit_of(alloc, edit)?)?;
    }
    Ok(edits)
}

// An edit: `without NAME` or `rename NAME OTHER`.
fn edit_of(alloc: Global, text: &str) -> io::Result<Edit> {
    let (word, names) = pair(text, " ")?;
    match word {
        "without" => Ok(Edit::Without(name_of(alloc, names)?)),
        "rename" => {
            let (from, to) = pair(names, " ")?;
            let (from, to) = (name_of(alloc, from)?, name_of(alloc, to)?);
            Ok(Edit::Rename { from, to })
        }
        _ => Err(not_understood()),
    }
}

// The name that a text spells.
fn name_of(alloc: Global, text: &str) -> io::Result<Name> {
    Ok(Name::new(String::from_str(alloc, text)?))
}

/// Formats the disk of the case, with areas of so many bytes, in the format of the number behind
/// them, or else in format 1, and tells what that answered.
pub fn format(alloc: Global, bench: &mut Workbench, text: &str, told: &mut Told) -> io::Result<()> {
    let (area, version) = area_and_version(text)?;
    carry_out(alloc, bench, to_format(alloc, area, version), told)
}

/// Carries a task out on the disk of the case with the script that was written, which is empty
/// then, and tells what it answered: of its output as many of the last lines as the case wants.
pub fn carry_out(
    alloc: Global,
    bench: &mut Workbench,
    task: Task,
    told: &mut Told,
) -> io::Result<()> {
    let script = bench.take_script(alloc);
    let disk = bench.take_disk(alloc)?;
    let (ran, disk) = run_on(alloc, task, disk, script.as_slice());
    bench.put_back(disk);
    ran.tell(bench.take_last(), told);
    Ok(())
}

/// Plays the script that was written, once more through the store that threads share, and once more
/// as a talk: what these answer or leave otherwise is told too.
pub fn play(
    rt: &(impl Wait + Clock + AllocGlobal),
    bench: &mut Workbench,
    told: &mut Told,
) -> io::Result<()> {
    let alloc = rt.alloc();
    let beside = bench.copy(alloc)?;
    let spoken_to = bench.copy(alloc)?;
    let script = bench.take_script(alloc);
    let disk = bench.take_disk(alloc)?;
    let (ran, disk) = run_on(alloc, to_play(alloc), disk, script.as_slice());
    bench.put_back(disk);
    ran.tell(bench.take_last(), told);
    let (played, beside) = through_store::play(rt, beside, script.as_slice())?;
    bench.compared.compare(&ran, &played.ran, told);
    compare_disks(alloc, bench, beside, told)?;
    talked::compare(rt, bench, spoken_to, script.as_slice(), &ran, told)
}

// Compares what the disk of the case holds with what the other one does.
fn compare_disks(
    alloc: Global,
    bench: &mut Workbench,
    beside: MemDisk,
    told: &mut Told,
) -> io::Result<()> {
    let bytes = bench.bytes(alloc)?;
    let others = bytes_of(alloc, beside.stop(&[]))?;
    bench
        .compared
        .compare_disks(bytes.as_slice(), others.as_slice(), told);
    Ok(())
}
