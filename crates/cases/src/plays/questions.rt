// What the lines of cases ask of a disk and of a script.
use crate::plays::runs::{carry_out, to_check, to_show, to_show_read_only, to_stat, to_upgrade};
use crate::plays::told::Told;
use crate::plays::values::{not_understood, number};
use crate::plays::workbench::Workbench;
use crate::plays::{disks, runs, scripts, stepping};
use boost::Task;
use disk_model::Disk;
use std::alloc::Global;
use std::io;
use std::rt::Clock;
use std::sync::Wait;

/// The word of a line that asks something, with what stands behind it. It is told then. None where
/// the line is empty or begins with `#`, or where it was added to the script: one with a bar in
/// front, one that is repeated, and rounds of lines.
pub fn question<'a>(
    bench: &mut Workbench,
    line: &'a str,
    told: &mut Told,
) -> io::Result<Option<(&'a str, &'a str)>> {
    if line.is_empty() || line.starts_with("#") {
        return Ok(None);
    }
    if let Some(text) = line.strip_prefix("| ") {
        scripts::add_line(&mut bench.script, text)?;
        return Ok(None);
    }
    if let Some(text) = line.strip_prefix("repeat ") {
        scripts::repeat(bench, text)?;
        return Ok(None);
    }
    if let Some(text) = line.strip_prefix("rounds ") {
        scripts::add_rounds(bench, text)?;
        return Ok(None);
    }
    told.tell_brief(line);
    Ok(Some(line.split_once(" ").unwrap_or((line, ""))))
}

/// Asks for a command on the disk of the case, or else of the disk and of the script. A line that
/// is neither is refused as InvalidInput.
pub fn ask(
    rt: &(impl Wait + Clock + AllocGlobal),
    bench: &mut Workbench,
    word: &str,
    rest: &str,
    told: &mut Told,
) -> io::Result<()> {
    let alloc = rt.alloc();
    match word {
        "play" => runs::play(rt, bench, told),
        "show" => carry_out(alloc, bench, to_show(alloc), told),
        "show_read_only" => carry_out(alloc, bench, to_show_read_only(alloc), told),
        "stat" => carry_out(alloc, bench, to_stat(alloc, rest == "--json"), told),
        "copy" => runs::copy(alloc, bench, rest, told),
        "check" => carry_out(alloc, bench, to_check(alloc), told),
        "demo" => carry_out(alloc, bench, Task::Demo, told),
        "format" => runs::format(alloc, bench, rest, told),
        "upgrade" => carry_out(alloc, bench, to_upgrade(alloc), told),
        "steps" => stepping::take(alloc, bench, told),
        _ => ask_of_disk(alloc, bench, word, rest, told),
    }
}

// Asks a question of the disk and of the script of the case.
fn ask_of_disk(
    alloc: Global,
    bench: &mut Workbench,
    word: &str,
    rest: &str,
    told: &mut Told,
) -> io::Result<()> {
    match word {
        "@" => bench.begin(alloc)?,
        "disk" => disks::resize(alloc, bench, rest)?,
        "script" => scripts::add_bytes(alloc, bench, rest)?,
        "last" => bench.tell_last(rest)?,
        "read" => disks::read(alloc, bench, rest, told)?,
        "write" => disks::write(alloc, bench, rest)?,
        "fail" => bench.fail_at(number(rest)?),
        "faults" => told.tell(bench.disk.faults()),
        "stop" => disks::stop(alloc, bench, rest)?,
        _ => return Err(not_understood()),
    }
    Ok(())
}
