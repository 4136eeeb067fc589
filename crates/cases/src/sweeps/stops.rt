// What is stopped at each call of the disk and behind the last one, in each of four ways, and then
// opened.
use crate::plays::disks::{all_as, at_rest, bytes_of};
use crate::plays::runs::{Ran, copy_on, run_on, text, to_check, to_format, to_play, to_show};
use crate::plays::told::Told;
use crate::plays::values::area_and_version;
use crate::plays::workbench::Workbench;
use crate::sweeps::upgrades::stop_upgrading;
use boost::Task;
use disk_model::{Disk, MemDisk};
use std::alloc::{AllocError, Global};
use std::rt::Files;
use std::{fs, io};

/// What is done on a disk until it is stopped.
#[derive(Clone, Copy)]
pub enum Trial<'a> {
    // A script is played. The first text has what is shown behind the front after each place.
    Story {
        script: &'a [u8],
        shown: &'a str,
        front: &'a str,
    },
    // The store is opened. The texts are what is shown, and what is checked behind that.
    Opening {
        shown: &'a str,
        checked: &'a str,
    },
    // The disk is formatted, with areas of so many bytes, in the format of the number.
    Format {
        area: u64,
        version: u8,
    },
    // The store is brought to format 2. The text is what it shows before.
    Upgrade {
        shown: &'a str,
    },
    // The store in the bytes of another disk is copied to it, with areas of so many bytes. The text
    // is what that store shows.
    Copy {
        old: &'a [u8],
        shown: &'a str,
        area: u64,
    },
}

/// Stops the script that was written at each call of the disk and behind the last one. Tells how
/// many calls it makes, and what was found that is not as the file tells. The file has what is
/// shown after each place behind what the disk shows now, with a line `.` between each two.
pub fn stop_story(
    rt: &(impl Files + AllocGlobal),
    bench: &mut Workbench,
    file: &str,
    told: &mut Told,
) -> io::Result<()> {
    let shown = fs::read_to_string(rt, file)?;
    stop_told_story(rt.alloc(), bench, shown.as_str(), told)
}

// Stops the script that was written at each call of the disk. The text has what is shown after each
// place.
fn stop_told_story(
    alloc: Global,
    bench: &mut Workbench,
    shown: &str,
    told: &mut Told,
) -> io::Result<()> {
    let bytes = bench.bytes(alloc)?;
    let disk = at_rest(alloc, bytes.as_slice())?;
    let script = bench.take_script(alloc);
    let (front, _) = run_on(alloc, to_show(alloc), disk, &[]);
    let trial = Trial::Story {
        script: script.as_slice(),
        shown,
        front: text(&front.out),
    };
    stop_in_each_way(alloc, trial, bytes.as_slice(), told)
}

/// Stops the opening of the disk at each of its calls and behind the last one. Tells how many it
/// makes, and what the store is checked as then, where that is not what it was at the call before.
/// It is stopped there three times over, and then opened to the end.
pub fn stop_opening(alloc: Global, bench: &mut Workbench, told: &mut Told) -> io::Result<()> {
    let bytes = bench.bytes(alloc)?;
    let disk = at_rest(alloc, bytes.as_slice())?;
    let (shown, checked) = show_and_check(alloc, disk);
    let trial = Trial::Opening {
        shown: text(&shown.out),
        checked: text(&checked.out),
    };
    stop_in_each_way(alloc, trial, bytes.as_slice(), told)
}

// What a show answers, and a check behind it.
fn show_and_check(alloc: Global, disk: MemDisk) -> (Ran, Ran) {
    let (shown, disk) = run_on(alloc, to_show(alloc), disk, &[]);
    let (checked, _) = run_on(alloc, to_check(alloc), disk, &[]);
    (shown, checked)
}

/// Stops a format at each of its calls and behind the last one. Tells how many it makes, and what
/// the disk shows then, where that is not what it showed at the call before.
pub fn stop_format(
    alloc: Global,
    bench: &mut Workbench,
    text: &str,
    told: &mut Told,
) -> io::Result<()> {
    let (area, version) = area_and_version(text)?;
    let bytes = bench.bytes(alloc)?;
    stop_in_each_way(
        alloc,
        Trial::Format { area, version },
        bytes.as_slice(),
        told,
    )
}

/// Does it on disks of these bytes, and stops it at each call in turn and behind the last one, in
/// each of four ways. Tells how many calls it makes, and what is found where that is not as it was
/// at the call before.
pub fn stop_in_each_way(
    alloc: Global,
    trial: Trial<'_>,
    ground: &[u8],
    told: &mut Told,
) -> io::Result<()> {
    stop_in_way(alloc, trial, ground, &[], "as read", told)?;
    stop_with(alloc, trial, ground, 0, "as 00", told)?;
    stop_with(alloc, trial, ground, 0xff, "as ff", told)?;
    stop_with(alloc, trial, ground, 0xa7, "as a7", told)
}

// Each byte that no sync has reached takes this value.
fn stop_with(
    alloc: Global,
    trial: Trial<'_>,
    ground: &[u8],
    value: u8,
    way: &str,
    told: &mut Told,
) -> io::Result<()> {
    let picks = all_as(alloc, ground.len() as u64, value)?;
    stop_in_way(alloc, trial, ground, picks.as_slice(), way, told)
}

// Stops at each call in turn, and behind the last one: there none fails any more.
fn stop_in_way(
    alloc: Global,
    trial: Trial<'_>,
    ground: &[u8],
    picks: &[(u64, u8)],
    way: &str,
    told: &mut Told,
) -> io::Result<()> {
    let mut last = String::new(alloc);
    for k in 1..1_000u64 {
        let (is_reached, found) = stop_at(alloc, trial, ground, k, picks)?;
        if found.as_str() != last.as_str() {
            tell_found(way, k, is_reached, found.as_str(), told);
        }
        if !is_reached {
            let calls = k - 1;
            told.tell(format_args!("{way}: {calls} calls"));
            return Ok(());
        }
        last = found;
    }
    told.tell(format_args!("{way}: no end"));
    Ok(())
}

// Tells what is found behind a stop.
fn tell_found(way: &str, k: u64, is_reached: bool, found: &str, told: &mut Told) {
    if is_reached {
        told.tell(format_args!("{way}, call {k}: {found}"));
    } else {
        told.tell(format_args!("{way}, behind the last call: {found}"));
    }
}

// Stops at a call. Answers whether it was reached, and what is told of the disk then.
fn stop_at(
    alloc: Global,
    trial: Trial<'_>,
    ground: &[u8],
    k: u64,
    picks: &[(u64, u8)],
) -> io::Result<(bool, String)> {
    let disk = at_rest(alloc, ground)?;
    let stopped = match trial {
        Trial::Story {
            script,
            shown,
            front,
        } => stop_play(alloc, disk, script, k, picks, shown, front),
        Trial::Opening { shown, checked } => stop_open(alloc, disk, k, picks, shown, checked),
        Trial::Format { area, version } => stop_making(alloc, disk, area, version, k, picks),
        Trial::Upgrade { shown } => return stop_upgrading(alloc, disk, k, picks, shown),
        Trial::Copy { old, shown, area } => {
            return stop_copying(alloc, old, shown, disk, area, k, picks);
        }
    };
    Ok(stopped?)
}

/// Carries a task out on a disk with a failure at this call, and stops the disk. Answers also
/// whether the call was reached.
pub fn run_until(
    alloc: Global,
    task: Task,
    disk: MemDisk,
    script: &[u8],
    k: u64,
    picks: &[(u64, u8)],
) -> (Ran, bool, MemDisk) {
    let mut disk = disk;
    disk.fail_at(k);
    let (ran, disk) = run_on(alloc, task, disk, script);
    let is_reached = disk.faults() > 0;
    (ran, is_reached, disk.stop(picks))
}

// Stops a script, and then makes a counter more.
fn stop_play(
    alloc: Global,
    disk: MemDisk,
    script: &[u8],
    k: u64,
    picks: &[(u64, u8)],
    shown: &str,
    front: &str,
) -> Result<(bool, String), AllocError> {
    let (played, is_reached, disk) = run_until(alloc, to_play(alloc), disk, script, k, picks);
    let more = go_on(alloc, disk);
    let places = may_show(text(&played.out));
    let told = unlike(alloc, shown, places, text(&more.out), front)?;
    Ok((is_reached, told))
}

// What is shown, where no text from the first place to the last has it behind the front.
fn unlike(
    alloc: Global,
    shown: &str,
    places: (u64, u64),
    more: &str,
    front: &str,
) -> Result<String, AllocError> {
    let (first, last) = places;
    match behind(front, more) {
        Some(found) if is_among(shown, first, last, found) => Ok(String::new(alloc)),
        _ => format!(in alloc; "not as told of places {first} to {last}:\n{more}"),
    }
}

// Makes a counter more and shows all.
fn go_on(alloc: Global, disk: MemDisk) -> Ran {
    let (_, disk) = run_on(alloc, to_play(alloc), disk, b"c1 make counter y\nturn");
    let (shown, _) = run_on(alloc, to_show(alloc), disk, &[]);
    shown
}

/// What is shown behind the front and before the counter that was made last.
pub fn behind<'a>(front: &str, shown: &'a str) -> Option<&'a str> {
    shown.strip_prefix(front)?.strip_suffix("counter y\n  0\n")
}

/// The last place that is known to be kept, and the last that was answered.
pub fn may_show(said: &str) -> (u64, u64) {
    let kept = last_number(said, ": kept ").max(last_number(said, ": flipped "));
    (kept, last_number(said, ": place "))
}

// The number behind the last such word, or 0.
fn last_number(response: &str, word: &str) -> u64 {
    let mut found = 0;
    for line in response.lines() {
        if let Some((_, number)) = line.split_once(word) {
            found = number.parse().unwrap_or(0);
        }
    }
    found
}

/// Whether one of the texts from the first to the last is this one. A line `=` stands for the text
/// before it.
pub fn is_among(texts: &str, first: u64, last: u64, found: &str) -> bool {
    let mut at = 0u64;
    let mut is_found = false;
    for text in texts.split(".\n") {
        if text != "=\n" {
            is_found = text == found;
        }
        if at >= first && at <= last && is_found {
            return true;
        }
        at = at.saturating_add(1);
    }
    false
}

// Opens a disk with a failure at this call, and stops it. Answers whether the call was reached.
fn open_until(alloc: Global, disk: MemDisk, k: u64, picks: &[(u64, u8)]) -> (bool, MemDisk) {
    let (_, is_reached, disk) = run_until(alloc, to_show(alloc), disk, &[], k, picks);
    (is_reached, disk)
}

// Whether a disk shows this, and is checked as that behind it.
fn goes_on(alloc: Global, disk: MemDisk, shown: &str, checked: &str) -> bool {
    let (opened, counted) = show_and_check(alloc, disk);
    text(&opened.out) == shown && text(&counted.out) == checked
}

// Stops an opening three times over at one call, and then opens the disk to the end.
fn stop_open(
    alloc: Global,
    disk: MemDisk,
    k: u64,
    picks: &[(u64, u8)],
    shown: &str,
    checked: &str,
) -> Result<(bool, String), AllocError> {
    let (is_reached, disk) = open_until(alloc, disk, k, picks);
    let (between, disk) = run_on(alloc, to_check(alloc), disk, &[]);
    let (_, disk) = open_until(alloc, disk, k, picks);
    let (_, disk) = open_until(alloc, disk, k, picks);
    let end = if goes_on(alloc, disk, shown, checked) {
        ""
    } else {
        ", and it does not go on"
    };
    let told = format!(in alloc; "{}{end}", text(&between.out).trim_end())?;
    Ok((is_reached, told))
}

// Stops a format.
fn stop_making(
    alloc: Global,
    disk: MemDisk,
    area: u64,
    version: u8,
    k: u64,
    picks: &[(u64, u8)],
) -> Result<(bool, String), AllocError> {
    let task = to_format(alloc, area, version);
    let (_, is_reached, disk) = run_until(alloc, task, disk, &[], k, picks);
    let (shown, _) = run_on(alloc, to_show(alloc), disk, &[]);
    let told = format!(in alloc; "shows\n{}{}", text(&shown.out), text(&shown.err))?;
    Ok((is_reached, told))
}

// Stops a copy of the store in these bytes.
fn stop_copying(
    alloc: Global,
    old: &[u8],
    shown: &str,
    disk: MemDisk,
    area: u64,
    k: u64,
    picks: &[(u64, u8)],
) -> io::Result<(bool, String)> {
    let mut disk = disk;
    disk.fail_at(k);
    let (_, from, disk) = copy_on(alloc, at_rest(alloc, old)?, disk, area, &[]);
    let is_reached = disk.faults() > 0;
    let (found, _) = run_on(alloc, to_show(alloc), disk.stop(picks), &[]);
    let end = if bytes_of(alloc, from)?.as_slice() == old {
        ""
    } else {
        ", and the old disk has changed"
    };
    Ok((
        is_reached,
        format!(in alloc; "{}{end}", in_short(&found, shown))?,
    ))
}

// What a disk shows behind a stop of a copy, in few words, where the old one shows this text.
fn in_short<'a>(found: &'a Ran, shown: &str) -> &'a str {
    if found.status != 0 {
        return text(&found.err).trim_end();
    }
    let out = text(&found.out);
    if out.is_empty() {
        "no collection"
    } else if out == shown {
        "the copy"
    } else {
        "another content"
    }
}
