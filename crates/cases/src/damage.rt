// Stores with bytes that no program wrote: what a check and a show make of them.
use crate::plays::disks::{changed, disk_of};
use crate::plays::runs::{Ran, run_on, text, to_check, to_show};
use crate::plays::through_store::play;
use crate::plays::told::Told;
use crate::plays::values::{byte, bytes, number, three};
use crate::plays::workbench::{Workbench, empty_store};
use disk_model::MemDisk;
use gate_block::layout::AREAS_AT;
use std::alloc::{AllocError, Global};
use std::io;
use std::sync::Wait;

// Adds the lines of a text to a line.
fn add_lines(line: &mut String, text: &str) -> Result<(), AllocError> {
    for part in text.lines() {
        line.push_str(" / ")?;
        line.push_str(part)?;
    }
    Ok(())
}

// What a run answered: its status, and what it printed, in one line.
fn line_of(alloc: Global, ran: &Ran) -> Result<String, AllocError> {
    let mut line = format!(in alloc; "{}", ran.status)?;
    add_lines(&mut line, text(&ran.out))?;
    add_lines(&mut line, text(&ran.err))?;
    Ok(line)
}

// What a check answered, and what a show and an opening for threads answered, where that is
// otherwise.
fn joined(checked: String, shown: &str, is_shared_alike: bool) -> Result<String, AllocError> {
    let mut found = checked;
    if shown != found.as_str() {
        found.push_str(", shows ")?;
        found.push_str(shown)?;
    }
    if !is_shared_alike {
        found.push_str(", and is opened otherwise for threads")?;
    }
    Ok(found)
}

// What a check answers, and what a show and an opening for threads answer, where that is otherwise.
fn found_on(rt: &(impl Wait + AllocGlobal), disk: MemDisk) -> Result<String, AllocError> {
    let alloc = rt.alloc();
    let (checked, disk) = run_on(alloc, to_check(alloc), disk, &[]);
    let (shared, disk) = play(rt, disk, &[])?;
    let (shown, _) = run_on(alloc, to_show(alloc), disk, &[]);
    joined(
        line_of(alloc, &checked)?,
        line_of(alloc, &shown)?.as_str(),
        shown.is_alike(&shared.ran),
    )
}

// An empty store whose first area begins with these bytes.
fn store_with(alloc: Global, text: &str) -> io::Result<MemDisk> {
    let area = bytes(alloc, text)?;
    changed(empty_store(alloc)?, AREAS_AT, area.as_slice())
}

/// An empty store whose first area begins with these bytes: tells what a check and a show make of
/// it.
pub fn tell_area(rt: &(impl Wait + AllocGlobal), text: &str, told: &mut Told) -> io::Result<()> {
    let found = found_on(rt, store_with(rt.alloc(), text)?)?;
    told.tell_brief(found.as_str());
    Ok(())
}

// What a check and a show make of a disk of these bytes but for one.
fn found_with(
    rt: &(impl Wait + AllocGlobal),
    bytes: &[u8],
    at: u64,
    value: u8,
) -> io::Result<String> {
    let disk = changed(disk_of(rt.alloc(), bytes)?, at, &[value])?;
    Ok(found_on(rt, disk)?)
}

/// Changes each byte of the disk from the first to the end, which is left out, to a value, one at a
/// time. Tells what a check and a show make of it, where that is not what they made of the byte
/// before. The disk of the case stays.
pub fn change_each(
    rt: &(impl Wait + AllocGlobal),
    bench: &mut Workbench,
    text: &str,
    told: &mut Told,
) -> io::Result<()> {
    let (first, end, value) = three(text)?;
    let (first, end, value) = (number(first)?, number(end)?, byte(value)?);
    let bytes = bench.bytes(rt.alloc())?;
    change_all(rt, bytes.as_slice(), first, end, value, told)
}

fn change_all(
    rt: &(impl Wait + AllocGlobal),
    bytes: &[u8],
    first: u64,
    end: u64,
    value: u8,
    told: &mut Told,
) -> io::Result<()> {
    let mut last = String::new(rt.alloc());
    for at in first..end {
        let found = found_with(rt, bytes, at, value)?;
        if found.as_str() != last.as_str() {
            told.add_text(format_args!("{at}: "));
            told.tell_brief(found.as_str());
        }
        last = found;
    }
    Ok(())
}
