// The script that is being written.
use crate::plays::values::{bytes, not_understood, number, three};
use crate::plays::workbench::Workbench;
use std::alloc::{AllocError, Global};
use std::io::{self, Write};
use std::ops::Range;

/// Adds a line.
pub fn add_line(script: &mut Vec<u8>, line: &str) -> Result<(), AllocError> {
    script.extend_from_slice(line.as_bytes())?;
    script.extend_from_slice(b"\n")
}

/// Adds bytes as they are.
pub fn add_bytes(alloc: Global, bench: &mut Workbench, text: &str) -> io::Result<()> {
    let added = bytes(alloc, text)?;
    Ok(bench.script.extend_from_slice(added.as_slice())?)
}

/// Adds lines, with `; ` between each two, for each number from the first to the end, which is left
/// out; `#` in a line stands for the number.
pub fn repeat(bench: &mut Workbench, text: &str) -> io::Result<()> {
    let (first, end, lines) = three(text)?;
    for n in number(first)?..number(end)? {
        add_lines(&mut bench.script, lines, n)?;
    }
    Ok(())
}

/// Adds rounds, one for each number from the first to the end, which is left out: lines, then lines
/// for each number from another one to its end, then lines. Between these three stands ` | `. `#`
/// stands for the number of the round, and `%` for the other one.
pub fn add_rounds(bench: &mut Workbench, text: &str) -> io::Result<()> {
    let (first, end, text) = three(text)?;
    let (from, to, text) = three(text)?;
    let mut parts = text.split(" | ");
    let (Some(head), Some(lines), Some(tail)) = (parts.next(), parts.next(), parts.next()) else {
        return Err(not_understood());
    };
    let (from, to) = (number(from)?, number(to)?);
    for round in number(first)?..number(end)? {
        add_lines(&mut bench.script, head, round)?;
        add_counted(&mut bench.script, lines, round, from..to)?;
        add_lines(&mut bench.script, tail, round)?;
    }
    Ok(())
}

// Adds lines with a number in the place of their `#`.
fn add_lines(script: &mut Vec<u8>, lines: &str, number: u64) -> io::Result<()> {
    for line in lines.split("; ") {
        add_numbered(script, line, number)?;
    }
    Ok(())
}

// Adds lines once for each of the numbers.
fn add_counted(
    script: &mut Vec<u8>,
    lines: &str,
    round: u64,
    numbers: Range<u64>,
) -> io::Result<()> {
    for number in numbers {
        for line in lines.split("; ") {
            add_twice_numbered(script, line, round, number)?;
        }
    }
    Ok(())
}

// Adds a line with the number of a round in the place of its `#`, and another one in that of the
// `%` behind it.
fn add_twice_numbered(script: &mut Vec<u8>, line: &str, round: u64, number: u64) -> io::Result<()> {
    let Some((front, back)) = line.split_once("%") else {
        return add_numbered(script, line, round);
    };
    match front.split_once("#") {
        Some((start, between)) => writeln!(script, "{start}{round}{between}{number}{back}"),
        None => writeln!(script, "{front}{number}{back}"),
    }
}

// Adds a line with a number in the place of its `#`.
fn add_numbered(script: &mut Vec<u8>, line: &str, number: u64) -> io::Result<()> {
    match line.split_once("#") {
        Some((front, back)) => writeln!(script, "{front}{number}{back}"),
        None => Ok(add_line(script, line)?),
    }
}
