//! Plays cases that are data: each is a list of scripts and questions, on disks in memory and on
//! files, for one client and for clients in threads. What is asked and what is answered is printed,
//! and the file `stdout` says what it must be. A line that is no question ends the run.
#![tactic(auto)]

mod damage;
mod files;
mod image_bytes;
mod plays;
mod questions;
mod runs;
mod spellings;
mod sweeps;
mod system;
mod texts;
mod watched;

use plays::told::Told;
use plays::workbench::Workbench;
use std::fs;
use std::io::{self, Write};
use system::System;

// Asks what a line asks. Behind a script that is played through the store alone, what was told so
// far is printed.
fn ask(
    rt: &impl System,
    bench: &mut Workbench,
    line: &str,
    told: &mut Told,
    out: &mut impl Write,
) -> io::Result<()> {
    questions::ask(rt, bench, line, told)?;
    told.check()?;
    if line == "play_shared" {
        told.print(out)?;
    }
    Ok(())
}

// Asks what the lines of a text ask, one after another. An error is told with its line.
fn ask_all(
    rt: &impl System,
    name: &str,
    text: &str,
    told: &mut Told,
    out: &mut impl Write,
) -> io::Result<()> {
    let mut bench = Workbench::new(rt.alloc())?;
    let mut number = 0u64;
    for line in text.lines() {
        number = number.saturating_add(1);
        if let Err(error) = ask(rt, &mut bench, line, told, out) {
            told.tell(format_args!("{name}: line {number}: {error}"));
            return Err(error);
        }
    }
    bench.compared.tell(told);
    bench.talked.tell(told);
    told.check()
}

// Plays the cases of each file that is named, and prints what is told behind each.
fn play_files(
    rt: &impl System,
    names: &str,
    told: &mut Told,
    out: &mut impl Write,
) -> io::Result<()> {
    for name in names.lines() {
        let text = fs::read_to_string(rt, name)?;
        ask_all(rt, name, text.as_str(), told, out)?;
        told.print(out)?;
    }
    Ok(())
}

// Plays the cases of the files that the file `index` names, and prints what is told.
fn play_all(rt: &impl System, out: &mut impl Write) -> io::Result<()> {
    let names = fs::read_to_string(rt, "index")?;
    let mut told = Told::new(rt.alloc())?;
    let played = play_files(rt, names.as_str(), &mut told, out);
    told.print(out)?;
    played
}

fn main(rt: HostRuntime) -> io::Result<()> {
    play_all(&rt, &mut rt.stdout())
}
