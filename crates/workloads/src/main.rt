//! Clients at work on a store, and what it is made of by itself: what clients in threads are
//! answered, fast structures beside plain lists, and how fast the store is.
//!
//! With the word `bench` and the words of a measurement it measures the store. With no words it
//! asks what the lines of the file `questions` ask, and prints what came of each; the file `stdout`
//! says what that must be.
#![tactic(auto)]

mod asking;
mod bench;
mod comparison;
mod system;
mod threads;
mod trouble;

use std::alloc::{AllocError, Global};
use std::io::Write;
use std::process::ExitCode;
use std::{env, fs};
use system::System;
use threads::{load, looks_on_two_shelves, second_call_during_sync, waits_for_a_job};
use trouble::Trouble;

// Measures what words with spaces between them ask for.
fn measure(rt: &(impl System + Sync), words: &str, out: &mut impl Write) -> Result<(), Trouble> {
    let words: Vec<&str> = words.split(' ').collect(rt.alloc())?;
    bench::measure(rt, words.as_slice(), out)
}

// Asks what a line asks, and writes what came of it.
fn ask(rt: &(impl System + Sync), line: &str, out: &mut impl Write) -> Result<(), Trouble> {
    let (word, rest) = line.split_once(" ").unwrap_or((line, ""));
    match word {
        "second_call_during_sync" => second_call_during_sync::run(rt, out),
        "looks_on_two_shelves" => looks_on_two_shelves::run(rt, out),
        "waits_for_a_job" => waits_for_a_job::run(rt, out),
        "load" => load::run(rt, out),
        "bench" => measure(rt, rest, out),
        "compare" => comparison::compare(rt.alloc(), rest, out),
        "remove" => Ok(fs::remove_file(rt, rest)?),
        "@" => Ok(()),
        _ => Err(Trouble::Usage),
    }
}

// Asks what the lines of the file `questions` ask, each of which is written first. A line that
// begins with `#` is passed over.
fn ask_all(rt: &(impl System + Sync), out: &mut impl Write) -> Result<(), Trouble> {
    let text = fs::read_to_string(rt, "questions")?;
    for line in text.lines().filter(|line| !line.starts_with("#")) {
        writeln!(out, "{line}")?;
        ask(rt, line, out)?;
    }
    Ok(())
}

// The words of a command line, as references into them.
fn as_words(alloc: Global, args: &Vec<String>) -> Result<Vec<&str>, AllocError> {
    args.iter().map(|word| word.as_str()).collect(alloc)
}

// Measures what the words ask for, or else asks all that the file `questions` does.
fn run<R: System + Sync>(rt: &R, words: &[&str], out: &mut impl Write) -> Result<(), Trouble> {
    match words {
        [_, "bench", asked @ ..] => bench::measure(rt, asked, out),
        [_] => ask_all(rt, out),
        _ => Err(Trouble::Usage),
    }
}

fn main(rt: HostRuntime) -> std::io::Result<ExitCode> {
    let args = env::args(&rt)?.collect(rt.alloc())?;
    let words = as_words(rt.alloc(), &args)?;
    match run(&rt, words.as_slice(), &mut rt.stdout()) {
        Ok(()) => Ok(ExitCode::SUCCESS),
        Err(trouble) => {
            let _written = eprintln!(rt; "workloads: {trouble}");
            Ok(ExitCode::FAILURE)
        }
    }
}
