//! The program: reads its command line and obeys it.
#![tactic(auto)]

mod answers;
mod arrivals;
mod coming;
mod command_line;
mod counts;
mod doorway;
mod events;
mod fifos;
mod files;
mod handing;
mod lint;
mod listen;
mod listening;
mod multiplex;
mod notes;
mod outlet;
mod script_work;
mod seat;
mod served;
mod serving;
mod shell;
mod state;
mod tagged;
mod trouble;
mod until;
mod watching;
mod words;

use boost::{Failure, report};
use calls::Refusal;
use command_line::obey;
use disk_model::Unknown;
use fifos::{Fifos, SystemFifos};
use std::alloc::{AllocError, Global};
use std::fs::File;
use std::io::{Read, Write};
use std::process::ExitCode;
use std::rt::{Clock, Env, Files};
use std::sync::Wait;
use std::thread::Threads;
use std::{env, io};

// Reads the words of a command line, as references into them.
fn read_words(alloc: Global, args: &Vec<String>) -> Result<Vec<&str>, AllocError> {
    args.iter().map(|word| word.as_str()).collect(alloc)
}

// Reads the command line and obeys it. Answers the status.
fn start<
    R: Env + Files<File = File> + Threads + Wait + Clock + AllocGlobal + Sync,
    F: Fifos + Drop + Sync,
>(
    rt: &R,
    input: impl Read + Drop + Send,
    fifos: F,
    out: &mut (impl Write + Send),
    err: &mut (impl Write + Send),
) -> io::Result<u8> {
    let alloc = rt.alloc();
    let args = env::args(rt)?.collect(alloc)?;
    let words = read_words(alloc, &args)?;
    Ok(obey::<Unknown, R, F>(rt, words.as_slice(), input, fifos, out, err))
}

fn main(rt: HostRuntime) -> ExitCode {
    let (mut out, mut err) = (rt.stdout(), rt.stderr());
    let status = match start(&rt, rt.stdin(), SystemFifos(&rt), &mut out, &mut err) {
        Ok(status) => status,
        Err(error) if error.kind() == io::ErrorKind::OutOfMemory => {
            report(&Failure::Refused(Refusal::NoMemory), &mut err)
        }
        Err(_) => {
            let _written = writeln!(err, "error: an argument is not UTF-8");
            2
        }
    };
    ExitCode::from(status)
}
