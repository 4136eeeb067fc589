// Commands of the program that are carried out in a way of their own, and its command line.
use crate::plays::runs::{play, to_show};
use crate::plays::through_store;
use crate::plays::told::Told;
use crate::plays::values::{not_understood, number};
use crate::plays::workbench::Workbench;
use boost::{Task, command, run};
use disk_model::MemDisk;
use std::alloc::{AllocError, Global};
use std::io::{self, ErrorKind, Write};
use std::rt::Clock;
use std::sync::Wait;

/// Plays the script that was written through the store that threads share.
pub fn play_shared(
    rt: &(impl Wait + AllocGlobal),
    bench: &mut Workbench,
    told: &mut Told,
) -> io::Result<()> {
    let alloc = rt.alloc();
    let script = bench.take_script(alloc);
    let disk = bench.take_disk(alloc)?;
    let (played, disk) = through_store::play(rt, disk, script.as_slice())?;
    bench.put_back(disk);
    played.ran.tell(bench.take_last(), told);
    Ok(())
}

/// Plays a script of one line, which stands between two marks.
pub fn play_line(
    rt: &(impl Wait + Clock + AllocGlobal),
    bench: &mut Workbench,
    text: &str,
    told: &mut Told,
) -> io::Result<()> {
    let Some(line) = text
        .strip_prefix("\"")
        .and_then(|rest| rest.strip_suffix("\""))
    else {
        return Err(not_understood());
    };
    bench.script.extend_from_slice(line.as_bytes())?;
    play(rt, bench, told)
}

// Words with a comma between each two; no words where there is no text.
fn words(alloc: Global, text: &str) -> Result<Vec<&str>, AllocError> {
    let mut words = Vec::new(alloc);
    if !text.is_empty() {
        for word in text.split(',') {
            words.push(word)?;
        }
    }
    Ok(words)
}

/// Tells what the words of a command line ask for, or the status and the text with which they are
/// refused.
pub fn understand(alloc: Global, text: &str, told: &mut Told) -> io::Result<()> {
    let words = words(alloc, text)?;
    match command(alloc, words.as_slice()) {
        Ok(asked) => {
            told.tell(format_args!("{asked:?}"));
            Ok(())
        }
        Err(error) => tell_refused(alloc, &error, told),
    }
}

fn tell_refused(alloc: Global, error: &clap::Error, told: &mut Told) -> io::Result<()> {
    let status = error.exit_code();
    let text = format!(in alloc; "{error}")?;
    told.tell(format_args!("= {status}"));
    told.tell_last(text.as_str(), usize::MAX, "! ");
    Ok(())
}

// A writer that takes so many bytes.
#[derive(Drop)]
struct Short {
    room: usize,
}

impl Write for Short {
    fn write(&mut self, buf: &[u8]) -> io::Result<usize> {
        let taken = self.room.min(buf.len());
        self.room -= taken;
        if taken == 0 {
            return Err(io::Error::from(ErrorKind::StorageFull));
        }
        Ok(taken)
    }

    fn flush(&mut self) -> io::Result<()> {
        Ok(())
    }
}

/// Carries the stored run out, then shows a disk that is no store, with room for so many bytes of
/// output and of errors.
pub fn run_short(alloc: Global, text: &str, told: &mut Told) -> io::Result<()> {
    let room = number(text)? as usize;
    let disk = MemDisk::new(alloc, 0)?;
    let (mut out, mut err) = (Short { room }, Short { room });
    let (status, disk) = run(alloc, &Task::Demo, disk, &[], &mut out, &mut err);
    tell_left(status, err.room, told);
    let (status, _) = run(alloc, &to_show(alloc), disk, &[], &mut out, &mut err);
    tell_left(status, err.room, told);
    Ok(())
}

fn tell_left(status: u8, left: usize, told: &mut Told) {
    told.tell(format_args!("= {status}, {left} bytes of errors left"));
}
