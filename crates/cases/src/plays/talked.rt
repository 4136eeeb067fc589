// Scripts as talks, and talks that are cut or not heard.
use crate::plays::dialogue::{Dialogue, Heard, converse};
use crate::plays::runs::{Ran, text};
use crate::plays::told::Told;
use crate::plays::workbench::Workbench;
use boost::{Action, Failure, Line, parse};
use calls::Refusal;
use disk_model::MemDisk;
use std::alloc::{AllocError, Global};
use std::io::{self, ErrorKind};
use std::rt::Clock;
use std::sync::Wait;

// Why no talk was held.
fn not_held(failure: Failure<'_>) -> io::Error {
    match failure {
        Failure::Refused(Refusal::NoMemory) => io::Error::from(ErrorKind::OutOfMemory),
        _ => io::Error::from(ErrorKind::InvalidData),
    }
}

fn is_request(line: &Line) -> bool {
    matches!(line.what, Action::Client(..))
}

// Adds a line without its first word, which is a client, or the number of an answer.
fn add_behind(all: &mut Vec<u8>, line: &str) -> Result<(), AllocError> {
    if let Some((_, rest)) = line.split_once(" ") {
        all.extend_from_slice(rest.as_bytes())?;
    }
    all.push(b'\n')?;
    Ok(())
}

// What the clients of a script type: each request without the client, in a line of its own.
fn typed_of(alloc: Global, script: &str, lines: &[Line]) -> Result<Vec<u8>, AllocError> {
    let mut typed = Vec::new(alloc);
    let mut number = 0u64;
    let mut asked = lines.iter().filter(|line| is_request(line)).peekable();
    for line in script.lines() {
        number = number.saturating_add(1);
        if asked.next_if(|asked| asked.number == number).is_some() {
            add_behind(&mut typed, line)?;
        }
    }
    Ok(typed)
}

// What the requests of a script were answered, a line each.
fn answers_of(alloc: Global, out: &str, lines: &[Line]) -> Result<Vec<u8>, AllocError> {
    let mut answers = Vec::new(alloc);
    for (answer, line) in out.lines().zip(lines) {
        if is_request(line) {
            add_behind(&mut answers, answer)?;
        }
    }
    Ok(answers)
}

/// Holds the talk in which each request of a script that was played is a line, on a disk of the
/// same bytes. What is told there otherwise than in the play is told too.
pub fn compare(
    rt: &(impl Wait + Clock + AllocGlobal),
    bench: &mut Workbench,
    disk: MemDisk,
    script: &[u8],
    ran: &Ran,
    told: &mut Told,
) -> io::Result<()> {
    let alloc = rt.alloc();
    let Ok(lines) = parse(alloc, script) else {
        return Ok(());
    };
    let Ok(script) = str::from_utf8(script) else {
        return Ok(());
    };
    if ran.status != 0 {
        return Ok(());
    }
    let typed = typed_of(alloc, script, lines.as_slice())?;
    let answers = answers_of(alloc, text(&ran.out), lines.as_slice())?;
    let dialogue = Dialogue {
        lines: lines.as_slice(),
        typed: typed.as_slice(),
        writes: u64::MAX,
        behind: &[],
    };
    let heard = converse(rt, disk, &dialogue).map_err(not_held)?;
    bench
        .talked
        .compare_texts(text(&answers), text(&heard.text), told);
    Ok(())
}

// What is told where so many bytes of a dialogue are typed, and so many writes go well.
fn heard_of(
    rt: &(impl Wait + Clock + AllocGlobal),
    bench: &mut Workbench,
    typed: &[u8],
    writes: u64,
    behind: &[u8],
) -> io::Result<Heard> {
    let disk = bench.copy(rt.alloc())?;
    let dialogue = Dialogue {
        lines: &[],
        typed,
        writes,
        behind,
    };
    converse(rt, disk, &dialogue).map_err(not_held)
}

// A text as a line.
fn line_of(alloc: Global, text: &str) -> Result<Vec<u8>, AllocError> {
    let mut line = Vec::new(alloc);
    line.extend_from_slice(text.as_bytes())?;
    line.push(b'\n')?;
    Ok(line)
}

// Whether a talk told a beginning of what the whole one told, and took back what was open.
fn is_beginning(heard: &Heard, whole: &Heard) -> bool {
    heard.is_taken_back && whole.text.as_slice().starts_with(heard.text.as_slice())
}

// Tells of a talk how many lines it told, and what the one behind it did.
fn tell_heard(heard: &Heard, told: &mut Told) {
    let count = text(&heard.text).lines().count();
    told.add_text(format_args!("{count} told, then "));
    told.tell_last(text(&heard.behind), usize::MAX, "");
}

/// Holds the dialogue that was written with one client, cut behind each of its bytes, on a disk of
/// the same bytes each. Tells, where that differs from the cut before, how many lines were told and
/// what a talk behind it tells at a line. Then tells how many cuts told no beginning of what the
/// whole dialogue tells, or left a transaction open.
pub fn cut_each(
    rt: &(impl Wait + Clock + AllocGlobal),
    bench: &mut Workbench,
    behind: &str,
    told: &mut Told,
) -> io::Result<()> {
    let typed = bench.take_script(rt.alloc());
    let behind = line_of(rt.alloc(), behind)?;
    let behind = behind.as_slice();
    let whole = heard_of(rt, bench, typed.as_slice(), u64::MAX, behind)?;
    let mut unlike = 0u64;
    let mut before = Heard::none(rt.alloc());
    for count in 0..=typed.len() {
        let (cut, _) = typed.as_slice().split_at(count);
        let heard = heard_of(rt, bench, cut, u64::MAX, behind)?;
        if !is_beginning(&heard, &whole) {
            unlike = unlike.saturating_add(1);
        }
        if heard.text != before.text || heard.behind != before.behind {
            told.add_text(format_args!("{count} bytes: "));
            tell_heard(&heard, told);
        }
        before = heard;
    }
    let cuts = typed.len().saturating_add(1);
    told.tell(format_args!("{unlike} of {cuts} cuts otherwise"));
    Ok(())
}

/// Holds the dialogue once for each of its writes, which fails then with all behind it. Tells the
/// same.
pub fn fail_each(
    rt: &(impl Wait + Clock + AllocGlobal),
    bench: &mut Workbench,
    behind: &str,
    told: &mut Told,
) -> io::Result<()> {
    let typed = bench.take_script(rt.alloc());
    let behind = line_of(rt.alloc(), behind)?;
    let behind = behind.as_slice();
    let whole = heard_of(rt, bench, typed.as_slice(), u64::MAX, behind)?;
    let mut unlike = 0u64;
    for writes in 0..u64::MAX {
        let heard = heard_of(rt, bench, typed.as_slice(), writes, behind)?;
        if !is_beginning(&heard, &whole) {
            unlike = unlike.saturating_add(1);
        }
        if heard.text == whole.text {
            break;
        }
        told.add_text(format_args!("{writes} writes: "));
        tell_heard(&heard, told);
    }
    told.tell(format_args!("{unlike} otherwise"));
    Ok(())
}
