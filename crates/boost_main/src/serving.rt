// Serving a script: each of its clients runs in a thread of its own.
ghost use Rattle.std.specs.Prelude.{◌≡◌, ◌⊎◌, ℕ, List, All, OnOk, IfErr, IsOk, MatchResult, None};
ghost use Rattle.std.specs.Prelude.{false};
ghost use Rattle.boost.specs.declared.commands.failure.Failure.{Failure};
ghost use Rattle.boost.specs.Commands.{IsUnderstood, IsOfStore, IsWhyUnplayed, IsNotUnderstoodAt};
ghost use Rattle.boost_main.specs.Serving.{WasServed};
ghost use Rattle.fizgaloms.specs.Works.{IsLeftByWork};
ghost use Rattle.script.specs.Scripts.{IsScriptOf};

use crate::script_work::Script;
use boost::{Failure, report};
use calls::Refusal;
use disk_model::Disk;
use fizgaloms::{Closed, all_ended, run};
use script::{Line, parse};
use std::alloc::{AllocGlobal, Global};
use std::io::{BufWriter, Write};
use std::rt::Clock;
use std::sync::Wait;
use std::thread::Threads;
use talks::{Response, Transcript};

// What a thread answers of the client that it ran.
type Told = Result<Option<Transcript>, Refusal>;

/// Opens the store of a disk, runs each client of a script in a thread of its own, beside a thread
/// that brings what they commit to the disk, and prints, once all have ended, each client's number,
/// the number and the answer of each of its lines, and whether its last ticket is kept. Lines
/// without a client are passed over. Answers the status of the program with the disk, how much of
/// what the clients committed is kept there, and what ended keeping early, if something did.
///
/// On a disk at rest that reads true until it is open, and whose bytes are sound, a stop in the
/// opening leaves the content, and one behind the call a beginning of what the clients committed,
/// which has all that is kept. At status 0 each client that has lines has a thread, whose
/// transcript tells what these lines were answered, by the client of the store that the thread was
/// lent.
///
/// The status is 0 where all were served, lines that were refused among them; else a text goes to
/// `err`, as `Failure` says: 3 for a script with a line that is not understood, of which no line is
/// run and for which the store is not opened; 1 for a refusal that answers no line, where the store
/// is not opened, or a thread or memory is wanting; and 4, with no text, where output could not be
/// written. What a disk's fault, or a full one, takes from a client its own lines say.
///
/// Where `why` is set and keeping ended early, so that tickets are lost, a line of `err` says what
/// ended it, whatever the status is.
pub fn serve<D: Disk + Drop + Send, R: Threads + Wait + Clock + AllocGlobal + Sync>(
    rt: &R,
    disk: D,
    script: &[u8],
    why: bool,
    out: &mut impl Write,
    err: &mut impl Write,
) -> (u8, Closed<D>)
    ensures status { (result.0 ≡ 0) ⊎ ((result.0 ≡ 1) ⊎ ((result.0 ≡ 3) ⊎ (result.0 ≡ 4))) }
    ensures understood { result.0 ≡ 0 → IsUnderstood script.now }
    ensures not_understood { result.0 ≡ 3 → (line : ℕ) × IsNotUnderstoodAt script.now line }
    ensures untouched { result.0 ≡ 3 → result.1.disk ≡ disk }
    ensures served { result.0 ≡ 0 →
        WasServed ⟦<D as Disk>⟧ script.now disk result.1.disk result.1.kept }
    ensures refused { result.0 ≡ 1 → IsUnderstood script.now ⊎ (result.1.disk ≡ disk) }
    ensures left { IsLeftByWork ⟦<D as Disk>⟧ disk result.1.disk result.1.kept }
    ensures silent { why ≡ false → (result.0 ≡ 0) ⊎ (result.0 ≡ 4) → err.new ≡ err.old }
{
    let (served, closed) = serve_script(rt, disk, script, out);
    let status = match served {
        Ok(()) => 0,
        Err(failure) => report(&failure, err),
    };
    if why {
        tell_end(closed.ended_by, err);
    }
    (status, closed)
}

// Writes a line that says what ended keeping early, if something did. Where the line cannot be
// written, that changes nothing.
fn tell_end(ended_by: Option<Refusal>, err: &mut impl Write)
    ensures { ended_by ≡ None → err.new ≡ err.old }
{
    if let Some(refusal) = ended_by {
        let _written = writeln!(err, "boost: keeping ended: {}", Response::Refused(refusal));
        let _flushed = err.flush();
    }
}

// Serves a script on the store of a disk.
fn serve_script<D: Disk + Drop + Send, R: Threads + Wait + Clock + AllocGlobal + Sync>(
    rt: &R,
    disk: D,
    script: &[u8],
    out: &mut impl Write,
) -> (Result<(), Failure<'static>>, Closed<D>)
    ensures understood { OnOk result.0 (IsUnderstood script.now) }
    ensures served { OnOk result.0
        (WasServed ⟦<D as Disk>⟧ script.now disk result.1.disk result.1.kept) }
    ensures why { IfErr result.0 (IsWhyUnplayed script.now (result.1.disk ≡ disk)) }
    ensures left { IsLeftByWork ⟦<D as Disk>⟧ disk result.1.disk result.1.kept }
{
    match parse(rt.alloc(), script) {
        Ok(lines) => serve_lines(rt, disk, lines.as_slice(), out),
        Err(error) => (Err(Failure::from(error)), untouched(disk)),
    }
}

// Serves lines on the store of a disk.
fn serve_lines<D: Disk + Drop + Send, R: Threads + Wait + Clock + AllocGlobal + Sync>(
    rt: &R,
    disk: D,
    lines: &[Line],
    out: &mut impl Write,
) -> (Result<(), Failure<'static>>, Closed<D>)
    ensures why { IfErr result.0 IsOfStore }
    ensures served { OnOk result.0 ((script : List ℕ) → IsScriptOf lines.now script →
        WasServed ⟦<D as Disk>⟧ script disk result.1.disk result.1.kept) }
    ensures left { IsLeftByWork ⟦<D as Disk>⟧ disk result.1.disk result.1.kept }
{
    match Script::new(rt.alloc(), lines) {
        Ok(script) => {
            let (ended, closed) = run(rt, disk, &script, script.threads());
            (print(rt.alloc(), ended, out), closed)
        }
        Err(refusal) => (Err(Failure::Refused(refusal)), untouched(disk)),
    }
}

// A disk whose store was not opened. A stop leaves the content, as nobody touched it.
fn untouched<D: Disk>(disk: D) -> Closed<D>
    ensures same { result.disk ≡ disk }
    ensures left { IsLeftByWork ⟦<D as Disk>⟧ disk result.disk result.kept }
{
    Closed {
        disk,
        kept: 0,
        ended_by: None,
    }
}

// Prints what the clients were told, and answers whether each of them told it.
fn print(
    alloc: Global,
    ended: Result<Vec<Told>, Refusal>,
    out: &mut impl Write,
) -> Result<(), Failure<'static>>
    ensures why { IfErr result IsOfStore }
    ensures all { OnOk result (MatchResult ended (λ answers. All IsOk answers.items) (λ e. ⊥)) }
{
    let answers = ended?;
    print_all(alloc, answers.as_slice(), out)?;
    Ok(all_ended(answers.as_slice())?)
}

// Prints the transcripts among the answers, one after another.
fn print_all(alloc: Global, answers: &[Told], out: &mut impl Write) -> Result<(), Failure<'static>>
    ensures { IfErr result IsOfStore }
{
    let mut out = BufWriter::new(alloc, out)?;
    for answer in answers {
        if let Ok(Some(transcript)) = answer {
            write!(out, "{transcript}")?;
        }
    }
    Ok(out.flush()?)
}
