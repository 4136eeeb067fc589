// What the program does for a command, on any disk.
ghost use Rattle.std.specs.Prelude.{◌≡◌, ◌⊎◌, ℕ, List, Ok, Err, OnOk, IfOk, IfErr};
ghost use Rattle.std.specs.Prelude.{MatchResult, replicate};
ghost use Rattle.disk_model.specs.Disk.{ReadsOnly};
ghost use Rattle.recovery.specs.Openings.{KeepsContent};
ghost use Rattle.recovery.specs.Refusals.{OpeningLeaves};
ghost use Rattle.talks.specs.Requests.{nobody};
ghost use Rattle.boost.specs.Effects.{ArePlayedOn, IsPlayedOn, IsPlayedAnew, IsLeftByPlay};
ghost use Rattle.boost.specs.Effects.{StartsFrom, IsFormatted, IsShown, IsCounted, IsDone, Leaves};
ghost use Rattle.boost.specs.Effects.{IsShownAs, ShowLeaves, IsSeen, IsSurveyed, FormatLeaves};
ghost use Rattle.script.specs.Scripts.{IsScriptOf};
ghost use Rattle.boost.specs.declared.commands.failure.Failure.{Failure};
ghost use Rattle.boost.specs.Commands.{IsPlay, IsUnderstood, IsOfStore, IsWhyUnplayed};
ghost use Rattle.boost.specs.Commands.{IsWhyUndone, IsNotUnderstoodAt, status_of};

mod copying;
mod failure;
mod showing;
mod stored_run;
mod surveying;
mod upgrading;

use crate::Task;
use calls::Refusal;
pub use copying::run_copy;
use disk_model::{Disk, MemDisk};
pub use failure::Failure;
use recovery::{find, format_as, inspect, open};
use script::{Line, parse};
use showing::{show_collections, show_counts};
use std::alloc::Global;
use std::io::{self, BufWriter, Write};
pub use stored_run::STORED_RUN;
use stored_run::demo;
use surveying::tell_survey;
use talks::Player;
use upgrading::upgrade_store;
use world::World;

/// Carries a command out on a disk, and answers the status of the program with the disk. Play runs
/// `script`; the other commands do not look at it. The paths of a task are not looked at.
///
/// - Format makes the disk an empty store, in the format of the number that the task names.
/// - Play opens the store and runs the script. For each line that is not passed over it prints the
///   line's number and its answer.
/// - Show opens the store. For each collection, in the order of making, it prints a line with its
///   kind and name, and then each item in a line of its own, after two spaces. Where the task asks
///   that nothing is written, what is unfinished is undone in memory alone.
/// - Check prints how many collections, unfinished transactions and journal records the store has.
///   It writes nothing.
/// - Stat prints the format of the store, what room it takes and has, what it counts, and of each
///   collection how many items it holds and how many bytes of an image it takes, in lines or as a
///   JSON object. It writes nothing.
/// - Upgrade brings the store to format 2 in its place, and prints `format 2`. One whose area
///   in use is of format 2 already is opened alone.
/// - Demo runs a stored script on a disk in memory of its own. It prints what Play does, and then
///   what Show does. It leaves `disk` alone.
///
/// To open a store is to undo the transactions that have not ended, which is written to the disk.
/// Where there is no store, or a damaged one, only a Format writes.
/// The memory that it takes is bounded by the bytes of the area in use, as `recovery::open` says.
/// Show and Stat hold the items of one collection at a time beside it, and Stat an image.
///
/// What a stop leaves, of a disk at rest that reads true and whose bytes are sound: of a Show and
/// of an Upgrade the content; of a Play the content that a beginning of what its lines committed
/// gives, which from each line on that was answered that so much is kept has that; of a Format what
/// `recovery::format_as` says. A Format for which the disk has not the room, or has more, leaves
/// the disk as it was. Output is held in a buffer, so it comes at the end and where the buffer is
/// full.
///
/// The status is 0 where the command was done; lines of the script that were refused count as done.
/// Of a Show it says that a store was opened, or found where nothing is to be written, of a Check
/// and a Stat that one was counted, and of an Upgrade that one is in format 2, where the disk read
/// true.
/// Else it is 3 for a script with a line that is not understood: no line was run, and the disk is
/// as it was. It is 1 where the store refused the command, or where memory was refused. `err` gets
/// a text then, as `Failure` says. It is 4, with no text, where output could not be written. After
/// a Play with status 1 or 4 a beginning of the lines was carried out, or none.
pub fn run<D: Disk, O: Write, E: Write>(
    alloc: Global,
    task: &Task,
    disk: D,
    script: &[u8],
    out: &mut O,
    err: &mut E,
) -> (u8, D)
    ensures status { (result.0 ≡ 0) ⊎ ((result.0 ≡ 1) ⊎ ((result.0 ≡ 3) ⊎ (result.0 ≡ 4))) }
    ensures done { result.0 ≡ 0 → IsDone ⟦<D as Disk>⟧
        (IsPlayedAnew ⟦<MemDisk as Disk>⟧ STORED_RUN.now) task.now script.now disk result.1 }
    ensures not_understood { result.0 ≡ 3 →
        IsPlay task.now × ((line : ℕ) × IsNotUnderstoodAt script.now line) }
    ensures untouched { result.0 ≡ 3 → result.1 ≡ disk }
    ensures refused { result.0 ≡ 1 → IsPlay task.now → IsUnderstood script.now ⊎
        (result.1 ≡ disk) }
    ensures any_moment { Leaves ⟦<D as Disk>⟧ task.now script.now disk result.1 }
    ensures silent { (result.0 ≡ 0) ⊎ (result.0 ≡ 4) → err.new ≡ err.old }
{
    match carry_out(alloc, task, disk, script, out) {
        (Ok(()), disk) => (0, disk),
        (Err(failure), disk) => (report(&failure, err), disk),
    }
}

/// Writes a line that says why a command was not done, and answers the status: 1, 3 or 4. Of
/// `Unwritten` it writes nothing. Where the text cannot be written, that changes nothing.
pub fn report<E: Write>(failure: &Failure<'_>, err: &mut E) -> u8
    ensures status { result ≡ status_of failure.now }
    ensures silent { failure.now ≡ Failure.Unwritten → err.new ≡ err.old }
{
    if !matches!(failure, Failure::Unwritten) {
        let _written = writeln!(err, "{failure}");
        let _flushed = err.flush();
    }
    failure.status()
}

// Carries a command out, with its output in a buffer that is empty at the end.
fn carry_out<D: Disk, O: Write>(
    alloc: Global,
    task: &Task,
    disk: D,
    script: &[u8],
    out: &mut O,
) -> (Result<(), Failure<'static>>, D)
    ensures done { OnOk result.0 (IsDone ⟦<D as Disk>⟧
        (IsPlayedAnew ⟦<MemDisk as Disk>⟧ STORED_RUN.now) task.now script.now disk result.1) }
    ensures why { IfErr result.0 (IsWhyUndone task.now script.now (result.1 ≡ disk)) }
    ensures any_moment { Leaves ⟦<D as Disk>⟧ task.now script.now disk result.1 }
{
    let Ok(mut out) = BufWriter::new(alloc, out) else {
        return (Err(Failure::Refused(Refusal::NoMemory)), disk);
    };
    let (done, disk) = perform(alloc, task, disk, script, &mut out);
    match out.flush() {
        Ok(()) => (done, disk),
        Err(_) => (Err(Failure::Unwritten), disk),
    }
}

// Does what a command asks for.
fn perform<D: Disk, O: Write>(
    alloc: Global,
    task: &Task,
    disk: D,
    script: &[u8],
    out: &mut O,
) -> (Result<(), Failure<'static>>, D)
    ensures done { OnOk result.0 (IsDone ⟦<D as Disk>⟧
        (IsPlayedAnew ⟦<MemDisk as Disk>⟧ STORED_RUN.now) task.now script.now disk result.1) }
    ensures why { IfErr result.0 (IsWhyUndone task.now script.now (result.1 ≡ disk)) }
    ensures any_moment { Leaves ⟦<D as Disk>⟧ task.now script.now disk result.1 }
{
    match task {
        Task::Format { area, version, .. } => format_disk(disk, *area, *version),
        Task::Play { .. } => play_script(alloc, disk, script, out),
        Task::Show { read_only, .. } => show(alloc, disk, *read_only, out),
        Task::Check { .. } => check(alloc, disk, out),
        Task::Stat { json, .. } => stat(alloc, disk, *json, out),
        Task::Upgrade { .. } => upgrade_store(alloc, disk, out),
        Task::Demo => (demo(alloc, out), disk),
    }
}

// Makes the disk an empty store, of the version of this number.
fn format_disk<D: Disk>(disk: D, area: u64, version: u8) -> (Result<(), Failure<'static>>, D)
    ensures why { IfErr result.0 IsOfStore }
    ensures done { OnOk result.0 (IsFormatted ⟦<D as Disk>⟧ version area disk result.1) }
    ensures formatting { FormatLeaves ⟦<D as Disk>⟧ version area disk result.1 }
{
    let mut disk = disk;
    match format_as(&mut disk, area, version) {
        Ok(()) => (Ok(()), disk),
        Err(refusal) => (Err(Failure::Refused(refusal)), disk),
    }
}

// Runs a script on the store of a disk.
fn play_script<D: Disk, O: Write>(
    alloc: Global,
    disk: D,
    script: &[u8],
    out: &mut O,
) -> (Result<(), Failure<'static>>, D)
    ensures done { OnOk result.0 (IsUnderstood script.now ×
        (D.is_honest result.1 → IsPlayedOn ⟦<D as Disk>⟧ script.now disk result.1)) }
    ensures why { IfErr result.0 (IsWhyUnplayed script.now (result.1 ≡ disk)) }
    ensures left { D.is_honest result.1 →
        IsLeftByPlay ⟦<D as Disk>⟧ script.now disk result.1 }
{
    match parse(alloc, script) {
        Ok(lines) => play_lines(alloc, disk, lines, out),
        Err(error) => (Err(Failure::from(error)), disk),
    }
}

// The player of a store that is opened. Where the disk is at rest and reads true, the past of its
// world begins with the content of the store, and a stop at any moment of the opening leaves that
// content.
fn open_player<D: Disk>(alloc: Global, disk: D) -> Result<Player<D>, (Refusal, D)>
    ensures clients { IfOk result (λ player. player.clients ≡ replicate 64 nobody) }
    ensures past { IfOk result (λ player. D.is_honest player.world.keeper.disk →
        StartsFrom ⟦<D as Disk>⟧ disk player.world) }
    ensures kept { IfOk result (λ player. D.is_honest player.world.keeper.disk →
        KeepsContent D.seen D.may_leave D.moment D.left_since disk player.world.keeper.disk) }
    ensures left_in_refusal { IfErr result (λ x. OpeningLeaves ⟦<D as Disk>⟧ disk x.1) }
{
    let (book, keeper) = open(alloc, disk)?;
    Ok(Player::new(World::new(alloc, book, keeper)?))
}

// Runs lines on the store of a disk.
fn play_lines<D: Disk, O: Write>(
    alloc: Global,
    disk: D,
    lines: Vec<Line>,
    out: &mut O,
) -> (Result<(), Failure<'static>>, D)
    ensures why { IfErr result.0 IsOfStore }
    ensures lines { OnOk result.0 (D.is_honest result.1 →
        ArePlayedOn ⟦<D as Disk>⟧ lines.items disk result.1) }
    ensures left { (script : List ℕ) → IsScriptOf lines.items script → D.is_honest result.1 →
        IsLeftByPlay ⟦<D as Disk>⟧ script disk result.1 }
{
    match open_player(alloc, disk) {
        Ok(mut player) => {
            let done = player.play_lines(lines, out);
            (written(done), player.into_disk())
        }
        Err((refusal, disk)) => (Err(Failure::Refused(refusal)), disk),
    }
}

// That output could not be written ends a command.
fn written(done: io::Result<()>) -> Result<(), Failure<'static>>
    ensures done { MatchResult done (λ _. result ≡ Ok tt) (λ _. result ≡ Err Failure.Unwritten) }
    ensures why { IfErr result IsOfStore }
{
    match done {
        Ok(()) => Ok(()),
        Err(_) => Err(Failure::Unwritten),
    }
}

// Prints the content of the store of a disk, which is opened where it may be written.
fn show<D: Disk, O: Write>(
    alloc: Global,
    disk: D,
    read_only: bool,
    out: &mut O,
) -> (Result<(), Failure<'static>>, D)
    ensures why { IfErr result.0 IsOfStore }
    ensures done { OnOk result.0 (IsShownAs ⟦<D as Disk>⟧ read_only disk result.1) }
    ensures shown { ShowLeaves ⟦<D as Disk>⟧ read_only disk result.1 }
{
    if read_only {
        show_as_it_is(alloc, disk, out)
    } else {
        show_opened(alloc, disk, out)
    }
}

// Opens the store of a disk, and prints its content.
fn show_opened<D: Disk, O: Write>(
    alloc: Global,
    disk: D,
    out: &mut O,
) -> (Result<(), Failure<'static>>, D)
    ensures why { IfErr result.0 IsOfStore }
    ensures done { OnOk result.0 (D.is_honest result.1 → IsShown ⟦<D as Disk>⟧ disk result.1) }
    ensures shown { OpeningLeaves ⟦<D as Disk>⟧ disk result.1 }
{
    match open(alloc, disk) {
        Ok((book, keeper)) => {
            let done = show_collections(&book.into_parts(), out);
            (done, keeper.into_disk())
        }
        Err((refusal, disk)) => (Err(Failure::Refused(refusal)), disk),
    }
}

// Prints the content of the store of a disk, and writes nothing to the disk.
fn show_as_it_is<D: Disk, O: Write>(
    alloc: Global,
    disk: D,
    out: &mut O,
) -> (Result<(), Failure<'static>>, D)
    ensures why { IfErr result.0 IsOfStore }
    ensures done { OnOk result.0 (IsSeen ⟦<D as Disk>⟧ disk result.1) }
    ensures only_read { ReadsOnly D.seen D.may_leave D.moment D.left_since disk result.1 }
{
    let mut disk = disk;
    match find(alloc, &mut disk) {
        Ok(found) => (show_collections(found.collections(), out), disk),
        Err(refusal) => (Err(Failure::Refused(refusal)), disk),
    }
}

// Counts what the store of a disk holds, and writes nothing to the disk.
fn check<D: Disk, O: Write>(
    alloc: Global,
    disk: D,
    out: &mut O,
) -> (Result<(), Failure<'static>>, D)
    ensures why { IfErr result.0 IsOfStore }
    ensures done { OnOk result.0 (D.is_honest result.1 → IsCounted ⟦<D as Disk>⟧ disk) }
    ensures only_read { ReadsOnly D.seen D.may_leave D.moment D.left_since disk result.1 }
{
    let mut disk = disk;
    match inspect(alloc, &mut disk) {
        Ok(counts) => (show_counts(&counts, out), disk),
        Err(refusal) => (Err(Failure::Refused(refusal)), disk),
    }
}

// Tells what room the store of a disk takes and has, and writes nothing to the disk.
fn stat<D: Disk, O: Write>(
    alloc: Global,
    disk: D,
    json: bool,
    out: &mut O,
) -> (Result<(), Failure<'static>>, D)
    ensures why { IfErr result.0 IsOfStore }
    ensures done { OnOk result.0 (IsSurveyed ⟦<D as Disk>⟧ disk result.1) }
    ensures only_read { ReadsOnly D.seen D.may_leave D.moment D.left_since disk result.1 }
{
    let mut disk = disk;
    match find(alloc, &mut disk) {
        Ok(found) => match found.survey(alloc) {
            Ok(survey) => (tell_survey(&survey, found.collections(), json, out), disk),
            Err(refusal) => (Err(Failure::Refused(refusal)), disk),
        },
        Err(refusal) => (Err(Failure::Refused(refusal)), disk),
    }
}
