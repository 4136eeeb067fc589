// A script through the store that threads share, where the disk fails at each of its calls in turn,
// and is stopped there and behind the last one, and opened.
use crate::plays::disks::{all_as, at_rest, bytes_of};
use crate::plays::runs::{Ran, run_on, text, to_show};
use crate::plays::through_store::{Played, play};
use crate::plays::told::Told;
use crate::plays::values::not_understood;
use crate::plays::workbench::Workbench;
use crate::sweeps::faults;
use crate::sweeps::stops::{behind, is_among, may_show};
use boost::{Line, parse};
use disk_model::{Disk, MemDisk};
use std::alloc::Global;
use std::rt::Files;
use std::sync::Wait;
use std::{fs, io};

// What the bytes that no sync has reached are left as: what a read gives, or one value.
const WAYS: [Option<u8>; 4] = [None, Some(0), Some(0xff), Some(0xa7)];

// More calls than a script makes.
const MANY: u64 = 100_000;

// What a sweep did, and how much of it was not as it is told.
#[derive(Clone, Copy)]
struct Figures {
    // How many calls of the disk the script makes.
    calls: u64,
    // How often the disk was stopped, at one of them that failed or behind the last one.
    stops: u64,
    // How many disks these stops left that are not as the one before.
    disks: u64,
    // How often the opening of one of these was stopped, at one of its calls or behind the last.
    openings: u64,
    unlike: u64,
}

impl Figures {
    const NONE: Figures = Figures {
        calls: 0,
        stops: 0,
        disks: 0,
        openings: 0,
        unlike: 0,
    };

    fn tell(&self, told: &mut Told) {
        let Figures {
            calls,
            stops,
            disks,
            openings,
            unlike,
        } = *self;
        told.add_text(format_args!("{calls} calls, {stops} faults and stops, {disks} disks, "));
        told.tell(format_args!("{openings} stops of openings, {unlike} not as told"));
    }
}

// What is known of a script: what it is answered without a failure, and what is shown behind the
// front after each place. All runs begin on a disk with the same bytes.
#[derive(Clone, Copy)]
struct Known<'a> {
    script: &'a [u8],
    lines: &'a [Line],
    ordinary: &'a str,
    shown: &'a str,
    front: &'a str,
    ground: &'a [u8],
}

// What a stop left, and what is shown of it.
#[derive(Drop)]
struct Left {
    bytes: Vec<u8>,
    shown: Ran,
}

/// Fails the disk at each call of the script that was written, and stops it there and behind the
/// last one in each of four ways; stops the opening of what is left in the same ways; and opens
/// that. Tells how often, and what was not as it must be. The file has what is shown after each
/// place behind what the disk shows now, with a line `.` between each two.
pub fn sweep<R: Files + Wait + AllocGlobal>(
    rt: &R,
    bench: &mut Workbench,
    file: &str,
    told: &mut Told,
) -> io::Result<()> {
    let alloc = rt.alloc();
    let shown = fs::read_to_string(rt, file)?;
    let ground = bench.bytes(alloc)?;
    let script = bench.take_script(alloc);
    let Ok(lines) = parse(alloc, script.as_slice()) else {
        return Err(not_understood());
    };
    let disk = at_rest(alloc, ground.as_slice())?;
    let (front, _) = run_on(alloc, to_show(alloc), disk, &[]);
    let (ordinary, _) = play(rt, at_rest(alloc, ground.as_slice())?, script.as_slice())?;
    let known = Known {
        script: script.as_slice(),
        lines: lines.as_slice(),
        ordinary: text(&ordinary.ran.out),
        shown: shown.as_str(),
        front: text(&front.out),
        ground: ground.as_slice(),
    };
    sweep_known(rt, known, told)
}

// Sweeps in each way, and tells the figures.
fn sweep_known<R: Wait + AllocGlobal>(rt: &R, known: Known<'_>, told: &mut Told) -> io::Result<()> {
    let mut figures = Figures::NONE;
    for way in WAYS {
        sweep_in_way(rt, known, way, &mut figures, told)?;
    }
    figures.tell(told);
    Ok(())
}

// What a stop sets in this way.
fn picks_of(alloc: Global, size: usize, way: Option<u8>) -> io::Result<Vec<(u64, u8)>> {
    match way {
        Some(value) => Ok(all_as(alloc, size as u64, value)?),
        None => Ok(Vec::new(alloc)),
    }
}

// Fails and stops at each call in turn, and stops behind the last one, where none fails any more.
fn sweep_in_way<R: Wait + AllocGlobal>(
    rt: &R,
    known: Known<'_>,
    way: Option<u8>,
    figures: &mut Figures,
    told: &mut Told,
) -> io::Result<()> {
    let alloc = rt.alloc();
    let picks = picks_of(alloc, known.ground.len(), way)?;
    let mut last = None;
    for k in 1..MANY {
        let (played, disk) = play_until(rt, known.ground, known.script, k)?;
        let has_failed = disk.faults() > 0;
        figures.stops = figures.stops.saturating_add(1);
        let left = bytes_of(alloc, disk.stop(picks.as_slice()))?;
        let left = open_left(rt, left, last, figures, told)?;
        if !is_as_known(alloc, known, has_failed, &played, &left)? {
            figures.unlike = figures.unlike.saturating_add(1);
            tell_unlike(k, way, &played, &left, told);
        }
        if !has_failed {
            figures.calls = k - 1;
            return Ok(());
        }
        last = Some(left);
    }
    Err(not_understood())
}

// Plays a script through the store on a disk of these bytes whose call of this number fails.
fn play_until<R: Wait + AllocGlobal>(
    rt: &R,
    bytes: &[u8],
    script: &[u8],
    k: u64,
) -> io::Result<(Played, MemDisk)> {
    let mut disk = at_rest(rt.alloc(), bytes)?;
    disk.fail_at(k);
    Ok(play(rt, disk, script)?)
}

// What a disk shows once it was opened and a counter more was made.
fn show_left<R: Wait + AllocGlobal>(rt: &R, bytes: &[u8]) -> io::Result<Ran> {
    let alloc = rt.alloc();
    let (_, disk) = play(rt, at_rest(alloc, bytes)?, b"c1 make counter y\nturn")?;
    let (shown, _) = run_on(alloc, to_show(alloc), disk, &[]);
    Ok(shown)
}

// What a stop left, with what it shows. Where it is as what the last one left, that is known.
fn open_left<R: Wait + AllocGlobal>(
    rt: &R,
    bytes: Vec<u8>,
    last: Option<Left>,
    figures: &mut Figures,
    told: &mut Told,
) -> io::Result<Left> {
    if let Some(left) = last {
        if left.bytes == bytes {
            return Ok(left);
        }
    }
    figures.disks = figures.disks.saturating_add(1);
    let shown = show_left(rt, bytes.as_slice())?;
    let left = Left { bytes, shown };
    for way in WAYS {
        sweep_opening(rt, &left, way, figures, told)?;
    }
    Ok(left)
}

// Stops the opening of a disk at each of its calls in turn, and behind the last one. What is shown
// then is what it shows without that.
fn sweep_opening<R: Wait + AllocGlobal>(
    rt: &R,
    left: &Left,
    way: Option<u8>,
    figures: &mut Figures,
    told: &mut Told,
) -> io::Result<()> {
    let picks = picks_of(rt.alloc(), left.bytes.len(), way)?;
    for k in 1..MANY {
        let (_, disk) = play_until(rt, left.bytes.as_slice(), &[], k)?;
        let has_failed = disk.faults() > 0;
        figures.openings = figures.openings.saturating_add(1);
        if !goes_on(rt, left, disk.stop(picks.as_slice()))? {
            figures.unlike = figures.unlike.saturating_add(1);
            told.tell(format_args!("an opening stopped at its call {k} does not go on"));
        }
        if !has_failed {
            return Ok(());
        }
    }
    Err(not_understood())
}

// Whether a disk on which an opening was stopped shows what it shows without that.
fn goes_on<R: Wait + AllocGlobal>(rt: &R, left: &Left, disk: MemDisk) -> io::Result<bool> {
    let bytes = bytes_of(rt.alloc(), disk)?;
    Ok(bytes == left.bytes || text(&show_left(rt, bytes.as_slice())?.out) == text(&left.shown.out))
}

// Whether a script was answered as it must be, and what a stop left shows a beginning of it that
// has all that was told as kept.
fn is_as_known(
    alloc: Global,
    known: Known<'_>,
    has_failed: bool,
    played: &Played,
    left: &Left,
) -> io::Result<bool> {
    let (kept, last) = may_show(text(&played.ran.out));
    let is_shown = match behind(known.front, text(&left.shown.out)) {
        Some(found) => is_among(known.shown, kept, last, found),
        None => false,
    };
    if has_failed {
        return Ok(is_shown && faults::is_told(alloc, known.lines, known.ordinary, played)?);
    }
    Ok(is_shown && is_ordinary(known, played))
}

// Whether a script was answered as it is without a failure.
fn is_ordinary(known: Known<'_>, played: &Played) -> bool {
    played.ran.status == 0 && text(&played.ran.out) == known.ordinary && played.ends.is_empty()
}

// Tells what was not as it must be.
fn tell_unlike(k: u64, way: Option<u8>, played: &Played, left: &Left, told: &mut Told) {
    told.tell(format_args!("call {k}, bytes as {way:?}: not as told"));
    told.add(played.ran.out.as_slice());
    told.add(played.ran.err.as_slice());
    told.add(played.ends.as_slice());
    told.add(left.shown.out.as_slice());
    told.add(left.shown.err.as_slice());
}
