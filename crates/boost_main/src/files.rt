// Opening the files that a command names.
ghost use Rattle.std.specs.Prelude.{◌≡◌, ◌≤◌, ◌+◌, ◌*◌, ◌↔◌, IsOk, IsOkUnless, IfOk, IfErr, IfSome};
ghost use Rattle.std.specs.Prelude.{None};
ghost use Rattle.calls.specs.declared.format.Format.{Format};
ghost use Rattle.calls.specs.declared.refusal.Refusal.{Refusal};
ghost use Rattle.calls.specs.Formats.{max_area, number_of, widest};

use boost::Failure;
use calls::limits::MIN_AREA;
use calls::{Format, Refusal};
use disk_model::{Content, FileDisk};
use fizgaloms::{Access, FileError, LockedFile, Making, Place, Watch, Watched, open};
use gate_block::layout::AREAS_AT;
use std::alloc::Global;
use std::fs::{self, File};
use std::io::{self, Read, Write};
use std::rt::Files;

/// The disk that is the file of a store, whose calls are watched.
pub type StoreDisk<'w, S, W> = FileDisk<S, Watched<'w, LockedFile, W>>;

/// Why a file is not opened: for want of memory, or because it cannot be.
pub fn cannot_open<'a>(path: &'a str, error: &io::Error) -> Failure<'a> {
    match error.kind() {
        io::ErrorKind::OutOfMemory => Failure::Refused(Refusal::NoMemory),
        _ => Failure::CannotOpen(path, *error),
    }
}

// Why the file of a store is not opened.
fn unopened<'a>(path: &'a str, error: &FileError) -> Failure<'a> {
    match error {
        FileError::InUse => Failure::InUse(path),
        FileError::System(error) => cannot_open(path, error),
    }
}

/// What was opened or read, or that the file cannot be opened.
pub fn opened<'a, T: Drop>(path: &'a str, found: io::Result<T>) -> Result<T, Failure<'a>> {
    match found {
        Ok(value) => Ok(value),
        Err(error) => Err(cannot_open(path, &error)),
    }
}

/// The script of the path, or for `-` all that comes over `input`.
pub fn read_script<'a, R: Files<File = File> + AllocGlobal>(
    rt: &R,
    path: &'a str,
    input: impl Read + Drop,
) -> Result<Vec<u8>, Failure<'a>> {
    if path == "-" {
        return opened(path, read_all(rt.alloc(), input));
    }
    opened(path, fs::read(rt, path))
}

// All that comes over an input.
fn read_all(alloc: Global, input: impl Read + Drop) -> io::Result<Vec<u8>> {
    let mut input = input;
    let mut text = Vec::new(alloc);
    input.read_to_end(&mut text)?;
    Ok(text)
}

/// The format of the number. Refused BadArg where there is none.
pub fn format_numbered(number: u8) -> Result<Format, Refusal>
    ensures numbered { IfOk result (λ format. number ≡ number_of format) }
    ensures none { IfErr result (λ _. (format : Format) → number ≡ number_of format → ⊥) }
    ensures err { IsOkUnless result Refusal.BadArg }
{
    match Format::numbered(number) {
        Some(format) => Ok(format),
        None => Err(Refusal::BadArg),
    }
}

/// Refuses BadArg where no disk of the format has areas of so many bytes.
pub fn check_area(format: Format, area: u64) -> Result<(), Refusal>
    ensures ok { IsOk result ↔ ((MIN_AREA ≤ area) × (area ≤ max_area format)) }
    ensures small { IsOk result → area ≤ max_area widest }
    ensures err { IsOkUnless result Refusal.BadArg }
{
    if area < MIN_AREA || area > format.max_area() {
        return Err(Refusal::BadArg);
    }
    Ok(())
}

/// How large the areas of a copy are: as it is asked, or where nothing is, as those of a file of so
/// many bytes. Refused BadArg where no disk has such areas, and NotAStore where the file has none.
pub fn area_of_copy(asked: Option<u64>, size: u64) -> Result<u64, Refusal>
    ensures ok { IfOk result (λ area. area ≤ max_area widest) }
    ensures asked { IfSome asked (λ area. IfOk result (λ found. found ≡ area)) }
    ensures own { asked ≡ None → IfOk result (λ area. AREAS_AT + 2 * area ≤ size) }
{
    let area = asked.unwrap_or(size.saturating_sub(AREAS_AT) / 2);
    match (check_area(Format::Two, area), asked) {
        (Ok(()), _) => Ok(area),
        (Err(refusal), Some(_)) => Err(refusal),
        (Err(_), None) => Err(Refusal::NotAStore),
    }
}

/// Opens the file of a disk that is there.
pub fn open_disk<'a, 'w, S: Content, W: Watch>(
    rt: &(impl Files<File = File> + AllocGlobal),
    path: &'a str,
    access: Access,
    watch: &'w W,
) -> Result<StoreDisk<'w, S, W>, Failure<'a>> {
    let file = match open(rt, path, access) {
        Ok(file) => file,
        Err(error) => return Err(unopened(path, &error)),
    };
    match FileDisk::open(Watched::new(file, watch)) {
        Ok(disk) => Ok(disk),
        Err(error) => Err(cannot_open(path, &error)),
    }
}

/// Looks at the place of a file that is to be made, which nobody else takes meanwhile where one is
/// there.
pub fn look_at<'a, R: Files<File = File> + AllocGlobal>(
    rt: &R,
    path: &'a str,
) -> Result<Place, Failure<'a>> {
    match Place::look(rt, path) {
        Ok(place) => Ok(place),
        Err(error) => Err(unopened(path, &error)),
    }
}

/// Begins to make the file of a disk with two such areas; where `is_reserved` is set, with its
/// space taken. Where that is refused, what is there stays.
pub fn begin_disk<'a, 'w, S: Content, W: Watch, R: Files<File = File> + AllocGlobal>(
    rt: &R,
    path: &'a str,
    place: Place,
    area: u64,
    is_reserved: bool,
    for_group: bool,
    watch: &'w W,
) -> Result<(Making, StoreDisk<'w, S, W>), Failure<'a>>
    requires { area ≤ max_area widest }
{
    let (making, file) = match place.begin(rt, for_group) {
        Ok(begun) => begun,
        Err(error) => return Err(unopened(path, &error)),
    };
    match sized_disk(file, AREAS_AT + 2 * area, is_reserved, watch) {
        Ok(disk) => Ok((making, disk)),
        Err(error) => {
            making.give_up(rt);
            Err(cannot_open(path, &error))
        }
    }
}

// The disk of an empty file, with so many bytes: zeros that are written, where its space is to be
// taken.
fn sized_disk<'w, S: Content, W: Watch>(
    file: LockedFile,
    size: u64,
    is_reserved: bool,
    watch: &'w W,
) -> io::Result<StoreDisk<'w, S, W>> {
    if is_reserved {
        fill_with_zeros(file.file(), size)?;
    } else {
        file.file().set_len(size)?;
    }
    FileDisk::open(Watched::new(file, watch))
}

// Writes so many zeros to a file.
fn fill_with_zeros(file: &File, size: u64) -> io::Result<()> {
    let mut file = file;
    io::copy(&mut io::repeat(0).take(size), &mut file)?;
    file.flush()
}

/// Puts a file that was made in its place, or where it was not leaves what is there.
pub fn settle<'a>(
    rt: &impl Files<File = File>,
    path: &'a str,
    making: Making,
    is_made: bool,
) -> Result<(), Failure<'a>> {
    if is_made {
        return opened(path, making.finish(rt));
    }
    making.give_up(rt);
    Ok(())
}
