// The file of the store.
ghost use Rattle.std.specs.Prelude.{◌<◌, ◌^◌};

use crate::bench::workload::Workload;
use crate::trouble::Trouble;
use disk_model::{FileDisk, Unknown};
use gate_block::layout::AREAS_AT;
use recovery::format;
use std::alloc::{AllocError, Global};
use std::fs::{File, OpenOptions};
use std::io;
use std::rt::Files;

// The size of each of its two areas, in bytes.
const AREA: u64 = 1 << 26;

/// The size of a store's file, in bytes, where no maps lie beside what clients call.
pub const FILE_SIZE: u64 = AREAS_AT + 2 * AREA;

// The size of an area that takes an image of a map of 1,000 values of 100 bytes, and has 150,000
// bytes behind it.
const SMALL_AREA: u64 = 1 << 18;

// The same of a million values, with six million bytes behind it.
const LARGE_AREA: u64 = 112 << 20;

// The same, with one million bytes behind it, for clients that commit a thousand times a second.
const TIGHT_AREA: u64 = 107 << 20;

// The same of four maps of a million values each, with room for the puts of seconds behind it; and
// of the history of millions of transactions.
const WIDE_AREA: u64 = 960 << 20;

/// A file as a disk. What it holds is not known.
pub type StoredDisk = FileDisk<Unknown>;

/// Makes the file of an empty store in a folder, in place of one that is there, with room for what
/// the workload does.
pub fn make_disk<R: Files<File = File> + AllocGlobal>(
    rt: &R,
    folder: &str,
    workload: Workload,
) -> Result<StoredDisk, Trouble> {
    let path = path_in(rt.alloc(), folder)?;
    let file = options().create(true).truncate(true).open(rt, path)?;
    let area = area_of(workload);
    file.set_len(AREAS_AT + 2 * area)?;
    let mut disk = FileDisk::open(file)?;
    format(&mut disk, area)?;
    Ok(disk)
}

/// The file of the store that is in a folder.
pub fn open_disk<R: Files<File = File> + AllocGlobal>(
    rt: &R,
    folder: &str,
) -> Result<StoredDisk, Trouble> {
    let path = path_in(rt.alloc(), folder)?;
    Ok(FileDisk::open(options().open(rt, path)?)?)
}

// The size of an area, in bytes.
fn area_of(workload: Workload) -> u64
    ensures { result < 2 ^ 30 }
{
    match workload {
        Workload::CounterBesideImages | Workload::CounterAsyncBesideImages => SMALL_AREA,
        Workload::CounterBesideImagesMillion | Workload::MapsBesideImages => LARGE_AREA,
        Workload::CounterAsyncBesideImagesMillion | Workload::CounterAsyncBesideImagesOfEight => {
            TIGHT_AREA
        }
        Workload::MapsFour
        | Workload::MapsFourMillion
        | Workload::MapsOne
        | Workload::MapsOneMillion
        | Workload::Tpcb => WIDE_AREA,
        _ => AREA,
    }
}

fn options() -> OpenOptions {
    let mut options = File::options();
    options.read(true).write(true);
    options
}

fn path_in(alloc: Global, folder: &str) -> Result<String, AllocError> {
    format!(in alloc; "{folder}/store")
}
