// Two clients' looks on two shelves at once.
ghost use Rattle.std.specs.Prelude.{◌≡◌};
ghost use Rattle.txn.specs.Books.{opened};

mod held_catalog;
mod held_shelf;
mod serving;
mod signals;

use crate::trouble::Trouble;
use calls::Refusal;
use calls::limits::MIN_AREA;
use catalog::Catalog;
use disk_model::MemDisk;
use gate_block::layout::AREAS_AT;
use held_catalog::HeldCatalog;
use recovery::{format, open};
use serving::serve_any;
use signals::Signals;
use std::alloc::{AllocGlobal, Global};
use std::io::Write;
use std::sync::Wait;
use std::thread::Threads;
use store::Opened;
use txn::Book;

// The size of the disk.
const SIZE: u64 = AREAS_AT + 2 * MIN_AREA;

// The book of a held catalog, where that of the catalog was just opened.
fn held<'s>(alloc: Global, book: Book<Catalog>, signals: &'s Signals) -> Book<HeldCatalog<'s>>
    requires { book ≡ opened book.state.format book.state.now book.next book.state.wear }
    ensures { result ≡ book }
{
    book.upheld();
    let (format, next, wear) = (book.format(), book.next(), book.wear());
    let catalog = HeldCatalog::new(book.into_parts(), signals);
    Book::new(alloc, format, catalog, next, wear)
}

// Whether the looks of two clients on two shelves saw each other.
fn saw_each_other<R: Threads + Wait + AllocGlobal + Sync>(rt: &R) -> Result<bool, Refusal> {
    let signals = Signals::new();
    let mut disk = MemDisk::new(rt.alloc(), SIZE)?;
    format(&mut disk, MIN_AREA)?;
    let (book, keeper) = match open(rt.alloc(), disk) {
        Ok(both) => both,
        Err((refusal, _disk)) => return Err(refusal),
    };
    match Opened::over(rt.alloc(), held(rt.alloc(), book, &signals), keeper) {
        Ok(opened) => serve_any(rt, opened)?,
        Err((refusal, _book, _keeper)) => return Err(refusal),
    }
    Ok(signals.saw_each_other())
}

/// Shows that clients look on two shelves at once: the look of either client's call is held until
/// the other one's has begun. Writes whether both saw that.
pub fn run<R: Threads + Wait + AllocGlobal + Sync>(
    rt: &R,
    out: &mut impl Write,
) -> Result<(), Trouble> {
    let not = if saw_each_other(rt)? { "" } else { "not " };
    writeln!(out, "the looks were {not}under way at once")?;
    Ok(())
}
