// Bytes that spell a record.
ghost use Rattle.records.specs.Records.{Fits};

use crate::plays::told::Told;
use crate::plays::values::{bytes, not_understood};
use calls::Kind;
use records::{Record, decode, encode};
use std::alloc::Global;
use std::io;

// The kind of this name.
fn kind(name: &str) -> io::Result<Kind> {
    Kind::named(name.as_bytes()).ok_or_else(not_understood)
}

// The kind that was named last, if one is told, and what stands behind it.
fn parted(text: &str) -> io::Result<(Option<Kind>, &str)> {
    match text.split_once(": ") {
        Some((name, rest)) => Ok((Some(kind(name)?), rest)),
        None => Ok((None, text)),
    }
}

/// Tells the record that bytes begin with, and how it is spelled where that is otherwise; or why
/// they begin with none.
pub fn read(alloc: Global, text: &str, told: &mut Told) -> io::Result<()> {
    let (last, rest) = parted(text)?;
    let bytes = bytes(alloc, rest)?;
    match decode(alloc, bytes.as_slice(), last, 4096) {
        Ok((record, rest)) => {
            tell(alloc, &record, rest.len(), bytes.as_slice(), told);
            drop(record);
        }
        Err(refusal) => told.tell(refusal),
    }
    Ok(())
}

// Tells a record, and how it is spelled where the bytes say otherwise.
fn tell(alloc: Global, entry: &Record, behind: usize, bytes: &[u8], told: &mut Told)
    requires { Fits entry.now }
{
    tell_record(alloc, entry, told);
    if behind > 0 {
        told.tell(format_args!("and {behind} bytes behind it"));
    }
    let mut again = Vec::new(alloc);
    if encode(entry, &mut again).is_ok() && bytes.starts_with(again.as_slice()) {
        return;
    }
    told.add(b"spelled ");
    told.tell_bytes(again.as_slice());
}

fn tell_record(alloc: Global, entry: &Record, told: &mut Told) {
    match format!(in alloc; "{entry:?}") {
        Ok(text) => told.tell_brief(text.as_str()),
        Err(_) => told.is_whole = false,
    }
}
