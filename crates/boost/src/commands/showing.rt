// What a store holds, as it is printed.
ghost use Rattle.std.specs.Prelude.{IfErr};
ghost use Rattle.boost.specs.Commands.{IsOfStore};

use crate::commands::failure::Failure;
use calls::Item;
use catalog::{Catalog, Shown};
use recovery::Report;
use std::fmt;
use std::io::Write;
use talks::Hex;

/// Prints collections, by rising number: each in a line of its own, and its items in the lines
/// behind it.
pub fn show_collections<O: Write>(catalog: &Catalog, out: &mut O) -> Result<(), Failure<'static>>
    ensures { IfErr result IsOfStore }
{
    for number in (0..=u8::MAX).take(catalog.len()) {
        let shown = catalog.show(number)?;
        show_collection(&shown, out)?;
    }
    Ok(())
}

/// Prints what is shown of a collection.
pub fn show_collection<O: Write>(shown: &Shown, out: &mut O) -> Result<(), Failure<'static>>
    ensures { IfErr result IsOfStore }
{
    let Shown { kind, name, items } = shown;
    let name = name.as_str();
    writeln!(out, "{kind} {name}")?;
    for item in items {
        let item = ItemText(item);
        writeln!(out, "  {item}")?;
    }
    Ok(())
}

/// Prints how much a store holds, in one line.
pub fn show_counts<O: Write>(counts: &Report, out: &mut O) -> Result<(), Failure<'static>>
    ensures { IfErr result IsOfStore }
{
    let Report {
        collections,
        unfinished,
        records,
    } = counts;
    writeln!(
        out,
        "sound: {collections} collections, {unfinished} unfinished transactions, {records} journal records"
    )?;
    Ok(())
}

// An item of a collection, as it is shown.
#[derive(Clone, Copy)]
struct ItemText<'a>(&'a Item);

impl fmt::Display for ItemText<'_> {
    fn fmt<W: fmt::Write>(&self, f: &mut fmt::Formatter<W>) -> fmt::Result {
        match self.0 {
            Item::Element(x) => write!(f, "{x}"),
            Item::Entry(key, value) => {
                let hex = Hex(value.as_slice());
                write!(f, "{key} {hex}")
            }
            Item::Pair(priority, tag) => write!(f, "{priority} {tag}"),
            Item::Number(total) => write!(f, "{total}"),
            Item::Amount(key, amount) => write!(f, "{key} {amount}"),
        }
    }
}
