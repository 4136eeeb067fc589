// What room a store takes and has, as it is printed.
ghost use Rattle.std.specs.Prelude.{◌≡◌, ◌≤◌, ◌+◌, ◌↔◌, length, IsTrue, IfErr};
ghost use Rattle.calls.specs.Names.{IsName};
ghost use Rattle.records.specs.declared.record.Record.{Record};
ghost use Rattle.records.specs.Records.{spelled, FitsItem};
ghost use Rattle.boost.specs.Commands.{IsOfStore};

use crate::commands::failure::Failure;
use calls::{Item, Kind, Name, check_name};
use catalog::{Catalog, Shown};
use desks::full_of;
use records::{Record, encoded_len, fits_item};
use recovery::Survey;
use std::alloc::AllocError;
use std::io::Write;

/// Tells the format of a store, what room it takes and has, and of each collection its kind, its
/// name, how many items it holds and how many bytes it takes in an image: in lines, or as one JSON
/// object.
pub fn tell_survey<O: Write>(
    survey: &Survey,
    catalog: &Catalog,
    json: bool,
    out: &mut O,
) -> Result<(), Failure<'static>>
    ensures { IfErr result IsOfStore }
{
    if json {
        write_numbers_json(survey, out)?;
        write_collections_json(catalog, out)
    } else {
        write_numbers(survey, out)?;
        write_collections(catalog, out)
    }
}

// The numbers that are told, with their names.
fn numbers_of(survey: &Survey) -> [(&'static str, u64); 13] {
    [
        ("format", u64::from(survey.format.number())),
        ("area", survey.area),
        ("in_use", u64::from(!survey.first)),
        ("used", survey.used),
        ("image", survey.image),
        ("journal", survey.journal),
        ("checkpoint", survey.checkpoint),
        ("full", full_of(survey.checkpoint, survey.area)),
        ("undoing", survey.undoing),
        ("unfinished", survey.report.unfinished as u64),
        ("records", survey.report.records),
        ("next", survey.next),
        ("wear", survey.wear),
    ]
}

// Whether the store can be opened: the records that undo what is unfinished fit behind the others.
fn opens(survey: &Survey) -> bool
    ensures { IsTrue result ↔ (survey.now.used + survey.now.undoing ≤ survey.now.area) }
{
    let Survey {
        area,
        used,
        undoing,
        ..
    } = *survey;
    match used.checked_add(undoing) {
        Some(sum) => sum <= area,
        None => false,
    }
}

fn write_numbers<O: Write>(survey: &Survey, out: &mut O) -> Result<(), Failure<'static>>
    ensures { IfErr result IsOfStore }
{
    for (name, number) in numbers_of(survey) {
        writeln!(out, "{name} {number}")?;
    }
    let answer = if opens(survey) { "yes" } else { "no" };
    writeln!(out, "opens {answer}")?;
    Ok(())
}

fn write_numbers_json<O: Write>(survey: &Survey, out: &mut O) -> Result<(), Failure<'static>>
    ensures { IfErr result IsOfStore }
{
    write!(out, "{{")?;
    for (name, number) in numbers_of(survey) {
        write!(out, "\"{name}\":{number},")?;
    }
    write!(out, "\"opens\":{},", opens(survey))?;
    Ok(())
}

// How large a collection is.
#[derive(Drop)]
struct Size {
    kind: Kind,
    name: Name,
    items: usize,
    bytes: u64,
}

impl Size {
    fn of(shown: Shown) -> Result<Self, AllocError> {
        let Shown { kind, name, items } = shown;
        let count = items.len();
        let mut bytes = name_bytes(kind, name.copy()?);
        for item in items {
            bytes = bytes.saturating_add(item_bytes(item));
        }
        Ok(Self {
            kind,
            name,
            items: count,
            bytes,
        })
    }
}

// How many bytes of an image the name of a collection takes. A name that is none stands in no
// image.
fn name_bytes(kind: Kind, name: Name) -> u64
    ensures { IsName name → result ≡ length (spelled (Record.Name kind name)) }
{
    if check_name(name.as_str()).is_err() {
        return 0;
    }
    encoded_len(&Record::Name(kind, name)) as u64
}

// How many bytes of an image an item takes. One with too long a value stands in no image.
fn item_bytes(item: Item) -> u64
    ensures { FitsItem item → result ≡ length (spelled (Record.Item item)) }
{
    if !fits_item(&item) {
        return 0;
    }
    encoded_len(&Record::Item(item)) as u64
}

fn write_collections<O: Write>(catalog: &Catalog, out: &mut O) -> Result<(), Failure<'static>>
    ensures { IfErr result IsOfStore }
{
    for number in (0..=u8::MAX).take(catalog.len()) {
        let Size {
            kind,
            name,
            items,
            bytes,
        } = Size::of(catalog.show(number)?)?;
        writeln!(out, "collection {kind} {} {items} {bytes}", name.as_str())?;
    }
    Ok(())
}

// A name has no letter that JSON spells otherwise.
fn write_collections_json<O: Write>(catalog: &Catalog, out: &mut O) -> Result<(), Failure<'static>>
    ensures { IfErr result IsOfStore }
{
    write!(out, "\"collections\":[")?;
    for number in (0..=u8::MAX).take(catalog.len()) {
        let Size {
            kind,
            name,
            items,
            bytes,
        } = Size::of(catalog.show(number)?)?;
        let comma = if number == 0 { "" } else { "," };
        write!(
            out,
            "{comma}{{\"kind\":\"{kind}\",\"name\":\"{}\",\"items\":{items},\"bytes\":{bytes}}}",
            name.as_str()
        )?;
    }
    writeln!(out, "]}}")?;
    Ok(())
}
