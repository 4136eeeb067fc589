// The records of an area, read at each stage: what each of them asks.
ghost use Rattle.std.specs.Prelude.{◌≡◌, ◌≤◌, ◌<◌, ◌+◌, ◌^◌, ℕ, IfOk, IfErr, None, Some, IsTrue};
ghost use Rattle.std.specs.Prelude.{◌↔◌};
ghost use Rattle.std.specs.FinMap as maps;
ghost use Rattle.std.specs.Option.{option_map};
ghost use Rattle.calls.specs.Names.{IsName};
ghost use Rattle.catalog.specs.Making.{names_of, IsNew};
ghost use Rattle.records.specs.declared.record.Record.{Record};
ghost use Rattle.records.specs.Records.{IsRecord};
ghost use Rattle.steps.specs.Machines.{Alike};
ghost use Rattle.replay.specs.declared.stage.Stage.{Stage};
ghost use Rattle.replay.specs.Steps.{State};
ghost use Rattle.replay.specs.Reading.{Closes, HoldsLive, Settles};
ghost use Rattle.replay.specs.Repetitions.{LeadsOn, IsNoStep, LiveLeads, IsNoLive, IsDamageOr};
ghost use Rattle.replay.specs.Repetitions.{IsBegin, IsItem, IsSomeRecord, IsTold, IsFit};
ghost use Rattle.replay.specs.Repetitions.{count_of, named_of};

use crate::Loader;
use crate::machine::Machine;
use crate::stage::{Collections, Stage, Told};
use calls::limits::{MAX_COLLECTIONS, MAX_WEAR};
use calls::{Format, Item, Kind, Name, Refusal};
use catalog::{Catalog, Parts, follows};
use records::{Record, is_reached, is_short_item};
use std::alloc::Global;

impl Stage {
    /// Reads one record at this stage. Refused Damaged with the place that was handed in, or
    /// NoMemory.
    pub fn read(self, alloc: Global, entry: Record, place: u64) -> Result<Stage, Refusal>
        requires fit { IsFit self }
        requires good { IsSomeRecord entry }
        requires few { count_of self + 1 < 2 ^ 64 }
        ensures ok { IfOk result (LeadsOn self entry) }
        ensures fit { IfOk result IsFit }
        ensures few { IfOk result (λ stage. count_of stage ≤ count_of self + 1) }
        ensures err { IfErr result (IsDamageOr place (IsNoStep self entry)) }
    {
        match self {
            Stage::Unread(version) => read_marks(alloc, version, entry, place),
            Stage::Collections(told) => told.read(alloc, entry, place),
            Stage::Numbers(loader) => read_live(loader, entry, place),
            Stage::Calls(loader) => read_asked(loader, entry, place),
            Stage::Journal(machine, count) => repeat(machine, count, entry, place),
        }
    }
}

// Reads the first record: the marks of an image, of a format that the disk may have.
fn read_marks(alloc: Global, version: Format, entry: Record, place: u64) -> Result<Stage, Refusal>
    ensures ok { IfOk result (LeadsOn (Stage.Unread version) entry) }
    ensures fit { IfOk result IsFit }
    ensures few { IfOk result (λ stage. count_of stage ≡ 0) }
    ensures err { IfErr result (IsDamageOr place (IsNoStep (Stage.Unread version) entry)) }
{
    match entry {
        Record::Marks { format, wear, .. } if wear <= MAX_WEAR && version.allows(format) => {
            let loader = Loader::new(alloc, format, Catalog::new(alloc), wear);
            Ok(Stage::Collections(Collections { loader, last: None }))
        }
        other => {
            drop(other);
            Err(Refusal::Damaged(place))
        }
    }
}

impl Collections {
    // Reads a record behind those of collections.
    fn read(self, alloc: Global, entry: Record, place: u64) -> Result<Stage, Refusal>
        requires fit { IsFit (Stage.Collections self) }
        requires good { IsSomeRecord entry }
        ensures ok { IfOk result (LeadsOn (Stage.Collections self) entry) }
        ensures fit { IfOk result IsFit }
        ensures few { IfOk result (λ stage. count_of stage ≡ 0) }
        ensures err { IfErr result (IsDamageOr place (IsNoStep (Stage.Collections self) entry)) }
    {
        match entry {
            Record::Name(kind, name) => self.name(alloc, kind, name, place),
            Record::Item(item) => self.item(item, place),
            other => match self.close(place) {
                Ok(loader) => read_live(loader, other, place),
                Err(refusal) => {
                    drop(other);
                    Err(refusal)
                }
            },
        }
    }

    // The collections, once that of which the image tells now is whole.
    fn close(self, place: u64) -> Result<Loader<Catalog>, Refusal>
        requires { IsFit (Stage.Collections self) }
        ensures ok { IfOk result (λ loader. Closes self.loader (option_map named_of self.last)
            loader) }
        ensures quiet { IfOk result (λ loader. loader.live ≡ maps.empty) }
        ensures err { IfErr result (IsDamageOr place
            ((t : State) → Closes self.loader (option_map named_of self.last) t → ⊥)) }
    {
        let Self { loader, last } = self;
        match last {
            Some(told) => load(loader, told, place),
            None => Ok(loader),
        }
    }

    // Reads the name of the next collection.
    fn name(self, alloc: Global, kind: Kind, name: Name, place: u64) -> Result<Stage, Refusal>
        requires fit { IsFit (Stage.Collections self) }
        requires good { IsName name }
        ensures ok { IfOk result (LeadsOn (Stage.Collections self) (Record.Name kind name)) }
        ensures fit { IfOk result IsFit }
        ensures few { IfOk result (λ stage. count_of stage ≡ 0) }
        ensures err { IfErr result (IsDamageOr place
            (IsNoStep (Stage.Collections self) (Record.Name kind name))) }
    {
        let loader = self.close(place)?;
        if !is_new(loader.parts(), name.as_str()) {
            drop(loader);
            drop(name);
            return Err(Refusal::Damaged(place));
        }
        let last = Some(Told {
            name,
            kind,
            items: Vec::new(alloc),
        });
        Ok(Stage::Collections(Collections { loader, last }))
    }

    // Reads an item of the collection of which the image tells now.
    fn item(self, item: Item, place: u64) -> Result<Stage, Refusal>
        requires fit { IsFit (Stage.Collections self) }
        ensures ok { IfOk result (LeadsOn (Stage.Collections self) (Record.Item item)) }
        ensures fit { IfOk result IsFit }
        ensures few { IfOk result (λ stage. count_of stage ≡ 0) }
        ensures err { IfErr result (IsDamageOr place
            (IsNoStep (Stage.Collections self) (Record.Item item))) }
    {
        let Self { loader, last } = self;
        let Some(mut told) = last else {
            drop(item);
            drop(loader);
            return Err(Refusal::Damaged(place));
        };
        if !follows(told.kind, told.items.as_slice(), &item)
            || !is_short_item(loader.format(), &item)
            || !is_reached(&item, loader.wear())
        {
            drop(item);
            drop(told);
            drop(loader);
            return Err(Refusal::Damaged(place));
        }
        match told.items.push(item) {
            Ok(()) => Ok(Stage::Collections(Collections {
                loader,
                last: Some(told),
            })),
            Err(failed) => {
                drop(told);
                drop(loader);
                Err(Refusal::from(failed))
            }
        }
    }
}

// Puts a collection that is told whole at the end.
fn load(mut loader: Loader<Catalog>, told: Told, place: u64) -> Result<Loader<Catalog>, Refusal>
    requires quiet { loader.live ≡ maps.empty }
    requires told { IsTold loader.format told }
    ensures ok { IfOk result (Closes loader (Some (named_of told))) }
    ensures quiet { IfOk result (λ now. now.live ≡ maps.empty) }
    ensures err { IfErr result (IsDamageOr place
        ((t : State) → Closes loader (Some (named_of told)) t → ⊥)) }
{
    let Told { name, kind, items } = told;
    let loaded = loader.load(name.as_str(), kind, items);
    drop(name);
    match loaded {
        Ok(true) => Ok(loader),
        Ok(false) => {
            drop(loader);
            Err(Refusal::Damaged(place))
        }
        Err(refusal) => {
            drop(loader);
            Err(refusal)
        }
    }
}

// Reads a record of what was live when the image was taken, or its end, again.
fn read_live(loader: Loader<Catalog>, entry: Record, place: u64) -> Result<Stage, Refusal>
    requires { IsSomeRecord entry }
    ensures ok { IfOk result (λ stage. (n : ℕ) → LiveLeads loader entry stage n) }
    ensures fit { IfOk result IsFit }
    ensures few { IfOk result (λ stage. count_of stage ≡ 0) }
    ensures err { IfErr result (IsDamageOr place (IsNoLive loader entry)) }
{
    match &entry {
        Record::Begin(_number) => Ok(Stage::Numbers(hold(loader, entry, place)?)),
        Record::LiveCall(_) | Record::LiveLater(_) => Ok(Stage::Calls(hold(loader, entry, place)?)),
        Record::ImageEnd => {
            drop(entry);
            end_image(loader, place)
        }
        _ => {
            drop(entry);
            drop(loader);
            Err(Refusal::Damaged(place))
        }
    }
}

// Reads a record behind what a live transaction had asked for: no number begins there.
fn read_asked(loader: Loader<Catalog>, entry: Record, place: u64) -> Result<Stage, Refusal>
    requires { IsSomeRecord entry }
    ensures ok { IfOk result (LeadsOn (Stage.Calls loader) entry) }
    ensures fit { IfOk result IsFit }
    ensures few { IfOk result (λ stage. count_of stage ≡ 0) }
    ensures err { IfErr result (IsDamageOr place (IsNoStep (Stage.Calls loader) entry)) }
{
    if is_begin(&entry) {
        drop(entry);
        drop(loader);
        return Err(Refusal::Damaged(place));
    }
    read_live(loader, entry, place)
}

// Holds what a record of an image says that a transaction was or had.
fn hold(mut loader: Loader<Catalog>, entry: Record, place: u64) -> Result<Loader<Catalog>, Refusal>
    requires { IsRecord None entry }
    ensures ok { IfOk result (HoldsLive loader entry) }
    ensures alike { IfOk result (λ now. (u v : State) → Alike u loader → HoldsLive u entry v →
        Alike v now) }
    ensures err { IfErr result (IsDamageOr place
        ((u v : State) → Alike u loader → HoldsLive u entry v → ⊥)) }
{
    match loader.hold(entry) {
        Ok(true) => Ok(loader),
        Ok(false) => {
            drop(loader);
            Err(Refusal::Damaged(place))
        }
        Err(refusal) => {
            drop(loader);
            Err(refusal)
        }
    }
}

// Ends an image, whose live calls must lead from some content to what the collections hold.
fn end_image(loader: Loader<Catalog>, place: u64) -> Result<Stage, Refusal>
    ensures ok { IfOk result (λ stage. (stage ≡ Stage.Journal loader 0) × Settles loader) }
    ensures err { IfErr result (IsDamageOr place (Settles loader → ⊥)) }
{
    match loader.finish()? {
        Some(machine) => Ok(Stage::Journal(machine, 0)),
        None => Err(Refusal::Damaged(place)),
    }
}

// Repeats one record of a journal.
fn repeat(
    mut machine: Machine<Catalog>,
    count: u64,
    entry: Record,
    place: u64,
) -> Result<Stage, Refusal>
    requires good { IsSomeRecord entry }
    requires few { count + 1 < 2 ^ 64 }
    ensures ok { IfOk result (LeadsOn (Stage.Journal machine count) entry) }
    ensures fit { IfOk result IsFit }
    ensures few { IfOk result (λ stage. count_of stage ≡ count + 1) }
    ensures err { IfErr result (IsDamageOr place (IsNoStep (Stage.Journal machine count) entry)) }
{
    if is_item(&entry) {
        drop(entry);
        drop(machine);
        return Err(Refusal::Damaged(place));
    }
    match machine.repeat(entry) {
        Ok(true) => Ok(Stage::Journal(machine, count + 1)),
        Ok(false) => {
            drop(machine);
            Err(Refusal::Damaged(place))
        }
        Err(refusal) => {
            drop(machine);
            Err(refusal)
        }
    }
}

// Whether a collection can be made under the name.
fn is_new(parts: &Catalog, name: &str) -> bool
    requires { IsName name.now }
    ensures { IsTrue result ↔ IsNew (names_of parts.now) name.now }
{
    parts.len() < MAX_COLLECTIONS && parts.find(name).is_err()
}

fn is_begin(entry: &Record) -> bool
    ensures { IsTrue result ↔ IsBegin entry.now }
{
    matches!(entry, Record::Begin(_))
}

fn is_item(entry: &Record) -> bool
    ensures { IsTrue result ↔ IsItem entry.now }
{
    matches!(entry, Record::Item(_))
}
