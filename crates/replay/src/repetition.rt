// The records of an area, read one after another: an image, and a journal behind it.
ghost use Rattle.std.specs.Prelude.{◌≡◌, ◌≤◌, ◌<◌, ◌+◌, ◌^◌, ℕ, List, ◌++◌, length, IfOk, IfErr};
ghost use Rattle.std.specs.Prelude.{Option, None};
ghost use Rattle.calls.specs.declared.kind.Kind.{Kind};
ghost use Rattle.calls.specs.declared.format.Format.{Format};
ghost use Rattle.calls.specs.Transactions.{Leads};
ghost use Rattle.calls.specs.Limits.{number_end};
ghost use Rattle.records.specs.declared.record.Record.{Record};
ghost use Rattle.records.specs.Records.{spelling, IsRecord, AreRecords, named_by};
ghost use Rattle.replay.specs.declared.stage.Stage.{Stage};
ghost use Rattle.replay.specs.Steps.{State};
ghost use Rattle.replay.specs.Reading.{Progress, Unread, InJournal, Reads, AreAccepted};
ghost use Rattle.replay.specs.Reading.{last_named};
ghost use Rattle.replay.specs.Repetitions.{LeadsTo, Takes, IsStuck, IsDamageOr, IsSomeRecord};
ghost use Rattle.replay.specs.Repetitions.{IsFit, progress_of, count_of, number_behind};

use crate::machine::Machine;
use crate::stage::Stage;
use calls::{Format, Kind, Refusal};
use catalog::Catalog;
use records::{Record, decode};
use std::alloc::Global;

/// What the records so far lead to.
#[derive(Drop)]
pub struct Repetition {
    pub stage: Stage,
    /// A number above every number that was entered.
    pub next: u64,
    /// The kind that was named last.
    pub kind: Option<Kind>,
    ghost bound: { (1 ≤ next) × (next ≤ number_end) },
}

/// What a whole area leads to.
#[derive(Drop)]
pub struct Repeated {
    pub machine: Machine<Catalog>,
    /// A number above every number that was entered.
    pub next: u64,
    /// How many records of the journal were repeated.
    pub count: u64,
    ghost bound: { (1 ≤ next) × (next ≤ number_end) },
}

impl Repetition {
    /// Before the first record of an area, on a disk of this version.
    pub fn new(version: Format) -> Self
        ensures stage { result.stage ≡ Stage.Unread version }
        ensures kind { result.kind ≡ None }
    {
        Self {
            stage: Stage::Unread(version),
            next: 1,
            kind: None,
        }
    }

    /// Reads the records of a block's body, one behind another. Refused Damaged with the place that
    /// was handed in, or NoMemory.
    pub fn read_body(self, alloc: Global, body: &[u8], place: u64) -> Result<Self, Refusal>
        requires fit { IsFit self.stage }
        requires few { count_of self.stage + length body.now < 2 ^ 64 }
        ensures ok { IfOk result (λ now. (version : Format) (rs : List Record) →
            LeadsTo version rs (progress_of self.stage self.next) →
            (group : List Record) × AreRecords self.kind group × (body.now ≡ spelling group) ×
            (now.kind ≡ last_named self.kind group)
            × LeadsTo version (rs ++ group) (progress_of now.stage now.next)) }
        ensures fit { IfOk result (λ now. IsFit now.stage) }
        ensures few { IfOk result (λ now. count_of now.stage ≤ count_of self.stage + length
            body.now) }
        ensures err { IfErr result (IsDamageOr place
            ((version : Format) (rs group : List Record) →
            LeadsTo version rs (progress_of self.stage self.next) →
            AreRecords self.kind group → body.now ≡ spelling group → (q : Progress) →
            Leads Reads (rs ++ group) (Unread version) q → ⊥)) }
    {
        let mut so_far = self;
        let mut rest = body;
        while !rest.is_empty() {
            match decode(alloc, rest, so_far.kind, place) {
                Ok((entry, behind)) => {
                    so_far = so_far.take(alloc, entry, place)?;
                    rest = behind;
                }
                Err(refusal) => {
                    drop(so_far);
                    return Err(refusal);
                }
            }
        }
        Ok(so_far)
    }

    /// What the area leads to. Refused Damaged with the place where no image stood whole.
    pub fn finish(self, place: u64) -> Result<Repeated, Refusal>
        ensures ok { IfOk result (λ all. progress_of self.stage self.next ≡
            InJournal all.next all.machine all.count) }
        ensures err { IfErr result (IsDamageOr place
            ((version : Format) (rs : List Record) →
            LeadsTo version rs (progress_of self.stage self.next) →
            (next : ℕ) (s : State) (count : ℕ) → AreAccepted version rs next s count → ⊥)) }
    {
        let Self { stage, next, .. } = self;
        match stage {
            Stage::Journal(machine, count) => Ok(Repeated {
                machine,
                next,
                count,
            }),
            unfinished => {
                drop(unfinished);
                Err(Refusal::Damaged(place))
            }
        }
    }

    // Reads one record of an area.
    fn take(self, alloc: Global, entry: Record, place: u64) -> Result<Self, Refusal>
        requires fit { IsFit self.stage }
        requires good { IsRecord self.kind entry }
        requires few { count_of self.stage + 1 < 2 ^ 64 }
        ensures ok { IfOk result (λ now. Takes (progress_of self.stage self.next) entry
            (progress_of now.stage now.next)) }
        ensures kind { IfOk result (λ now. now.kind ≡ named_by self.kind entry) }
        ensures fit { IfOk result (λ now. IsFit now.stage) }
        ensures few { IfOk result (λ now. count_of now.stage ≤ count_of self.stage + 1) }
        ensures err { IfErr result (IsDamageOr place
            (IsStuck (progress_of self.stage self.next) entry)) }
    {
        let Self { stage, next, kind } = self;
        let next = number_after(next, &entry);
        let kind = kind_after(kind, &entry);
        let stage = stage.read(alloc, entry, place)?;
        Ok(Self { stage, next, kind })
    }
}

// A number above the record's, where it enters one, and above those before.
fn number_after(next: u64, entry: &Record) -> u64
    requires good { IsSomeRecord entry.now }
    requires bound { (1 ≤ next) × (next ≤ number_end) }
    ensures is { result ≡ number_behind next entry.now }
    ensures bound { (1 ≤ result) × (result ≤ number_end) }
{
    match entry {
        Record::Marks { next, .. } => *next,
        Record::Begin(number) => next.max(number + 1),
        _ => next,
    }
}

// The kind named last, behind the record.
fn kind_after(kind: Option<Kind>, entry: &Record) -> Option<Kind>
    ensures { result ≡ named_by kind entry.now }
{
    match entry {
        Record::Name(kind, _) => Some(*kind),
        _ => kind,
    }
}
