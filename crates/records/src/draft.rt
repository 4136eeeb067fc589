// A block in the making.
ghost use Rattle.std.specs.Prelude.{◌≡◌, ◌+◌, ◌≤◌, ◌<◌, ◌^◌, [], ◌∷◌, ◌++◌, ◌↔◌, IsTrue, length};
ghost use Rattle.std.specs.Prelude.{drop, ◌-◌, vec_len, vec_capacity, OnOk, OnErr, IfErr};
ghost use Rattle.std.specs.Prelude.{IsOk, IsOkUnless};
ghost use Rattle.gate_block.specs.Row.{IsBlockOf};
ghost use Rattle.records.specs.Drafts.{HasPlace};
ghost use Rattle.records.specs.Offers.{IsOffered};
ghost use Rattle.records.specs.Acts.{places};
ghost use Rattle.calls.specs.Rules.{Askable};
ghost use Rattle.calls.specs.Limits.{max_body};
ghost use Rattle.records.specs.Records.{record_of_call, spelled, spelling, Fits, FitsCall};
ghost use Rattle.records.specs.Records.{FitsReply};

use crate::block::{Block, Outbox};
use crate::noted::Noted;
use crate::{Record, encode, encode_call};
use calls::{Call, Refusal, Reply};
use gate_block::{BLOCK_HEAD, close_block};
use std::alloc::Global;
use std::marker::Model;
use std::snapshot::Snapshot;

/// How many records were handed over, and how many of them commit something.
#[derive(Clone, Copy)]
pub struct Handed {
    pub end: u64,
    pub place: u64,
}

/// The block that `Pending::cut` hands over next: so many records, whose spelling, the block's
/// body, has so many bytes. The block's head and the gate behind it are not counted.
#[derive(Clone, Copy)]
pub struct NextBlock {
    pub records: u64,
    pub body: u64,
}

/// Records spelled one behind another, into the block in which they will be handed over.
pub(crate) struct Draft {
    bytes: Vec<u8>,
    noted: Noted,
    // how many records they are, and how many of them commit something
    count: usize,
    places: u64,
}

// Written out, so that the crates above call it in place of proving it again.
impl Drop for Draft {
    fn drop(self) {
        let Self {
            bytes,
            noted,
            count: _count,
            places: _places,
        } = self;
        drop(bytes);
        drop(noted);
    }
}

impl Model for Draft {
    ghost use Rattle.std.specs.Prelude.{◌≡◌, length, vec_len, vec_capacity};
    ghost use Rattle.records.specs.Acts as acts;
    ghost use Rattle.records.specs.Drafts.{Drafted, IsDraft, noted_records};

    ghost Value = { Drafted };

    ghost view = { λ d. record {
      records = noted_records d.noted;
      len = vec_len d.bytes;
      capacity = vec_capacity d.bytes;
    } };

    ghost invariant = { λ d. IsDraft d.bytes.items (vec_capacity d.bytes) (noted_records d.noted) ×
        (d.count ≡ length (noted_records d.noted)) ×
        (d.places ≡ acts.places (noted_records d.noted)) };
}

impl Draft {
    // No record. It takes no memory.
    pub(crate) fn new(alloc: Global) -> Self
        ensures { result.records ≡ [] }
    {
        Self {
            bytes: Vec::new(alloc),
            noted: Noted::Start,
            count: 0,
            places: 0,
        }
    }

    // Whether there is no record.
    pub(crate) fn is_empty(&self) -> bool
        ensures { IsTrue result ↔ (self.now.records ≡ []) }
    {
        self.count == 0
    }

    // How many bytes the records take.
    pub(crate) fn len(&self) -> usize
        ensures { result ≡ length (spelling self.now.records) }
    {
        self.bytes.len().saturating_sub(BLOCK_HEAD)
    }

    // Makes room for a record of the length. NoMemory leaves the records, and comes only where
    // there was no room.
    pub(crate) fn reserve(&mut self, len: usize) -> Result<(), Refusal>
        requires { len ≤ max_body }
        ensures room { OnOk result (HasPlace self.new len) }
        ensures records { self.new.records ≡ self.old.records }
        ensures refusal { IsOkUnless result Refusal.NoMemory }
        ensures succeeds { HasPlace self.old len → IsOk result }
    {
        if self.bytes.len() < BLOCK_HEAD {
            self.bytes.resize(BLOCK_HEAD, 0)?;
        }
        Ok(self.bytes.reserve(len + 1)?)
    }

    // Writes the record behind the others. It takes no memory.
    pub(crate) fn push(&mut self, entry: &Record)
        requires fits { Fits entry.now }
        requires room { HasPlace self.old (length (spelled entry.now)) }
        requires few { length self.old.records < 2 ^ 32 }
        ensures { self.new.records ≡ self.old.records ++ entry.now ∷ [] }
    {
        let _written = encode(entry, &mut self.bytes);
        self.noted = Noted::After(Snapshot::of(&self.noted), Snapshot::of(entry));
        self.count += 1;
        self.places += places_of(entry);
    }

    // Writes the record of a call behind the others, from its parts. It takes no memory.
    pub(crate) fn push_call(&mut self, number: u64, at: u8, asked: &Call, answer: &Reply)
        requires askable { Askable asked.now }
        requires asked { FitsCall asked.now }
        requires answer { FitsReply answer.now }
        requires room { HasPlace self.old
            (length (spelled (record_of_call number at asked.now answer.now))) }
        requires few { length self.old.records < 2 ^ 32 }
        ensures { self.new.records ≡
            self.old.records ++ record_of_call number at asked.now answer.now ∷ [] }
    {
        let _written = encode_call(number, at, asked, answer, &mut self.bytes);
        self.noted = Noted::Called(
            Snapshot::of(&self.noted),
            Snapshot::of(&number),
            Snapshot::of(&at),
            Snapshot::of(asked),
            Snapshot::of(answer),
        );
        self.count += 1;
    }

    // How many records they are.
    pub(crate) fn count(&self) -> usize
        ensures { result ≡ length self.now.records }
    {
        self.count
    }

    // How many records they are, and how many bytes they take.
    pub(crate) fn size(&self) -> NextBlock
        ensures records { result.records ≡ length self.now.records }
        ensures body { result.body ≡ length (spelling self.now.records) }
    {
        NextBlock {
            records: self.count() as u64,
            body: self.len() as u64,
        }
    }

    // The records as one whole block. It takes no memory.
    pub(crate) fn into_block(self) -> Vec<u8>
        requires some { 0 < length self.records }
        requires short { length (spelling self.records) ≤ max_body }
        ensures { IsBlockOf (spelling self.records) result.items }
    {
        let Self {
            mut bytes,
            noted,
            count: _count,
            places: _places,
        } = self;
        drop(noted);
        close_block(&mut bytes);
        bytes
    }

    // Hands the records over as one block, and counts them. Where the outbox is full they come
    // back, and nothing is counted.
    pub(crate) fn offer<O: Outbox>(self, handed: &mut Handed, out: &mut O) -> Result<(), Draft>
        requires some { 0 < length self.records }
        requires short { length (spelling self.records) ≤ max_body }
        requires end { handed.old.end + length self.records < 2 ^ 64 }
        requires place { handed.old.place + places self.records < 2 ^ 64 }
        ensures handed { OnOk result (IsOffered self.records handed.old handed.new
            (λ bs. O.sends out.old bs out.new)) }
        ensures full { OnErr result (O.was_full out.old out.new) }
        ensures none { OnErr result (O.sends out.old [] out.new) }
        ensures same { OnErr result (handed.new ≡ handed.old) }
        ensures back { IfErr result (λ draft. draft.records ≡ self.records) }
    {
        let Self {
            mut bytes,
            noted,
            count,
            places,
        } = self;
        close_block(&mut bytes);
        let next = Handed {
            end: handed.end + count as u64,
            place: handed.place + places,
        };
        let block = Block {
            bytes,
            end: next.end,
            place: next.place,
        };
        match out.offer(block) {
            Ok(()) => {
                *handed = next;
                Ok(())
            }
            Err(block) => {
                let Block { mut bytes, .. } = block;
                bytes.pop();
                Err(Self {
                    bytes,
                    noted,
                    count,
                    places,
                })
            }
        }
    }
}

// How many transactions the record commits.
fn places_of(entry: &Record) -> u64
    ensures { result ≡ places (entry.now ∷ []) }
{
    match entry {
        Record::Make(_, _) | Record::Commit(_) => 1,
        _ => 0,
    }
}
