// Records into bytes. The room is made first, so that what follows can't be refused.
ghost use Rattle.std.specs.Prelude.{◌≡◌, ◌+◌, ◌<◌, ◌≤◌, ◌∷◌, [], ◌++◌, length, vec_len};
ghost use Rattle.std.specs.Prelude.{vec_capacity, OnOk, OnErr, IfErr, IfSome};
ghost use Rattle.std.specs.Option.{option_copied};
ghost use Rattle.records.specs.declared.record.Record.{Record};
ghost use Rattle.records.specs.Records.{number, signed, wide, value, kind_code, named, call};
ghost use Rattle.records.specs.Records.{reply, inverse, called, deferred, item};
ghost use Rattle.records.specs.Records.{spelled, Fits, FitsCall, FitsReply, FitsItem};
ghost use Rattle.records.specs.Records.{FitsCalled, FitsDeferred, IsValue, before_inverse};
ghost use Rattle.records.specs.Records.{record_of_call, marks_tag};
ghost use Rattle.calls.specs.Rules.{inverse_of, Askable};
ghost use Rattle.calls.specs.Limits.{max_name};

use crate::lengths::{call_len, encoded_len};
use crate::record::{CallRecord, LaterRecord, Record};
use byteorder::{BigEndian, ByteOrder};
use calls::{Bytes, Call, Format, Item, Kind, Name, Refusal, Reply};

fn put_byte(out: &mut Vec<u8>, byte: u8)
    requires { vec_len out.old + 1 ≤ vec_capacity out.old }
    ensures items { out.new.items ≡ out.old.items ++ byte ∷ [] }
    ensures len { vec_len out.new ≡ vec_len out.old + 1 }
    ensures capacity { vec_capacity out.old ≤ vec_capacity out.new }
{
    out.extend_from_slice(&[byte]).unwrap();
}

fn put_bytes(out: &mut Vec<u8>, bytes: &[u8])
    requires { vec_len out.old + length bytes.now ≤ vec_capacity out.old }
    ensures items { out.new.items ≡ out.old.items ++ bytes.now }
    ensures len { vec_len out.new ≡ vec_len out.old + length bytes.now }
    ensures capacity { vec_capacity out.old ≤ vec_capacity out.new }
{
    out.extend_from_slice(bytes).unwrap();
}

#[tactic(auto, unfolding(crate::specs::Records::number))]
fn put_u16(out: &mut Vec<u8>, n: u16)
    requires { vec_len out.old + 2 ≤ vec_capacity out.old }
    ensures items { out.new.items ≡ out.old.items ++ number 2 n }
    ensures len { vec_len out.new ≡ vec_len out.old + 2 }
    ensures capacity { vec_capacity out.old ≤ vec_capacity out.new }
{
    let mut bytes = [0; 2];
    BigEndian::write_u16(&mut bytes, n);
    out.extend_from_slice(&bytes).unwrap();
}

#[tactic(auto, unfolding(crate::specs::Records::number))]
fn put_u64(out: &mut Vec<u8>, n: u64)
    requires { vec_len out.old + 8 ≤ vec_capacity out.old }
    ensures items { out.new.items ≡ out.old.items ++ number 8 n }
    ensures len { vec_len out.new ≡ vec_len out.old + 8 }
    ensures capacity { vec_capacity out.old ≤ vec_capacity out.new }
{
    let mut bytes = [0; 8];
    BigEndian::write_u64(&mut bytes, n);
    out.extend_from_slice(&bytes).unwrap();
}

#[tactic(auto, unfolding(crate::specs::Records::number))]
fn put_i64(out: &mut Vec<u8>, n: i64)
    requires { vec_len out.old + 8 ≤ vec_capacity out.old }
    ensures items { out.new.items ≡ out.old.items ++ signed n }
    ensures len { vec_len out.new ≡ vec_len out.old + 8 }
    ensures capacity { vec_capacity out.old ≤ vec_capacity out.new }
{
    let mut bytes = [0; 8];
    BigEndian::write_i64(&mut bytes, n);
    out.extend_from_slice(&bytes).unwrap();
}

#[tactic(auto, unfolding(crate::specs::Records::number))]
fn put_i128(out: &mut Vec<u8>, n: i128)
    requires { vec_len out.old + 16 ≤ vec_capacity out.old }
    ensures items { out.new.items ≡ out.old.items ++ wide n }
    ensures len { vec_len out.new ≡ vec_len out.old + 16 }
    ensures capacity { vec_capacity out.old ≤ vec_capacity out.new }
{
    let mut bytes = [0; 16];
    BigEndian::write_i128(&mut bytes, n);
    out.extend_from_slice(&bytes).unwrap();
}

#[tactic(auto, using(crate::proofs::RecordLengths::lengths))]
fn put_value(out: &mut Vec<u8>, bytes: &Bytes)
    requires value { IsValue bytes.now }
    requires room { vec_len out.old + length (value bytes.now) ≤ vec_capacity out.old }
    ensures items { out.new.items ≡ out.old.items ++ value bytes.now }
    ensures len { vec_len out.new ≡ vec_len out.old + length (value bytes.now) }
    ensures capacity { vec_capacity out.old ≤ vec_capacity out.new }
{
    let bytes = bytes.as_slice();
    put_u16(out, bytes.len() as u16);
    put_bytes(out, bytes);
}

// The code of a kind, as a record spells it.
fn code_of(kind: Kind) -> u8
    ensures { result ≡ kind_code kind }
{
    match kind {
        Kind::Set => 1,
        Kind::Map => 2,
        Kind::Queue => 3,
        Kind::Counter => 4,
        Kind::Pool => 5,
        Kind::Stock => 6,
        Kind::Quotas => 7,
    }
}

#[tactic(auto, using(crate::proofs::RecordLengths::lengths))]
fn put_named(out: &mut Vec<u8>, kind: Kind, name: &Name)
    requires short { length name.now ≤ max_name }
    requires room { vec_len out.old + length (named kind name.now) ≤ vec_capacity out.old }
    ensures items { out.new.items ≡ out.old.items ++ named kind name.now }
    ensures len { vec_len out.new ≡ vec_len out.old + length (named kind name.now) }
    ensures capacity { vec_capacity out.old ≤ vec_capacity out.new }
{
    let name = name.as_str();
    put_byte(out, code_of(kind));
    put_byte(out, name.len() as u8);
    put_bytes(out, name.as_bytes());
}

#[tactic(auto, using(crate::proofs::RecordLengths::lengths))]
fn put_coded(out: &mut Vec<u8>, code: u8, n: u64)
    requires { vec_len out.old + 9 ≤ vec_capacity out.old }
    ensures items { out.new.items ≡ out.old.items ++ code ∷ number 8 n }
    ensures len { vec_len out.new ≡ vec_len out.old + 9 }
    ensures capacity { vec_capacity out.old ≤ vec_capacity out.new }
{
    put_byte(out, code);
    put_u64(out, n);
}

#[tactic(auto, using(crate::proofs::RecordLengths::lengths))]
fn put_coded_pair(out: &mut Vec<u8>, code: u8, m: u64, n: u64)
    requires { vec_len out.old + 17 ≤ vec_capacity out.old }
    ensures items { out.new.items ≡ out.old.items ++ code ∷ (number 8 m ++ number 8 n) }
    ensures len { vec_len out.new ≡ vec_len out.old + 17 }
    ensures capacity { vec_capacity out.old ≤ vec_capacity out.new }
{
    put_byte(out, code);
    put_u64(out, m);
    put_u64(out, n);
}

#[tactic(auto, using(crate::proofs::RecordLengths::lengths))]
fn put_coded_entry(out: &mut Vec<u8>, code: u8, key: u64, bytes: &Bytes)
    requires value { IsValue bytes.now }
    requires room { vec_len out.old + 9 + length (value bytes.now) ≤ vec_capacity out.old }
    ensures items { out.new.items ≡ out.old.items ++ code ∷ (number 8 key ++ value bytes.now) }
    ensures len { vec_len out.new ≡ vec_len out.old + 9 + length (value bytes.now) }
    ensures capacity { vec_capacity out.old ≤ vec_capacity out.new }
{
    put_coded(out, code, key);
    put_value(out, bytes);
}

#[tactic(auto, using(crate::proofs::RecordLengths::lengths))]
fn put_call(out: &mut Vec<u8>, asked: &Call)
    requires fits { FitsCall asked.now }
    requires room { vec_len out.old + length (call asked.now) ≤ vec_capacity out.old }
    ensures items { out.new.items ≡ out.old.items ++ call asked.now }
    ensures len { vec_len out.new ≡ vec_len out.old + length (call asked.now) }
    ensures capacity { vec_capacity out.old ≤ vec_capacity out.new }
{
    match asked {
        Call::Contains(x) => put_coded(out, 1, *x),
        Call::SetAdd(x) => put_coded(out, 2, *x),
        Call::SetRemove(x) => put_coded(out, 3, *x),
        Call::Get(key) => put_coded(out, 4, *key),
        Call::Put(key, bytes) => put_coded_entry(out, 5, *key, bytes),
        Call::MapRemove(key) => put_coded(out, 6, *key),
        Call::Ceiling(key) => put_coded(out, 7, *key),
        Call::QueueAdd(priority, tag) => put_coded_pair(out, 8, *priority, *tag),
        Call::Take => put_byte(out, 9),
        Call::Least => put_byte(out, 10),
        Call::Pluck(priority, tag) => put_coded_pair(out, 11, *priority, *tag),
        Call::Bump(n) => {
            put_byte(out, 12);
            put_i64(out, *n);
        }
        Call::Read => put_byte(out, 13),
        Call::Draw => put_byte(out, 14),
        Call::Release(x) => put_coded(out, 15, *x),
        Call::Free(x) => put_coded(out, 16, *x),
        Call::Spend(amount) => put_coded(out, 17, *amount),
        Call::Level => put_byte(out, 18),
        Call::Fill(amount) => put_coded(out, 19, *amount),
        Call::Pick => put_byte(out, 20),
        Call::QuotaSpend(key, amount) => put_coded_pair(out, 21, *key, *amount),
        Call::QuotaLevel(key) => put_coded(out, 22, *key),
        Call::QuotaFill(key, amount) => put_coded_pair(out, 23, *key, *amount),
        Call::Refund(key, amount) => put_coded_pair(out, 24, *key, *amount),
    }
}

#[tactic(auto, using(crate::proofs::RecordLengths::lengths))]
fn put_reply(out: &mut Vec<u8>, answer: &Reply)
    requires fits { FitsReply answer.now }
    requires room { vec_len out.old + length (reply answer.now) ≤ vec_capacity out.old }
    ensures items { out.new.items ≡ out.old.items ++ reply answer.now }
    ensures len { vec_len out.new ≡ vec_len out.old + length (reply answer.now) }
    ensures capacity { vec_capacity out.old ≤ vec_capacity out.new }
{
    match answer {
        Reply::Done => put_byte(out, 0),
        Reply::No => put_byte(out, 1),
        Reply::Yes => put_byte(out, 2),
        Reply::Nothing => put_byte(out, 3),
        Reply::Value(bytes) => {
            put_byte(out, 4);
            put_value(out, bytes);
        }
        Reply::Entry(key, bytes) => put_coded_entry(out, 5, *key, bytes),
        Reply::Item(priority, tag) => put_coded_pair(out, 6, *priority, *tag),
        Reply::Total(n) => {
            put_byte(out, 7);
            put_i128(out, *n);
        }
        Reply::Id(x) => put_coded(out, 8, *x),
        Reply::Queued => put_byte(out, 9),
        Reply::Absent => put_byte(out, 10),
    }
}

#[tactic(auto, using(crate::proofs::RecordLengths::lengths))]
fn put_inverse(out: &mut Vec<u8>, back: Option<&Call>)
    requires fits { IfSome (option_copied back) FitsCall }
    requires room { vec_len out.old + length (inverse (option_copied back)) ≤ vec_capacity out.old }
    ensures items { out.new.items ≡ out.old.items ++ inverse (option_copied back.entry) }
    ensures len { vec_len out.new ≡ vec_len out.old + length (inverse (option_copied back.entry)) }
    ensures capacity { vec_capacity out.old ≤ vec_capacity out.new }
{
    match back {
        None => put_byte(out, 0),
        Some(asked) => put_call(out, asked),
    }
}

// Writes the call that takes a call back, answered so.
#[tactic(auto, using(crate::proofs::RecordLengths::lengths))]
fn put_back(out: &mut Vec<u8>, asked: &Call, answer: &Reply)
    requires askable { Askable asked.now }
    requires fits { IfSome (inverse_of asked.now answer.now) FitsCall }
    requires room { vec_len out.old + length (inverse (inverse_of asked.now answer.now)) ≤
        vec_capacity out.old }
    ensures items { out.new.items ≡ out.old.items ++ inverse (inverse_of asked.now answer.now) }
    ensures len { vec_len out.new ≡
        vec_len out.old + length (inverse (inverse_of asked.now answer.now)) }
    ensures capacity { vec_capacity out.old ≤ vec_capacity out.new }
{
    match asked.taken_entry(answer) {
        Some((key, old)) => put_coded_entry(out, 5, key, old),
        None => put_inverse(out, asked.plain_inverse(answer).as_ref()),
    }
}

// Writes what stands in a call's record before the inverse.
#[tactic(auto, using(crate::proofs::RecordLengths::lengths))]
fn put_asked(out: &mut Vec<u8>, number: u64, collection: u8, asked: &Call, answer: &Reply)
    requires asked { FitsCall asked.now }
    requires answer { FitsReply answer.now }
    requires room { vec_len out.old + length
        (before_inverse number collection asked.now answer.now) ≤ vec_capacity out.old }
    ensures items { out.new.items ≡
        out.old.items ++ before_inverse number collection asked.now answer.now }
    ensures len { vec_len out.new ≡
        vec_len out.old + length (before_inverse number collection asked.now answer.now) }
    ensures capacity { vec_capacity out.old ≤ vec_capacity out.new }
{
    put_u64(out, number);
    put_byte(out, collection);
    put_call(out, asked);
    put_reply(out, answer);
}

#[tactic(auto, using(crate::proofs::RecordLengths::lengths))]
fn put_called(out: &mut Vec<u8>, asked: &CallRecord)
    requires fits { FitsCalled asked.now }
    requires room { vec_len out.old + length (called asked.now) ≤ vec_capacity out.old }
    ensures items { out.new.items ≡ out.old.items ++ called asked.now }
    ensures len { vec_len out.new ≡ vec_len out.old + length (called asked.now) }
    ensures capacity { vec_capacity out.old ≤ vec_capacity out.new }
{
    put_asked(
        out,
        asked.number,
        asked.collection,
        &asked.call,
        &asked.reply,
    );
    put_inverse(out, asked.inverse.as_ref());
}

#[tactic(auto, using(crate::proofs::RecordLengths::lengths))]
fn put_later(out: &mut Vec<u8>, later: &LaterRecord)
    requires fits { FitsDeferred later.now }
    requires room { vec_len out.old + length (deferred later.now) ≤ vec_capacity out.old }
    ensures items { out.new.items ≡ out.old.items ++ deferred later.now }
    ensures len { vec_len out.new ≡ vec_len out.old + length (deferred later.now) }
    ensures capacity { vec_capacity out.old ≤ vec_capacity out.new }
{
    put_u64(out, later.number);
    put_byte(out, later.collection);
    put_call(out, &later.call);
}

// An item behind its tag.
#[tactic(auto, using(crate::proofs::RecordLengths::lengths))]
fn put_item(out: &mut Vec<u8>, part: &Item)
    requires fits { FitsItem part.now }
    requires room { vec_len out.old + 1 + length (item part.now) ≤ vec_capacity out.old }
    ensures items { out.new.items ≡ out.old.items ++ 8 ∷ item part.now }
    ensures len { vec_len out.new ≡ vec_len out.old + 1 + length (item part.now) }
    ensures capacity { vec_capacity out.old ≤ vec_capacity out.new }
{
    match part {
        Item::Element(x) => put_coded(out, 8, *x),
        Item::Entry(key, bytes) => put_coded_entry(out, 8, *key, bytes),
        Item::Pair(priority, tag) => put_coded_pair(out, 8, *priority, *tag),
        Item::Number(n) => {
            put_byte(out, 8);
            put_i128(out, *n);
        }
        Item::Amount(key, amount) => {
            put_coded(out, 8, *key);
            put_i128(out, *amount);
        }
    }
}

// The tag of an image's marks.
fn tag_of_marks(format: Format) -> u8
    ensures { result ≡ marks_tag format }
{
    match format {
        Format::One => 11,
        Format::Two => 14,
    }
}

#[tactic(auto, using(crate::proofs::RecordLengths::lengths))]
fn put_record(out: &mut Vec<u8>, entry: &Record)
    requires fits { Fits entry.now }
    requires room { vec_len out.old + length (spelled entry.now) ≤ vec_capacity out.old }
    ensures items { out.new.items ≡ out.old.items ++ spelled entry.now }
    ensures len { vec_len out.new ≡ vec_len out.old + length (spelled entry.now) }
    ensures capacity { vec_capacity out.old ≤ vec_capacity out.new }
{
    match entry {
        Record::Make(kind, name) => {
            put_byte(out, 1);
            put_named(out, *kind, name);
        }
        Record::Call(asked) => {
            put_byte(out, 2);
            put_called(out, asked);
        }
        Record::Later(later) => {
            put_byte(out, 3);
            put_later(out, later);
        }
        Record::Commit(n) => put_coded(out, 4, *n),
        Record::Back(n) => put_coded(out, 5, *n),
        Record::Ended(n) => put_coded(out, 6, *n),
        Record::Name(kind, name) => {
            put_byte(out, 7);
            put_named(out, *kind, name);
        }
        Record::Item(part) => put_item(out, part),
        Record::LiveCall(asked) => {
            put_byte(out, 9);
            put_called(out, asked);
        }
        Record::LiveLater(later) => {
            put_byte(out, 10);
            put_later(out, later);
        }
        Record::Marks { format, next, wear } => {
            put_coded_pair(out, tag_of_marks(*format), *next, *wear)
        }
        Record::ImageEnd => put_byte(out, 12),
        Record::Begin(n) => put_coded(out, 13, *n),
    }
}

/// Puts a record, whose names are good and whose values have at most 1,024 bytes, behind what `out`
/// holds, in place.
///
/// NoMemory, only where room was missing; it leaves `out` as it was.
pub fn encode(entry: &Record, out: &mut Vec<u8>) -> Result<(), Refusal>
    requires { Fits entry.now }
    ensures ok { OnOk result (out.new.items ≡ out.old.items ++ spelled entry.now) }
    ensures len { OnOk result (vec_len out.new ≡ vec_len out.old + length (spelled entry.now)) }
    ensures err { IfErr result (λ e. (e ≡ Refusal.NoMemory) × (out.new.items ≡ out.old.items)) }
    ensures full { OnErr result (vec_capacity out.old < vec_len out.old + length
        (spelled entry.now)) }
    ensures capacity { vec_capacity out.old ≤ vec_capacity out.new }
{
    if out.reserve(encoded_len(entry)).is_err() {
        return Err(Refusal::NoMemory);
    }
    put_record(out, entry);
    Ok(())
}

/// Puts the record of a call, whose values have at most 1,024 bytes, behind what `out` holds, in
/// place: the transaction's number, the collection, the call, its reply, and the call that takes it
/// back. Nothing is copied but into `out`.
///
/// NoMemory, only where room was missing; it leaves `out` as it was.
pub fn encode_call(
    number: u64,
    collection: u8,
    asked: &Call,
    answer: &Reply,
    out: &mut Vec<u8>,
) -> Result<(), Refusal>
    requires askable { Askable asked.now }
    requires asked { FitsCall asked.now }
    requires answer { FitsReply answer.now }
    ensures ok { OnOk result (out.new.items ≡ out.old.items ++
        spelled (record_of_call number collection asked.now answer.now)) }
    ensures len { OnOk result (vec_len out.new ≡ vec_len out.old +
        length (spelled (record_of_call number collection asked.now answer.now))) }
    ensures err { IfErr result (λ e. (e ≡ Refusal.NoMemory) × (out.new.items ≡ out.old.items)) }
    ensures full { OnErr result (vec_capacity out.old < vec_len out.old + length
        (spelled (record_of_call number collection asked.now answer.now))) }
    ensures capacity { vec_capacity out.old ≤ vec_capacity out.new }
{
    if out.reserve(call_len(asked, answer)).is_err() {
        return Err(Refusal::NoMemory);
    }
    put_byte(out, 2);
    put_asked(out, number, collection, asked, answer);
    put_back(out, asked, answer);
    Ok(())
}
