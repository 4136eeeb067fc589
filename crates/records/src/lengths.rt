// How many bytes a record takes.
ghost use Rattle.std.specs.Prelude.{◌≡◌, ◌+◌, ◌≤◌, ℕ, length, IfSome};
ghost use Rattle.std.specs.Option.{option_copied};
ghost use Rattle.records.specs.declared.record.Record.{Record};
ghost use Rattle.records.specs.Records.{value, call, reply, inverse, record_of_call};
ghost use Rattle.records.specs.Records.{deferred, item, spelled, Fits, FitsCall, FitsReply};
ghost use Rattle.records.specs.Records.{FitsItem, FitsCalled, FitsDeferred, IsValue};
ghost use Rattle.records.specs.Records.{longest};
ghost use Rattle.calls.specs.Formats.{max_value, widest};
ghost use Rattle.calls.specs.Rules.{inverse_of, Askable};
ghost use Rattle.calls.specs.Limits.{max_name};

use crate::record::{CallRecord, LaterRecord, Record};
use calls::{Bytes, Call, Item, Name, Reply};

#[tactic(auto, using(crate::proofs::RecordLengths::lengths))]
fn value_len(bytes: &Bytes) -> usize
    requires { IsValue bytes.now }
    ensures len { result ≡ length (value bytes.now) }
    ensures bound { result ≤ 2 + max_value widest }
{
    2 + bytes.as_slice().len()
}

#[tactic(auto, using(crate::proofs::RecordLengths::lengths))]
fn asked_len(asked: &Call) -> usize
    requires { FitsCall asked.now }
    ensures len { result ≡ length (call asked.now) }
    ensures bound { result ≤ 11 + max_value widest }
{
    match asked {
        Call::Contains(_)
        | Call::SetAdd(_)
        | Call::SetRemove(_)
        | Call::Get(_)
        | Call::MapRemove(_)
        | Call::Ceiling(_)
        | Call::Bump(_)
        | Call::Release(_)
        | Call::Free(_)
        | Call::Spend(_)
        | Call::Fill(_)
        | Call::QuotaLevel(_) => 9,
        Call::Put(_, bytes) => 9 + value_len(bytes),
        Call::QueueAdd(_, _)
        | Call::Pluck(_, _)
        | Call::QuotaSpend(_, _)
        | Call::QuotaFill(_, _)
        | Call::Refund(_, _) => 17,
        Call::Take | Call::Least | Call::Read | Call::Draw | Call::Level | Call::Pick => 1,
    }
}

#[tactic(auto, using(crate::proofs::RecordLengths::lengths))]
fn answer_len(answer: &Reply) -> usize
    requires { FitsReply answer.now }
    ensures len { result ≡ length (reply answer.now) }
    ensures bound { result ≤ 11 + max_value widest }
{
    match answer {
        Reply::Done | Reply::No | Reply::Yes | Reply::Nothing | Reply::Queued | Reply::Absent => 1,
        Reply::Value(bytes) => 1 + value_len(bytes),
        Reply::Entry(_, bytes) => 9 + value_len(bytes),
        Reply::Item(_, _) | Reply::Total(_) => 17,
        Reply::Id(_) => 9,
    }
}

fn inverse_len(back: Option<&Call>) -> usize
    requires { IfSome (option_copied back) FitsCall }
    ensures len { result ≡ length (inverse (option_copied back.entry)) }
    ensures bound { result ≤ 11 + max_value widest }
{
    match back {
        None => 1,
        Some(asked) => asked_len(asked),
    }
}

// How many bytes the call takes that takes a call back, answered so.
#[tactic(auto, using(crate::proofs::RecordLengths::lengths))]
fn back_len(asked: &Call, answer: &Reply) -> usize
    requires askable { Askable asked.now }
    requires fits { IfSome (inverse_of asked.now answer.now) FitsCall }
    ensures len { result ≡ length (inverse (inverse_of asked.now answer.now)) }
    ensures bound { result ≤ 11 + max_value widest }
{
    match asked.taken_entry(answer) {
        Some((_, old)) => 9 + value_len(old),
        None => inverse_len(asked.plain_inverse(answer).as_ref()),
    }
}

/// How many bytes the record of a call takes, with its reply and the call that takes it back, whose
/// values have at most 1,024 bytes: from 12 to 3,115. It takes no memory.
#[tactic(auto, using(crate::proofs::RecordLengths::lengths))]
pub fn call_len(asked: &Call, answer: &Reply) -> usize
    requires askable { Askable asked.now }
    requires asked { FitsCall asked.now }
    requires answer { FitsReply answer.now }
    ensures len { (n at : ℕ) → result ≡
        length (spelled (record_of_call n at asked.now answer.now)) }
    ensures positive { 1 ≤ result }
    ensures bound { result ≤ longest }
{
    10 + asked_len(asked) + answer_len(answer) + back_len(asked, answer)
}

#[tactic(auto, using(crate::proofs::RecordLengths::lengths))]
fn called_len(asked: &CallRecord) -> usize
    requires { FitsCalled asked.now }
    ensures len { result ≡ length (spelled (Record.Call asked.now)) }
    ensures bound { result ≤ longest }
{
    10 + asked_len(&asked.call) + answer_len(&asked.reply) + inverse_len(asked.inverse.as_ref())
}

#[tactic(auto, using(crate::proofs::RecordLengths::lengths))]
fn later_len(later: &LaterRecord) -> usize
    requires { FitsDeferred later.now }
    ensures len { result ≡ length (deferred later.now) }
    ensures bound { result ≤ 20 + max_value widest }
{
    9 + asked_len(&later.call)
}

#[tactic(auto, using(crate::proofs::RecordLengths::lengths))]
fn item_len(part: &Item) -> usize
    requires { FitsItem part.now }
    ensures len { result ≡ length (item part.now) }
    ensures bound { result ≤ 10 + max_value widest }
{
    match part {
        Item::Element(_) => 8,
        Item::Entry(_, bytes) => 8 + value_len(bytes),
        Item::Pair(_, _) | Item::Number(_) => 16,
        Item::Amount(_, _) => 24,
    }
}

fn named_len(name: &Name) -> usize
    requires { length name.now ≤ max_name }
    ensures { result ≡ 2 + length name.now }
{
    2 + name.as_str().len()
}

/// How many bytes a record takes, whose names are good and whose values have at most 1,024 bytes:
/// from 1 to 3,115.
#[tactic(auto, using(crate::proofs::RecordLengths::lengths))]
pub fn encoded_len(entry: &Record) -> usize
    requires { Fits entry.now }
    ensures len { result ≡ length (spelled entry.now) }
    ensures positive { 1 ≤ result }
    ensures bound { result ≤ longest }
{
    match entry {
        Record::Make(_, name) | Record::Name(_, name) => 1 + named_len(name),
        Record::Call(asked) | Record::LiveCall(asked) => called_len(asked),
        Record::Later(later) | Record::LiveLater(later) => 1 + later_len(later),
        Record::Commit(_) | Record::Back(_) | Record::Ended(_) | Record::Begin(_) => 9,
        Record::Item(part) => 1 + item_len(part),
        Record::Marks { .. } => 17,
        Record::ImageEnd => 1,
    }
}
