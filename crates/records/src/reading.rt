// Bytes into the record that they begin with.
ghost use Rattle.std.specs.Prelude.{◌<◌};
ghost use Rattle.records.specs.declared.record.Record.{Record};
ghost use Rattle.records.specs.RecordReading.{Gives, byte_in, number_in, amount_in};
ghost use Rattle.records.specs.RecordReading.{positive_in, quota_in};
ghost use Rattle.records.specs.RecordReading.{pair_in, value_in, made};
ghost use Rattle.records.specs.RecordReading.{entry_in, kind_of, name_in, named_in};
ghost use Rattle.records.specs.RecordReading.{keyed_call_behind, call_behind, call_in};
ghost use Rattle.records.specs.RecordReading.{reply_behind, reply_in, inverse_in, called_in};
ghost use Rattle.records.specs.RecordReading.{deferred_in, item_in, numbered_behind};
ghost use Rattle.records.specs.RecordReading.{journal_behind, record_behind, record_in};
ghost use Rattle.std.specs.Int.{cast_signed};

use crate::unread::Unread;
use crate::{CallRecord, LaterRecord, Record};
use byteorder::{BigEndian, ByteOrder};
use calls::limits::MAX_VALUE;
use calls::{Bytes, Call, Format, Item, Kind, Name, Reply, check_name};
use std::alloc::Global;

fn read_byte(bytes: &[u8]) -> Result<(u8, &[u8]), Unread>
    ensures { Gives (λ x. (x.0, x.1.now)) result (byte_in bytes.now) }
{
    match bytes {
        [] => Err(Unread::Damage),
        [byte, rest @ ..] => Ok((*byte, rest)),
    }
}

#[tactic(auto, unfolding(crate::specs::RecordReading::number_in))]
fn read_u16(bytes: &[u8]) -> Result<(u16, &[u8]), Unread>
    ensures { Gives (λ x. (x.0, x.1.now)) result (number_in 2 bytes.now) }
{
    if bytes.len() < 2 {
        return Err(Unread::Damage);
    }
    Ok((BigEndian::read_u16(bytes), &bytes[2..]))
}

#[tactic(auto, unfolding(crate::specs::RecordReading::number_in))]
fn read_u64(bytes: &[u8]) -> Result<(u64, &[u8]), Unread>
    ensures { Gives (λ x. (x.0, x.1.now)) result (number_in 8 bytes.now) }
{
    if bytes.len() < 8 {
        return Err(Unread::Damage);
    }
    Ok((BigEndian::read_u64(bytes), &bytes[8..]))
}

#[tactic(auto, unfolding(crate::specs::RecordReading::number_in))]
fn read_u128(bytes: &[u8]) -> Result<(u128, &[u8]), Unread>
    ensures { Gives (λ x. (x.0, x.1.now)) result (number_in 16 bytes.now) }
{
    if bytes.len() < 16 {
        return Err(Unread::Damage);
    }
    Ok((BigEndian::read_u128(bytes), &bytes[16..]))
}

// A number of 16 bytes that is not negative.
#[tactic(auto, unfolding(crate::specs::RecordReading::amount_in))]
fn read_amount(bytes: &[u8]) -> Result<(i128, &[u8]), Unread>
    ensures { Gives (λ x. (x.0, x.1.now)) result (amount_in bytes.now) }
{
    let (n, rest) = read_u128(bytes)?;
    let amount = n.cast_signed();
    if amount < 0 {
        return Err(Unread::Damage);
    }
    Ok((amount, rest))
}

// A number of 16 bytes that is positive.
#[tactic(auto, unfolding(crate::specs::RecordReading::positive_in))]
fn read_positive(bytes: &[u8]) -> Result<(i128, &[u8]), Unread>
    ensures { Gives (λ x. (x.0, x.1.now)) result (positive_in bytes.now) }
{
    let (n, rest) = read_u128(bytes)?;
    let amount = n.cast_signed();
    if amount < 1 {
        return Err(Unread::Damage);
    }
    Ok((amount, rest))
}

// A key and a number that is positive.
#[tactic(auto, unfolding(crate::specs::RecordReading::quota_in))]
fn read_quota(bytes: &[u8]) -> Result<(u64, i128, &[u8]), Unread>
    ensures { Gives (λ x. ((x.0, x.1), x.2.now)) result (quota_in bytes.now) }
{
    let (key, rest) = read_u64(bytes)?;
    let (amount, rest) = read_positive(rest)?;
    Ok((key, amount, rest))
}

#[tactic(auto, unfolding(crate::specs::RecordReading::pair_in))]
fn read_pair(bytes: &[u8]) -> Result<(u64, u64, &[u8]), Unread>
    ensures { Gives (λ x. ((x.0, x.1), x.2.now)) result (pair_in bytes.now) }
{
    let (first, rest) = read_u64(bytes)?;
    let (second, rest) = read_u64(rest)?;
    Ok((first, second, rest))
}

#[tactic(auto, unfolding(crate::specs::RecordReading::value_in))]
fn read_value(alloc: Global, bytes: &[u8]) -> Result<(Bytes, &[u8]), Unread>
    ensures { Gives (λ x. (x.0, x.1.now)) result (value_in bytes.now) }
{
    let (len, rest) = read_u16(bytes)?;
    let len = len as usize;
    if len > MAX_VALUE || rest.len() < len {
        return Err(Unread::Damage);
    }
    let (value, rest) = rest.split_at(len);
    Ok((Bytes::new(value.to_vec(alloc)?), rest))
}

#[tactic(auto, unfolding(crate::specs::RecordReading::entry_in))]
fn read_entry(alloc: Global, bytes: &[u8]) -> Result<(u64, Bytes, &[u8]), Unread>
    ensures { Gives (λ x. ((x.0, x.1), x.2.now)) result (entry_in bytes.now) }
{
    let (key, rest) = read_u64(bytes)?;
    let (value, rest) = read_value(alloc, rest)?;
    Ok((key, value, rest))
}

fn kind_from(code: u8) -> Result<Kind, Unread>
    ensures { Gives (λ x. x) result (kind_of code) }
{
    match code {
        1 => Ok(Kind::Set),
        2 => Ok(Kind::Map),
        3 => Ok(Kind::Queue),
        4 => Ok(Kind::Counter),
        5 => Ok(Kind::Pool),
        6 => Ok(Kind::Stock),
        7 => Ok(Kind::Quotas),
        _ => Err(Unread::Damage),
    }
}

#[tactic(auto, unfolding(crate::specs::RecordReading::name_in))]
fn read_name(alloc: Global, bytes: &[u8]) -> Result<(Name, &[u8]), Unread>
    ensures { Gives (λ x. (x.0, x.1.now)) result (name_in bytes.now) }
{
    let (len, rest) = read_byte(bytes)?;
    let len = len as usize;
    if rest.len() < len {
        return Err(Unread::Damage);
    }
    let (name, rest) = rest.split_at(len);
    let Ok(text) = std::str::from_utf8(name) else {
        return Err(Unread::Damage);
    };
    if check_name(text).is_err() {
        return Err(Unread::Damage);
    }
    Ok((Name::new(String::from_str(alloc, text)?), rest))
}

#[tactic(auto, unfolding(crate::specs::RecordReading::named_in))]
fn read_named(alloc: Global, bytes: &[u8]) -> Result<(Kind, Name, &[u8]), Unread>
    ensures { Gives (λ x. (x.0, x.1, x.2.now)) result (named_in bytes.now) }
{
    let (code, rest) = read_byte(bytes)?;
    let kind = kind_from(code)?;
    let (name, rest) = read_name(alloc, rest)?;
    Ok((kind, name, rest))
}

// A call with a number and nothing else, behind its code.
#[tactic(auto, unfolding(crate::specs::RecordReading::keyed_call_behind))]
fn keyed_call_from(code: u8, bytes: &[u8]) -> Result<(Call, &[u8]), Unread>
    ensures { Gives (λ x. (x.0, x.1.now)) result (keyed_call_behind code bytes.now) }
{
    let (key, rest) = read_u64(bytes)?;
    match code {
        1 => Ok((Call::Contains(key), rest)),
        2 => Ok((Call::SetAdd(key), rest)),
        3 => Ok((Call::SetRemove(key), rest)),
        4 => Ok((Call::Get(key), rest)),
        6 => Ok((Call::MapRemove(key), rest)),
        7 => Ok((Call::Ceiling(key), rest)),
        15 => Ok((Call::Release(key), rest)),
        16 => Ok((Call::Free(key), rest)),
        17 => Ok((Call::Spend(key), rest)),
        19 => Ok((Call::Fill(key), rest)),
        22 => Ok((Call::QuotaLevel(key), rest)),
        _ => Err(Unread::Damage),
    }
}

// A call behind its code.
#[tactic(auto, unfolding(crate::specs::RecordReading::call_behind))]
fn call_from(alloc: Global, code: u8, bytes: &[u8]) -> Result<(Call, &[u8]), Unread>
    ensures { Gives (λ x. (x.0, x.1.now)) result (call_behind code bytes.now) }
{
    match code {
        5 => {
            let (key, value, rest) = read_entry(alloc, bytes)?;
            Ok((Call::Put(key, value), rest))
        }
        8 => {
            let (priority, tag, rest) = read_pair(bytes)?;
            Ok((Call::QueueAdd(priority, tag), rest))
        }
        9 => Ok((Call::Take, bytes)),
        10 => Ok((Call::Least, bytes)),
        11 => {
            let (priority, tag, rest) = read_pair(bytes)?;
            Ok((Call::Pluck(priority, tag), rest))
        }
        12 => {
            let (by, rest) = read_u64(bytes)?;
            Ok((Call::Bump(by.cast_signed()), rest))
        }
        13 => Ok((Call::Read, bytes)),
        14 => Ok((Call::Draw, bytes)),
        18 => Ok((Call::Level, bytes)),
        20 => Ok((Call::Pick, bytes)),
        21 => {
            let (key, amount, rest) = read_pair(bytes)?;
            Ok((Call::QuotaSpend(key, amount), rest))
        }
        23 => {
            let (key, amount, rest) = read_pair(bytes)?;
            Ok((Call::QuotaFill(key, amount), rest))
        }
        24 => {
            let (key, amount, rest) = read_pair(bytes)?;
            Ok((Call::Refund(key, amount), rest))
        }
        _ => keyed_call_from(code, bytes),
    }
}

#[tactic(auto, unfolding(crate::specs::RecordReading::call_in))]
fn read_call(alloc: Global, bytes: &[u8]) -> Result<(Call, &[u8]), Unread>
    ensures { Gives (λ x. (x.0, x.1.now)) result (call_in bytes.now) }
{
    let (code, rest) = read_byte(bytes)?;
    call_from(alloc, code, rest)
}

// A reply behind its code.
#[tactic(auto, unfolding(crate::specs::RecordReading::reply_behind))]
fn reply_from(alloc: Global, code: u8, bytes: &[u8]) -> Result<(Reply, &[u8]), Unread>
    ensures { Gives (λ x. (x.0, x.1.now)) result (reply_behind code bytes.now) }
{
    match code {
        0 => Ok((Reply::Done, bytes)),
        1 => Ok((Reply::No, bytes)),
        2 => Ok((Reply::Yes, bytes)),
        3 => Ok((Reply::Nothing, bytes)),
        4 => {
            let (value, rest) = read_value(alloc, bytes)?;
            Ok((Reply::Value(value), rest))
        }
        5 => {
            let (key, value, rest) = read_entry(alloc, bytes)?;
            Ok((Reply::Entry(key, value), rest))
        }
        6 => {
            let (priority, tag, rest) = read_pair(bytes)?;
            Ok((Reply::Item(priority, tag), rest))
        }
        7 => {
            let (total, rest) = read_u128(bytes)?;
            Ok((Reply::Total(total.cast_signed()), rest))
        }
        8 => {
            let (x, rest) = read_u64(bytes)?;
            Ok((Reply::Id(x), rest))
        }
        9 => Ok((Reply::Queued, bytes)),
        10 => Ok((Reply::Absent, bytes)),
        _ => Err(Unread::Damage),
    }
}

#[tactic(auto, unfolding(crate::specs::RecordReading::reply_in))]
fn read_reply(alloc: Global, bytes: &[u8]) -> Result<(Reply, &[u8]), Unread>
    ensures { Gives (λ x. (x.0, x.1.now)) result (reply_in bytes.now) }
{
    let (code, rest) = read_byte(bytes)?;
    reply_from(alloc, code, rest)
}

#[tactic(auto, unfolding(crate::specs::RecordReading::inverse_in))]
fn read_inverse(alloc: Global, bytes: &[u8]) -> Result<(Option<Call>, &[u8]), Unread>
    ensures { Gives (λ x. (x.0, x.1.now)) result (inverse_in bytes.now) }
{
    let (code, rest) = read_byte(bytes)?;
    if code == 0 {
        return Ok((None, rest));
    }
    let (call, rest) = call_from(alloc, code, rest)?;
    Ok((Some(call), rest))
}

#[tactic(auto, unfolding(crate::specs::RecordReading::called_in))]
fn read_called(alloc: Global, bytes: &[u8]) -> Result<(CallRecord, &[u8]), Unread>
    ensures { Gives (λ x. (x.0, x.1.now)) result (called_in bytes.now) }
{
    let (number, rest) = read_u64(bytes)?;
    let (collection, rest) = read_byte(rest)?;
    let (call, rest) = read_call(alloc, rest)?;
    let (reply, rest) = read_reply(alloc, rest)?;
    let (inverse, rest) = read_inverse(alloc, rest)?;
    let asked = CallRecord {
        number,
        collection,
        call,
        reply,
        inverse,
    };
    Ok((asked, rest))
}

#[tactic(auto, unfolding(crate::specs::RecordReading::deferred_in))]
fn read_later(alloc: Global, bytes: &[u8]) -> Result<(LaterRecord, &[u8]), Unread>
    ensures { Gives (λ x. (x.0, x.1.now)) result (deferred_in bytes.now) }
{
    let (number, rest) = read_u64(bytes)?;
    let (collection, rest) = read_byte(rest)?;
    let (call, rest) = read_call(alloc, rest)?;
    let later = LaterRecord {
        number,
        collection,
        call,
    };
    Ok((later, rest))
}

// An item of a collection of the kind.
#[tactic(auto, unfolding(crate::specs::RecordReading::item_in))]
fn read_item(alloc: Global, last: Option<Kind>, bytes: &[u8]) -> Result<(Item, &[u8]), Unread>
    ensures { Gives (λ x. (x.0, x.1.now)) result (item_in last bytes.now) }
{
    match last {
        None => Err(Unread::Damage),
        Some(Kind::Set | Kind::Pool) => {
            let (x, rest) = read_u64(bytes)?;
            Ok((Item::Element(x), rest))
        }
        Some(Kind::Map) => {
            let (key, value, rest) = read_entry(alloc, bytes)?;
            Ok((Item::Entry(key, value), rest))
        }
        Some(Kind::Queue) => {
            let (priority, tag, rest) = read_pair(bytes)?;
            Ok((Item::Pair(priority, tag), rest))
        }
        Some(Kind::Counter) => {
            let (n, rest) = read_u128(bytes)?;
            Ok((Item::Number(n.cast_signed()), rest))
        }
        Some(Kind::Stock) => {
            let (amount, rest) = read_amount(bytes)?;
            Ok((Item::Number(amount), rest))
        }
        Some(Kind::Quotas) => {
            let (key, amount, rest) = read_quota(bytes)?;
            Ok((Item::Amount(key, amount), rest))
        }
    }
}

// A record that is a transaction's number and nothing else, behind its tag.
#[tactic(auto, unfolding(crate::specs::RecordReading::numbered_behind))]
fn numbered_from(tag: u8, bytes: &[u8]) -> Result<(Record, &[u8]), Unread>
    ensures { Gives (λ x. (x.0, x.1.now)) result (numbered_behind tag bytes.now) }
{
    let (number, rest) = read_u64(bytes)?;
    match tag {
        4 => Ok((Record::Commit(number), rest)),
        5 => Ok((Record::Back(number), rest)),
        6 => Ok((Record::Ended(number), rest)),
        13 => Ok((Record::Begin(number), rest)),
        _ => Err(Unread::Damage),
    }
}

// A record of a journal behind its tag.
#[tactic(auto, unfolding(crate::specs::RecordReading::journal_behind))]
fn journal_record_from(alloc: Global, tag: u8, bytes: &[u8]) -> Result<(Record, &[u8]), Unread>
    ensures { Gives (λ x. (x.0, x.1.now)) result (journal_behind tag bytes.now) }
{
    match tag {
        1 => {
            let (kind, name, rest) = read_named(alloc, bytes)?;
            Ok((Record::Make(kind, name), rest))
        }
        2 => {
            let (asked, rest) = read_called(alloc, bytes)?;
            Ok((Record::Call(asked), rest))
        }
        3 => {
            let (later, rest) = read_later(alloc, bytes)?;
            Ok((Record::Later(later), rest))
        }
        _ => numbered_from(tag, bytes),
    }
}

// The marks of an image of the format.
fn read_marks(format: Format, bytes: &[u8]) -> Result<(Record, &[u8]), Unread>
    ensures { Gives (λ x. (x.0, x.1.now)) result
        (made (λ p. Record.Marks format p.0 p.1) pair_in bytes.now) }
{
    let (next, wear, rest) = read_pair(bytes)?;
    Ok((Record::Marks { format, next, wear }, rest))
}

// A record of an image or of a journal behind its tag.
#[tactic(auto, unfolding(crate::specs::RecordReading::record_behind))]
fn record_from(
    alloc: Global,
    last: Option<Kind>,
    tag: u8,
    bytes: &[u8],
) -> Result<(Record, &[u8]), Unread>
    ensures { Gives (λ x. (x.0, x.1.now)) result (record_behind last tag bytes.now) }
{
    match tag {
        7 => {
            let (kind, name, rest) = read_named(alloc, bytes)?;
            Ok((Record::Name(kind, name), rest))
        }
        8 => {
            let (item, rest) = read_item(alloc, last, bytes)?;
            Ok((Record::Item(item), rest))
        }
        9 => {
            let (asked, rest) = read_called(alloc, bytes)?;
            Ok((Record::LiveCall(asked), rest))
        }
        10 => {
            let (later, rest) = read_later(alloc, bytes)?;
            Ok((Record::LiveLater(later), rest))
        }
        11 => read_marks(Format::One, bytes),
        12 => Ok((Record::ImageEnd, bytes)),
        14 => read_marks(Format::Two, bytes),
        _ => journal_record_from(alloc, tag, bytes),
    }
}

/// The record at the front of the bytes, whatever it says, and the bytes behind it. `last` is the
/// kind that was named last before them: an item is one of that kind. Only names and values are
/// copied.
///
/// Damage exactly where no record is spelled at the front; Memory.
#[tactic(auto, unfolding(crate::specs::RecordReading::record_in))]
pub fn read_record(
    alloc: Global,
    last: Option<Kind>,
    bytes: &[u8],
) -> Result<(Record, &[u8]), Unread>
    ensures { Gives (λ x. (x.0, x.1.now)) result (record_in last bytes.now) }
{
    let (tag, rest) = read_byte(bytes)?;
    record_from(alloc, last, tag, rest)
}
