// What has a spelling.
ghost use Rattle.std.specs.Prelude.{◌↔◌, ◌≤◌, length, IsTrue};
ghost use Rattle.calls.specs.Formats.{max_value, widest};
ghost use Rattle.calls.specs.Rules.{IsShort};
ghost use Rattle.records.specs.Records.{IsValue, FitsCall, FitsReply, FitsItem};
ghost use Rattle.calls.specs.Counters.{IsWithin};
ghost use Rattle.records.specs.Short.{IsShortReply, IsShortItem};
ghost use Rattle.records.specs.Reached.{IsReached};

use calls::limits::MAX_VALUE;
use calls::{Bytes, Call, Format, Item, Reply};

// Whether the value has no more bytes than any format has.
fn fits_value(value: &Bytes) -> bool
    ensures fits { IsTrue result ↔ IsValue value.now }
    ensures short { IsTrue result ↔ (length value.now ≤ max_value widest) }
{
    are_few(value.as_slice())
}

fn are_few(bytes: &[u8]) -> bool
    ensures fits { IsTrue result ↔ IsValue bytes.now }
    ensures short { IsTrue result ↔ (length bytes.now ≤ max_value widest) }
{
    bytes.len() <= MAX_VALUE
}

/// Whether the call has a spelling, which it has exactly where its value, if it has one, has at
/// most 1,024 bytes.
pub fn fits_call(call: &Call) -> bool
    ensures fits { IsTrue result ↔ FitsCall call.now }
    ensures short { IsTrue result ↔ IsShort widest call.now }
{
    match *call {
        Call::Put(_key, ref value) => fits_value(value),
        Call::Contains(_x) | Call::SetAdd(_x) | Call::SetRemove(_x) => true,
        Call::Get(_key) | Call::MapRemove(_key) | Call::Ceiling(_key) => true,
        Call::QueueAdd(_priority, _tag) | Call::Pluck(_priority, _tag) => true,
        Call::Bump(_by) => true,
        Call::Release(_x) | Call::Free(_x) => true,
        Call::Spend(_amount) | Call::Fill(_amount) => true,
        Call::QuotaSpend(_key, _amount) | Call::QuotaFill(_key, _amount) => true,
        Call::Refund(_key, _amount) => true,
        Call::QuotaLevel(_key) => true,
        Call::Take | Call::Least | Call::Read | Call::Draw | Call::Level | Call::Pick => true,
    }
}

/// Whether the reply has a spelling, which it has exactly where its value, if it has one, has at
/// most 1,024 bytes.
pub fn fits_reply(reply: &Reply) -> bool
    ensures fits { IsTrue result ↔ FitsReply reply.now }
    ensures short { IsTrue result ↔ IsShortReply widest reply.now }
{
    match *reply {
        Reply::Value(ref value) => fits_value(value),
        Reply::Entry(_key, ref value) => fits_value(value),
        Reply::Item(_priority, _tag) => true,
        Reply::Total(_total) => true,
        Reply::Id(_x) => true,
        Reply::Done | Reply::No | Reply::Yes | Reply::Nothing | Reply::Queued | Reply::Absent => {
            true
        }
    }
}

/// Whether the item has a spelling, which it has exactly where its value, if it has one, has at
/// most 1,024 bytes.
pub fn fits_item(item: &Item) -> bool
    ensures fits { IsTrue result ↔ FitsItem item.now }
    ensures short { IsTrue result ↔ IsShortItem widest item.now }
{
    match *item {
        Item::Entry(_key, ref value) => fits_value(value),
        Item::Pair(_priority, _tag) => true,
        Item::Element(_x) => true,
        Item::Number(_total) => true,
        Item::Amount(_key, _amount) => true,
    }
}

/// Whether the reply's value, if it has one, is one of the format.
pub fn is_short_reply(format: Format, reply: &Reply) -> bool
    ensures { IsTrue result ↔ IsShortReply format reply.now }
{
    match reply {
        Reply::Value(value) | Reply::Entry(_, value) => {
            value.as_slice().len() <= format.max_value()
        }
        _ => true,
    }
}

/// Whether the item's value, if it has one, is one of the format.
pub fn is_short_item(format: Format, item: &Item) -> bool
    ensures { IsTrue result ↔ IsShortItem format item.now }
{
    match item {
        Item::Entry(_, value) => value.as_slice().len() <= format.max_value(),
        _ => true,
    }
}

/// Whether so many runs can reach the item: the number of a counter or of a stock, and the amount
/// of a quota, is at most `wear` times 2^63 from 0, and other items have no bound.
pub fn is_reached(item: &Item, wear: u64) -> bool
    ensures { IsTrue result ↔ IsReached wear item.now }
{
    match item {
        Item::Number(total) | Item::Amount(_, total) => is_near(*total, wear),
        Item::Element(_) | Item::Entry(_, _) | Item::Pair(_, _) => true,
    }
}

fn is_near(total: i128, wear: u64) -> bool
    ensures { IsTrue result ↔ IsWithin total wear }
{
    let bound = wear as i128 * (1 << 63);
    -bound <= total && total <= bound
}
