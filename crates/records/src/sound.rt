// What a record by itself may say.
ghost use Rattle.std.specs.Prelude.{◌≡◌, ◌↔◌, IsTrue, IfOk, IsOkUnless};
ghost use Rattle.calls.specs.declared.refusal.Refusal.{Refusal};
ghost use Rattle.calls.specs.Rules.{inverse_of, Askable, Pairs};
ghost use Rattle.records.specs.Records.{IsNumber, IsCalled, IsSoundLater, IsSound, Fits};
ghost use Rattle.records.specs.Records.{FitsCall, FitsCalled};

use crate::{CallRecord, LaterRecord, Record};
use calls::limits::NUMBER_END;
use calls::{Call, Refusal, Reply, check_call};

// Whether a transaction may have the number.
fn is_number(number: u64) -> bool
    ensures { IsTrue result ↔ IsNumber number }
{
    1 <= number && number < NUMBER_END
}

// Whether this is the call that takes back what a call did, answered so. NoMemory for the value
// that is put back.
fn is_inverse(call: &Call, reply: &Reply, back: &Option<Call>) -> Result<bool, Refusal>
    requires { Askable call.now }
    ensures is { IfOk result (λ same. IsTrue same ↔ (back.now ≡ inverse_of call.now reply.now)) }
    ensures refusal { IsOkUnless result Refusal.NoMemory }
{
    let inverse = call.inverse(reply)?;
    Ok(is_same(&inverse, back))
}

// Whether both are the same call, or both none.
fn is_same(one: &Option<Call>, other: &Option<Call>) -> bool
    ensures { IsTrue result ↔ (one.now ≡ other.now) }
{
    match (one, other) {
        (Some(call), Some(back)) => call.is_same(back),
        (None, None) => true,
        _ => false,
    }
}

fn is_called(asked: &CallRecord) -> Result<bool, Refusal>
    requires { FitsCalled asked.now }
    ensures is { IfOk result (λ called. IsTrue called ↔ IsCalled asked.now) }
    ensures refusal { IsOkUnless result Refusal.NoMemory }
{
    if !is_number(asked.number) || !is_asked(&asked.call, &asked.reply) {
        return Ok(false);
    }
    is_inverse(&asked.call, &asked.reply, &asked.inverse)
}

// Whether a client can ask for the call, whose value is not too long, and be answered so.
fn is_asked(call: &Call, reply: &Reply) -> bool
    requires { FitsCall call.now }
    ensures { IsTrue result ↔ (Askable call.now × Pairs call.now reply.now) }
{
    check_call(call).is_ok() && call.pairs(reply)
}

fn is_deferred(later: &LaterRecord) -> bool
    ensures { IsTrue result ↔ IsSoundLater later.now }
{
    is_number(later.number) && later.call.is_deferrable()
}

// Whether the record may say what it says. NoMemory for the value of an inverse.
pub(crate) fn is_sound(entry: &Record) -> Result<bool, Refusal>
    requires { Fits entry.now }
    ensures is { IfOk result (λ sound. IsTrue sound ↔ IsSound entry.now) }
    ensures refusal { IsOkUnless result Refusal.NoMemory }
{
    match entry {
        Record::Call(asked) | Record::LiveCall(asked) => is_called(asked),
        Record::Later(later) | Record::LiveLater(later) => Ok(is_deferred(later)),
        Record::Commit(number)
        | Record::Back(number)
        | Record::Ended(number)
        | Record::Begin(number) => Ok(is_number(*number)),
        Record::Marks { next, .. } => Ok(1 <= *next && *next <= NUMBER_END),
        Record::Make(_, _) | Record::Name(_, _) | Record::Item(_) | Record::ImageEnd => Ok(true),
    }
}
