// What of a call does not depend on a content: its need, its inverse, what it leaves, and who may
// ask for it.
ghost use Rattle.std.specs.Prelude.{◌≡◌, ◌↔◌, ℕ, List, Some, IsTrue, IsOk, IfOk, IfErr, OnErr};
ghost use Rattle.std.specs.Prelude.{IsOkUnless, MatchOption};
ghost use Rattle.std.specs.Option.{option_to_list};
ghost use Rattle.calls.specs.declared.call.Call.{Call};
ghost use Rattle.calls.specs.declared.refusal.Refusal.{Refusal};
ghost use Rattle.calls.specs.Rules.{need_of, inverse_of, undone_by, left_by, Pairs, Askable};
ghost use Rattle.calls.specs.Rules.{PutsNothingBack, IsShort, CallRefused, Deferrable, Disposable};
ghost use Rattle.calls.specs.Reads.{reads};
ghost use Rattle.calls.specs.Formats.{widest};

use crate::limits::{MAX_AMOUNT, MAX_VALUE};
use crate::{Bytes, Call, Format, Mode, Need, Refusal, Reply};

impl Call {
    /// The keys that the call, answered so, uses, and how. It takes no memory.
    pub fn need(&self, reply: &Reply) -> Need
        ensures { result ≡ need_of self.now reply.now }
    {
        match (self, reply) {
            (Call::Contains(x), _) => at(*x, Mode::Read),
            (Call::SetAdd(x), Reply::Yes) => at(*x, Mode::Write),
            (Call::SetAdd(x), Reply::No) => at(*x, Mode::Read),
            (Call::SetRemove(x), Reply::Yes) => at(*x, Mode::Write),
            (Call::SetRemove(x), Reply::No) => at(*x, Mode::Read),
            (Call::Pick, Reply::Id(x)) => at(*x, Mode::Write),
            (Call::Pick, Reply::Nothing) => over(0, u64::MAX, Mode::Read),
            (Call::Get(key), _) => at(*key, Mode::Read),
            (Call::Put(key, _), _) => at(*key, Mode::Write),
            (Call::MapRemove(key), Reply::Value(_)) => at(*key, Mode::Write),
            (Call::MapRemove(key), Reply::Nothing) => at(*key, Mode::Read),
            (Call::Ceiling(key), Reply::Entry(found, _)) => over(*key, *found, Mode::Read),
            (Call::Ceiling(key), Reply::Nothing) => over(*key, u64::MAX, Mode::Read),
            (Call::QueueAdd(priority, _), _) => at(*priority, Mode::Add),
            (Call::Take, Reply::Item(priority, _)) => over(0, *priority, Mode::Write),
            (Call::Take, Reply::Nothing) => over(0, u64::MAX, Mode::Read),
            (Call::Least, Reply::Item(priority, _)) => over(0, *priority, Mode::Read),
            (Call::Least, Reply::Nothing) => over(0, u64::MAX, Mode::Read),
            (Call::Bump(_), _) => over(0, u64::MAX, Mode::Add),
            (Call::Read, _) => over(0, u64::MAX, Mode::Read),
            (Call::Draw, Reply::Id(x)) => at(*x, Mode::Write),
            (Call::Release(x), Reply::Queued) => at(*x, Mode::Write),
            (Call::Release(x), Reply::Absent) => at(*x, Mode::Read),
            (Call::Free(x), _) => at(*x, Mode::Write),
            (Call::Pluck(priority, _), _) => at(*priority, Mode::Write),
            (Call::Spend(_), Reply::Yes) => over(0, u64::MAX, Mode::Take),
            (Call::Spend(_), Reply::No) => over(0, u64::MAX, Mode::Read),
            (Call::Level, _) => over(0, u64::MAX, Mode::Read),
            (Call::Fill(_), _) => over(0, u64::MAX, Mode::Give),
            (Call::QuotaSpend(key, _), Reply::Yes) => at(*key, Mode::Take),
            (Call::QuotaSpend(key, _), Reply::No) => at(*key, Mode::Read),
            (Call::QuotaLevel(key), _) => at(*key, Mode::Read),
            (Call::QuotaFill(key, _), _) => at(*key, Mode::Write),
            (Call::Refund(key, _), _) => at(*key, Mode::Give),
            _ => over(0, u64::MAX, Mode::Write),
        }
    }

    /// Whether the call, answered so, only reads, as its need says. It takes no memory.
    pub fn reads(&self, reply: &Reply) -> bool
        ensures { result ≡ reads self.now reply.now }
    {
        match self.need(reply).mode {
            Mode::Read => true,
            _ => false,
        }
    }

    /// The entry of a map that the call, answered so, took away and its inverse puts back: that of
    /// a Put or a MapRemove that got a value. It takes no memory.
    pub fn taken_entry<'a>(&self, reply: &'a Reply) -> Option<(u64, &'a Bytes)>
        ensures { MatchOption result (PutsNothingBack self.now reply.now)
            (λ entry. inverse_of self.now reply.now ≡ Some (Call.Put entry.0 entry.1.now)) }
    {
        match (self, reply) {
            (Call::Put(key, _) | Call::MapRemove(key), Reply::Value(old)) => Some((*key, old)),
            _ => None,
        }
    }

    /// The call that takes back what the call did, answered so, where it took no entry away; none
    /// where it changed nothing. It takes no memory.
    pub fn plain_inverse(&self, reply: &Reply) -> Option<Call>
        requires askable { Askable self.now }
        requires plain { PutsNothingBack self.now reply.now }
        ensures { result ≡ inverse_of self.now reply.now }
    {
        match (self, reply) {
            (Call::SetAdd(x), Reply::Yes) => Some(Call::SetRemove(*x)),
            (Call::SetRemove(x), Reply::Yes) => Some(Call::SetAdd(*x)),
            (Call::Pick, Reply::Id(x)) => Some(Call::SetAdd(*x)),
            (Call::Put(key, _), Reply::Nothing) => Some(Call::MapRemove(*key)),
            (Call::QueueAdd(priority, tag), Reply::Done) => Some(Call::Pluck(*priority, *tag)),
            (Call::Take, Reply::Item(priority, tag)) => Some(Call::QueueAdd(*priority, *tag)),
            (Call::Bump(by), Reply::Done) => Some(Call::Bump(-*by)),
            (Call::Draw, Reply::Id(x)) => Some(Call::Free(*x)),
            (Call::Spend(amount), Reply::Yes) => Some(Call::Fill(*amount)),
            (Call::QuotaSpend(key, amount), Reply::Yes) => Some(Call::Refund(*key, *amount)),
            (Call::QuotaFill(key, amount), Reply::Done) => Some(Call::QuotaSpend(*key, *amount)),
            _ => None,
        }
    }

    /// The call that takes back what the call did, answered so; none where it changed nothing.
    /// NoMemory only for a value that is put back.
    pub fn inverse(&self, reply: &Reply) -> Result<Option<Call>, Refusal>
        requires { Askable self.now }
        ensures ok { IfOk result (λ back. back ≡ inverse_of self.now reply.now) }
        ensures refusal { IsOkUnless result Refusal.NoMemory }
        ensures value { OnErr result (PutsNothingBack self.now reply.now → ⊥) }
    {
        match self.taken_entry(reply) {
            Some((key, old)) => Ok(Some(Call::Put(key, old.clone()?))),
            None => Ok(self.plain_inverse(reply)),
        }
    }

    /// What the inverse of the call is answered where it takes back what the call did, answered so.
    /// NoMemory only for a value, which is copied.
    pub fn undone_by(&self, reply: &Reply) -> Result<Reply, Refusal>
        ensures ok { IfOk result (λ undone. undone ≡ undone_by self.now reply.now) }
        ensures refusal { IsOkUnless result Refusal.NoMemory }
        ensures value { OnErr result ((v : List ℕ) ×
            (undone_by self.now reply.now ≡ Reply.Value v)) }
    {
        match (self, reply) {
            (Call::SetAdd(_) | Call::SetRemove(_), Reply::Yes) => Ok(Reply::Yes),
            (Call::Pick, Reply::Id(_)) => Ok(Reply::Yes),
            (Call::Put(_, value), Reply::Nothing | Reply::Value(_)) => {
                Ok(Reply::Value(value.clone()?))
            }
            (Call::MapRemove(_), Reply::Value(_)) => Ok(Reply::Nothing),
            (Call::QuotaFill(_, _), Reply::Done) => Ok(Reply::Yes),
            _ => Ok(Reply::Done),
        }
    }

    /// Whether the call has such a reply in some content. It takes no memory.
    pub fn pairs(&self, reply: &Reply) -> bool
        ensures { IsTrue result ↔ Pairs self.now reply.now }
    {
        match (self, reply) {
            (
                Call::Contains(_) | Call::SetAdd(_) | Call::SetRemove(_) | Call::Spend(_),
                Reply::Yes | Reply::No,
            ) => true,
            (
                Call::Get(_) | Call::Put(_, _) | Call::MapRemove(_),
                Reply::Value(_) | Reply::Nothing,
            ) => true,
            (Call::Pick, Reply::Id(_) | Reply::Nothing) => true,
            (Call::Ceiling(_), Reply::Entry(_, _) | Reply::Nothing) => true,
            (Call::Take | Call::Least, Reply::Item(_, _) | Reply::Nothing) => true,
            (Call::QueueAdd(_, _) | Call::Bump(_), Reply::Done) => true,
            (Call::Read, Reply::Total(_)) => true,
            (Call::Level, Reply::Total(_)) => true,
            (Call::QuotaSpend(_, _), Reply::Yes | Reply::No) => true,
            (Call::QuotaLevel(_), Reply::Total(_)) => true,
            (Call::QuotaFill(_, _), Reply::Done) => true,
            (Call::Draw, Reply::Id(_)) => true,
            (Call::Release(_), Reply::Queued | Reply::Absent) => true,
            _ => false,
        }
    }

    /// The later that the call, answered so, leaves to the commit. It takes no memory.
    pub fn after(&self, reply: &Reply) -> Option<Call>
        ensures { option_to_list result ≡ left_by self.now reply.now }
    {
        match (self, reply) {
            (Call::Release(x), Reply::Queued) => Some(Call::Free(*x)),
            _ => None,
        }
    }

    /// Whether the call may run in a commit: a Bump, a Free, or a Fill. It takes no memory.
    pub fn is_disposable(&self) -> bool
        ensures { IsTrue result ↔ Disposable self.now }
    {
        matches!(self, Call::Bump(_) | Call::Free(_) | Call::Fill(_))
    }

    /// Whether a client can put the call off to its commit: a Bump, but not by -2^63, which has no
    /// inverse; or a Fill by at most 2^63 - 1. It takes no memory.
    pub fn is_deferrable(&self) -> bool
        ensures { IsTrue result ↔ Deferrable self.now }
    {
        match self {
            Call::Bump(by) => *by > i64::MIN,
            Call::Fill(amount) => *amount <= MAX_AMOUNT,
            _ => false,
        }
    }
}

impl Call {
    /// Whether the value that the call puts, if it puts one, is one of the format. It takes no
    /// memory.
    pub fn is_short(&self, format: Format) -> bool
        ensures { IsTrue result ↔ IsShort format self.now }
    {
        match self {
            Call::Put(_, value) => value.as_slice().len() <= format.max_value(),
            _ => true,
        }
    }
}

/// Whether a client can ask for the call. It takes no memory.
///
/// BadArg for Pluck, for Free, for Fill, for Refund, for a Bump of -2^63, which has no inverse, and
/// for a Spend, a QuotaSpend or a QuotaFill of over 2^63 - 1; TooLong for a value over 1,024 bytes,
/// which no format has.
pub fn check_call(call: &Call) -> Result<(), Refusal>
    ensures ok { IsOk result ↔ (Askable call.now × IsShort widest call.now) }
    ensures err { IfErr result (CallRefused call.now) }
{
    match call {
        Call::Pluck(_, _) | Call::Free(_) | Call::Fill(_) | Call::Refund(_, _) => {
            Err(Refusal::BadArg)
        }
        Call::Bump(i64::MIN) => Err(Refusal::BadArg),
        Call::Spend(amount) if *amount > MAX_AMOUNT => Err(Refusal::BadArg),
        Call::QuotaSpend(_, amount) if *amount > MAX_AMOUNT => Err(Refusal::BadArg),
        Call::QuotaFill(_, amount) if *amount > MAX_AMOUNT => Err(Refusal::BadArg),
        Call::Put(_, value) if value.as_slice().len() > MAX_VALUE => Err(Refusal::TooLong),
        _ => Ok(()),
    }
}

fn at(key: u64, mode: Mode) -> Need
    ensures { result ≡ record { low = key; high = key; mode = mode } }
{
    over(key, key, mode)
}

fn over(low: u64, high: u64, mode: Mode) -> Need
    ensures { result ≡ record { low = low; high = high; mode = mode } }
{
    Need { low, high, mode }
}
