// What a collection can be asked.
ghost use Rattle.std.specs.Prelude.{◌≡◌, ◌↔◌, IsTrue, IfOk};

use crate::{Bytes, Kind};
use std::alloc::AllocError;

/// What a collection can be asked. Elements, keys, priorities, tags and identifiers are any u64. A
/// client cannot ask `Pluck`, `Free`, `Fill` and `Refund`, which are inverses; a `Fill` it can put
/// off.
#[derive(Drop, Debug)]
pub enum Call {
    /// Whether the element is in the set.
    Contains(u64),
    /// Puts the element into the set.
    SetAdd(u64),
    /// Takes the element out of the set.
    SetRemove(u64),
    /// Takes some element out of the set.
    Pick,
    /// The value at the key.
    Get(u64),
    /// Puts the value at the key.
    Put(u64, Bytes),
    /// Takes the key out of the map.
    MapRemove(u64),
    /// The entry of the least key that is at least this one.
    Ceiling(u64),
    /// Puts a copy of the pair of a priority and a tag into the queue.
    QueueAdd(u64, u64),
    /// Takes the least pair out of the queue.
    Take,
    /// The least pair of the queue.
    Least,
    /// Takes one copy of the pair out of the queue.
    Pluck(u64, u64),
    /// Adds to the counter.
    Bump(i64),
    /// The counter's number.
    Read,
    /// Takes an identifier that is free.
    Draw,
    /// Gives an identifier back at the commit.
    Release(u64),
    /// Makes an identifier free.
    Free(u64),
    /// Takes the amount out of the stock, if so much is there.
    Spend(u64),
    /// The stock's amount.
    Level,
    /// Adds the amount to the stock.
    Fill(u64),
    /// Takes the amount, which comes second, out of the quota at the key, if so much is there.
    QuotaSpend(u64, u64),
    /// The amount of the quota at the key.
    QuotaLevel(u64),
    /// Adds the amount, which comes second, to the quota at the key.
    QuotaFill(u64, u64),
    /// Gives the amount, which comes second, back to the quota at the key.
    Refund(u64, u64),
}

impl Call {
    ghost use Rattle.calls.specs.Rules.{kind_of};

    /// The kind of collection that the call is for.
    pub fn kind(&self) -> Kind
        ensures { result ≡ kind_of self.now }
    {
        match self {
            Call::Contains(_) | Call::SetAdd(_) | Call::SetRemove(_) | Call::Pick => Kind::Set,
            Call::Get(_) | Call::Put(_, _) | Call::MapRemove(_) | Call::Ceiling(_) => Kind::Map,
            Call::QueueAdd(_, _) | Call::Take | Call::Least | Call::Pluck(_, _) => Kind::Queue,
            Call::Bump(_) | Call::Read => Kind::Counter,
            Call::Draw | Call::Release(_) | Call::Free(_) => Kind::Pool,
            Call::Spend(_) | Call::Level | Call::Fill(_) => Kind::Stock,
            Call::QuotaSpend(_, _)
            | Call::QuotaLevel(_)
            | Call::QuotaFill(_, _)
            | Call::Refund(_, _) => Kind::Quotas,
        }
    }

    /// Whether the calls are the same. It takes no memory.
    pub fn is_same(&self, other: &Call) -> bool
        ensures { IsTrue result ↔ self.now ≡ other.now }
    {
        match (self, other) {
            (Call::Contains(x), Call::Contains(y))
            | (Call::SetAdd(x), Call::SetAdd(y))
            | (Call::SetRemove(x), Call::SetRemove(y))
            | (Call::Get(x), Call::Get(y))
            | (Call::MapRemove(x), Call::MapRemove(y))
            | (Call::Ceiling(x), Call::Ceiling(y))
            | (Call::Release(x), Call::Release(y))
            | (Call::Free(x), Call::Free(y))
            | (Call::Spend(x), Call::Spend(y))
            | (Call::Fill(x), Call::Fill(y))
            | (Call::QuotaLevel(x), Call::QuotaLevel(y)) => x == y,
            (Call::QueueAdd(p, g), Call::QueueAdd(q, h))
            | (Call::Pluck(p, g), Call::Pluck(q, h))
            | (Call::QuotaSpend(p, g), Call::QuotaSpend(q, h))
            | (Call::QuotaFill(p, g), Call::QuotaFill(q, h))
            | (Call::Refund(p, g), Call::Refund(q, h)) => p == q && g == h,
            (Call::Put(key, value), Call::Put(other_key, other_value)) => {
                key == other_key && value.is_same(other_value)
            }
            (Call::Bump(by), Call::Bump(other_by)) => by == other_by,
            (Call::Pick, Call::Pick)
            | (Call::Take, Call::Take)
            | (Call::Least, Call::Least)
            | (Call::Read, Call::Read)
            | (Call::Draw, Call::Draw)
            | (Call::Level, Call::Level) => true,
            _ => false,
        }
    }

    /// The same call once more. Refused only for want of memory; only a value that is put takes
    /// any.
    pub fn copy(&self) -> Result<Call, AllocError>
        ensures { IfOk result (λ call. call ≡ self.now) }
    {
        match self {
            Call::Contains(x) => Ok(Call::Contains(*x)),
            Call::SetAdd(x) => Ok(Call::SetAdd(*x)),
            Call::SetRemove(x) => Ok(Call::SetRemove(*x)),
            Call::Pick => Ok(Call::Pick),
            Call::Get(key) => Ok(Call::Get(*key)),
            Call::Put(key, value) => Ok(Call::Put(*key, value.clone()?)),
            Call::MapRemove(key) => Ok(Call::MapRemove(*key)),
            Call::Ceiling(key) => Ok(Call::Ceiling(*key)),
            Call::QueueAdd(priority, tag) => Ok(Call::QueueAdd(*priority, *tag)),
            Call::Take => Ok(Call::Take),
            Call::Least => Ok(Call::Least),
            Call::Pluck(priority, tag) => Ok(Call::Pluck(*priority, *tag)),
            Call::Bump(by) => Ok(Call::Bump(*by)),
            Call::Read => Ok(Call::Read),
            Call::Draw => Ok(Call::Draw),
            Call::Release(x) => Ok(Call::Release(*x)),
            Call::Free(x) => Ok(Call::Free(*x)),
            Call::Spend(amount) => Ok(Call::Spend(*amount)),
            Call::Level => Ok(Call::Level),
            Call::Fill(amount) => Ok(Call::Fill(*amount)),
            Call::QuotaSpend(key, amount) => Ok(Call::QuotaSpend(*key, *amount)),
            Call::QuotaLevel(key) => Ok(Call::QuotaLevel(*key)),
            Call::QuotaFill(key, amount) => Ok(Call::QuotaFill(*key, *amount)),
            Call::Refund(key, amount) => Ok(Call::Refund(*key, *amount)),
        }
    }
}
