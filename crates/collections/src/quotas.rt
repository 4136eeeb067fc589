// At each key an amount that is spent and filled.
ghost use Rattle.std.specs.Prelude.{◌≡◌, ◌↔◌, ◌≤◌, ◌<◌, ◌+◌, ◌^◌, IsTrue, IsOk, IsOkAnd, IfOk};
ghost use Rattle.std.specs.Prelude.{OnOk, OnErr, IsOkUnless};
ghost use Rattle.std.specs.FinMap as map;
ghost use Rattle.std.specs.List.{AllByRecursion};
ghost use Rattle.std.specs.List.Sorted.{IsStrictlySortedBy};
ghost use Rattle.std.specs.Map.{keys_of};
ghost use Rattle.std.specs.Ordering.{nat_cmp};
ghost use Rattle.std.specs.Option.{option_copied};
ghost use Rattle.calls.specs.declared.call.Call.{Call};
ghost use Rattle.calls.specs.declared.refusal.Refusal.{Refusal};
ghost use Rattle.calls.specs.Rules.{TakesNoMemory, IsAmount};
ghost use Rattle.calls.specs.Quotas.{level, with_level, AreBelow, Answers, after, CanLook};

use calls::limits::MAX_AMOUNT;
use calls::{Call, Refusal, Reply};
use std::alloc::{AllocError, Global};
use std::collections::BTreeMap;
use std::collections::btree_map::Iter;
use std::marker::Model;

/// Quotas: at each number an amount below 2^127 that is never less than nothing. Contracts see the
/// amounts.
pub struct QuotasCol {
    // At each key that is there, its amount less one: no key is there with nothing.
    less_one: BTreeMap<u64, u128>,
}

// Written out, so that the crates above call it in place of proving it again.
impl Drop for QuotasCol {
    fn drop(self) {
        let Self { less_one } = self;
        drop(less_one);
    }
}

impl Model for QuotasCol {
    ghost use Rattle.std.specs.Prelude.{◌^◌};
    ghost use Rattle.std.specs.Coded.{coded_ℕ};
    ghost use Rattle.std.specs.FinMap as map;
    ghost use Rattle.calls.specs.Quotas.{Quotas, AreBelow};

    ghost Value = { Quotas };

    ghost coded = { map.code coded_ℕ coded_ℕ };

    ghost view = { λ q. map.from_entries q.less_one.entries };

    ghost invariant = { λ q. AreBelow (2 ^ 127) (map.from_entries q.less_one.entries) };
}

impl QuotasCol {
    /// Quotas with no amount. It takes no memory. Its cost is constant.
    pub fn new(alloc: Global) -> Self
        ensures { result ≡ map.empty }
    {
        Self {
            less_one: BTreeMap::new(alloc),
        }
    }

    /// The keys that have an amount, each with its amount less one, in the order of the keys. To
    /// come to the first costs a look, logarithmic in their number; to go over all is linear.
    pub fn iter(&self) -> Iter<'_, u64, u128>
        ensures rising { IsStrictlySortedBy nat_cmp (keys_of result) }
        ensures entries { map.from_entries result ≡ self.now }
        ensures below { AllByRecursion (λ entry. entry.1 + 1 < 2 ^ 127) result }
    {
        self.less_one.iter()
    }

    /// The same quotas once more. Refused only for want of memory. Its cost is linear in the number
    /// of keys that have an amount.
    pub fn copy(&self) -> Result<Self, AllocError>
        ensures { IfOk result (λ quotas. quotas ≡ self.now) }
    {
        Ok(Self {
            less_one: self.less_one.clone()?,
        })
    }

    /// How many keys have an amount. It takes no memory. Its cost is constant.
    pub fn len(&self) -> usize
        ensures { result ≡ map.len self.now }
    {
        self.less_one.len()
    }

    // What is noted at the key.
    fn get(&self, key: u64) -> Option<&u128>
        ensures value { option_copied result ≡ map.get self.now key }
        ensures below { AreBelow (2 ^ 127) self.now }
    {
        self.less_one.get(&key)
    }

    // The amount at the key.
    fn level(&self, key: u64) -> u128
        ensures level { result ≡ level self.now key }
        ensures below { result < 2 ^ 127 }
    {
        match self.get(key) {
            Some(less_one) => *less_one + 1,
            None => 0,
        }
    }

    /// The reply that a call of quotas gets now. It takes no memory and is never refused. Its cost
    /// is logarithmic in the number of keys that have an amount.
    pub fn look(&self, call: &Call) -> Result<Reply, Refusal>
        requires { CanLook self.now call.now }
        ensures { IsOkAnd result (λ reply. Answers self.now call.now reply) }
    {
        match *call {
            Call::QuotaSpend(key, amount) => Ok(self.spent(key, amount)),
            Call::QuotaLevel(key) => Ok(Reply::Total(self.level(key) as i128)),
            Call::QuotaFill(_key, _amount) => Ok(Reply::Done),
            Call::Refund(_key, _amount) => Ok(Reply::Done),
            _ => unreachable!(),
        }
    }

    // The reply that tells whether so much is at the key.
    fn spent(&self, key: u64, amount: u64) -> Reply
        requires { IsAmount amount }
        ensures { Answers self.now (Call.QuotaSpend key amount) result }
    {
        if u128::from(amount) <= self.level(key) {
            Reply::Yes
        } else {
            Reply::No
        }
    }

    /// Whether the call may get this reply now. It takes no memory. Its cost is logarithmic in the
    /// number of keys that have an amount.
    pub fn fits(&self, call: &Call, reply: &Reply) -> bool
        ensures { IsTrue result ↔ Answers self.now call.now reply.now }
    {
        match (call, reply) {
            (Call::QuotaSpend(key, amount), Reply::Yes) => {
                *amount <= MAX_AMOUNT && u128::from(*amount) <= self.level(*key)
            }
            (Call::QuotaSpend(key, amount), Reply::No) => {
                *amount <= MAX_AMOUNT && self.level(*key) < u128::from(*amount)
            }
            (Call::QuotaLevel(key), Reply::Total(total)) => *total == self.level(*key) as i128,
            (Call::QuotaFill(key, amount) | Call::Refund(key, amount), Reply::Done) => {
                // The key is read, which tells the proof that it is in range.
                let _key = *key;
                *amount <= MAX_AMOUNT
            }
            _ => false,
        }
    }

    /// Puts the amount at the key, in the place of what is there. NoMemory leaves the quotas as
    /// before, and comes only for an amount greater than the one that is there. Its cost is
    /// logarithmic in the number of keys that have an amount.
    pub fn put(&mut self, key: u64, amount: u128) -> Result<(), Refusal>
        requires { amount < 2 ^ 127 }
        ensures ok { OnOk result (self.new ≡ with_level self.old key amount) }
        ensures err { OnErr result (self.new ≡ self.old) }
        ensures refusal { IsOkUnless result Refusal.NoMemory }
        ensures no_memory { amount ≤ level self.old key → IsOk result }
    {
        if amount == 0 {
            self.less_one.remove(&key);
        } else {
            self.less_one.insert(key, amount - 1)?;
        }
        Ok(())
    }

    // Adds the amount at the key.
    fn raise(&mut self, key: u64, amount: u64) -> Result<(), Refusal>
        requires { AreBelow (2 ^ 127) (with_level self.old key (level self.old key + amount)) }
        ensures ok { OnOk result (self.new ≡
            with_level self.old key (level self.old key + amount)) }
        ensures err { OnErr result (self.new ≡ self.old) }
        ensures refusal { IsOkUnless result Refusal.NoMemory }
    {
        let filled = self.level(key) + u128::from(amount);
        self.put(key, filled)
    }

    /// Makes the call, which is answered so. NoMemory, which leaves the quotas as before, only
    /// where an amount is put into them. Its cost is logarithmic in the number of keys that have an
    /// amount.
    pub fn run(&mut self, call: &Call, reply: &Reply) -> Result<(), Refusal>
        requires can { Answers self.old call.now reply.now }
        requires fits { AreBelow (2 ^ 127) (after self.old call.now reply.now) }
        ensures ok { OnOk result (self.new ≡ after self.old call.now reply.now) }
        ensures err { OnErr result (self.new ≡ self.old) }
        ensures refusal { IsOkUnless result Refusal.NoMemory }
        ensures no_memory { TakesNoMemory call.now → IsOk result }
    {
        match (call, reply) {
            (Call::QuotaSpend(key, amount), Reply::Yes) => {
                let left = self.level(*key) - u128::from(*amount);
                self.put(*key, left)
            }
            (Call::QuotaFill(key, amount), _) => self.raise(*key, *amount),
            (Call::Refund(key, amount), _) => self.raise(*key, *amount),
            _ => Ok(()),
        }
    }
}
