// A map from numbers to bytes.
ghost use Rattle.std.specs.Prelude.{◌≡◌, ◌↔◌, IsTrue, IsOk, MatchOption, OnOk, OnErr, IfOk};
ghost use Rattle.std.specs.Prelude.{IsOkUnless, Some, None};
ghost use Rattle.std.specs.FinMap as map;
ghost use Rattle.std.specs.List.Sorted.{IsStrictlySortedBy};
ghost use Rattle.std.specs.Map.{keys_of};
ghost use Rattle.std.specs.Ordering.{nat_cmp};
ghost use Rattle.std.specs.Option.{option_copied};
ghost use Rattle.calls.specs.Rules.{AsksForValue, TakesNoMemory};
ghost use Rattle.calls.specs.Maps.{Answers, after, CanLook, IsCeiling, HasNoCeiling};

use calls::{Bytes, Call, Refusal, Reply};
use std::alloc::{AllocError, Global};
use std::collections::BTreeMap;
use std::collections::btree_map::Iter;
use std::marker::Model;

/// A map from numbers to bytes. Contracts see the map.
pub struct MapCol {
    values: BTreeMap<u64, Bytes>,
}

// Written out, so that the crates above call it in place of proving it again.
impl Drop for MapCol {
    fn drop(self) {
        let Self { values } = self;
        drop(values);
    }
}

impl Model for MapCol {
    ghost use Rattle.std.specs.Prelude.{List, ℕ};
    ghost use Rattle.std.specs.Coded.{coded_ℕ, coded_list};
    ghost use Rattle.std.specs.Ordering.{nat_cmp};
    ghost use Rattle.std.specs.FinMap as map;

    ghost Value = { map.FinMap nat_cmp (List ℕ) };

    ghost coded = { map.code coded_ℕ (coded_list coded_ℕ) };

    ghost view = { λ m. map.from_entries m.values.entries };
}

impl MapCol {
    /// A map with no key. It takes no memory. Its cost is constant.
    pub fn new(alloc: Global) -> Self
        ensures { result ≡ map.empty }
    {
        Self {
            values: BTreeMap::new(alloc),
        }
    }

    /// The keys with their values, in the order of the keys. To come to the first costs a look,
    /// logarithmic in their number; to go over all is linear.
    pub fn iter(&self) -> Iter<'_, u64, Bytes>
        ensures rising { IsStrictlySortedBy nat_cmp (keys_of result) }
        ensures entries { map.from_entries result ≡ self.now }
    {
        self.values.iter()
    }

    /// The same map once more. Refused only for want of memory. Its cost is a copy of each value,
    /// and linear in the number of keys.
    pub fn copy(&self) -> Result<Self, AllocError>
        ensures { IfOk result (λ map. map ≡ self.now) }
    {
        Ok(Self {
            values: self.values.clone()?,
        })
    }

    /// How many keys have a value. It takes no memory. Its cost is constant.
    pub fn len(&self) -> usize
        ensures { result ≡ map.len self.now }
    {
        self.values.len()
    }

    // The value at the key.
    fn get(&self, key: u64) -> Option<&Bytes>
        ensures { option_copied result ≡ map.get self.now key }
    {
        self.values.get(&key)
    }

    // The reply that tells what is at the key.
    fn value_at(&self, key: u64) -> Result<Reply, AllocError>
        ensures { IfOk result (λ reply. Answers self.now (Call.Get key) reply) }
    {
        match self.get(key) {
            Some(value) => Ok(Reply::Value(value.clone()?)),
            None => Ok(Reply::Nothing),
        }
    }

    // The entry of the least key that is at least this one.
    fn ceiling(&self, key: u64) -> Option<(u64, &Bytes)>
        ensures { MatchOption result (HasNoCeiling self.now key)
            (λ entry. IsCeiling self.now key entry.0 entry.1.now) }
    {
        match self.values.range(key..).next() {
            Some((at, value)) => Some((*at, value)),
            None => None,
        }
    }

    // The reply that tells it.
    fn ceiling_of(&self, key: u64) -> Result<Reply, AllocError>
        ensures { IfOk result (λ reply. Answers self.now (Call.Ceiling key) reply) }
    {
        match self.ceiling(key) {
            Some((at, value)) => Ok(Reply::Entry(at, value.clone()?)),
            None => Ok(Reply::Nothing),
        }
    }

    // Whether the key has the value.
    fn holds(&self, key: u64, value: &Bytes) -> bool
        ensures { IsTrue result ↔ (map.get self.now key ≡ Some value.now) }
    {
        match self.get(key) {
            Some(there) => there.as_slice() == value.as_slice(),
            None => false,
        }
    }

    // Whether the key has no value.
    fn lacks(&self, key: u64) -> bool
        ensures { IsTrue result ↔ (map.get self.now key ≡ None) }
    {
        self.get(key).is_none()
    }

    // Whether this is the entry of the least key that is at least the first one.
    fn is_ceiling(&self, key: u64, at: u64, value: &Bytes) -> bool
        ensures { IsTrue result ↔ IsCeiling self.now key at value.now }
    {
        match self.ceiling(key) {
            Some((least, there)) => least == at && there.as_slice() == value.as_slice(),
            None => false,
        }
    }

    // Whether no key is at least this one.
    fn has_no_ceiling(&self, key: u64) -> bool
        ensures { IsTrue result ↔ HasNoCeiling self.now key }
    {
        self.ceiling(key).is_none()
    }

    /// The reply that a call of a map gets now. NoMemory only where the reply holds a value. Its
    /// cost is logarithmic in the number of keys, and a copy of the value that the reply holds.
    pub fn look(&self, call: &Call) -> Result<Reply, Refusal>
        requires { CanLook self.now call.now }
        ensures ok { IfOk result (λ reply. Answers self.now call.now reply) }
        ensures refusal { IsOkUnless result Refusal.NoMemory }
        ensures value { OnErr result (AsksForValue call.now) }
    {
        match call {
            Call::Get(key) | Call::Put(key, _) | Call::MapRemove(key) => Ok(self.value_at(*key)?),
            Call::Ceiling(key) => Ok(self.ceiling_of(*key)?),
            _ => unreachable!(),
        }
    }

    /// Whether the call may get this reply now. It takes no memory. Its cost is logarithmic in the
    /// number of keys, and one comparison with the value that the reply holds.
    pub fn fits(&self, call: &Call, reply: &Reply) -> bool
        ensures { IsTrue result ↔ Answers self.now call.now reply.now }
    {
        match (call, reply) {
            (Call::Get(key), Reply::Value(value)) => self.holds(*key, value),
            (Call::Get(key), Reply::Nothing) => self.lacks(*key),
            (Call::Put(key, _), Reply::Value(value)) => self.holds(*key, value),
            (Call::Put(key, _), Reply::Nothing) => self.lacks(*key),
            (Call::MapRemove(key), Reply::Value(value)) => self.holds(*key, value),
            (Call::MapRemove(key), Reply::Nothing) => self.lacks(*key),
            (Call::Ceiling(key), Reply::Entry(at, value)) => self.is_ceiling(*key, *at, value),
            (Call::Ceiling(key), Reply::Nothing) => self.has_no_ceiling(*key),
            _ => false,
        }
    }

    /// Puts the value, which is not copied, at the key. NoMemory leaves the map as before. Its cost
    /// is logarithmic in the number of keys.
    pub fn put(&mut self, key: u64, value: Bytes) -> Result<(), Refusal>
        ensures ok { OnOk result (self.new ≡ map.insert self.old key value) }
        ensures err { OnErr result (self.new ≡ self.old) }
        ensures refusal { IsOkUnless result Refusal.NoMemory }
    {
        self.values.insert(key, value)?;
        Ok(())
    }

    /// Makes the call, which is answered so. NoMemory, which leaves the map as before, only where a
    /// value is put into it. Its cost is logarithmic in the number of keys, and for a Put a copy of
    /// the value that is put there.
    pub fn run(&mut self, call: &Call, reply: &Reply) -> Result<(), Refusal>
        requires { Answers self.old call.now reply.now }
        ensures ok { OnOk result (self.new ≡ after self.old call.now reply.now) }
        ensures err { OnErr result (self.new ≡ self.old) }
        ensures refusal { IsOkUnless result Refusal.NoMemory }
        ensures no_memory { TakesNoMemory call.now → IsOk result }
    {
        match (call, reply) {
            (Call::Put(key, value), _) => {
                self.values.insert(*key, value.clone()?)?;
                Ok(())
            }
            (Call::MapRemove(key), Reply::Value(_)) => {
                self.values.remove(key);
                Ok(())
            }
            _ => Ok(()),
        }
    }
}
