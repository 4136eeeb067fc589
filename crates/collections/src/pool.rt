// A pool of identifiers.
ghost use Rattle.std.specs.Prelude.{◌≡◌, ◌↔◌, false, IsTrue, IsOk, IfOk, OnOk, OnErr, IsOkUnless};
ghost use Rattle.std.specs.Prelude.{IsOkAnd};
ghost use Rattle.std.specs.FinSet as set;
ghost use Rattle.std.specs.List.Sorted.{IsStrictlySortedBy};
ghost use Rattle.std.specs.Ordering.{nat_cmp};
ghost use Rattle.calls.specs.Rules.{TakesNoMemory};
ghost use Rattle.calls.specs.Pools.{Answers, after, CanLook};

use calls::{Call, Refusal, Reply};
use std::alloc::{AllocError, Global};
use std::collections::BTreeSet;
use std::collections::btree_set::Iter;
use std::marker::Model;

/// A pool of identifiers. Contracts see the set of those that are taken.
pub struct PoolCol {
    taken: BTreeSet<u64>,
}

// Written out, so that the crates above call it in place of proving it again.
impl Drop for PoolCol {
    fn drop(self) {
        let Self { taken } = self;
        drop(taken);
    }
}

impl Model for PoolCol {
    ghost use Rattle.std.specs.Coded.{coded_ℕ};
    ghost use Rattle.std.specs.Ordering.{nat_cmp};
    ghost use Rattle.std.specs.FinSet as set;

    ghost Value = { set.FinSet nat_cmp };

    ghost coded = { set.code coded_ℕ };

    ghost view = { λ s. set.from_list s.taken.keys };
}

impl PoolCol {
    /// A pool of which no identifier is taken. It takes no memory. Its cost is constant.
    pub fn new(alloc: Global) -> Self
        ensures { result ≡ set.empty }
    {
        Self {
            taken: BTreeSet::new(alloc),
        }
    }

    /// The identifiers that are taken, in order. To come to the first costs a look, logarithmic in
    /// their number; to go over all is linear.
    pub fn iter(&self) -> Iter<'_, u64>
        ensures rising { IsStrictlySortedBy nat_cmp result }
        ensures members { set.from_list result ≡ self.now }
    {
        self.taken.iter()
    }

    /// The same pool once more. Refused only for want of memory. Its cost is linear in the number
    /// of identifiers that are taken.
    pub fn copy(&self) -> Result<Self, AllocError>
        ensures { IfOk result (λ pool. pool ≡ self.now) }
    {
        Ok(Self {
            taken: self.taken.clone()?,
        })
    }

    /// How many identifiers are taken. It takes no memory. Its cost is constant.
    pub fn len(&self) -> usize
        ensures { result ≡ set.len self.now }
    {
        self.taken.len()
    }

    // Whether the identifier is taken.
    fn has(&self, x: u64) -> bool
        ensures { result ≡ set.contains self.now x }
    {
        self.taken.contains(&x)
    }

    /// The reply that a call of a pool gets now. It takes no memory and is never refused. Its cost
    /// is logarithmic in the number of taken identifiers. A Draw alone, where 0 and 2^64 - 1 are
    /// both taken, goes from 0 up to the first that is not, which is linear.
    pub fn look(&self, call: &Call) -> Result<Reply, Refusal>
        requires { CanLook self.now call.now }
        ensures { IsOkAnd result (λ reply. Answers self.now call.now reply) }
    {
        match call {
            Call::Draw => Ok(Reply::Id(self.untaken())),
            Call::Release(x) => {
                if self.has(*x) {
                    Ok(Reply::Queued)
                } else {
                    Ok(Reply::Absent)
                }
            }
            Call::Free(_) => Ok(Reply::Done),
            _ => unreachable!(),
        }
    }

    /// Whether the call may get this reply now. It takes no memory. Its cost is logarithmic in the
    /// number of taken identifiers.
    pub fn fits(&self, call: &Call, reply: &Reply) -> bool
        ensures { IsTrue result ↔ Answers self.now call.now reply.now }
    {
        match (call, reply) {
            (Call::Draw, Reply::Id(x)) => !self.has(*x),
            (Call::Release(x), Reply::Queued) => self.has(*x),
            (Call::Release(x), Reply::Absent) => !self.has(*x),
            (Call::Free(x), Reply::Done) => self.has(*x),
            _ => false,
        }
    }

    /// Takes the identifier. NoMemory leaves the pool as before. Its cost is logarithmic in the
    /// number of taken identifiers.
    pub fn take(&mut self, identifier: u64) -> Result<(), Refusal>
        ensures ok { OnOk result (self.new ≡ set.insert self.old identifier) }
        ensures err { OnErr result (self.new ≡ self.old) }
        ensures refusal { IsOkUnless result Refusal.NoMemory }
    {
        self.taken.insert(identifier)?;
        Ok(())
    }

    /// Makes the call, which is answered so. NoMemory, which leaves the pool as before, only where
    /// an identifier is drawn: to free one takes no memory. Its cost is logarithmic in the number
    /// of taken identifiers.
    pub fn run(&mut self, call: &Call, reply: &Reply) -> Result<(), Refusal>
        requires { Answers self.old call.now reply.now }
        ensures ok { OnOk result (self.new ≡ after self.old call.now reply.now) }
        ensures err { OnErr result (self.new ≡ self.old) }
        ensures refusal { IsOkUnless result Refusal.NoMemory }
        ensures no_memory { TakesNoMemory call.now → IsOk result }
    {
        match (call, reply) {
            (Call::Draw, Reply::Id(x)) => {
                self.taken.insert(*x)?;
                Ok(())
            }
            (Call::Free(x), _) => {
                self.taken.remove(x);
                Ok(())
            }
            _ => Ok(()),
        }
    }

    // An identifier that is not taken: the one after the greatest that is taken; where that is the
    // greatest of all, the one before the least; and where both ends are taken, the first in
    // between. Only the last looks at more than the ends, and comes only where a reply was run that
    // no look gave, or after 2^64 draws.
    fn untaken(&self) -> u64
        ensures { set.contains self.now result ≡ false }
    {
        match self.taken.last() {
            None => 0,
            Some(&greatest) if greatest < u64::MAX => greatest + 1,
            Some(_) => self.untaken_below(),
        }
    }

    fn untaken_below(&self) -> u64
        ensures { set.contains self.now result ≡ false }
    {
        match self.taken.first() {
            None => 0,
            Some(&least) if least > 0 => least - 1,
            Some(_) => self.first_gap(),
        }
    }

    fn first_gap(&self) -> u64
        ensures { set.contains self.now result ≡ false }
    {
        let mut gap = 0u64;
        for x in &self.taken {
            if *x != gap {
                return gap;
            }
            gap += 1;
        }
        gap
    }
}
