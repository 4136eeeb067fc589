// A set of numbers.
ghost use Rattle.std.specs.Prelude.{◌≡◌, ◌↔◌, IsTrue, IsOk, IfOk, OnOk, OnErr, IsOkUnless};
ghost use Rattle.std.specs.Prelude.{IsOkAnd, MatchOption, true};
ghost use Rattle.std.specs.FinSet as set;
ghost use Rattle.std.specs.List.Sorted.{IsStrictlySortedBy};
ghost use Rattle.std.specs.Ordering.{nat_cmp};
ghost use Rattle.calls.specs.Rules.{TakesNoMemory};
ghost use Rattle.calls.specs.Sets.{Answers, after, CanLook, IsEmpty};

use calls::{Call, Refusal, Reply};
use std::alloc::{AllocError, Global};
use std::collections::BTreeSet;
use std::collections::btree_set::Iter;
use std::marker::Model;

/// A set of numbers. Contracts see the set.
pub struct SetCol {
    elements: BTreeSet<u64>,
}

// Written out, so that the crates above call it in place of proving it again.
impl Drop for SetCol {
    fn drop(self) {
        let Self { elements } = self;
        drop(elements);
    }
}

impl Model for SetCol {
    ghost use Rattle.std.specs.Coded.{coded_ℕ};
    ghost use Rattle.std.specs.Ordering.{nat_cmp};
    ghost use Rattle.std.specs.FinSet as set;

    ghost Value = { set.FinSet nat_cmp };

    ghost coded = { set.code coded_ℕ };

    ghost view = { λ s. set.from_list s.elements.keys };
}

impl SetCol {
    /// A set with no element. It takes no memory. Its cost is constant.
    pub fn new(alloc: Global) -> Self
        ensures { result ≡ set.empty }
    {
        Self {
            elements: BTreeSet::new(alloc),
        }
    }

    /// The elements, in order. To come to the first costs a look, logarithmic in their number; to
    /// go over all is linear.
    pub fn iter(&self) -> Iter<'_, u64>
        ensures rising { IsStrictlySortedBy nat_cmp result }
        ensures members { set.from_list result ≡ self.now }
    {
        self.elements.iter()
    }

    /// The same set once more. Refused only for want of memory. Its cost is linear in the number of
    /// elements.
    pub fn copy(&self) -> Result<Self, AllocError>
        ensures { IfOk result (λ set. set ≡ self.now) }
    {
        Ok(Self {
            elements: self.elements.clone()?,
        })
    }

    /// How many elements there are. It takes no memory. Its cost is constant.
    pub fn len(&self) -> usize
        ensures { result ≡ set.len self.now }
    {
        self.elements.len()
    }

    // Whether the element is in the set.
    fn has(&self, element: u64) -> bool
        ensures { result ≡ set.contains self.now element }
    {
        self.elements.contains(&element)
    }

    // The least element.
    fn least(&self) -> Option<u64>
        ensures { MatchOption result (IsEmpty self.now) (λ x. set.contains self.now x ≡ true) }
    {
        match self.elements.first() {
            None => None,
            Some(&least) => Some(least),
        }
    }

    /// The reply that a call of a set gets now. A Pick gets the least element. It takes no memory
    /// and is never refused. Its cost is logarithmic in the number of elements.
    pub fn look(&self, call: &Call) -> Result<Reply, Refusal>
        requires { CanLook self.now call.now }
        ensures { IsOkAnd result (λ reply. Answers self.now call.now reply) }
    {
        match call {
            Call::SetAdd(element) => {
                if self.has(*element) {
                    Ok(Reply::No)
                } else {
                    Ok(Reply::Yes)
                }
            }
            Call::Contains(element) | Call::SetRemove(element) => {
                if self.has(*element) {
                    Ok(Reply::Yes)
                } else {
                    Ok(Reply::No)
                }
            }
            Call::Pick => match self.least() {
                None => Ok(Reply::Nothing),
                Some(element) => Ok(Reply::Id(element)),
            },
            _ => unreachable!(),
        }
    }

    /// Whether the call may get this reply now. It takes no memory. Its cost is logarithmic in the
    /// number of elements.
    pub fn fits(&self, call: &Call, reply: &Reply) -> bool
        ensures { IsTrue result ↔ Answers self.now call.now reply.now }
    {
        match (call, reply) {
            (Call::Contains(element), Reply::Yes) => self.has(*element),
            (Call::Contains(element), Reply::No) => !self.has(*element),
            (Call::SetAdd(element), Reply::Yes) => !self.has(*element),
            (Call::SetAdd(element), Reply::No) => self.has(*element),
            (Call::SetRemove(element), Reply::Yes) => self.has(*element),
            (Call::SetRemove(element), Reply::No) => !self.has(*element),
            (Call::Pick, Reply::Id(element)) => self.has(*element),
            (Call::Pick, Reply::Nothing) => self.least().is_none(),
            _ => false,
        }
    }

    /// Puts the element into the set. NoMemory leaves the set as before. Its cost is logarithmic in
    /// the number of elements.
    pub fn insert(&mut self, element: u64) -> Result<(), Refusal>
        ensures ok { OnOk result (self.new ≡ set.insert self.old element) }
        ensures err { OnErr result (self.new ≡ self.old) }
        ensures refusal { IsOkUnless result Refusal.NoMemory }
    {
        self.elements.insert(element)?;
        Ok(())
    }

    /// Makes the call, which is answered so. NoMemory, which leaves the set as before, only where
    /// an element is put into it. Its cost is logarithmic in the number of elements.
    pub fn run(&mut self, call: &Call, reply: &Reply) -> Result<(), Refusal>
        requires { Answers self.old call.now reply.now }
        ensures ok { OnOk result (self.new ≡ after self.old call.now reply.now) }
        ensures err { OnErr result (self.new ≡ self.old) }
        ensures refusal { IsOkUnless result Refusal.NoMemory }
        ensures no_memory { TakesNoMemory call.now → IsOk result }
    {
        match (call, reply) {
            (Call::SetAdd(element), Reply::Yes) => {
                self.elements.insert(*element)?;
                Ok(())
            }
            (Call::SetRemove(element), Reply::Yes) => {
                self.elements.remove(element);
                Ok(())
            }
            (Call::Pick, Reply::Id(element)) => {
                self.elements.remove(element);
                Ok(())
            }
            _ => Ok(()),
        }
    }
}
