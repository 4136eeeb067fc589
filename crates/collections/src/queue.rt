// A queue of pairs.
ghost use Rattle.std.specs.Prelude.{◌≡◌, ℕ, ◌<◌, ◌↔◌, IsTrue, IsOk, IfOk, OnOk, OnErr};
ghost use Rattle.std.specs.Prelude.{IsOkUnless, IsOkAnd};
ghost use Rattle.std.specs.FinMap.{empty};
ghost use Rattle.calls.specs.Bags.{copies, add, take_out};
ghost use Rattle.calls.specs.Rules.{TakesNoMemory};
ghost use Rattle.calls.specs.Queues.{Answers, after, CanLook, IsLeast, IsEmpty};
ghost use Rattle.collections.specs.Items.{ListsBag, IsSizeOf};

use crate::heap::{Holder, find, live_pairs, mark, push, remove_root, sift};
use calls::{Call, Refusal, Reply};
use std::alloc::{AllocError, Global};
use std::marker::Model;

/// A queue of pairs of a priority and a tag, each as often as it was put there. Contracts see the
/// multiset.
pub struct QueueCol {
    // A heap, the least pair at the root. The root is not marked.
    holders: Vec<Holder>,
    // How many are marked, as they were plucked: never more than are not.
    marked: usize,
}

// Written out, so that the crates above call it in place of proving it again.
impl Drop for QueueCol {
    fn drop(self) {
        let Self {
            holders,
            marked: _marked,
        } = self;
        drop(holders);
    }
}

impl Model for QueueCol {
    ghost use Rattle.std.specs.Coded.{coded_ℕ, coded×};
    ghost use Rattle.std.specs.FinMap as map;
    ghost use Rattle.calls.specs.Bags.{Bag};
    ghost use Rattle.collections.specs.Holders.{bag_of, AreKept};

    ghost Value = { Bag };

    ghost coded = { map.code (coded× coded_ℕ coded_ℕ) coded_ℕ };

    ghost view = { λ q. bag_of q.holders.items };

    ghost invariant = { λ q. AreKept q.holders.items q.marked };
}

impl QueueCol {
    /// A queue with no pair. It takes no memory. Its cost is constant.
    pub fn new(alloc: Global) -> Self
        ensures { result ≡ empty }
    {
        Self {
            holders: Vec::new(alloc),
            marked: 0,
        }
    }

    /// The same queue once more. Refused only for want of memory. Its cost is linear in the number
    /// of pairs.
    pub fn copy(&self) -> Result<Self, AllocError>
        ensures { IfOk result (λ queue. queue ≡ self.now) }
    {
        Ok(Self {
            holders: self.holders.clone()?,
            marked: self.marked,
        })
    }

    /// The pairs in order, the least first, each as often as it is there. NoMemory alone is
    /// refused. Its cost is a copy of the pairs and a sort of it.
    pub fn to_vec(&self, alloc: Global) -> Result<Vec<(u64, u64)>, AllocError>
        ensures { IfOk result (λ pairs. ListsBag pairs.items self.now) }
    {
        let mut pairs = live_pairs(&self.holders, alloc)?;
        pairs.sort_unstable();
        Ok(pairs)
    }

    /// How many pairs there are, each as often as it is there. It takes no memory. Its cost is
    /// constant.
    pub fn len(&self) -> usize
        ensures { IsSizeOf result self.now }
    {
        self.holders.as_slice().len() - self.marked
    }

    // The least pair.
    fn least(&self) -> Reply
        ensures { Answers self.now Call.Least result }
    {
        match self.holders.as_slice() {
            [root, ..] => {
                let (priority, tag) = root.pair();
                Reply::Item(priority, tag)
            }
            [] => Reply::Nothing,
        }
    }

    /// The reply that a call of a queue gets now. It takes no memory and is never refused. Its cost
    /// is constant: at most the least pair is looked at.
    pub fn look(&self, call: &Call) -> Result<Reply, Refusal>
        requires { CanLook self.now call.now }
        ensures { IsOkAnd result (λ reply. Answers self.now call.now reply) }
    {
        match *call {
            Call::QueueAdd(_priority, _tag) => Ok(Reply::Done),
            Call::Pluck(_, _) => Ok(Reply::Done),
            Call::Take | Call::Least => Ok(self.least()),
            _ => unreachable!(),
        }
    }

    // Whether the pair is in the queue.
    fn has(&self, priority: u64, tag: u64) -> bool
        ensures { IsTrue result ↔ (0 < copies self.now (priority, tag)) }
    {
        find(&self.holders, priority, tag).is_some()
    }

    // Whether the pair is the least.
    fn is_least(&self, priority: u64, tag: u64) -> bool
        ensures { IsTrue result ↔ IsLeast self.now priority tag }
    {
        match self.least() {
            Reply::Item(first, earliest) => first == priority && earliest == tag,
            _ => false,
        }
    }

    // Whether no pair is in the queue.
    fn is_empty(&self) -> bool
        ensures { IsTrue result ↔ IsEmpty self.now }
    {
        match self.least() {
            Reply::Nothing => true,
            _ => false,
        }
    }

    /// Whether the call may get this reply now. It takes no memory. Its cost is constant, but for a
    /// Pluck, whose pair is looked for among all, linear in their number.
    pub fn fits(&self, call: &Call, reply: &Reply) -> bool
        ensures { IsTrue result ↔ Answers self.now call.now reply.now }
    {
        match (call, reply) {
            (Call::QueueAdd(priority, tag), Reply::Done) => {
                // Both are read, which tells the proof that they are in range.
                let (_priority, _tag) = (*priority, *tag);
                true
            }
            (Call::Take, Reply::Item(priority, tag)) => self.is_least(*priority, *tag),
            (Call::Take, Reply::Nothing) => self.is_empty(),
            (Call::Least, Reply::Item(priority, tag)) => self.is_least(*priority, *tag),
            (Call::Least, Reply::Nothing) => self.is_empty(),
            (Call::Pluck(priority, tag), Reply::Done) => self.has(*priority, *tag),
            _ => false,
        }
    }

    /// Puts one copy of the pair into the queue. NoMemory leaves the queue as before. Its cost is
    /// logarithmic in the number of pairs, and over many calls a constant for the room that it
    /// takes.
    pub fn put(&mut self, priority: u64, tag: u64) -> Result<(), Refusal>
        ensures ok { OnOk result (self.new ≡ add self.old (priority, tag)) }
        ensures err { OnErr result (self.new ≡ self.old) }
        ensures refusal { IsOkUnless result Refusal.NoMemory }
    {
        push(&mut self.holders, priority, tag)?;
        Ok(())
    }

    // Takes the least pair out, where one is there.
    fn take(&mut self)
        requires { IsEmpty self.old → ⊥ }
        ensures { (p g : ℕ) → IsLeast self.old p g → self.new ≡ take_out self.old (p, g) }
    {
        remove_root(&mut self.holders);
        self.marked = sift(&mut self.holders, self.marked);
    }

    // Takes one copy of the pair out.
    fn pluck(&mut self, priority: u64, tag: u64)
        requires { 0 < copies self.old (priority, tag) }
        ensures { self.new ≡ take_out self.old (priority, tag) }
    {
        mark(&mut self.holders, priority, tag);
        self.marked = sift(&mut self.holders, self.marked + 1);
    }

    /// Makes the call, which is answered so. NoMemory, which leaves the queue as before, only where
    /// a pair is put into it: to take or pluck one takes no memory. A QueueAdd costs as `put` does.
    /// A Take is logarithmic in the number of pairs, but that it may also remove what was plucked
    /// before, which is logarithmic for each pluck since. A Pluck looks for its pair among all,
    /// which is linear.
    pub fn run(&mut self, call: &Call, reply: &Reply) -> Result<(), Refusal>
        requires { Answers self.old call.now reply.now }
        ensures ok { OnOk result (self.new ≡ after self.old call.now reply.now) }
        ensures err { OnErr result (self.new ≡ self.old) }
        ensures refusal { IsOkUnless result Refusal.NoMemory }
        ensures no_memory { TakesNoMemory call.now → IsOk result }
    {
        match (call, reply) {
            (Call::QueueAdd(priority, tag), _) => self.put(*priority, *tag),
            (Call::Take, Reply::Item(_, _)) => {
                self.take();
                Ok(())
            }
            (Call::Pluck(priority, tag), _) => {
                self.pluck(*priority, *tag);
                Ok(())
            }
            _ => Ok(()),
        }
    }
}
