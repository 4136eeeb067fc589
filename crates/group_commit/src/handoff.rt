// Blocks in transit, in order, and what was frozen, as both ends have noted it.
ghost use Rattle.std.specs.Prelude.{◌≡◌, List, [], IfOk, IfErr, IfSome, IfNone, OnOk, IsOkUnless};
ghost use Rattle.records.specs.declared.block.Block.{Block};
ghost use Rattle.calls.specs.declared.refusal.Refusal.{Refusal};
ghost use Rattle.group_commit.specs.Orders.{AreInTransit, WasFull, WasEmpty};
ghost use Rattle.group_commit.specs.Orders.{sending, receiving, noting, noting_too};
ghost use Rattle.group_commit.specs.Transit.{known, united, IsEnd, IsSender, IsReceiver};

use crate::accord::OneGather;
use calls::Refusal;
use calls::limits::MAX_TRANSIT;
use catalog::NamedHolding;
use crossbeam_queue::protocol::{Join, Lesson, Outcome, Protocol, Split};
use crossbeam_queue::{Pass, RuledArrayQueue};
use images::Gather;
use records::Block;
use std::alloc::Global;
use std::collections::LinkedList;
use std::marker::{Model, PhantomData};
use std::sync::Wait;

// What an end may do, what it has sent and what it has received, and what was frozen, as it has
// noted it, as one that sends and as one that receives. No value of it is made.
pub(crate) struct Log {
    sends: bool,
    receives: bool,
    sent: LinkedList<Block>,
    received: LinkedList<Block>,
    noted: LinkedList<Gather<NamedHolding>>,
    heard: LinkedList<Gather<NamedHolding>>,
}

// What was sent is what was received, followed by what is in transit. Both ends have noted the same
// of what was frozen.
pub(crate) struct InOrder;

impl Protocol<Block, Log> for InOrder {
    ghost use Rattle.std.specs.Prelude.{[]};
    ghost use Rattle.group_commit.specs.Transit.{sender, receiver, united, Ordered};

    ghost holds = { Ordered };

    ghost first = { united (sender [] []) (receiver [] []) };
}

// The first end is cut into the sender's and the receiver's, and these are joined again.
struct Roles;

impl Split<Log> for Roles {
    ghost use Rattle.group_commit.specs.Transit.{sender, receiver};

    ghost left = { λ v. sender v.sent v.noted };

    ghost right = { λ v. receiver v.received v.heard };
}

impl Join<Log> for Roles {
    ghost use Rattle.group_commit.specs.Transit.{united, nobody};

    ghost both = { united };

    ghost spent = { nobody };
}

// The joined end is cut again, and both have noted what was frozen once more.
struct Note<W> {
    of: PhantomData<W>,
}

impl<W: OneGather> Split<Log> for Note<W> {
    ghost use Rattle.std.specs.Prelude.{◌∷◌};
    ghost use Rattle.group_commit.specs.Transit.{sender, receiver};

    ghost left = { λ v. sender v.sent (W.gather ∷ v.noted) };

    ghost right = { λ v. receiver v.received (W.gather ∷ v.heard) };
}

// All that an end may do goes to another.
struct Leaving;

impl Split<Log> for Leaving {
    ghost use Rattle.group_commit.specs.Transit.{nobody};

    ghost left = { λ _. nobody };

    ghost right = { λ v. v };
}

struct Sends;

impl Outcome<Block, Log> for Sends {
    ghost use Rattle.std.specs.Prelude.{◌≡◌, ◌++◌, ◌∷◌, []};
    ghost use Rattle.group_commit.specs.Transit.{sender};

    ghost then = { λ v x w. w ≡ sender (v.sent ++ x ∷ []) v.noted };
}

impl Lesson<Block, Log> for Sends {
    ghost use Rattle.std.specs.Prelude.{List};
    ghost use Rattle.records.specs.declared.block.Block.{Block};
    ghost use Rattle.group_commit.specs.Orders.{AreInTransit};

    ghost fact = { λ v transit. (received : List Block) × AreInTransit v.sent received transit };
}

struct Receives;

impl Outcome<Block, Log> for Receives {
    ghost use Rattle.std.specs.Prelude.{◌≡◌, ◌++◌, ◌∷◌, []};
    ghost use Rattle.group_commit.specs.Transit.{receiver};

    ghost then = { λ v x w. w ≡ receiver (v.received ++ x ∷ []) v.heard };
}

impl Lesson<Block, Log> for Receives {
    ghost use Rattle.std.specs.Prelude.{List};
    ghost use Rattle.records.specs.declared.block.Block.{Block};
    ghost use Rattle.group_commit.specs.Orders.{AreInTransit};

    ghost fact = { λ v transit. (sent : List Block) × AreInTransit sent v.received transit };
}

// What both ends together know.
struct Whole;

impl Lesson<Block, Log> for Whole {
    ghost use Rattle.std.specs.Prelude.{◌≡◌};
    ghost use Rattle.group_commit.specs.Orders.{AreInTransit};

    ghost fact = { λ v transit. (v.noted ≡ v.heard) × AreInTransit v.sent v.received transit };
}

/// Blocks on their way from the book to the keeper, in order, at most four. Both ends note what was
/// frozen. Threads share it by `&`. Contracts see which table it is.
#[derive(Drop)]
pub struct Handoff {
    queue: RuledArrayQueue<Block, Log, InOrder>,
}

impl Model for Handoff {
    ghost use Rattle.std.specs.Prelude.{◌≡◌};
    ghost use Rattle.atomic_table.specs.Seated.{TableId};
    ghost use Rattle.crossbeam_queue.specs.Passes.{ruled_capacity};

    ghost Value = { TableId };

    ghost view = { λ h. h.queue.table.shared.table_id };

    ghost invariant = { λ h. ruled_capacity h.queue ≡ 4 };
}

/// The one end of a hand-off from which blocks are sent. It has no bytes. Contracts see what it has
/// sent, and what was frozen, as both ends have noted it, the newest first.
pub struct Sender {
    end: Pass<Block, Log>,
}

impl Drop for Sender {
    fn drop(self) {
        let Self { end } = self;
        drop(end);
    }
}

impl Model for Sender {
    ghost use Rattle.std.specs.Prelude.{◌≡◌, []};
    ghost use Rattle.group_commit.specs.Orders.{SenderState};

    ghost Value = { SenderState };

    ghost use Rattle.std.specs.Coded.{codes};
    ghost use Rattle.catalog.specs.Holdings.{collection_code};

    ghost coded = { Prim.hlevel (codes, collection_code) };

    ghost use Rattle.group_commit.specs.Transit.{known, sender};

    ghost view = { λ s. record {
      table = s.end.table_id;
      sent = (known s.end).sent;
      noted = (known s.end).noted;
    } };

    ghost invariant = { λ s. (s.end.me.1 ≡ []) ×
        (known s.end ≡ sender (known s.end).sent (known s.end).noted) };
}

/// The one end of a hand-off at which blocks are received. It has no bytes. Contracts see what it
/// has received, and what was frozen, as both ends have noted it, the newest first.
pub struct Receiver {
    end: Pass<Block, Log>,
}

impl Drop for Receiver {
    fn drop(self) {
        let Self { end } = self;
        drop(end);
    }
}

impl Model for Receiver {
    ghost use Rattle.std.specs.Prelude.{◌≡◌, []};
    ghost use Rattle.group_commit.specs.Orders.{ReceiverState};

    ghost Value = { ReceiverState };

    ghost use Rattle.std.specs.Coded.{codes};
    ghost use Rattle.catalog.specs.Holdings.{collection_code};

    ghost coded = { Prim.hlevel (codes, collection_code) };

    ghost use Rattle.group_commit.specs.Transit.{known, receiver};

    ghost view = { λ s. record {
      table = s.end.table_id;
      received = (known s.end).received;
      noted = (known s.end).heard;
    } };

    ghost invariant = { λ s. (s.end.me.1 ≡ []) ×
        (known s.end ≡ receiver (known s.end).received (known s.end).heard) };
}

impl Handoff {
    /// A hand-off with no block in transit, and its two ends, which have noted nothing.
    ///
    /// NoMemory for the queue.
    pub fn new(alloc: Global) -> Result<(Handoff, Sender, Receiver), Refusal>
        ensures sender { IfOk result
            (λ made. made.1 ≡ record { table = made.0; sent = []; noted = [] }) }
        ensures receiver { IfOk result
            (λ made. made.2 ≡ record { table = made.0; received = []; noted = [] }) }
        ensures refusal { IsOkUnless result Refusal.NoMemory }
    {
        let (queue, mut end) = RuledArrayQueue::ruled(alloc, MAX_TRANSIT)?;
        let other = queue.another::<Roles>(&mut end);
        Ok((Handoff { queue }, Sender { end }, Receiver { end: other }))
    }

    /// Sends a block behind those in transit. It comes back only where four were in transit at a
    /// moment of the call, and then nothing was sent. It takes no memory, and may wait for a
    /// `receive` that has begun.
    pub fn send<R: Wait>(&self, rt: &R, sender: &mut Sender, block: Block) -> Result<(), Block>
        requires { sender.old.table ≡ self.now }
        ensures sent { OnOk result (sender.new ≡ sending sender.old block) }
        ensures back { IfErr result (λ b. (b ≡ block) × (sender.new ≡ sender.old) ×
            WasFull sender.old.sent) }
    {
        self.queue.push_as::<Sends, R>(rt, &mut sender.end, block)
    }

    /// Receives the first block in transit. There is none only where none was in transit at a
    /// moment of the call. It takes no memory, and may wait for a `send` that has begun.
    pub fn receive<R: Wait>(&self, rt: &R, receiver: &mut Receiver) -> Option<Block>
        requires { receiver.old.table ≡ self.now }
        ensures received { IfSome result (λ b. receiver.new ≡ receiving receiver.old b) }
        ensures none { IfNone result ((receiver.new ≡ receiver.old) ×
            WasEmpty receiver.old.received) }
    {
        self.queue.pop_as::<Receives, R>(rt, &mut receiver.end)
    }

    // What both ends know stands with the sender's from then on, until that is cut again.
    fn unite(&self, sender: &mut Pass<Block, Log>, receiver: &mut Pass<Block, Log>)
        requires sender { IsSender self.now sender.old }
        requires receiver { IsReceiver self.now receiver.old }
        ensures sender { IsEnd self.now (united (known sender.old) (known receiver.old))
            sender.new }
        ensures order { (transit : List Block) ×
            AreInTransit (known sender.old).sent (known receiver.old).received transit }
        ensures noted { (known sender.old).noted ≡ (known receiver.old).heard }
    {
        let whole = self.queue.another::<Leaving>(receiver);
        self.queue.absorb::<Roles>(sender, whole);
        self.queue.learn_as::<Whole>(sender);
    }

    /// What was sent is what was received, followed by at most four blocks in transit, and both
    /// ends have noted the same of what was frozen. It changes nothing, and waits for nobody.
    pub fn compare(&self, sender: &mut Sender, receiver: &mut Receiver)
        requires sender { sender.old.table ≡ self.now }
        requires receiver { receiver.old.table ≡ self.now }
        ensures sender { sender.new ≡ sender.old }
        ensures receiver { receiver.new ≡ receiver.old }
        ensures order { (transit : List Block) ×
            AreInTransit sender.old.sent receiver.old.received transit }
        ensures noted { sender.old.noted ≡ receiver.old.noted }
    {
        self.unite(&mut sender.end, &mut receiver.end);
        receiver.end = self.queue.another::<Roles>(&mut sender.end);
    }

    /// Both ends note what was frozen: what the holder of the one learns at a freeze, the holder of
    /// the other knows from then on. Up to then they have noted the same. It moves no block, takes
    /// no memory and waits for nobody.
    pub fn note<W: OneGather>(&self, sender: &mut Sender, receiver: &mut Receiver)
        requires sender { sender.old.table ≡ self.now }
        requires receiver { receiver.old.table ≡ self.now }
        ensures sender { sender.new ≡ noting sender.old W.gather }
        ensures receiver { receiver.new ≡ noting_too receiver.old W.gather }
        ensures same { sender.old.noted ≡ receiver.old.noted }
    {
        self.unite(&mut sender.end, &mut receiver.end);
        receiver.end = self.queue.another::<Note<W>>(&mut sender.end);
    }
}
