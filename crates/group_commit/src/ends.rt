// The ends of a hand-off, as a book sends blocks and a keeper receives them.
ghost use Rattle.std.specs.Prelude.{◌≡◌};

use crate::handoff::{Handoff, Receiver, Sender};
use checkpoint::Inbox;
use records::{Block, Outbox};
use std::sync::Wait;

/// Where a book sends its blocks: a hand-off, with the end from which blocks are sent. Make one for
/// a call of `Book::cut`, and let it go behind that.
#[derive(Drop)]
pub struct Outgoing<'a, R: Wait> {
    pub rt: &'a R,
    pub handoff: &'a Handoff,
    pub sender: &'a mut Sender,
    pub ghost same: { sender.now.table ≡ handoff.now },
}

impl<'a, R: Wait> Outbox for Outgoing<'a, R> {
    ghost use Rattle.group_commit.specs.Ends.{Sends, WasFullAt};

    ghost sends = { λ before blocks after. Sends before.sender blocks after.sender };

    ghost was_full = { λ before after. WasFullAt before.sender };

    fn offer(&mut self, block: Block) -> Result<(), Block> {
        self.handoff.send(self.rt, self.sender, block)
    }

    ghost use Rattle.group_commit.specs.EndLaws.{sends_none};

    ghost sends_none = { λ t. sends_none t.sender };
}

/// Where a keeper takes its blocks from: a hand-off, with the end at which blocks are received.
/// Make one for a call of `Keeper::turn`, and let it go behind that.
#[derive(Drop)]
pub struct Incoming<'a, R: Wait> {
    pub rt: &'a R,
    pub handoff: &'a Handoff,
    pub receiver: &'a mut Receiver,
    pub ghost same: { receiver.now.table ≡ handoff.now },
}

impl<'a, R: Wait> Inbox for Incoming<'a, R> {
    ghost use Rattle.group_commit.specs.Ends.{Receives, WasEmptyAt};

    ghost receives = { λ before blocks after. Receives before.receiver blocks after.receiver };

    ghost was_empty = { λ before after. WasEmptyAt before.receiver };

    fn take(&mut self) -> Option<Block> {
        self.handoff.receive(self.rt, self.receiver)
    }

    ghost use Rattle.group_commit.specs.EndLaws.{receives_none, receives_one_list};

    ghost receives_none = { λ t. receives_none t.receiver };

    ghost receives_one_list = { λ t u xs ys. receives_one_list t.receiver xs ys u.receiver };
}
