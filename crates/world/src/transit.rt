// Blocks between the book and the keeper.
ghost use Rattle.std.specs.Prelude.{◌≡◌, ◌-◌, ◌≤◌, ◌++◌, length, IfOk, []};
ghost use Rattle.std.proofs.Common.{refl, sym, ◌∙◌};
ghost use Rattle.std.proofs.lemmas.List.{append-nil, append_cancel_right};
ghost use Rattle.std.specs.VecDeque.{deque_capacity};
ghost use Rattle.world.specs.Moves.{transit_len};

use calls::limits::MAX_TRANSIT;
use checkpoint::Inbox;
use std::alloc::{AllocError, Global};
use std::collections::VecDeque;
use txn::{Block, Outbox};

/// The blocks that were handed over and did not reach the disk yet: at most four, in order.
#[derive(Drop)]
pub struct Transit {
    blocks: VecDeque<Block>,
    ghost room: { 4 ≤ deque_capacity blocks },
}

impl Transit {
    /// No block, with room for four: no later call takes memory.
    pub fn new(alloc: Global) -> Result<Self, AllocError>
        ensures { IfOk result (λ transit. transit.blocks.items ≡ []) }
    {
        Ok(Self {
            blocks: VecDeque::with_capacity(alloc, MAX_TRANSIT)?,
        })
    }

    /// How many of so many free bytes are left behind these blocks, with the next gate: 0 where
    /// they need more.
    pub fn room_behind(&self, free: u64) -> u64
        ensures { result ≡ free - transit_len self.now.blocks.items }
    {
        let mut room = free;
        for i in 0..self.blocks.len() {
            room = room.saturating_sub(self.blocks[i].bytes.len() as u64 - 1);
        }
        room
    }
}

impl Outbox for Transit {
    ghost sends = { λ t bs u. u.blocks.items ≡ t.blocks.items ++ bs };

    ghost was_full = { λ t u. 4 ≤ length t.blocks.items };

    fn offer(&mut self, block: Block) -> Result<(), Block> {
        if self.blocks.len() >= MAX_TRANSIT {
            return Err(block);
        }
        self.blocks.push_back_reserved(block);
        Ok(())
    }

    ghost sends_none = { λ t. sym (append-nil t.blocks.items) };
}

impl Inbox for Transit {
    ghost receives = { λ t bs u. t.blocks.items ≡ bs ++ u.blocks.items };

    ghost was_empty = { λ t u. t.blocks.items ≡ [] };

    fn take(&mut self) -> Option<Block> {
        self.blocks.pop_front()
    }

    ghost receives_none = { λ t. refl };

    ghost receives_one_list = { λ t u xs ys a b. append_cancel_right xs ys u.blocks.items
        (sym a ∙ b) };
}
