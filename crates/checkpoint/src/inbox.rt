// Where the keeper takes blocks from.
ghost use Rattle.std.specs.Prelude.{◌≡◌, List, ◌∷◌, [], IfSome, IfNone};
ghost use Rattle.records.specs.declared.block.Block.{Block};

use records::Block;

/// Where the keeper takes blocks from: the end of a hand-over that receives.
pub trait Inbox {
    /// From the one state to the other these blocks were received, in this order.
    ghost receives: { Self → List Block → Self → Type 0 };

    /// No block was there at a moment between the two.
    ghost was_empty: { Self → Self → Type 0 };

    /// Takes the next block, if there is one. It takes no memory.
    fn take(&mut self) -> Option<Block>
        ensures some { IfSome result (λ b. receives self.old (b ∷ []) self.new) }
        ensures none { IfNone result (receives self.old [] self.new) }
        ensures empty { IfNone result (was_empty self.old self.new) };

    /// Nothing was received where nothing was done.
    ghost receives_none: { (inbox : Self) → receives inbox [] inbox };

    /// What was received is one list.
    ghost receives_one_list: { (old new : Self) (xs ys : List Block) → receives old xs new →
        receives old ys new → xs ≡ ys };
}
