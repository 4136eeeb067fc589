// Blocks on their way to the disk.
ghost use Rattle.std.specs.Prelude.{◌≡◌, List, ◌∷◌, [], OnOk, OnErr, IfErr};
ghost use Rattle.std.specs.List.{All};
ghost use Rattle.records.specs.Wholes.{IsWhole};

use std::collections::VecDeque;

/// A whole block: an open gate, the length, the body, a closed gate. `end` is the LSN after its
/// last record, counted since the store was opened, and `place` the count of commits and makes up
/// to there.
#[derive(Drop)]
pub struct Block {
    pub bytes: Vec<u8>,
    pub end: u64,
    pub place: u64,
    ghost whole: { IsWhole bytes.items },
}

/// Whole blocks that hold an image of a book, as `Book::freeze` answers it. `end` is the LSN after
/// the last record that it covers, counted since the store was opened, and `place` the count of
/// commits and makes up to there.
#[derive(Drop)]
pub struct Image {
    pub blocks: VecDeque<Vec<u8>>,
    pub end: u64,
    pub place: u64,
    ghost whole: { All (λ b. IsWhole b.items) blocks.items },
}

/// Where a book hands its blocks to. What becomes of them there is no matter of the book's: it
/// knows which blocks it sent, and where it could not.
pub trait Outbox {
    ghost use Rattle.records.specs.declared.block.Block.{Block};

    /// From the one state to the other these blocks were sent, in this order.
    ghost sends: { Self → List Block → Self → Type 0 };

    /// It was full at a moment from the one state to the other.
    ghost was_full: { Self → Self → Type 0 };

    /// Takes the block as the last one, or gives it back where no room is left.
    fn offer(&mut self, block: Block) -> Result<(), Block>
        ensures sent { OnOk result (sends self.old (block ∷ []) self.new) }
        ensures full { OnErr result (was_full self.old self.new) }
        ensures none { OnErr result (sends self.old [] self.new) }
        ensures back { IfErr result (λ b. b ≡ block) };

    /// Where nothing is done, nothing is sent.
    ghost sends_none: { (out : Self) → sends out [] out };
}
