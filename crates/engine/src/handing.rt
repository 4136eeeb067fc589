// Whether a block may be handed over, and what a turn tells of that.
ghost use Rattle.std.specs.Prelude.{◌≡◌};
ghost use Rattle.txn.specs.Shelved.{IsJournal, standing_of};
ghost use Rattle.txn.specs.Undoings.{undo_count};
ghost use Rattle.engine.specs.Rooms.{MayHandOver, told};

use crate::room::Room;
use calls::Refusal;
use checkpoint::Turn;
use records::Coded;
use txn::Journal;

/// How many records the undoing takes, at most, of what is live behind the next block, where that
/// may be handed over: the image of the area covers it; or it fits into the room, and behind it
/// that undoing, in blocks of 64 records, and it is not past the image that is being written.
/// `before` so many behind the last block, which is also the answer where no record waits. A record
/// makes one more to undo at most; where that does not fit and the block has all that waits, they
/// are counted, by a look at all that is live. It takes no memory.
///
/// Imaging where an image is being written, and else Full.
pub fn undoing_behind<B: Coded>(
    journal: &Journal<B>,
    before: u64,
    room: Room,
) -> Result<u64, Refusal>
    requires kept { IsJournal B.meaning B.making B.collections B.whole B.fits journal.now }
    ensures { MayHandOver journal.now.pending journal.now.freezes journal.now.end before
        (undo_count (standing_of journal.now).state) room result }
{
    let Some(next) = journal.next_block() else {
        return Ok(before);
    };
    let behind = journal.waiting() as u64 - next.records;
    let end = journal.lsn() - behind;
    let most = before.saturating_add(next.records);
    if room.covers(end) {
        return Ok(most);
    }
    if room.is_past_image(end) {
        return Err(room.refusal());
    }
    if room.fits(next.body, most) {
        return Ok(most);
    }
    if behind > 0 {
        return Err(room.refusal());
    }
    let counted = journal.undoing();
    if room.fits(next.body, counted) {
        Ok(counted)
    } else {
        Err(room.refusal())
    }
}

/// What a turn tells: what the keeper's turn did; and where that was idle and a block was not
/// handed over, why. Held where it waits for the image that is being written, and Full where it
/// does not fit.
pub fn told(barred: Option<Refusal>, turned: Result<Turn, Refusal>) -> Result<Turn, Refusal>
    ensures { result ≡ told barred turned }
{
    match (barred, turned) {
        (Some(Refusal::Imaging), Ok(Turn::Idle)) => Ok(Turn::Held),
        (Some(Refusal::Full), Ok(Turn::Idle)) => Err(Refusal::Full),
        (_, turned) => turned,
    }
}
