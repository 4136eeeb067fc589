// What lies under the keeper's lock.
ghost use Rattle.std.specs.Prelude.{◌≡◌, [], IfSome, IfNone, IfErr, Err};
ghost use Rattle.images.specs.Gathers.{nothing_gathered};
ghost use Rattle.group_commit.specs.Marks.{new_keeper};
ghost use Rattle.store.specs.Turns.{Brings, TurnTells, CheckTells, brought_to, flipped_to, Fails};
ghost use Rattle.store.specs.Turns.{FailsWith, stops_by, stops_behind};
ghost use Rattle.store.specs.Turns.{Reaches, IsTurnRefusal, IsCheckRefusal};
ghost use Rattle.store.specs.Vaults.{IsRoomUnderLock, ReceivesAny};
ghost use Rattle.group_commit.specs.Rising.{raised_to};

use crate::checkpointing::Checkpoint;
use calls::Refusal;
use checkpoint::{Keeper, Turn};
use desks::{Extent, Naming, Ranked, Shared};
use disk_model::Disk;
use engine::Room;
use group_commit::{Handoff, Incoming, KeeperSeat, Mark, Near, OneMoment, Receiver, Watcher};
use std::marker::{Brand, Model, PhantomData};
use std::sync::Wait;

/// The keeper, with the receiving end of the hand-off, the seat that brings the mark on, and what
/// is frozen of the book for the image that it awaits. What lies under a lock is known by its type:
/// contracts see nothing else of it.
#[derive(Drop)]
pub(crate) struct Vault<D: Disk, J: Naming> {
    pub(crate) keeper: Keeper<D>,
    pub(crate) receiver: Receiver,
    pub(crate) mark: KeeperSeat,
    pub(crate) near: Near,
    of: PhantomData<J>,
}

impl<D: Disk, J: Naming> Model for Vault<D, J> {
    ghost use Rattle.store.specs.Vaults.{IsVault, Awaits};

    ghost Value = { Unit {0} };

    ghost view = { λ v. tt };

    ghost invariant = { λ v. IsVault ⟦<J as Naming>⟧ ⟦<D as Disk>⟧ v.keeper v.receiver v.mark
        v.near × Awaits v.keeper.stage v.near.gather };
}

impl<D: Disk, J: Naming> Ranked for Vault<D, J> {
    ghost level = { 2 };

    fn level() -> u8 {
        2
    }
}

impl<D: Disk, J: Naming> Vault<D, J> {
    /// The vault of a keeper that was just opened.
    pub(crate) fn new(keeper: Keeper<D>, receiver: Receiver, mark: KeeperSeat, near: Near) -> Self
        requires receiver { receiver ≡ record { table = J.handoff; received = []; noted = [] } }
        requires mark { mark ≡ new_keeper J.mark }
        requires near { near ≡ record { table = J.awaited; gather = nothing_gathered } }
        requires received { J.sound →
            ReceivesAny ⟦<J as Naming>⟧ ⟦<D as Disk>⟧ [] [] [] keeper }
    {
        Self {
            keeper,
            receiver,
            mark,
            near,
            of: PhantomData,
        }
    }

    /// How far the area in use is filled.
    pub(crate) fn extent(&self) -> Extent {
        Extent::of(self.keeper.area())
    }

    /// Where the next block would go.
    pub(crate) fn room(&self) -> Room
        ensures { IsRoomUnderLock ⟦<J as Naming>⟧ ⟦<D as Disk>⟧ result }
    {
        Room::of(&self.keeper)
    }

    /// Brings a block to the disk: the answer of `Keeper::turn`. The mark is brought on, and the
    /// watcher told of it; where the keeper met a fault, the failed flag is set.
    pub(crate) fn turn<R: Wait>(
        &mut self,
        rt: &R,
        shared: &Shared<J>,
        watcher: &mut Watcher,
    ) -> Result<Turn, Refusal>
        requires { watcher.old.table ≡ J.mark }
        ensures tells { TurnTells watcher.old result watcher.new }
        ensures refused { IfErr result IsTurnRefusal }
    {
        let turned = bring(rt, &shared.handoff, &mut self.keeper, &mut self.receiver);
        shared.signal.wakes();
        turn_told::<Brand, _>(&shared.mark, &mut self.mark, watcher, &turned, &self.keeper);
        turned
    }

    /// Goes on with the image in progress, by a piece or, where none is left, by the flip; the mark
    /// and the watcher as in a turn. None where no image is in progress.
    pub(crate) fn lay(
        &mut self,
        shared: &Shared<J>,
        watcher: &mut Watcher,
    ) -> Option<Result<Checkpoint, Refusal>>
        requires { watcher.old.table ≡ J.mark }
        ensures some { IfSome result (λ r. CheckTells watcher.old r watcher.new) }
        ensures refused { IfSome result (λ r. IfErr r IsCheckRefusal) }
        ensures none { IfNone result (watcher.new ≡ watcher.old) }
    {
        let left = self.keeper.left()?;
        if left >= 1 {
            let laid = self.keeper.image_piece();
            return Some(piece_told(&shared.mark, &mut self.mark, watcher, &laid));
        }
        let flipped = self.keeper.flip();
        Some(flip_told::<Brand, _>(
            &shared.mark,
            &mut self.mark,
            watcher,
            &flipped,
            &self.keeper,
        ))
    }
}

// A turn of the keeper over the hand-off.
fn bring<D: Disk, R: Wait>(
    rt: &R,
    handoff: &Handoff,
    keeper: &mut Keeper<D>,
    receiver: &mut Receiver,
) -> Result<Turn, Refusal>
    requires { receiver.old.table ≡ handoff.now }
    ensures { Brings ⟦<D as Disk>⟧ keeper.old receiver.old result keeper.new receiver.new }
{
    let mut inbox = Incoming {
        rt,
        handoff,
        receiver,
    };
    keeper.turn(&mut inbox)
}

// The mark reaches the place at the moment that W names, and the watcher is told of it.
fn reach<W: OneMoment>(mark: &Mark, seat: &mut KeeperSeat, watcher: &mut Watcher, place: u64)
    requires seat { seat.old.table ≡ mark.now }
    requires watcher { watcher.old.table ≡ mark.now }
    ensures seat { seat.new ≡ record {
      table = seat.old.table;
      raised = raised_to place W.moment seat.old.raised;
      stops = seat.old.stops;
    } }
    ensures watcher { Reaches watcher.old place watcher.new }
{
    mark.advance::<W>(seat, place);
    mark.tell(seat, watcher);
}

// Where the keeper met a fault, the failed flag is set, and the watcher told of it.
fn note_failure(mark: &Mark, seat: &mut KeeperSeat, watcher: &mut Watcher, refusal: Refusal)
    requires seat { seat.old.table ≡ mark.now }
    requires watcher { watcher.old.table ≡ mark.now }
    ensures seat { seat.new ≡ record seat.old { stops = stops_by refusal seat.old.stops } }
    ensures watcher { Fails watcher.old refusal watcher.new }
{
    match refusal {
        Refusal::Fault | Refusal::Failed => mark.fail(seat, watcher),
        _ => {}
    }
}

/// What the keeper answered is told, where that is a fault.
pub(crate) fn failure_told(
    mark: &Mark,
    seat: &mut KeeperSeat,
    watcher: &mut Watcher,
    answer: &Result<(), Refusal>,
)
    requires seat { seat.old.table ≡ mark.now }
    requires watcher { watcher.old.table ≡ mark.now }
    ensures seat { seat.new ≡ record seat.old {
      stops = stops_behind answer.now seat.old.stops;
    } }
    ensures watcher { FailsWith watcher.old answer.now watcher.new }
{
    match answer {
        Ok(()) => {}
        Err(refusal) => note_failure(mark, seat, watcher, *refusal),
    }
}

// What a turn answered is told to the mark and to the watcher, at the moment that W names. The
// keeper is there for who picks W.
fn turn_told<W: OneMoment, D: Disk>(
    mark: &Mark,
    seat: &mut KeeperSeat,
    watcher: &mut Watcher,
    turned: &Result<Turn, Refusal>,
    keeper: &Keeper<D>,
)
    requires seat { seat.old.table ≡ mark.now }
    requires watcher { watcher.old.table ≡ mark.now }
    ensures seat { seat.new ≡ record {
      table = seat.old.table;
      raised = brought_to seat.old.raised W.moment turned.now;
      stops = stops_behind turned.now seat.old.stops;
    } }
    ensures watcher { TurnTells watcher.old turned.now watcher.new }
{
    let _ = keeper;
    match turned {
        Ok(Turn::Kept(place)) => reach::<W>(mark, seat, watcher, *place),
        Ok(_) => {}
        Err(refusal) => note_failure(mark, seat, watcher, *refusal),
    }
}

// What a piece of an image answered.
fn piece_told(
    mark: &Mark,
    seat: &mut KeeperSeat,
    watcher: &mut Watcher,
    laid: &Result<bool, Refusal>,
) -> Result<Checkpoint, Refusal>
    requires seat { seat.old.table ≡ mark.now }
    requires watcher { watcher.old.table ≡ mark.now }
    ensures seat { seat.new ≡ record seat.old { stops = stops_behind laid.now seat.old.stops } }
    ensures tells { CheckTells watcher.old result watcher.new }
    ensures refused { IfErr result (λ e. laid.now ≡ Err e) }
{
    match laid {
        Ok(_) => Ok(Checkpoint::Piece),
        Err(refusal) => {
            note_failure(mark, seat, watcher, *refusal);
            Err(*refusal)
        }
    }
}

// What a flip answered is told to the mark and to the watcher, as what a turn answered is.
fn flip_told<W: OneMoment, D: Disk>(
    mark: &Mark,
    seat: &mut KeeperSeat,
    watcher: &mut Watcher,
    flipped: &Result<u64, Refusal>,
    keeper: &Keeper<D>,
) -> Result<Checkpoint, Refusal>
    requires seat { seat.old.table ≡ mark.now }
    requires watcher { watcher.old.table ≡ mark.now }
    ensures seat { seat.new ≡ record {
      table = seat.old.table;
      raised = flipped_to seat.old.raised W.moment flipped.now;
      stops = stops_behind flipped.now seat.old.stops;
    } }
    ensures watcher { CheckTells watcher.old result watcher.new }
    ensures refused { IfErr result (λ e. flipped.now ≡ Err e) }
{
    let _ = keeper;
    match flipped {
        Ok(place) => {
            reach::<W>(mark, seat, watcher, *place);
            Ok(Checkpoint::Flipped(*place))
        }
        Err(refusal) => {
            note_failure(mark, seat, watcher, *refusal);
            Err(*refusal)
        }
    }
}
