// A turn of the committer.
ghost use Rattle.talks.specs.Plays.{Runs};
ghost use Rattle.talks.specs.Turns.{Turns};

use calls::Refusal;
use checkpoint::Turn;
use disk_model::Disk;
use engine::told;
use world::World;

/// Hands a block over where it may go, and brings the next one to the disk. Where it may not go and
/// nothing else was there to bring, Held while an image is being written.
///
/// The refusals of `Keeper::turn`; and then Full where the block, with the undoing of all that is
/// live behind it, does not fit into the area: it is not handed over, and goes once a checkpoint
/// has made room. That as many blocks are in transit as may be is passed over.
pub fn turn<D: Disk>(world: &mut World<D>) -> Result<Turn, Refusal>
    ensures { Runs ⟦<D as Disk>⟧ world.old (Turns result) world.new }
{
    let barred = world.cut().err();
    told(barred, world.turn())
}
