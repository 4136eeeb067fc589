// A checkpoint: the store begins anew with an image of what it holds.
ghost use Rattle.std.specs.Prelude.{unwrap_or};
ghost use Rattle.talks.specs.Plays.{Runs};
ghost use Rattle.talks.specs.Checkpoints.{left_in, is_frozen, Gathers, Freezes, BeginsNow};
ghost use Rattle.talks.specs.Checkpoints.{Begins, Lays, Finishes, Checkpoints};

use calls::Refusal;
use calls::limits::MAX_COLLECTIONS;
use disk_model::Disk;
use world::World;

/// Begins an image of the book, unless one is in progress, writes what is left of it, and makes it
/// the store. Answers the mark then: so many commits are kept.
///
/// To begin an image the collections are copied, one after another, the book is frozen, and what
/// was copied is packed; what an earlier checkpoint did of that is not done again.
///
/// Each refusal is handed on at once, and no step is taken behind it. In this order: of the copies
/// and the freeze Outrun where a step gave the copies up, which are begun anew by the next
/// checkpoint, Worn and NoMemory; of the freeze Failed after a Fault; of the image NoMemory,
/// Failed, and Full where it needs more bytes than an area has, all with no image begun; then Fault
/// where the disk failed, in a piece or in the flip.
pub fn checkpoint<D: Disk>(world: &mut World<D>) -> Result<u64, Refusal>
    ensures { Checkpoints ⟦<D as Disk>⟧ world.old result world.new }
{
    begin(world)?;
    finish(world)
}

// Begins an image, unless one is in progress.
fn begin<D: Disk>(world: &mut World<D>) -> Result<(), Refusal>
    ensures { Runs ⟦<D as Disk>⟧ world.old (Begins (left_in world.old) (is_frozen world.old) result)
        world.new }
{
    match world.left() {
        Some(_) => Ok(()),
        None => begin_now(world),
    }
}

// Freezes the book, unless it is, and begins its image.
fn begin_now<D: Disk>(world: &mut World<D>) -> Result<(), Refusal>
    ensures { Runs ⟦<D as Disk>⟧ world.old (BeginsNow (is_frozen world.old) result) world.new }
{
    freeze(world)?;
    world.pack()
}

// Copies the collections, and freezes the book, unless it is frozen.
fn freeze<D: Disk>(world: &mut World<D>) -> Result<(), Refusal>
    ensures { Runs ⟦<D as Disk>⟧ world.old (Freezes (is_frozen world.old) result) world.new }
{
    if world.is_frozen() {
        return Ok(());
    }
    gather(world)?;
    world.freeze()
}

// Copies the collections that are not copied yet: a book has at most so many.
fn gather<D: Disk>(world: &mut World<D>) -> Result<(), Refusal>
    ensures { Runs ⟦<D as Disk>⟧ world.old (Gathers result) world.new }
{
    for _ in 0..MAX_COLLECTIONS {
        if !world.gather()? {
            return Ok(());
        }
    }
    Ok(())
}

// Writes what is left of the image, and makes it the store.
fn finish<D: Disk>(world: &mut World<D>) -> Result<u64, Refusal>
    ensures { Runs ⟦<D as Disk>⟧ world.old (Finishes (unwrap_or (left_in world.old) 0) result)
        world.new }
{
    lay_all(world)?;
    world.flip()
}

// Writes what is left of the image.
fn lay_all<D: Disk>(world: &mut World<D>) -> Result<(), Refusal>
    ensures { Runs ⟦<D as Disk>⟧ world.old (Lays (unwrap_or (left_in world.old) 0) result)
        world.new }
{
    for _ in 0..world.left().unwrap_or(0) {
        let _more = world.piece()?;
    }
    Ok(())
}
