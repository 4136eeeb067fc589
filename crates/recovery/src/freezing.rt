// An image of a machine: its records, in whole blocks.
ghost use Rattle.std.specs.Prelude.{◌≡◌, ◌≤◌, false, IsTrue, length, OnOk, IfOk, IsOkUnless};
ghost use Rattle.calls.specs.Formats.{widest};
ghost use Rattle.calls.specs.Limits.{max_collections, number_end};
ghost use Rattle.catalog.specs.Places.{At};
ghost use Rattle.records.specs.Short.{AreShort};
ghost use Rattle.records.specs.Images.{TellsOf, TellOf};
ghost use Rattle.records.specs.Packings.{joined, Writes};
ghost use Rattle.images.specs.Images.{CanStand, TellsGathered, IsPackedImage};

use calls::Refusal;
use calls::limits::MAX_COLLECTIONS;
use catalog::Parts;
use images::{live_records, push_records, push_shown};
use records::{Coded, Packer, Record};
use replay::Machine;
use std::alloc::Global;
use std::collections::VecDeque;

/// The records of an image of the machine, in whole blocks, with the mark of the next number:
/// marks, collections with their items, live numbers rising, what these asked for in its order, but
/// for calls that only read and what a falling one deferred, and the end.
///
/// It takes time and memory in proportion to what the collections hold and the live transactions
/// asked for, of which the image is one copy; beside it the records of these, and the items of one
/// collection at a time, are copied.
///
/// NoMemory.
pub fn image_blocks<B: Parts + Coded>(
    alloc: Global,
    machine: &Machine<B>,
    next: u64,
) -> Result<VecDeque<Vec<u8>>, Refusal>
    requires { (1 ≤ next) × (next ≤ number_end) }
    ensures image { IfOk result (λ blocks. IsPackedImage B.collections next machine.now
        blocks.items) }
    ensures refusal { IsOkUnless result Refusal.NoMemory }
{
    machine.upheld();
    let live = live_records(alloc, machine.live())?;
    let mut packer = Packer::new(alloc);
    push_image(machine, next, &live, &mut packer)?;
    packer.finish()
}

// Writes all records of the image.
fn push_image<B: Parts + Coded>(
    machine: &Machine<B>,
    next: u64,
    live: &[Record],
    packer: &mut Packer,
) -> Result<(), Refusal>
    requires { CanStand next machine.now.wear live.now }
    ensures told { OnOk result (Writes (joined packer.old) (joined packer.new)
        (TellsGathered machine.now.format next machine.now.wear (B.collections machine.now.now)
        live.now)) }
    ensures refusal { IsOkUnless result Refusal.NoMemory }
{
    machine.upheld();
    let marks = Record::Marks {
        format: machine.format(),
        next,
        wear: machine.wear(),
    };
    packer.push(marks)?;
    push_collections(machine.parts(), packer)?;
    push_records(live, packer)?;
    packer.push(Record::ImageEnd)
}

// Writes what the collections hold.
fn push_collections<B: Parts + Coded>(parts: &B, packer: &mut Packer) -> Result<(), Refusal>
    requires short { AreShort widest (B.collections parts.now) }
    requires few { length (B.making.names parts.now) ≤ max_collections }
    ensures told { OnOk result (Writes (joined packer.old) (joined packer.new)
        (TellOf (B.collections parts.now))) }
    ensures refusal { IsOkUnless result Refusal.NoMemory }
{
    for at in 0..MAX_COLLECTIONS {
        if !push_collection(parts, at as u8, packer)? {
            return Ok(());
        }
    }
    Ok(())
}

// Writes what the collection at the place holds. Answers whether there is one.
fn push_collection<B: Parts + Coded>(
    parts: &B,
    at: u8,
    packer: &mut Packer,
) -> Result<bool, Refusal>
    requires { AreShort widest (B.collections parts.now) }
    ensures there { IfOk result (λ there. IsTrue there →
        At (λ x. Writes (joined packer.old) (joined packer.new) (TellsOf x))
        (B.collections parts.now) at) }
    ensures none { IfOk result (λ there. there ≡ false →
        (length (B.collections parts.now) ≤ at) × (packer.new ≡ packer.old)) }
    ensures refusal { IsOkUnless result Refusal.NoMemory }
{
    match parts.shown(at) {
        Ok(shown) => {
            push_shown(shown, packer)?;
            Ok(true)
        }
        Err(Refusal::NoSuchCollection) => Ok(false),
        Err(_) => Err(Refusal::NoMemory),
    }
}
