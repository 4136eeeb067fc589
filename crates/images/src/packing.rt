// What was gathered, packed into whole blocks.
ghost use Rattle.std.specs.Prelude.{◌≡◌, ◌++◌, ◌∷◌, [], map, OnOk};
ghost use Rattle.calls.specs.Formats.{widest};
ghost use Rattle.std.specs.Prelude.{IfOk, IsOkUnless};
ghost use Rattle.std.specs.List.{AllByRecursion};
ghost use Rattle.calls.specs.Names.{IsName};
ghost use Rattle.calls.specs.Contents.{IsItemOf};
ghost use Rattle.records.specs.Records.{FitsItem, Fits};
ghost use Rattle.records.specs.Short.{AreShort, HoldsShort, IsShortItem};
ghost use Rattle.records.specs.Images.{TellsOf, TellOf};
ghost use Rattle.records.specs.Packings.{joined, Writes};
ghost use Rattle.images.specs.Images.{AreOf, CanStand, TellsGathered, IsPacked};
ghost use Rattle.images.specs.Gathers.{gathered};
ghost use Rattle.images.specs.Views.{copies_of};

use crate::gather::Frozen;
use crate::stamped::Stamped;
use calls::{Item, Refusal};
use catalog::{Part, Shown};
use records::{Packer, Record, fits_item};
use std::alloc::Global;
use std::collections::VecDeque;

// The records of what was gathered, in whole blocks.
pub(crate) fn pack<P: Part>(
    alloc: Global,
    copies: &[Stamped<P>],
    frozen: &Frozen,
) -> Result<VecDeque<Vec<u8>>, Refusal>
    requires short { AreShort widest (gathered (copies_of P.collection copies.now)) }
    requires can_stand { CanStand frozen.now.image_head.next frozen.now.image_head.wear
        frozen.now.live.items }
    ensures image { IfOk result (λ blocks. IsPacked
        (TellsGathered frozen.now.image_head.format frozen.now.image_head.next
        frozen.now.image_head.wear
        (gathered (copies_of P.collection copies.now)) frozen.now.live.items) blocks.items) }
    ensures refusal { IsOkUnless result Refusal.NoMemory }
{
    let mut packer = Packer::new(alloc);
    push_gathered(copies, frozen, &mut packer)?;
    packer.finish()
}

// Writes all records of the image.
fn push_gathered<P: Part>(
    copies: &[Stamped<P>],
    frozen: &Frozen,
    packer: &mut Packer,
) -> Result<(), Refusal>
    requires short { AreShort widest (gathered (copies_of P.collection copies.now)) }
    requires can_stand { CanStand frozen.now.image_head.next frozen.now.image_head.wear
        frozen.now.live.items }
    ensures told { OnOk result (Writes (joined packer.old) (joined packer.new)
        (TellsGathered frozen.now.image_head.format frozen.now.image_head.next
        frozen.now.image_head.wear
        (gathered (copies_of P.collection copies.now)) frozen.now.live.items)) }
    ensures refusal { IsOkUnless result Refusal.NoMemory }
{
    packer.push(Record::Marks {
        format: frozen.image_head.format,
        next: frozen.image_head.next,
        wear: frozen.image_head.wear,
    })?;
    push_copies(copies, packer)?;
    push_records(&frozen.live, packer)?;
    packer.push(Record::ImageEnd)
}

// Writes what the copies hold.
fn push_copies<P: Part>(copies: &[Stamped<P>], packer: &mut Packer) -> Result<(), Refusal>
    requires { AreShort widest (gathered (copies_of P.collection copies.now)) }
    ensures told { OnOk result (Writes (joined packer.old) (joined packer.new)
        (TellOf (gathered (copies_of P.collection copies.now)))) }
    ensures refusal { IsOkUnless result Refusal.NoMemory }
{
    for stamped in copies {
        push_copy(&stamped.part, packer)?;
    }
    Ok(())
}

// Writes what the copy holds.
fn push_copy<P: Part>(part: &P, packer: &mut Packer) -> Result<(), Refusal>
    requires { HoldsShort widest (P.collection part.now).content }
    ensures told { OnOk result (Writes (joined packer.old) (joined packer.new)
        (TellsOf (P.collection part.now))) }
    ensures refusal { IsOkUnless result Refusal.NoMemory }
{
    push_shown(part.shown()?, packer)
}

/// Writes the records of a collection: its name with its kind, and then its items in their order.
///
/// NoMemory, which may leave some of them written.
pub fn push_shown(shown: Shown, packer: &mut Packer) -> Result<(), Refusal>
    requires name { IsName shown.name }
    requires items { AllByRecursion (λ i. IsShortItem widest i × IsItemOf shown.kind i)
        shown.items.items }
    ensures told { OnOk result (Writes (joined packer.old) (joined packer.new) (AreOf shown)) }
    ensures refusal { IsOkUnless result Refusal.NoMemory }
{
    let Shown { name, kind, items } = shown;
    match packer.push(Record::Name(kind, name)) {
        Ok(()) => push_items(items, packer),
        Err(refusal) => {
            drop(items);
            Err(refusal)
        }
    }
}

// Writes the items, in their order.
fn push_items(items: Vec<Item>, packer: &mut Packer) -> Result<(), Refusal>
    requires { AllByRecursion (IsShortItem widest) items.items }
    ensures told { OnOk result ((joined packer.new ≡ joined packer.old ++
        map Record.Item items.items) × AllByRecursion FitsItem items.items) }
    ensures refusal { IsOkUnless result Refusal.NoMemory }
{
    for item in items {
        push_item(item, packer)?;
    }
    Ok(())
}

fn push_item(item: Item, packer: &mut Packer) -> Result<(), Refusal>
    requires { IsShortItem widest item }
    ensures told { OnOk result (joined packer.new ≡ joined packer.old ++ Record.Item item ∷ []) }
    ensures fits { FitsItem item }
    ensures refusal { IsOkUnless result Refusal.NoMemory }
{
    prove!(fits_item(&item));
    packer.push(Record::Item(item))
}

/// Writes the records, in their order.
///
/// NoMemory, which may leave some of them written.
pub fn push_records(records: &[Record], packer: &mut Packer) -> Result<(), Refusal>
    requires { AllByRecursion Fits records.now }
    ensures told { OnOk result (joined packer.new ≡ joined packer.old ++ records.now) }
    ensures refusal { IsOkUnless result Refusal.NoMemory }
{
    for entry in records {
        packer.write(entry)?;
    }
    Ok(())
}
