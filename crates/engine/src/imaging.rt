// What is gathered of a book for an image: frozen, packed, or given up.
ghost use Rattle.std.specs.Prelude.{◌≡◌, ◌≢◌, None, OnOk, OnErr, IfOk, IsSome, IsOkUnless};
ghost use Rattle.images.specs.Gathers.{Packs, Repeats, nothing_gathered};
ghost use Rattle.engine.specs.Gatherings.{IsHeld, HoldsOn, unless_outrun};

use calls::Refusal;
use catalog::Part;
use checkpoint::Keeper;
use disk_model::Disk;
use images::Gather;
use records::Image;
use std::alloc::Global;
use std::mem;

/// Gives up what is gathered of a gathering that is not under way any more, as Outrun says, unless
/// it is frozen: the next copy is then of the first collection. With another refusal it stays.
pub fn give_up_outrun<P: Part>(alloc: Global, refusal: Refusal, gather: &mut Gather<P>)
    ensures { gather.new ≡ unless_outrun gather.old.frozen refusal gather.old }
{
    if matches!(refusal, Refusal::Outrun) && gather.image_head().is_none() {
        *gather = Gather::new(alloc);
    }
}

/// What comes behind a freeze of the book, which was answered so: the keeper holds the end of the
/// image of what is frozen. No device is called.
///
/// Where the book refused, its refusal, and the keeper is not asked: what was gathered stays, but
/// for Outrun (`give_up_outrun`). Else the refusals of `Keeper::hold`, with which what was gathered
/// is given up.
pub fn hold_frozen<D: Disk, P: Part>(
    alloc: Global,
    frozen: Result<(), Refusal>,
    keeper: &mut Keeper<D>,
    gather: &mut Gather<P>,
) -> Result<(), Refusal>
    requires { OnOk frozen (gather.old.frozen ≢ None) }
    ensures answer { IsHeld frozen keeper.old gather.old result keeper.new gather.new }
    ensures crash { HoldsOn ⟦<D as Disk>⟧ frozen keeper.old gather.old result keeper.new }
{
    if let Err(refusal) = frozen {
        give_up_outrun(alloc, refusal, gather);
        return Err(refusal);
    }
    let Some(head) = gather.image_head() else {
        unreachable!();
    };
    if let Err(refusal) = keeper.hold(head.end, head.place) {
        *gather = Gather::new(alloc);
        return Err(refusal);
    }
    Ok(())
}

/// The image of what is frozen; nothing is gathered then. What it costs, `Gather::pack` says.
///
/// NoMemory leaves what is gathered, with what is repeated, to be packed again.
pub fn pack<P: Part>(alloc: Global, gather: &mut Gather<P>) -> Result<Image, Refusal>
    requires { IsSome gather.old.frozen }
    ensures ok { IfOk result (λ image. Packs gather.old image) }
    ensures taken { OnOk result (gather.new ≡ nothing_gathered) }
    ensures refusal { IsOkUnless result Refusal.NoMemory }
    ensures back { OnErr result (Repeats gather.old gather.new) }
{
    match mem::replace(gather, Gather::new(alloc)).pack() {
        Ok(image) => Ok(image),
        Err((refusal, left)) => {
            *gather = left;
            Err(refusal)
        }
    }
}
