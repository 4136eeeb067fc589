// Bringing a store to the second format.
ghost use Rattle.std.specs.Prelude.{OnOk, IfErr};
ghost use Rattle.boost.specs.Commands.{IsOfStore};
ghost use Rattle.boost.specs.Effects.{IsBroughtUp, UpgradeLeaves};

use crate::commands::failure::Failure;
use disk_model::Disk;
use recovery::upgrade;
use std::alloc::Global;
use std::io::Write;

/// Brings the store of a disk to format 2 in its place, as `recovery::upgrade` does, and prints
/// `format 2`.
pub fn upgrade_store<D: Disk, O: Write>(
    alloc: Global,
    disk: D,
    out: &mut O,
) -> (Result<(), Failure<'static>>, D)
    ensures why { IfErr result.0 IsOfStore }
    ensures done { OnOk result.0 (D.is_honest result.1 →
        IsBroughtUp ⟦<D as Disk>⟧ disk result.1) }
    ensures left { UpgradeLeaves ⟦<D as Disk>⟧ disk result.1 }
{
    match upgrade(alloc, disk) {
        Ok(disk) => (tell_upgraded(out), disk),
        Err((refusal, disk)) => (Err(Failure::Refused(refusal)), disk),
    }
}

// Prints that the store is in format 2.
fn tell_upgraded<O: Write>(out: &mut O) -> Result<(), Failure<'static>>
    ensures { IfErr result IsOfStore }
{
    writeln!(out, "format 2")?;
    Ok(())
}
