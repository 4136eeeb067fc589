// Copying a store to another disk.
ghost use Rattle.std.specs.Prelude.{◌≡◌, ◌⊎◌};
ghost use Rattle.disk_model.specs.Disk.{ReadsOnly, LeavesOnly, IsAtRest};
ghost use Rattle.recovery.specs.Formatting.{IsMaking};
ghost use Rattle.recovery.specs.Copies.{IsCopyOf};
ghost use Rattle.boost.specs.Effects.{IsCopied, IsCopyRefused};

use crate::commands::{Failure, report};
use disk_model::Disk;
use recovery::{Edit, copy};
use std::alloc::Global;
use std::io::Write;

/// Copies the store of a disk to another one, with two areas of so many bytes and these edits made,
/// as `recovery::copy` does, and prints `copied`. Nothing is written to the old disk. Answers the
/// status of the program with both disks.
///
/// What a stop leaves of the new disk, where it was at rest: the old bytes with any value for the
/// gate of the head, or no store, or the copy.
///
/// The status is 0 where the store was copied, and 4, with no text, where it was and that could not
/// be printed. Else it is 1, and `err` gets a text, as `Failure` says. Then the new disk is as it
/// was, unless it failed.
pub fn run_copy<D: Disk, N: Disk, O: Write, E: Write>(
    alloc: Global,
    old: D,
    new: N,
    area: u64,
    edits: &[Edit],
    out: &mut O,
    err: &mut E,
) -> (u8, D, N)
    ensures status { (result.0 ≡ 0) ⊎ ((result.0 ≡ 1) ⊎ (result.0 ≡ 4)) }
    ensures copied { (result.0 ≡ 0) ⊎ (result.0 ≡ 4) →
        IsCopied ⟦<D as Disk>⟧ ⟦<N as Disk>⟧ area edits.now (old, new)
        (result.1, result.2) }
    ensures refused { result.0 ≡ 1 →
        IsCopyRefused ⟦<D as Disk>⟧ ⟦<N as Disk>⟧ area edits.now (old, new)
        (result.1, result.2) }
    ensures only_read { ReadsOnly D.seen D.may_leave D.moment D.left_since old result.1 }
    ensures any_moment { IsAtRest N.seen N.may_leave new →
        LeavesOnly N.moment N.left_since new result.2 (IsMaking
        (λ bytes. D.is_honest result.1 → IsCopyOf (D.seen old) edits.now area bytes)
        (N.seen new)) }
    ensures silent { (result.0 ≡ 0) ⊎ (result.0 ≡ 4) → err.new ≡ err.old }
{
    let (mut old, mut new) = (old, new);
    match copy(alloc, &mut old, &mut new, area, edits) {
        Ok(()) => (tell_copied(out), old, new),
        Err(refusal) => (report(&Failure::Refused(refusal), err), old, new),
    }
}

// Prints that a store was copied. Answers the status: 0, or 4 where that could not be written.
fn tell_copied<O: Write>(out: &mut O) -> u8
    ensures { (result ≡ 0) ⊎ (result ≡ 4) }
{
    if writeln!(out, "copied").is_err() || out.flush().is_err() {
        return Failure::Unwritten.status();
    }
    0
}
