// A disk in memory, with all that a stop may do to a disk.
ghost use Rattle.std.specs.Prelude.{◌≡◌, ◌↔◌, ◌⊎◌, ◌+◌, ◌≤◌, ◌<◌, ◌^◌, ◌-◌, List, ℕ, length, take};
ghost use Rattle.std.specs.Prelude.{drop, replicate, false, true, IfOk, OnOk, OnErr, IsTrue};
ghost use Rattle.disk_model.specs.Marks.{Leaves, marked, picked, picked_one, leaves_seen};
ghost use Rattle.disk_model.specs.Marks.{leaves_size};
ghost use Rattle.disk_model.specs.Disk.{Overwritten, Only, IsAtRest, Torn, Follows};
ghost use Rattle.disk_model.specs.Disk.{HasCause};
ghost use Rattle.disk_model.specs.Moments.{moments, HadLeft, only_left, WasAt};
ghost use Rattle.std.proofs.Common.{inl};

use crate::{Disk, Fault, Past};
use std::alloc::{AllocError, Global};
use std::snapshot::Snapshot;

/// A disk in memory. It has a mark on each byte that was written since the last sync that
/// succeeded.
#[derive(Drop)]
pub struct MemDisk {
    bytes: Vec<u8>,
    marks: Vec<bool>,
    past: Past,
    faults: u64,
    fail_in: u64,
    ghost marked: { length marks.items ≡ length bytes.items },
}

impl MemDisk {
    ghost use Rattle.disk_model.specs.MemDisk.{mem_bytes, mem_marks, mem_past, mem_faults};
    ghost use Rattle.disk_model.specs.MemDisk.{mem_fail_in};

    /// A disk of so many zeros, at rest. It makes the room for the marks too, so that no call of
    /// the disk takes memory.
    pub fn new(alloc: Global, size: u64) -> Result<MemDisk, AllocError>
        ensures bytes { IfOk result (λ disk. mem_bytes disk ≡ replicate size 0) }
        ensures at_rest { IfOk result (λ disk.
            IsAtRest ⟦<MemDisk as Disk>⟧.seen ⟦<MemDisk as Disk>⟧.may_leave disk) }
        ensures moment { IfOk result (λ disk. ⟦<MemDisk as Disk>⟧.moment disk ≡ 0) }
        ensures faults { IfOk result (λ disk. mem_faults disk ≡ 0) }
        ensures fail_in { IfOk result (λ disk. mem_fail_in disk ≡ 0) }
    {
        Ok(MemDisk {
            bytes: vec![in alloc; 0; size as usize]?,
            marks: vec![in alloc; false; size as usize]?,
            past: Past::Start,
            faults: 0,
            fail_in: 0,
        })
    }

    /// The k-th device call from now fails, and counts as a fault; 0 is for none. A later choice
    /// replaces an earlier one.
    pub fn fail_at(&mut self, k: u64)
        ensures bytes { mem_bytes self.new ≡ mem_bytes self.old }
        ensures marks { mem_marks self.new ≡ mem_marks self.old }
        ensures past { mem_past self.new ≡ mem_past self.old }
        ensures faults { mem_faults self.new ≡ mem_faults self.old }
        ensures fail_in { mem_fail_in self.new ≡ k }
    {
        self.fail_in = k;
    }

    /// What a stop leaves, as a disk at rest: the listed bytes that no sync has reached take the
    /// listed values, the last one where a byte is listed twice, and each other byte what a read
    /// gives. Others that are listed are passed over.
    pub fn stop(self, pick: &[(u64, u8)]) -> MemDisk
        ensures picked { mem_bytes result ≡ picked (mem_bytes self) (mem_marks self) pick.now }
        ensures left { ⟦<MemDisk as Disk>⟧.may_leave self (mem_bytes result) }
        ensures at_rest { IsAtRest ⟦<MemDisk as Disk>⟧.seen ⟦<MemDisk as Disk>⟧.may_leave result }
        ensures moment { ⟦<MemDisk as Disk>⟧.moment result ≡ 0 }
        ensures size { length (mem_bytes result) ≡ length (mem_bytes self) }
        ensures faults { mem_faults result ≡ 0 }
        ensures fail_in { mem_fail_in result ≡ 0 }
    {
        let MemDisk {
            mut bytes,
            mut marks,
            ..
        } = self;
        for (at, value) in pick {
            pick_one(&mut bytes, &marks, *at, *value);
        }
        unmark(&mut marks);
        MemDisk {
            bytes,
            marks,
            past: Past::Start,
            faults: 0,
            fail_in: 0,
        }
    }
}

// Counts a device call, and answers whether it fails.
fn is_failing(faults: &mut u64, fail_in: &mut u64) -> bool
    ensures when { IsTrue result ↔ (fail_in.old ≡ 1) }
    ensures later { faults.old ≤ faults.new }
    ensures risen { IsTrue result → faults.old < 2 ^ 64 - 1 → faults.old < faults.new }
    ensures same { (result ≡ false) → faults.new ≡ faults.old }
    ensures nearer { fail_in.new ≡ fail_in.old - 1 }
{
    if *fail_in == 0 {
        return false;
    }
    *fail_in -= 1;
    if *fail_in > 0 {
        return false;
    }
    *faults = faults.saturating_add(1);
    true
}

// What was at the moment that ends.
fn remember(past: &mut Past, bytes: &Vec<u8>, marks: &Vec<bool>)
    ensures { WasAt bytes.now.items marks.now.items past.old past.new }
{
    *past = Past::After(Snapshot::of(bytes), Snapshot::of(marks), Snapshot::of(past));
}

// Puts bytes in the place of those that are there.
fn overwrite(bytes: &mut Vec<u8>, at: usize, with: &[u8])
    requires { at + length with.now ≤ length bytes.old.items }
    ensures { Overwritten at with.now bytes.old.items bytes.new.items }
{
    bytes[at..at + with.len()].copy_from_slice(with);
}

// Marks n bytes.
fn mark(marks: &mut Vec<bool>, at: usize, n: usize)
    requires { at + n ≤ length marks.old.items }
    ensures { marks.new.items ≡ marked at n marks.old.items }
{
    marks[at..at + n].fill(true);
}

// Sets a byte, if it is there and has a mark.
fn pick_one(bytes: &mut Vec<u8>, marks: &Vec<bool>, at: u64, value: u8)
    requires { length marks.now.items ≡ length bytes.old.items }
    ensures { bytes.new.items ≡ picked_one bytes.old.items marks.now.items (at, value) }
{
    let at = at as usize;
    if at < marks.len() && marks[at] {
        bytes[at] = value;
    }
}

// Takes each mark away.
fn unmark(marks: &mut Vec<bool>)
    ensures { marks.new.items ≡ replicate (length marks.old.items) false }
{
    marks.fill(false);
}

impl Disk for MemDisk {
    ghost use Rattle.disk_model.specs.MemDisk.{mem_bytes, mem_marks, mem_past, mem_faults};
    ghost use Rattle.disk_model.specs.MemDisk.{mem_fail_in, FailsInTurn};

    ghost seen = { λ d. d.bytes.items };

    ghost may_leave = { λ d c. Leaves d.bytes.items d.marks.items c };

    ghost moment = { λ d. moments d.past };

    ghost left_since = { λ d t c. Leaves d.bytes.items d.marks.items c ⊎ HadLeft d.past t c };

    ghost fault_count = { λ d. d.faults };

    ghost is_honest = { λ _. Unit {0} };

    ghost seen_may_stay = { λ d. leaves_seen d.bytes.items d.marks.items d.marked };

    ghost keeps_size = { λ d c left. leaves_size d.bytes.items d.marks.items c left };

    ghost counts_now = { λ d t c le now. inl now };

    ghost only_now = { λ d c left. only_left d.past (Leaves d.bytes.items d.marks.items c) c left };

    fn size(&self) -> u64 {
        self.bytes.len() as u64
    }

    fn read_at(&mut self, at: u64, out: &mut [u8]) -> Result<(), Fault>
        requires { at + length out.old ≤ length (mem_bytes self.old) }
        ensures bytes { OnOk result (out.new ≡
            take (length out.old) (drop at (mem_bytes self.old))) }
        ensures fails { FailsInTurn (mem_fail_in self.old) (mem_fail_in self.new) result }
        ensures seen { mem_bytes self.new ≡ mem_bytes self.old }
        ensures marks { mem_marks self.new ≡ mem_marks self.old }
        ensures past { mem_past self.new ≡ mem_past self.old }
        ensures cause { HasCause (mem_faults self.old) (mem_faults self.new) result }
    {
        if is_failing(&mut self.faults, &mut self.fail_in) {
            return Err(Fault);
        }
        let start = at as usize;
        out.copy_from_slice(&self.bytes[start..start + out.len()]);
        Ok(())
    }

    fn write_at(&mut self, at: u64, bytes: &[u8]) -> Result<(), Fault>
        requires { at + length bytes.now ≤ length (mem_bytes self.old) }
        ensures written { OnOk result (Overwritten at bytes.now (mem_bytes self.old)
            (mem_bytes self.new)) }
        ensures unwritten { OnErr result (mem_bytes self.new ≡ mem_bytes self.old) }
        ensures marks { mem_marks self.new ≡ marked at (length bytes.now) (mem_marks self.old) }
        ensures past { WasAt (mem_bytes self.old) (mem_marks self.old) (mem_past self.old)
            (mem_past self.new) }
        ensures fails { FailsInTurn (mem_fail_in self.old) (mem_fail_in self.new) result }
        ensures seen { Torn at (length bytes.now) (mem_bytes self.old) (mem_bytes self.new) }
        ensures stop { Follows (Torn at (length bytes.now))
            (Leaves (mem_bytes self.old) (mem_marks self.old))
            (Leaves (mem_bytes self.new) (mem_marks self.new)) }
        ensures cause { HasCause (mem_faults self.old) (mem_faults self.new) result }
    {
        let start = at as usize;
        remember(&mut self.past, &self.bytes, &self.marks);
        mark(&mut self.marks, start, bytes.len());
        if is_failing(&mut self.faults, &mut self.fail_in) {
            return Err(Fault);
        }
        overwrite(&mut self.bytes, start, bytes);
        Ok(())
    }

    fn sync(&mut self) -> Result<(), Fault>
        ensures seen { mem_bytes self.new ≡ mem_bytes self.old }
        ensures marks { OnOk result (mem_marks self.new ≡
            replicate (length (mem_marks self.old)) false) }
        ensures marks_err { OnErr result (mem_marks self.new ≡ mem_marks self.old) }
        ensures past { OnOk result (WasAt (mem_bytes self.old) (mem_marks self.old)
            (mem_past self.old) (mem_past self.new)) }
        ensures past_err { OnErr result (mem_past self.new ≡ mem_past self.old) }
        ensures fails { FailsInTurn (mem_fail_in self.old) (mem_fail_in self.new) result }
        ensures durable { OnOk result (Only (mem_bytes self.new)
            (Leaves (mem_bytes self.new) (mem_marks self.new))) }
        ensures stop { (c : List ℕ) → Leaves (mem_bytes self.new) (mem_marks self.new) c →
            Leaves (mem_bytes self.old) (mem_marks self.old) c }
        ensures cause { HasCause (mem_faults self.old) (mem_faults self.new) result }
    {
        if is_failing(&mut self.faults, &mut self.fail_in) {
            return Err(Fault);
        }
        remember(&mut self.past, &self.bytes, &self.marks);
        unmark(&mut self.marks);
        Ok(())
    }

    fn faults(&self) -> u64 {
        self.faults
    }
}
