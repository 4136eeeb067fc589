// A part of a disk that holds a row of blocks.
ghost use Rattle.std.specs.Prelude.{◌≡◌, ◌+◌, ◌≤◌, ◌<◌, ◌^◌, List, ℕ, length, OnOk, OnErr, IfOk};
ghost use Rattle.std.specs.Prelude.{IfErr, IfSome, IsErrOf, MatchOption, true, false, ◌++◌, ◌∷◌};
ghost use Rattle.std.specs.Prelude.{[]};

use crate::bytes::{number, read_bytes};
use crate::layout::OPEN;
use crate::read_error::ReadError;
use calls::Refusal;
use calls::limits::MAX_BODY;
use disk_model::{Disk, Fault, read, write_and_sync};
use std::alloc::Global;

/// Where a row of blocks stands on a disk, and where its next gate is.
#[derive(Drop)]
pub struct Area {
    base: u64,
    size: u64,
    offset: u64,
    failed: bool,
    ghost inside: { offset < size },
    ghost fits: { base + size < 2 ^ 64 },
}

impl Area {
    ghost use Rattle.disk_model.specs.Disk.{LeavesOnly, ReadsOnly, Rises, HasCause};
    ghost use Rattle.gate_block.specs.Row.{row, IsRow, IsBlockOf, SameOutside, Finds};
    ghost use Rattle.gate_block.specs.Answers.{IsPlaceAnswer, IsAppendAnswer, IsNextAnswer};
    ghost use Rattle.gate_block.specs.Answers.{IsReadError};
    ghost use Rattle.gate_block.specs.Area.{base_of, size_of, offset_of, has_failed, IsReady};
    ghost use Rattle.gate_block.specs.Area.{IsLaid, HoldsRow, LeavesBlocks, LeavesElsewhere};
    ghost use Rattle.gate_block.specs.Area.{bytes_of, body_in, IsDamage};

    /// The area of so many bytes from the base on, whose next gate stands at that offset of it.
    /// It has not failed.
    pub fn start(base: u64, size: u64, offset: u64) -> Area
        requires inside { offset < size }
        requires fits { base + size < 2 ^ 64 }
        ensures base { base_of result ≡ base }
        ensures size { size_of result ≡ size }
        ensures offset { offset_of result ≡ offset }
        ensures failed { has_failed result ≡ false }
    {
        Area {
            base,
            size,
            offset,
            failed: false,
        }
    }

    /// Where on the disk it begins.
    pub fn base(&self) -> u64
        ensures { result ≡ base_of self.now }
    {
        self.base
    }

    /// How many bytes it has.
    pub fn size(&self) -> u64
        ensures { result ≡ size_of self.now }
    {
        self.size
    }

    /// How many bytes the area has behind its blocks, with the next gate.
    pub fn room(&self) -> u64
        ensures { result + offset_of self.now ≡ size_of self.now }
    {
        self.size - self.offset
    }

    // Whether a block has its place at the next gate: refused Failed and then Full, as `append`
    // says.
    fn check_place(&self, block: &[u8]) -> Result<(), Refusal>
        ensures { IsPlaceAnswer (has_failed self.now)
            (size_of self.now < offset_of self.now + length block.now) result }
    {
        if self.failed {
            return Err(Refusal::Failed);
        }
        if block.len() as u64 > self.size - self.offset {
            return Err(Refusal::Full);
        }
        Ok(())
    }

    // Writes a block behind its closed gate, and then opens the gate.
    fn write_block<D: Disk>(&self, disk: &mut D, block: &[u8]) -> Result<(), Fault>
        requires block { (body : List ℕ) × IsBlockOf body block.now }
        requires room { offset_of self.now + length block.now ≤ size_of self.now }
        requires disk { base_of self.now + size_of self.now ≤ length (D.seen disk.old) }
        ensures kept { (bodies : List (List ℕ)) (body : List ℕ) → IsBlockOf body block.now →
            IsReady D.seen D.may_leave self.now disk.old bodies →
            OnOk result (HoldsRow D.seen D.may_leave self.now disk.new (bodies ++ body ∷ [])) }
        ensures any_moment { (bodies : List (List ℕ)) (body : List ℕ) → IsBlockOf body block.now →
            IsReady D.seen D.may_leave self.now disk.old bodies →
            LeavesOnly D.moment D.left_since disk.old disk.new
            (LeavesBlocks (D.may_leave disk.old) self.now bodies body) }
        ensures any_moment_elsewhere { LeavesOnly D.moment D.left_since disk.old disk.new
            (LeavesElsewhere (D.may_leave disk.old) self.now) }
        ensures counts { (bodies : List (List ℕ)) (body : List ℕ) → IsBlockOf body block.now →
            IsRow bodies (bytes_of self.now (D.seen disk.old)) →
            offset_of self.now ≡ length (row bodies) →
            OnOk result (IsRow (bodies ++ body ∷ []) (bytes_of self.now (D.seen disk.new))) }
        ensures elsewhere { SameOutside (base_of self.now) (size_of self.now)
            (D.seen disk.old) (D.seen disk.new) }
        ensures honest { D.is_honest disk.new → D.is_honest disk.old }
        ensures cause { HasCause (D.fault_count disk.old) (D.fault_count disk.new) result }
    {
        let gate = self.base + self.offset;
        write_and_sync(disk, gate + 1, &block[1..])?;
        write_and_sync(disk, gate, &[OPEN])
    }

    /// Adds a block at the next gate, which is closed. The block is its gate, the length of its
    /// body in four bytes, the body, and the next gate, closed.
    ///
    /// A stop at any moment of the call leaves the blocks from before it, with the new one or
    /// without, and nothing else of the disk changes; at `Ok` the new one is kept. All but the gate
    /// is written and synced before the gate is opened, and that synced too, in the manner of a log
    /// that is written ahead. It takes no memory.
    ///
    /// Refusals, in this order: `Failed` where the area has failed, and `Full` where the block ends
    /// behind the area's end, both with everything as before; then `Fault`, after which the area
    /// has failed.
    pub fn append<D: Disk>(&mut self, disk: &mut D, block: &[u8]) -> Result<(), Refusal>
        requires block { (body : List ℕ) × IsBlockOf body block.now }
        requires disk { base_of self.old + size_of self.old ≤ length (D.seen disk.old) }
        // What it answers, and that a refusal without a Fault changes nothing.
        ensures answer { IsAppendAnswer (has_failed self.old) (has_failed self.new)
            (size_of self.old < offset_of self.old + length block.now)
            (Rises (D.fault_count disk.old) (D.fault_count disk.new)) result }
        ensures failed { IsErrOf result Refusal.Failed →
            (self.new ≡ self.old) × (disk.new ≡ disk.old) }
        ensures full { IsErrOf result Refusal.Full → (self.new ≡ self.old) × (disk.new ≡ disk.old) }
        // Where the area is then, and its next gate.
        ensures base { base_of self.new ≡ base_of self.old }
        ensures size { size_of self.new ≡ size_of self.old }
        ensures offset { OnOk result (offset_of self.new + 1 ≡
            offset_of self.old + length block.now) }
        ensures offset_err { OnErr result (offset_of self.new ≡ offset_of self.old) }
        // What the disk holds then. Also where a stop might leave another: where a read gives
        // blocks up to the next gate, it gives the new one behind them then.
        ensures kept { (bodies : List (List ℕ)) (body : List ℕ) → IsBlockOf body block.now →
            IsReady D.seen D.may_leave self.old disk.old bodies →
            OnOk result (IsReady D.seen D.may_leave self.new disk.new (bodies ++ body ∷ [])) }
        ensures counts { (bodies : List (List ℕ)) (body : List ℕ) → IsBlockOf body block.now →
            IsRow bodies (bytes_of self.old (D.seen disk.old)) →
            offset_of self.old ≡ length (row bodies) →
            OnOk result (IsRow (bodies ++ body ∷ []) (bytes_of self.new (D.seen disk.new))) }
        ensures elsewhere { SameOutside (base_of self.old) (size_of self.old)
            (D.seen disk.old) (D.seen disk.new) }
        // What a stop leaves.
        ensures any_moment { (bodies : List (List ℕ)) (body : List ℕ) → IsBlockOf body block.now →
            IsReady D.seen D.may_leave self.old disk.old bodies →
            LeavesOnly D.moment D.left_since disk.old disk.new
            (LeavesBlocks (D.may_leave disk.old) self.old bodies body) }
        ensures any_moment_elsewhere { LeavesOnly D.moment D.left_since disk.old disk.new
            (LeavesElsewhere (D.may_leave disk.old) self.old) }
        // What the device tells.
        ensures honest { D.is_honest disk.new → D.is_honest disk.old }
        ensures faults { D.fault_count disk.old ≤ D.fault_count disk.new }
    {
        self.check_place(block)?;
        if self.write_block(disk, block).is_err() {
            self.failed = true;
            return Err(Refusal::Fault);
        }
        self.offset += block.len() as u64 - 1;
        Ok(())
    }

    /// Lays a block at the next gate, with its gate open and the closed gate behind it, over
    /// whatever stands there. It is one write, and no sync: the block is kept once the disk is
    /// synced.
    ///
    /// At `Ok` a read gives the blocks that were laid so far, the new one last, and the closed gate
    /// behind them. A stop at any moment of the call leaves each byte outside the area as a stop
    /// could have left it before. It takes no memory.
    ///
    /// Refusals, in this order: `Failed` where the area has failed, and `Full` where the block ends
    /// behind the area's end, both with everything as before; then `Fault`, after which the area
    /// has failed.
    pub fn lay<D: Disk>(&mut self, disk: &mut D, block: &[u8]) -> Result<(), Refusal>
        requires block { (body : List ℕ) × IsBlockOf body block.now }
        requires disk { base_of self.old + size_of self.old ≤ length (D.seen disk.old) }
        // What it answers, and that a refusal without a Fault changes nothing.
        ensures answer { IsAppendAnswer (has_failed self.old) (has_failed self.new)
            (size_of self.old < offset_of self.old + length block.now)
            (Rises (D.fault_count disk.old) (D.fault_count disk.new)) result }
        ensures failed { IsErrOf result Refusal.Failed →
            (self.new ≡ self.old) × (disk.new ≡ disk.old) }
        ensures full { IsErrOf result Refusal.Full → (self.new ≡ self.old) × (disk.new ≡ disk.old) }
        // Where the area is then, and its next gate.
        ensures base { base_of self.new ≡ base_of self.old }
        ensures size { size_of self.new ≡ size_of self.old }
        ensures offset { OnOk result (offset_of self.new + 1 ≡
            offset_of self.old + length block.now) }
        ensures offset_err { OnErr result (offset_of self.new ≡ offset_of self.old) }
        // What the disk holds then.
        ensures laid { (bodies : List (List ℕ)) (body : List ℕ) → IsBlockOf body block.now →
            IsLaid self.old (D.seen disk.old) bodies →
            OnOk result (IsLaid self.new (D.seen disk.new) (bodies ++ body ∷ [])) }
        ensures elsewhere { SameOutside (base_of self.old) (size_of self.old)
            (D.seen disk.old) (D.seen disk.new) }
        // What a stop leaves.
        ensures any_moment_elsewhere { LeavesOnly D.moment D.left_since disk.old disk.new
            (LeavesElsewhere (D.may_leave disk.old) self.old) }
        // What the device tells.
        ensures honest { D.is_honest disk.new → D.is_honest disk.old }
        ensures faults { D.fault_count disk.old ≤ D.fault_count disk.new }
    {
        self.check_place(block)?;
        if disk.write_at(self.base + self.offset, block).is_err() {
            self.failed = true;
            return Err(Refusal::Fault);
        }
        self.offset += block.len() as u64 - 1;
        Ok(())
    }

    // Reads the block at the next gate.
    fn read_block<D: Disk>(&self, alloc: Global, disk: &mut D) -> Result<Option<Vec<u8>>, ReadError>
        requires { base_of self.now + size_of self.now ≤ length (D.seen disk.old) }
        ensures found { IfOk result (λ found. D.is_honest disk.new →
            Finds (bytes_of self.now (D.seen disk.old)) (offset_of self.now) (body_in found)) }
        ensures room { IfOk result (λ found. IfSome found
            (λ body. offset_of self.now + 6 + length body.items ≤ size_of self.now)) }
        ensures error { IfErr result (IsReadError
            (Rises (D.fault_count disk.old) (D.fault_count disk.new))
            (IsDamage (D.is_honest disk.new) self.now (D.seen disk.old))) }
        ensures reads { ReadsOnly D.seen D.may_leave D.moment D.left_since disk.old disk.new }
        ensures honest { D.is_honest disk.new → D.is_honest disk.old }
        ensures faults { D.fault_count disk.old ≤ D.fault_count disk.new }
    {
        let gate = self.base + self.offset;
        let mut open = [0; 1];
        read(disk, gate, &mut open)?;
        if open[0] != OPEN {
            return Ok(None);
        }
        let room = self.size - self.offset;
        if room < 6 {
            return Err(ReadError::Damaged(gate));
        }
        let mut count = [0; 4];
        read(disk, gate + 1, &mut count)?;
        let n = number(count);
        if n == 0 || n > MAX_BODY as u64 || n > room - 6 {
            return Err(ReadError::Damaged(gate));
        }
        Ok(Some(read_bytes(alloc, disk, gate + 5, n)?))
    }

    /// The body of the block at the next gate, which it passes, or none where that gate is closed.
    /// It writes nothing.
    ///
    /// Refusals: `Failed` where the area has failed; `Damaged`, with the gate's place on the disk,
    /// where the gate is open and the length behind it is 0, over 65,535, or more than has room;
    /// `NoMemory` where there is none for the body; `Fault`, after which the area has failed. The
    /// offset stays at each of them.
    pub fn next_block<D: Disk>(
        &mut self,
        alloc: Global,
        disk: &mut D,
    ) -> Result<Option<Vec<u8>>, Refusal>
        requires { base_of self.old + size_of self.old ≤ length (D.seen disk.old) }
        ensures found { IfOk result (λ found. D.is_honest disk.new →
            Finds (bytes_of self.old (D.seen disk.old)) (offset_of self.old) (body_in found)) }
        ensures answer { IsNextAnswer (has_failed self.old) (has_failed self.new)
            (Rises (D.fault_count disk.old) (D.fault_count disk.new))
            (IsDamage (D.is_honest disk.new) self.old (D.seen disk.old)) result }
        ensures base { base_of self.new ≡ base_of self.old }
        ensures size { size_of self.new ≡ size_of self.old }
        ensures offset { IfOk result (λ found. MatchOption found
            (offset_of self.new ≡ offset_of self.old)
            (λ body. offset_of self.new ≡ offset_of self.old + 5 + length body.items)) }
        ensures offset_err { OnErr result (offset_of self.new ≡ offset_of self.old) }
        ensures reads { ReadsOnly D.seen D.may_leave D.moment D.left_since disk.old disk.new }
        ensures honest { D.is_honest disk.new → D.is_honest disk.old }
        ensures faults { D.fault_count disk.old ≤ D.fault_count disk.new }
    {
        if self.failed {
            return Err(Refusal::Failed);
        }
        match self.read_block(alloc, disk) {
            Ok(Some(body)) => {
                self.offset += 5 + body.len() as u64;
                Ok(Some(body))
            }
            Ok(None) => Ok(None),
            Err(ReadError::NoMemory) => Err(Refusal::NoMemory),
            Err(ReadError::Damaged(gate)) => Err(Refusal::Damaged(gate)),
            Err(ReadError::Fault) => {
                self.failed = true;
                Err(Refusal::Fault)
            }
        }
    }
}
