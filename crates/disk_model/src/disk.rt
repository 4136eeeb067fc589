// A disk of a fixed size, as the store sees it.
ghost use Rattle.std.specs.Prelude.{◌≡◌, ◌≤◌, ◌+◌, List, ℕ, length, take, drop, OnOk};
ghost use Rattle.disk_model.specs.Disk.{Overwritten, Torn, Follows, IsAtRest, Elapses, HasCause};

/// The disk did not do what was asked of it.
#[derive(Clone, Copy)]
pub struct Fault;

/// A disk has a fixed number of bytes. A stop, as of the power, may come at any moment, also within
/// a call.
pub trait Disk {
    /// What a read gives: each byte of the disk.
    ghost seen: { Self → List ℕ };

    /// What a stop now may leave.
    ghost may_leave: { Self → List ℕ → Type 0 };

    /// The moment, as a number that does not fall.
    ghost moment: { Self → ℕ };

    /// What a stop at some moment from that one on might have left, within a call or between two.
    ghost left_since: { Self → ℕ → List ℕ → Type 0 };

    /// How often the disk has failed, up to the greatest number that the count holds.
    ghost fault_count: { Self → ℕ };

    /// The premise on a real disk: each read so far gave what `seen` says.
    ghost is_honest: { Self → Type 0 };

    /// The number of bytes.
    fn size(&self) -> u64
        ensures { result ≡ length (seen self.now) };

    /// Reads as many bytes as `out` has room for.
    fn read_at(&mut self, at: u64, out: &mut [u8]) -> Result<(), Fault>
        requires { at + length out.old ≤ length (seen self.old) }
        ensures bytes { OnOk result (is_honest self.new →
            out.new ≡ take (length out.old) (drop at (seen self.old))) }
        ensures seen { seen self.new ≡ seen self.old }
        ensures stop { (c : List ℕ) → may_leave self.new c → may_leave self.old c }
        ensures time { Elapses (moment self.old) (moment self.new) (left_since self.old)
            (left_since self.new)
            (may_leave self.new) }
        ensures honest { is_honest self.new → is_honest self.old }
        ensures cause { HasCause (fault_count self.old) (fault_count self.new) result };

    /// Writes over what is there. Until a sync succeeds, a stop may leave any bytes in the range,
    /// also where the write failed.
    fn write_at(&mut self, at: u64, bytes: &[u8]) -> Result<(), Fault>
        requires { at + length bytes.now ≤ length (seen self.old) }
        ensures written { OnOk result (Overwritten at bytes.now (seen self.old) (seen self.new)) }
        ensures seen { Torn at (length bytes.now) (seen self.old) (seen self.new) }
        ensures stop { Follows (Torn at (length bytes.now)) (may_leave self.old)
            (may_leave self.new) }
        ensures time { Elapses (moment self.old) (moment self.new) (left_since self.old)
            (left_since self.new)
            (may_leave self.new) }
        ensures honest { is_honest self.new → is_honest self.old }
        ensures cause { HasCause (fault_count self.old) (fault_count self.new) result };

    /// After it, a stop leaves what a read gives.
    fn sync(&mut self) -> Result<(), Fault>
        ensures durable { OnOk result (IsAtRest seen may_leave self.new) }
        ensures seen { seen self.new ≡ seen self.old }
        ensures stop { (c : List ℕ) → may_leave self.new c → may_leave self.old c }
        ensures time { Elapses (moment self.old) (moment self.new) (left_since self.old)
            (left_since self.new)
            (may_leave self.new) }
        ensures honest { is_honest self.new → is_honest self.old }
        ensures cause { HasCause (fault_count self.old) (fault_count self.new) result };

    /// How often the disk has failed.
    fn faults(&self) -> u64
        ensures { result ≡ fault_count self.now };

    /// What a read gives is among what a stop may leave.
    ghost seen_may_stay: { (disk : Self) → may_leave disk (seen disk) };

    /// A stop leaves the size.
    ghost keeps_size: { (disk : Self) (c : List ℕ) → may_leave disk c →
        length c ≡ length (seen disk) };

    /// This moment is one of those since an earlier one.
    ghost counts_now: { (disk : Self) (t : ℕ) (c : List ℕ) → t ≤ moment disk → may_leave disk c →
        left_since disk t c };

    /// Since this moment there is no other.
    ghost only_now: { (disk : Self) (c : List ℕ) → left_since disk (moment disk) c →
        may_leave disk c };
}
