// Bounds of some holds, which tell that none of them is in the way.
ghost use Rattle.std.specs.Prelude.{◌≡◌, ℕ, IsTrue};
ghost use Rattle.abstract_locks.specs.declared.table.Hold.{Hold};
ghost use Rattle.abstract_locks.specs.Bounds.{IsWithin, Covers};
ghost use Rattle.abstract_locks.specs.Holds.{Blocks};

use crate::table::Hold;
use calls::{Modes, Need};

/// Bounds of some holds: of their keys, of how far one spans, of their owners, and which modes they
/// have.
#[derive(Clone, Copy)]
pub struct Bounds {
    low: u64,
    high: u64,
    // how far the highest key of a hold is above its lowest, at most
    widest: u64,
    first_owner: u64,
    last_owner: u64,
    modes: Modes,
}

impl Bounds {
    /// Those of no hold.
    pub fn none() -> Self {
        Self {
            low: u64::MAX,
            high: 0,
            widest: 0,
            first_owner: u64::MAX,
            last_owner: 0,
            modes: Modes::none(),
        }
    }

    /// Those of one hold.
    pub fn of(hold: &Hold) -> Self
        ensures { IsWithin result hold.now }
    {
        Self {
            low: hold.need.low,
            high: hold.need.high,
            widest: hold.need.high.saturating_sub(hold.need.low),
            first_owner: hold.owner,
            last_owner: hold.owner,
            modes: Modes::only(hold.need.mode),
        }
    }

    /// Those of the holds of both.
    pub fn with(&self, other: &Self) -> Self
        ensures own { Covers result self.now }
        ensures others { Covers result other.now }
    {
        Self {
            low: self.low.min(other.low),
            high: self.high.max(other.high),
            widest: self.widest.max(other.widest),
            first_owner: self.first_owner.min(other.first_owner),
            last_owner: self.last_owner.max(other.last_owner),
            modes: self.modes.with(&other.modes),
        }
    }

    /// How far the highest key of a hold is above its lowest, at most.
    pub fn widest(&self) -> u64
        ensures { result ≡ self.now.widest }
    {
        self.widest
    }

    /// Whether a hold within the bounds may keep the need from the owner.
    pub fn may_block(&self, owner: u64, need: &Need) -> bool
        ensures { (h : Hold) (at : ℕ) → IsWithin self.now h → Blocks owner at need.now h →
            IsTrue result }
    {
        self.low <= need.high
            && need.low <= self.high
            && self.modes.conflict_with(need.mode)
            && (self.first_owner != owner || self.last_owner != owner)
    }
}
