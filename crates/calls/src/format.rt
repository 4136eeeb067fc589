// The formats of a store.
ghost use Rattle.std.specs.Prelude.{◌≡◌, ◌↔◌, IsTrue, MatchOption};
ghost use Rattle.calls.specs.declared.format.Format.{Format};
ghost use Rattle.calls.specs.Formats.{max_value, max_area, number_of, Allows};

use crate::limits::MAX_AREA;

/// The format of an area, and of a disk: what bounds the values of its maps, and the areas.
#[derive(Clone, Copy, Debug, PartialEq, Eq)]
pub enum Format {
    /// Values to 256 bytes, and areas to 2^30.
    One,
    /// Values to 1,024 bytes, and areas to 2^36.
    Two,
}

impl Format {
    /// The format of this number: 1 or 2.
    pub fn numbered(number: u8) -> Option<Self>
        ensures { MatchOption result ((f : Format) → number ≡ number_of f → ⊥)
            (λ f. number ≡ number_of f) }
    {
        match number {
            1 => Some(Self::One),
            2 => Some(Self::Two),
            _ => None,
        }
    }

    /// The number of the format.
    pub fn number(self) -> u8
        ensures { result ≡ number_of self }
    {
        match self {
            Self::One => 1,
            Self::Two => 2,
        }
    }

    /// The most bytes of a value of a map in an area of the format.
    pub fn max_value(self) -> usize
        ensures { result ≡ max_value self }
    {
        match self {
            Self::One => 256,
            Self::Two => 1_024,
        }
    }

    /// The most bytes of an area of a disk of the format.
    pub fn max_area(self) -> u64
        ensures { result ≡ max_area self }
    {
        match self {
            Self::One => MAX_AREA,
            Self::Two => 68_719_476_736,
        }
    }

    /// Whether a disk of this format may have an area of the other one: of its own, or of a later
    /// one.
    pub fn allows(self, area: Self) -> bool
        ensures { IsTrue result ↔ Allows self area }
    {
        match (self, area) {
            (Self::One, _) | (Self::Two, Self::Two) => true,
            (Self::Two, Self::One) => false,
        }
    }
}
