// Why bytes gave no record.
ghost use Rattle.std.specs.Prelude.{◌≡◌};
ghost use Rattle.records.specs.declared.unread.Unread.TheVariants.{Memory};

use std::alloc::{AllocError, AllocFailed};

/// Why bytes gave no record.
#[derive(Drop)]
pub enum Unread {
    /// Only where a growth was refused.
    Memory,
    /// The bytes begin with nothing that is spelled so.
    Damage,
}

impl From<AllocError> for Unread {
    ghost from_gives = { λ _ e. e ≡ Memory };

    fn from(_e: AllocError) -> Unread {
        Unread::Memory
    }
}

impl<T: Drop> From<AllocFailed<T>> for Unread {
    ghost from_gives = { λ _ e. e ≡ Memory };

    fn from(_e: AllocFailed<T>) -> Unread {
        Unread::Memory
    }
}
