// Why a block could not be read.
ghost use Rattle.std.specs.Prelude.{◌≡◌};
ghost use Rattle.gate_block.specs.declared.read_error.ReadError.TheVariants.{NoMemory};
ghost use Rattle.gate_block.specs.declared.read_error.ReadError.TheVariants.{Fault as FaultError};

use disk_model::Fault;
use std::alloc::AllocError;

/// Why a block could not be read.
#[derive(Clone, Copy)]
pub(crate) enum ReadError {
    NoMemory,
    /// The offset on the disk of the block's gate.
    Damaged(u64),
    Fault,
}

impl From<AllocError> for ReadError {
    ghost from_gives = { λ _ e. e ≡ NoMemory };

    fn from(_: AllocError) -> Self {
        ReadError::NoMemory
    }
}

impl From<Fault> for ReadError {
    ghost from_gives = { λ _ e. e ≡ FaultError };

    fn from(_: Fault) -> Self {
        ReadError::Fault
    }
}
