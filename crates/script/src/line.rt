// The lines of a script.
ghost use Rattle.std.specs.Prelude.{◌≡◌};
ghost use Rattle.script.specs.declared.line.ScriptError.TheVariants.{NoMemory};

use crate::action::Action;
use std::alloc::{AllocError, AllocFailed};

/// A line that is not passed over.
#[derive(Drop)]
pub struct Line {
    /// The number of the line, from 1, those that are passed over counted.
    pub number: u64,
    pub what: Action,
}

/// Why a script could not be read.
#[derive(Clone, Copy)]
pub enum ScriptError {
    /// The number of the first line that is not understood.
    NotUnderstood(u64),
    NoMemory,
}

impl From<AllocError> for ScriptError {
    ghost from_gives = { λ _ e. e ≡ NoMemory };

    fn from(_e: AllocError) -> ScriptError {
        ScriptError::NoMemory
    }
}

impl<T: Drop> From<AllocFailed<T>> for ScriptError {
    ghost from_gives = { λ _ e. e ≡ NoMemory };

    fn from(_e: AllocFailed<T>) -> ScriptError {
        ScriptError::NoMemory
    }
}
