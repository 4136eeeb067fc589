// What a store refuses.
use std::alloc::{AllocError, AllocFailed};
use std::fmt;
use thiserror::Error;

/// Why a call was refused. Unless the call says otherwise, it left everything as before.
#[derive(Clone, Copy, PartialEq, Eq, Error)]
pub enum Refusal {
    BadName,
    BadArg,
    TooLong,
    /// Only where a growth was refused.
    NoMemory,
    NameTaken,
    NoSuchCollection,
    WrongKind,
    TooManyCollections,
    /// The number of the least other transaction that holds a need in conflict.
    Busy(u64),
    NoSuchTxn,
    Falling,
    TooManyLive,
    TooManyCalls,
    Backlog,
    AlreadyGoing,
    Worn,
    /// The position on the disk of the gate of the block in which the damage stands.
    Damaged(u64),
    Full,
    /// Only where the disk's count of faults rose in the call.
    Fault,
    Failed,
    NotAStore,
    NotNow,
    Lost,
    Unfinished,
    AlreadyLive,
    Imaging,
    /// Only of what is gathered.
    Outrun,
}

impl Refusal {
    ghost use Rattle.std.specs.Prelude.{◌≡◌};
    ghost use Rattle.calls.specs.Refusals.{number_of};

    /// The number of the refusal, from 1 to 27.
    pub fn number(&self) -> u8
        ensures { result ≡ number_of self.now }
    {
        match self {
            Refusal::BadName => 1,
            Refusal::BadArg => 2,
            Refusal::TooLong => 3,
            Refusal::NoMemory => 4,
            Refusal::NameTaken => 5,
            Refusal::NoSuchCollection => 6,
            Refusal::WrongKind => 7,
            Refusal::TooManyCollections => 8,
            Refusal::Busy(_) => 9,
            Refusal::NoSuchTxn => 10,
            Refusal::Falling => 11,
            Refusal::TooManyLive => 12,
            Refusal::TooManyCalls => 13,
            Refusal::Backlog => 14,
            Refusal::AlreadyGoing => 15,
            Refusal::Worn => 16,
            Refusal::Damaged(_) => 17,
            Refusal::Full => 18,
            Refusal::Fault => 19,
            Refusal::Failed => 20,
            Refusal::NotAStore => 21,
            Refusal::NotNow => 22,
            Refusal::Lost => 23,
            Refusal::Unfinished => 24,
            Refusal::AlreadyLive => 25,
            Refusal::Imaging => 26,
            Refusal::Outrun => 27,
        }
    }
    // The name of the refusal, as it is printed.
    fn name(&self) -> &'static str {
        match self {
            Refusal::BadName => "BadName",
            Refusal::BadArg => "BadArg",
            Refusal::TooLong => "TooLong",
            Refusal::NoMemory => "NoMemory",
            Refusal::NameTaken => "NameTaken",
            Refusal::NoSuchCollection => "NoSuchCollection",
            Refusal::WrongKind => "WrongKind",
            Refusal::TooManyCollections => "TooManyCollections",
            Refusal::Busy(_) => "Busy",
            Refusal::NoSuchTxn => "NoSuchTxn",
            Refusal::Falling => "Falling",
            Refusal::TooManyLive => "TooManyLive",
            Refusal::TooManyCalls => "TooManyCalls",
            Refusal::Backlog => "Backlog",
            Refusal::AlreadyGoing => "AlreadyGoing",
            Refusal::Worn => "Worn",
            Refusal::Damaged(_) => "Damaged",
            Refusal::Full => "Full",
            Refusal::Fault => "Fault",
            Refusal::Failed => "Failed",
            Refusal::NotAStore => "NotAStore",
            Refusal::NotNow => "NotNow",
            Refusal::Lost => "Lost",
            Refusal::Unfinished => "Unfinished",
            Refusal::AlreadyLive => "AlreadyLive",
            Refusal::Imaging => "Imaging",
            Refusal::Outrun => "Outrun",
        }
    }
}

impl fmt::Display for Refusal {
    fn fmt<W: fmt::Write>(&self, f: &mut fmt::Formatter<W>) -> fmt::Result {
        f.write_str(self.name())?;
        match self {
            Refusal::Busy(number) => write!(f, " {number}"),
            Refusal::Damaged(position) => write!(f, " {position}"),
            _ => Ok(()),
        }
    }
}

// An error has a debug text: the same.
impl fmt::Debug for Refusal {
    fn fmt<W: fmt::Write>(&self, f: &mut fmt::Formatter<W>) -> fmt::Result {
        fmt::Display::fmt(self, f)
    }
}

impl From<AllocError> for Refusal {
    ghost use Rattle.std.specs.Prelude.{◌≡◌};
    ghost use Rattle.calls.specs.declared.refusal.Refusal.{Refusal};

    ghost from_gives = { λ _ refusal. refusal ≡ Refusal.NoMemory };

    fn from(_error: AllocError) -> Refusal {
        Refusal::NoMemory
    }
}

impl<T: Drop> From<AllocFailed<T>> for Refusal {
    ghost use Rattle.std.specs.Prelude.{◌≡◌};
    ghost use Rattle.calls.specs.declared.refusal.Refusal.{Refusal};

    ghost from_gives = { λ _ refusal. refusal ≡ Refusal.NoMemory };

    fn from(_error: AllocFailed<T>) -> Refusal {
        Refusal::NoMemory
    }
}
