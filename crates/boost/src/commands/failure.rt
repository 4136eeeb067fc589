// Why a command was not done.
ghost use Rattle.std.specs.Prelude.{◌≡◌};

use calls::Refusal;
use script::ScriptError;
use std::alloc::AllocError;
use std::{fmt, io};
use talks::Response;

/// Why a command was not done. Each line of its text begins with the program's name; that of
/// `Unwritten` is empty.
#[derive(Clone, Copy)]
pub enum Failure<'a> {
    /// The store refused, and no line of a script answers for it.
    Refused(Refusal),
    /// The number of the first line of the script that is not understood.
    NotUnderstood(u64),
    /// The path of a file that cannot be opened, made or read, and what the system says of it. Its
    /// text has a line for each of the two.
    CannotOpen(&'a str, io::Error),
    /// The path of a file that another run has.
    InUse(&'a str),
    /// Output could not be written.
    Unwritten,
    /// The path of a file that is not formatted, as it holds bytes.
    HoldsBytes(&'a str),
    /// What an argument has to be that the command line gives otherwise. Its text has a line for
    /// that behind the one of a BadArg.
    BadArgument(&'static str),
}

impl Failure<'_> {
    ghost use Rattle.boost.specs.Commands.{status_of};

    /// The status with which the program ends: 1 for `Refused`, `HoldsBytes` and `BadArgument`, 3
    /// for `NotUnderstood`, 4 for the others.
    pub fn status(&self) -> u8
        ensures { result ≡ status_of self.now }
    {
        match self {
            Failure::Refused(_) | Failure::HoldsBytes(_) | Failure::BadArgument(_) => 1,
            Failure::NotUnderstood(_) => 3,
            Failure::CannotOpen(..) | Failure::InUse(_) | Failure::Unwritten => 4,
        }
    }
}

impl fmt::Display for Failure<'_> {
    fn fmt<W: fmt::Write>(&self, f: &mut fmt::Formatter<W>) -> fmt::Result {
        match self {
            Failure::Refused(refusal) => write!(f, "boost: {}", Response::Refused(*refusal)),
            Failure::NotUnderstood(line) => write!(f, "boost: line {line}: not understood"),
            Failure::CannotOpen(path, error) => {
                write!(f, "boost: cannot open {path}\nboost: {error}")
            }
            Failure::InUse(path) => {
                write!(
                    f,
                    "boost: cannot open {path}\nboost: another run has the file"
                )
            }
            Failure::Unwritten => Ok(()),
            Failure::HoldsBytes(path) => {
                write!(f, "boost: {path} holds bytes: --force empties it")
            }
            Failure::BadArgument(why) => {
                write!(
                    f,
                    "boost: {}\nboost: {why}",
                    Response::Refused(Refusal::BadArg)
                )
            }
        }
    }
}

impl From<Refusal> for Failure<'_> {
    ghost use Rattle.boost.specs.declared.commands.failure.Failure.{Failure};

    ghost from_gives = { λ refusal failure. failure ≡ Failure.Refused refusal };

    fn from(refusal: Refusal) -> Self {
        Failure::Refused(refusal)
    }
}

impl From<AllocError> for Failure<'_> {
    ghost use Rattle.boost.specs.declared.commands.failure.Failure.{Failure};
    ghost use Rattle.calls.specs.declared.refusal.Refusal.{Refusal};

    ghost from_gives = { λ _ failure. failure ≡ Failure.Refused Refusal.NoMemory };

    fn from(_error: AllocError) -> Self {
        Failure::Refused(Refusal::NoMemory)
    }
}

impl From<ScriptError> for Failure<'_> {
    ghost use Rattle.boost.specs.Failures.{failure_of};

    ghost from_gives = { λ error failure. failure ≡ failure_of error };

    fn from(error: ScriptError) -> Self {
        match error {
            ScriptError::NotUnderstood(line) => Failure::NotUnderstood(line),
            ScriptError::NoMemory => Failure::Refused(Refusal::NoMemory),
        }
    }
}

impl From<io::Error> for Failure<'_> {
    ghost use Rattle.boost.specs.declared.commands.failure.Failure.{Failure};

    ghost from_gives = { λ _ failure. failure ≡ Failure.Unwritten };

    fn from(_error: io::Error) -> Self {
        Failure::Unwritten
    }
}
