// Why a run did not come to its end.
use calls::Refusal;
use std::alloc::{AllocError, AllocFailed};
use std::{fmt, io};

/// Why a run did not come to its end.
#[derive(Clone, Copy, Debug)]
pub enum Trouble {
    /// The store refused.
    Refused(Refusal),
    /// The system did: a file, the clock or the output.
    System(io::ErrorKind),
    /// The command line is not understood.
    Usage,
}

impl fmt::Display for Trouble {
    fn fmt<W: fmt::Write>(&self, f: &mut fmt::Formatter<W>) -> fmt::Result {
        match self {
            Trouble::Refused(refusal) => write!(f, "refused {refusal}"),
            Trouble::System(kind) => write!(f, "{kind}"),
            Trouble::Usage => write!(f, "VARIANT WORKLOAD CLIENTS COUNT SECONDS DIR"),
        }
    }
}

impl From<Refusal> for Trouble {
    fn from(refusal: Refusal) -> Trouble {
        Trouble::Refused(refusal)
    }
}

impl From<io::Error> for Trouble {
    fn from(error: io::Error) -> Trouble {
        Trouble::System(error.kind())
    }
}

impl From<AllocError> for Trouble {
    fn from(_error: AllocError) -> Trouble {
        Trouble::Refused(Refusal::NoMemory)
    }
}

impl<T: Drop> From<AllocFailed<T>> for Trouble {
    fn from(_error: AllocFailed<T>) -> Trouble {
        Trouble::Refused(Refusal::NoMemory)
    }
}
