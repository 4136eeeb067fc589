// Why serving ended before its time.
use std::alloc::AllocError;
use std::{fmt, io};

/// Why serving ended before it was told to.
#[derive(Clone, Copy)]
pub enum Trouble {
    /// The door, the input or the output could not be used, or memory was wanting.
    Unusable(io::Error),
    /// Another run has the door.
    InUse,
    /// So many threads are wanted, and no more than so many came.
    Threads { wanted: usize, came: usize },
}

impl fmt::Display for Trouble {
    fn fmt<W: fmt::Write>(&self, f: &mut fmt::Formatter<W>) -> fmt::Result {
        match self {
            Trouble::Unusable(error) => write!(f, "{error}"),
            Trouble::InUse => f.write_str("another run has it"),
            Trouble::Threads { wanted, came } => {
                write!(f, "{wanted} threads are wanted, and {came} came")
            }
        }
    }
}

impl From<io::Error> for Trouble {
    fn from(error: io::Error) -> Self {
        Trouble::Unusable(error)
    }
}

impl From<AllocError> for Trouble {
    fn from(error: AllocError) -> Self {
        Trouble::Unusable(io::Error::from(error))
    }
}
