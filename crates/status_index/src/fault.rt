//! The faults of a worktree.

use std::alloc::{AllocError, AllocFailed};
use std::error::Error;
use std::fmt;

/// Why a call of a worktree fails. The names are those of `std::io::ErrorKind`, if it has the same kind.
#[derive(Clone, Copy, Debug, PartialEq, Eq)]
pub enum Fault {
    /// Nothing is there.
    NotFound,
    /// A component above the path isn't a directory.
    NotADirectory,
    /// The system refuses access.
    PermissionDenied,
    /// The call was interrupted. It isn't retried.
    Interrupted,
    /// A path isn't UTF-8, and the system's paths have to be.
    IllformedUtf8,
    /// A file ended before its stated length.
    UnexpectedEnd,
    /// A path has a component that is empty, `.` or `..`.
    NotNormal,
    /// An allocation failed.
    Memory,
    /// Another fault, with a number that the worktree defines.
    Other(u32),
}

impl fmt::Display for Fault {
    fn fmt<W: fmt::Write>(&self, f: &mut fmt::Formatter<W>) -> fmt::Result {
        match self {
            Fault::NotFound => write!(f, "not found"),
            Fault::NotADirectory => write!(f, "not a directory"),
            Fault::PermissionDenied => write!(f, "permission denied"),
            Fault::Interrupted => write!(f, "interrupted"),
            Fault::IllformedUtf8 => write!(f, "ill-formed UTF-8"),
            Fault::UnexpectedEnd => write!(f, "unexpected end"),
            Fault::NotNormal => write!(f, "not normal"),
            Fault::Memory => write!(f, "Out of memory"),
            Fault::Other(number) => write!(f, "other {number}"),
        }
    }
}

impl Error for Fault {}

impl From<AllocError> for Fault {
    ghost use Rattle.std.specs.Prelude.{◌≡◌};
    ghost use Rattle.status_index.specs.declared.fault.Fault.TheVariants.{Memory};

    ghost from_gives = { λ _ f. f ≡ Memory };

    fn from(_error: AllocError) -> Fault {
        Fault::Memory
    }
}

impl<T: Drop> From<AllocFailed<T>> for Fault {
    ghost use Rattle.std.specs.Prelude.{◌≡◌};
    ghost use Rattle.status_index.specs.declared.fault.Fault.TheVariants.{Memory};

    ghost from_gives = { λ _ f. f ≡ Memory };

    fn from(_refused: AllocFailed<T>) -> Fault {
        Fault::Memory
    }
}
