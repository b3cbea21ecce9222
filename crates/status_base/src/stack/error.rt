//! Why a path is refused.

use bstr::BStr;
use status_index::Fault;
use std::alloc::AllocError;
use thiserror::Error;

/// Why a link check refuses a path. The component or prefix is borrowed from the path.
#[derive(Clone, Copy, Debug, Error)]
pub enum StackError<'p> {
    /// The path is empty.
    #[error("The path is empty")]
    EmptyPath,
    /// The leftmost component that is empty, `.` or `..`.
    #[error("The path has the component '{component}', where none may be empty, `.` or `..`")]
    NotNormal { component: BStr<'p> },
    /// The leftmost directory above the path that is a symbolic link.
    #[error("Cannot step through symlink to perform an lstat")]
    ThroughLink { prefix: BStr<'p> },
    /// The fault of the leftmost directory above the path that has one.
    #[error(transparent)]
    Fault(Fault),
    /// Out of memory.
    #[error("Out of memory")]
    Memory,
}

impl<'p> From<AllocError> for StackError<'p> {
    ghost use Rattle.std.specs.Prelude.{◌≡◌};
    ghost use Rattle.status_base.specs.declared.stack.error.StackError.TheVariants.{Memory};

    ghost from_gives = { λ _ e. e ≡ Memory };

    fn from(_error: AllocError) -> StackError<'p> {
        StackError::Memory
    }
}
