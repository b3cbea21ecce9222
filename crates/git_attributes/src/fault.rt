//! Why attribute files aren't read.

ghost use Rattle.std.specs.Prelude.{◌≡◌};

use git_objects::ObjectFault;
use std::alloc::{AllocError, AllocFailed};

/// Why attribute files aren't read.
#[derive(Debug, Drop)]
pub enum AttributeFault {
    /// The object of a file that is only in the index can't be read.
    Object {
        /// The file's path.
        path: Vec<u8>,
        /// Why it isn't read.
        fault: ObjectFault,
    },
    /// An allocation failed.
    Memory,
}

impl From<AllocError> for AttributeFault {
    ghost use Rattle.git_attributes.specs.declared.fault.AttributeFault.TheVariants.{Memory};

    ghost from_gives = { λ _ f. f ≡ Memory };

    fn from(_error: AllocError) -> AttributeFault {
        AttributeFault::Memory
    }
}

impl<T: Drop> From<AllocFailed<T>> for AttributeFault {
    ghost use Rattle.git_attributes.specs.declared.fault.AttributeFault.TheVariants.{Memory};

    ghost from_gives = { λ _ f. f ≡ Memory };

    fn from(_failed: AllocFailed<T>) -> AttributeFault {
        AttributeFault::Memory
    }
}
