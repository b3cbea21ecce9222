//! Why an object isn't read.

ghost use Rattle.std.specs.Prelude.{◌≡◌};

use status_index::ObjectId;
use std::alloc::{AllocError, AllocFailed};
use std::{fmt, io};
use thiserror::Error;

/// Why an object isn't read, or its bytes aren't what they have to be.
#[derive(Clone, Copy, Debug, PartialEq, Eq, Error)]
pub enum ObjectFault {
    /// No object has this id.
    #[error("object {} isn't there", Digits(id))]
    Missing {
        /// The id that was asked for.
        id: ObjectId,
    },
    /// The object that is stored under an id has another id.
    #[error("object {} is damaged: its content has another id", Digits(id))]
    WrongId {
        /// The id that was asked for.
        id: ObjectId,
    },
    /// Data isn't what zlib writes.
    #[error("the compressed data is damaged")]
    BrokenData,
    /// Data of zlib ends too early.
    #[error("the compressed data is cut off")]
    CutOff,
    /// A loose object doesn't begin with its kind and length, or has another length.
    #[error("the object's header is damaged")]
    BrokenHeader,
    /// A pack isn't as git writes it.
    #[error("the pack is damaged")]
    BrokenPack,
    /// The index of a pack isn't of version 2, or is damaged.
    #[error("the index of the pack is damaged or of an unknown version")]
    BrokenPackIndex,
    /// A delta doesn't belong to its base.
    #[error("the delta is damaged")]
    BrokenDelta,
    /// An object of a pack is a chain of more than 4,096 deltas.
    #[error("the object is a chain of more than 4,096 deltas")]
    LongChain,
    /// An object, or what is read for it, has more bytes than are read.
    #[error("the object is too large")]
    TooLarge,
    /// A commit doesn't begin with its tree.
    #[error("the commit is damaged")]
    BrokenCommit,
    /// A tree's bytes aren't a list of modes, names and ids.
    #[error("the tree is damaged")]
    BrokenTree,
    /// There are more than 4,096 folders of other repositories' objects.
    #[error("there are too many alternates")]
    ManyAlternates,
    /// A folder of packs has too many names.
    #[error("there are too many packs")]
    ManyPacks,
    /// A path of an alternate isn't UTF-8.
    #[error("the path of an alternate isn't UTF-8")]
    IllformedPath,
    /// A named pipe, a device, a socket or a folder has the path of a file. It isn't opened.
    #[error("not a regular file")]
    NotRegular,
    /// Git reads other objects than those of the store.
    #[error("git reads other objects than those of the repository")]
    Elsewhere,
    /// The system's error.
    #[error("{0}")]
    System(io::ErrorKind),
    /// An allocation failed.
    #[error("Out of memory")]
    Memory,
}

impl ObjectFault {
    /// Returns the fault of an error of the system.
    pub(crate) fn of_system(kind: io::ErrorKind) -> ObjectFault {
        match kind {
            io::ErrorKind::OutOfMemory => ObjectFault::Memory,
            _ => ObjectFault::System(kind),
        }
    }
}

impl From<AllocError> for ObjectFault {
    ghost use Rattle.git_objects.specs.declared.fault.ObjectFault.TheVariants.{Memory};

    ghost from_gives = { λ _ f. f ≡ Memory };

    fn from(_error: AllocError) -> ObjectFault {
        ObjectFault::Memory
    }
}

impl<T: Drop> From<AllocFailed<T>> for ObjectFault {
    ghost use Rattle.git_objects.specs.declared.fault.ObjectFault.TheVariants.{Memory};

    ghost from_gives = { λ _ f. f ≡ Memory };

    fn from(_failed: AllocFailed<T>) -> ObjectFault {
        ObjectFault::Memory
    }
}

/// Prints an id in hexadecimal digits.
#[derive(Clone, Copy)]
struct Digits<'a>(&'a ObjectId);

impl fmt::Display for Digits<'_> {
    fn fmt<W: fmt::Write>(&self, f: &mut fmt::Formatter<W>) -> fmt::Result {
        for byte in self.0.as_bytes() {
            write!(f, "{byte:02x}")?;
        }
        Ok(())
    }
}
