//! Why an index file isn't read.

ghost use Rattle.std.specs.Prelude.{◌≡◌};
ghost use Rattle.git_index.specs.Refusals.{of_index};
ghost use Rattle.git_index.specs.declared.fault.IndexFileError.TheVariants.{Memory};

use bstr::BStr;
use status_index::IndexError;
use std::alloc::AllocError;
use thiserror::Error;

/// Why bytes don't begin with a header, an entry or an extension: the first fault from the left.
#[derive(Clone, Copy, Debug, PartialEq, Eq, Error)]
pub enum Fault {
    /// The bytes end too early.
    #[error("the file is cut off")]
    Truncated,
    /// The file doesn't begin with `DIRC`.
    #[error("no signature of an index file")]
    BadSignature,
    /// The version isn't 2, 3 or 4.
    #[error("unknown version")]
    UnknownVersion,
    /// The mode is none of git's five.
    #[error("unknown mode")]
    BadMode,
    /// The flags have a bit that is no flag in this version, or a second word without a flag.
    #[error("unknown flags")]
    BadFlags,
    /// A byte between the path and the next entry isn't zero.
    #[error("padding that isn't zero")]
    BadPadding,
    /// The number of bytes to strip from the path before takes more than four bytes.
    #[error("a strip length of more than four bytes")]
    LongStrip,
    /// An extension that has to be known. Callers see it as `IndexFileError::Required`.
    #[error("unknown extension")]
    Required,
}

/// Why bytes aren't an index file. `at` is an entry's position, counted from 0.
#[derive(Clone, Copy, Debug, PartialEq, Eq, Error)]
pub enum IndexFileError {
    /// The file doesn't begin with the header of an index file.
    #[error("bad header: {0}")]
    Header(Fault),
    /// The checksum is neither that of the bytes before it nor zero.
    #[error("bad checksum")]
    Checksum,
    /// The bytes of the entry at a position are wrong.
    #[error("bad entry {at}: {fault}")]
    Entry {
        /// The entry's position.
        at: u32,
        /// Why they are wrong.
        fault: Fault,
    },
    /// An extension is cut off.
    #[error("the extension at byte {at} is cut off")]
    Extension {
        /// The offset in the file at which the extension begins.
        at: usize,
    },
    /// An extension that has to be known isn't, such as `link` of a split index.
    #[error("the required extension {} isn't known", BStr::new(name))]
    Required {
        /// The extension's name.
        name: [u8; 4],
    },
    /// An entry (version 4) strips more bytes of the path before it than that has.
    #[error("bad entry {at}: it strips more bytes than the path before it has")]
    Strip {
        /// The entry's position.
        at: u32,
    },
    /// The entry's flags state another length than its path has.
    #[error("bad entry {at}: its flags state another length than its path has")]
    NameLength {
        /// The entry's position.
        at: u32,
    },
    /// The entries aren't a valid index.
    #[error("{0}")]
    Index(IndexError),
    /// An allocation failed.
    #[error("Out of memory")]
    Memory,
}

impl IndexFileError {
    /// Returns the error of bytes whose entries aren't an index for this reason.
    pub fn of_index(error: IndexError) -> IndexFileError
        ensures { result ≡ of_index error }
    {
        match error {
            IndexError::Memory => IndexFileError::Memory,
            _ => IndexFileError::Index(error),
        }
    }
}

impl From<AllocError> for IndexFileError {
    ghost from_gives = { λ _ f. f ≡ Memory };

    fn from(_error: AllocError) -> IndexFileError {
        IndexFileError::Memory
    }
}
