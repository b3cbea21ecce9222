//! An index file in memory: its entries, and its other parts.

use crate::write::write_index;
use status_index::{HashKind, State};
use std::alloc::{AllocError, Global};

/// An index file: the index of its entries, its version, and its other parts.
#[derive(Drop)]
pub struct IndexFile<'a> {
    /// The kind of all ids, and of the checksum.
    pub kind: HashKind,
    /// The version of the format: 2, 3 or 4.
    pub version: u32,
    /// The entries, and when the file was written.
    pub state: State,
    /// The bytes of all extensions, unchanged. Some describe the entries: `TREE` has ids of trees, `FSMN`
    /// positions, `EOIE` and `IEOT` offsets.
    pub extensions: &'a [u8],
    /// Whether the file ends with a checksum, and not with zeros (git's `index.skipHash`).
    pub has_checksum: bool,
}

impl IndexFile<'_> {
    ghost use Rattle.std.specs.Prelude.{◌≡◌, IfOk};
    ghost use Rattle.status_index.specs.States.{index_of};
    ghost use Rattle.git_index.specs.File.{IsFileOf};
    ghost use Rattle.git_index.specs.WholeFile.{IsWholeFile};
    ghost use Rattle.git_index.specs.Writing.{file_bytes};

    /// Returns the bytes of the file: the same version and extensions, with the entries as they are now. The extensions
    /// aren't adapted to changed entries: set `extensions` to none first, unless only stats changed.
    ///
    /// # Errors
    /// Out of memory.
    pub fn to_bytes(&self, alloc: Global) -> Result<Vec<u8>, AllocError>
        requires { IsWholeFile self.now }
        ensures bytes { IfOk result (λ v. v.items ≡ file_bytes self.now.kind self.now.version (index_of self.now.state) self.now.extensions.now self.now.has_checksum) }
        ensures file { IfOk result (λ v. IsFileOf self.now.kind v.items self.now.version (index_of self.now.state) self.now.extensions.now) }
    {
        write_index(
            alloc,
            self.kind,
            self.version,
            &self.state,
            self.extensions,
            self.has_checksum,
        )
    }
}
