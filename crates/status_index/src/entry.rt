//! The entries of an index, their flags, and the storage of their paths.

ghost use Rattle.std.specs.Prelude.{◌≡◌};
ghost use Rattle.bstr.specs.BStr.{bstr_bytes};
ghost use Rattle.status_index.specs.FlagBits.{bits_of_stage, stage_of_bits};

use crate::id::ObjectId;
use crate::mode::Mode;
use crate::stat::Stat;
use bitflags::{Flag, bitflag_items};
use bstr::{BStr, BString};
use std::alloc::AllocError;
use std::ops::Range;

/// An entry of an index. Its path is in the index's [`PathStorage`].
#[derive(Clone, Debug, Drop)]
pub struct Entry {
    /// The part of the file's metadata that the index keeps.
    pub stat: Stat,
    /// The id of the content.
    pub id: ObjectId,
    /// The flags, which include the stage.
    pub flags: Flags,
    /// The kind of the entry: a file, a link, a submodule or a directory.
    pub mode: Mode,
    /// The range of the path's bytes in the storage.
    pub(crate) path: Range<usize>,
}

/// The paths of an index's entries, in one buffer.
#[derive(Drop)]
pub struct PathStorage {
    /// The bytes of all paths, in the order in which the paths were added.
    pub(crate) bytes: Vec<u8>,
}

/// An entry to be put into an index, with its own path.
#[derive(Debug, Drop)]
pub struct NewEntry {
    /// The path, with `/` between components.
    pub path: BString,
    /// The part of the file's metadata that the index keeps.
    pub stat: Stat,
    /// The id of the content.
    pub id: ObjectId,
    /// The flags, which include the stage.
    pub flags: Flags,
    /// The kind of the entry: a file, a link, a submodule or a directory.
    pub mode: Mode,
}

impl PathStorage {
    ghost use Rattle.std.specs.Prelude.{◌≡◌, ◌++◌, length, is_ok, if◌then◌else◌, IfOk};

    /// Appends a path, and returns its range in the storage.
    ///
    /// # Errors
    ///
    /// Returns an error if an allocation fails. The bytes are then unchanged.
    pub(crate) fn push(&mut self, path: &[u8]) -> Result<Range<usize>, AllocError>
        ensures bytes { self.new.bytes.items ≡ (if is_ok result then self.old.bytes.items ++ path.now else self.old.bytes.items) }
        ensures start { IfOk result (λ range. range.start ≡ length self.old.bytes.items) }
        ensures end { IfOk result (λ range. range.end ≡ length self.new.bytes.items) }
    {
        let start = self.bytes.len();
        self.bytes.extend_from_slice(path)?;
        Ok(start..self.bytes.len())
    }
}

impl Entry {
    ghost use Rattle.status_index.specs.Entries.{path_in};
    ghost use Rattle.status_index.specs.FlagBits.{stage_of_bits};
    ghost use Rattle.std.specs.Prelude.{◌≡◌};
    ghost use Rattle.bstr.specs.BStr.{bstr_bytes};

    /// Returns the stage: 0 for a plain entry, 1 to 3 for the sides of a conflict.
    pub fn stage_raw(&self) -> u32
        ensures { result ≡ stage_of_bits self.now.flags.0 }
    {
        self.flags.stage()
    }

    /// Returns the entry's path in `backing`, the storage of its own index. The path is empty if the storage has none
    /// for this entry.
    pub fn path_in<'a>(&self, backing: &'a PathStorage) -> BStr<'a>
        ensures { bstr_bytes result ≡ path_in backing.now self.now }
    {
        match backing.bytes.get(self.path.start..self.path.end) {
            Some(path) => BStr::new(path),
            None => BStr::new(b""),
        }
    }
}

/// The flags of an index entry, with its stage in two bits. The positions of the bits are this library's own.
#[derive(Clone, Copy, Debug, Default, PartialEq, Eq, PartialOrd, Ord)]
pub struct Flags(u32);

bitflag_items! {
    impl Flags: u32 {
        /// The file is known to match its entry.
        const UPTODATE = 0x1;
        /// The file isn't to be in the worktree (sparse checkout).
        const SKIP_WORKTREE = 0x2;
        /// A file system monitor states that the file is unchanged.
        const FSMONITOR_VALID = 0x4;
        /// Only the path was added so far (`git add --intent-to-add`).
        const INTENT_TO_ADD = 0x8;
        /// The user states that the file is unchanged.
        const ASSUME_VALID = 0x10;
        /// The two bits of the stage.
        const STAGE = 0x3000;
    }
}

impl bitflags::Flags for Flags {
    ghost use Rattle.std.specs.Prelude.{⊤, [], ◌∷◌, codes};

    type Bits = u32;

    ghost exact = { ⊤ };

    ghost table = { (codes "UPTODATE", 0x1) ∷ (codes "SKIP_WORKTREE", 0x2) ∷ (codes "FSMONITOR_VALID", 0x4) ∷ (codes "INTENT_TO_ADD", 0x8) ∷ (codes "ASSUME_VALID", 0x10) ∷ (codes "STAGE", 0x3000) ∷ [] };

    ghost set_of = { λ f. f.0 };

    fn flags<'a>() -> &'a [Flag<Flags>] {
        Flags::FLAGS
    }

    fn bits(&self) -> u32 {
        self.0
    }

    fn from_bits_retain(bits: u32) -> Flags {
        Flags(bits)
    }
}

impl Flags {
    /// Returns flags with only this stage: 0 for a plain entry, 1 to 3 for the sides of a conflict. Of a greater number
    /// only the two low bits count.
    pub fn from_stage(stage: u32) -> Flags
        ensures { result.0 ≡ bits_of_stage stage }
    {
        Flags((stage % 4) * 0x1000)
    }

    /// Returns the stage: 0 for a plain entry, 1 to 3 for the sides of a conflict.
    pub fn stage(self) -> u32
        ensures { result ≡ stage_of_bits self.0 }
    {
        self.0 / 0x1000 % 4
    }
}
