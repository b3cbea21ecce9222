//! The mode of an index entry.

ghost use Rattle.std.specs.Prelude.{◌≡◌};
ghost use Rattle.status_index.specs.Mode.{new_mode, mode_change, mode_bits, mode_from_bits, is_submodule, entry_kind_of};

use crate::stat::{Metadata, NodeKind};

/// The mode of an index entry: one of git's five modes, in the order of their bits.
#[derive(Clone, Copy, Debug, PartialEq, Eq, PartialOrd, Ord)]
pub enum Mode {
    /// A directory of a sparse index, 040000.
    Dir,
    /// A file, 100644.
    File,
    /// An executable file, 100755.
    FileExecutable,
    /// A symbolic link, 120000.
    Symlink,
    /// A commit of a submodule, 160000.
    Commit,
}

/// The kind of an entry in a tree object.
#[derive(Clone, Copy, Debug, PartialEq, Eq, PartialOrd, Ord, Hash)]
pub enum EntryKind {
    /// A directory.
    Tree,
    /// A file.
    Blob,
    /// An executable file.
    BlobExecutable,
    /// A symbolic link.
    Link,
    /// A commit of a submodule.
    Commit,
}

/// The change of an entry's mode that makes it a node's mode.
#[derive(Clone, Copy, Debug, PartialEq, Eq)]
pub enum Change {
    /// The node is of another type.
    TypeChange {
        /// The node's mode.
        new_mode: Mode,
    },
    /// Node and entry are both files, and only their executability differs.
    ExecutableBit,
}

/// Returns the mode of an entry for this node. `executable_bit` is whether executability counts (git's
/// `core.fileMode`).
pub fn mode_of_node(node: &Metadata, executable_bit: bool) -> Mode
    ensures { result ≡ new_mode executable_bit node.now.kind node.now.executable }
{
    match node.kind {
        NodeKind::Directory => Mode::Commit,
        NodeKind::Link => Mode::Symlink,
        NodeKind::File if node.executable && executable_bit => Mode::FileExecutable,
        NodeKind::File | NodeKind::Other => Mode::File,
    }
}

impl Mode {
    /// Returns the mode's bits, as in git's index format.
    pub fn bits(self) -> u32
        ensures { result ≡ mode_bits self }
    {
        match self {
            Mode::Dir => 0o040000,
            Mode::File => 0o100644,
            Mode::FileExecutable => 0o100755,
            Mode::Symlink => 0o120000,
            Mode::Commit => 0o160000,
        }
    }

    /// Returns the mode that has these bits, or None if none of the five modes has them.
    pub fn from_bits(bits: u32) -> Option<Mode>
        ensures { result ≡ mode_from_bits bits }
    {
        match bits {
            0o040000 => Some(Mode::Dir),
            0o100644 => Some(Mode::File),
            0o100755 => Some(Mode::FileExecutable),
            0o120000 => Some(Mode::Symlink),
            0o160000 => Some(Mode::Commit),
            _ => None,
        }
    }

    /// Returns whether the entry is a submodule's commit.
    pub fn is_submodule(self) -> bool
        ensures { result ≡ is_submodule self }
    {
        self == Mode::Commit
    }

    /// Returns the kind of the entry in a tree object. It is never None, since each of the five modes has a kind.
    pub fn to_tree_entry_mode(&self) -> Option<EntryKind>
        ensures { result ≡ entry_kind_of self.now }
    {
        Some(match *self {
            Mode::Dir => EntryKind::Tree,
            Mode::File => EntryKind::Blob,
            Mode::FileExecutable => EntryKind::BlobExecutable,
            Mode::Symlink => EntryKind::Link,
            Mode::Commit => EntryKind::Commit,
        })
    }

    /// Returns the change that makes this the mode of `node`, or None if the mode fits. `symlink` is whether the file
    /// system has symbolic links (git's `core.symlinks`). `executable_bit` is whether executability counts
    /// (`core.fileMode`).
    pub fn change_to_match_fs(
        self,
        node: &Metadata,
        symlink: bool,
        executable_bit: bool,
    ) -> Option<Change>
        ensures { result ≡ mode_change symlink executable_bit self node.now }
    {
        match (self, node.kind) {
            (Mode::File, NodeKind::File) if executable_bit && node.executable => {
                Some(Change::ExecutableBit)
            }
            (Mode::FileExecutable, NodeKind::File) if executable_bit && !node.executable => {
                Some(Change::ExecutableBit)
            }
            (Mode::File | Mode::FileExecutable, NodeKind::File)
            | (Mode::Symlink, NodeKind::Link)
            | (Mode::Commit | Mode::Dir, NodeKind::Directory) => None,
            (Mode::Symlink, NodeKind::File) if !symlink => None,
            _ => Some(Change::TypeChange {
                new_mode: mode_of_node(node, executable_bit),
            }),
        }
    }
}
