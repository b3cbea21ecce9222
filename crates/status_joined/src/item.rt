//! The items of a status's list, before they are reported to a collector, and the ids of the nodes among them.

ghost use Rattle.std.specs.Prelude.{◌≡◌, IfOk, IsTrue};
ghost use Rattle.status_joined.specs.Changes.{changed_of, disk_entry_kind, mode_kind};
ghost use Rattle.status_joined.specs.Copies.{IsCopy};
ghost use Rattle.status_joined.specs.Items.{is_removal, is_removed, is_walked, path_of};
ghost use Rattle.status_joined.specs.ListItems.{item_of};
ghost use Rattle.status_walk.specs.WalkedNodes.{walked_of};
ghost use Rattle.status_walk.specs.WorktreeIds.{IsId};
ghost use Rattle.status_joined.specs.NodeIds.{Identifying, identifying};

use bstr::BStr;
use status_base::worktree::{ToGit, Worktree};
use status_call::index_as_worktree::{Change, EntryStatus, Record};
use status_index::{EntryKind, HashKind, Mode, ObjectId};
use status_rewrites::{ChangeKind, Item};
use status_walk::{DirEntry, IdError, Kind, Status, worktree_id};
use std::alloc::AllocError;

/// A record of the status, or a node that was kept of the walk.
#[derive(Clone, Debug, Drop)]
pub enum ModificationOrDirwalkEntry<'index, T, U> {
    /// A record of the status.
    Modification(Record<'index, T, U>),
    /// A node that was kept of the walk.
    DirwalkEntry {
        /// The node.
        entry: DirEntry,
        /// The id of its content. Null if none was computed.
        id: ObjectId,
        /// The status of the collapsed directory that contains the node, if there is one. Such a directory represents
        /// all nodes in it.
        collapsed_directory_status: Option<Status>,
    },
}

/// Returns the type of an entry with this mode.
fn mode_kind(mode: Mode) -> EntryKind
    ensures { result ≡ mode_kind mode }
{
    mode.to_tree_entry_mode().unwrap_or(EntryKind::Blob)
}

/// Returns the type of a node. If it isn't known, the node is taken for a file. An untrackable node is taken for a
/// directory, which trackers ignore.
fn disk_entry_kind(disk_kind: Option<Kind>) -> EntryKind
    ensures { result ≡ disk_entry_kind disk_kind }
{
    match disk_kind {
        Some(Kind::File) | None => EntryKind::Blob,
        Some(Kind::Symlink) => EntryKind::Link,
        Some(Kind::Directory | Kind::Repository | Kind::Untrackable) => EntryKind::Tree,
    }
}

/// Returns whether the entry's status is `Removed`.
fn is_removal<T, U>(status: &EntryStatus<T, U>) -> bool
    ensures { result ≡ is_removal status.now }
{
    matches!(status, EntryStatus::Change(Change::Removed))
}

impl<T, U> ModificationOrDirwalkEntry<'_, T, U> {
    /// Returns its path, from the worktree's root.
    pub fn path(&self) -> &[u8]
        ensures { result.now ≡ path_of (item_of self.now) }
    {
        match self {
            ModificationOrDirwalkEntry::Modification(record) => record.relative_path.as_bytes(),
            ModificationOrDirwalkEntry::DirwalkEntry { entry, .. } => entry.rela_path.as_bytes(),
        }
    }
}

impl<T, U> status_rewrites::Change for ModificationOrDirwalkEntry<'_, T, U> {
    ghost changed = { λ i. changed_of (item_of i) };

    fn id(&self) -> ObjectId {
        match self {
            ModificationOrDirwalkEntry::Modification(record) => record.entry.id,
            ModificationOrDirwalkEntry::DirwalkEntry { id, .. } => *id,
        }
    }

    fn kind(&self) -> ChangeKind {
        match self {
            ModificationOrDirwalkEntry::Modification(record) if is_removal(&record.status) => {
                ChangeKind::Deletion
            }
            ModificationOrDirwalkEntry::Modification(_) => ChangeKind::Modification,
            ModificationOrDirwalkEntry::DirwalkEntry { .. } => ChangeKind::Addition,
        }
    }

    fn entry_mode(&self) -> EntryKind {
        match self {
            ModificationOrDirwalkEntry::Modification(record) => mode_kind(record.entry.mode),
            ModificationOrDirwalkEntry::DirwalkEntry { entry, .. } => {
                disk_entry_kind(entry.disk_kind)
            }
        }
    }

    fn id_and_entry_mode(&self) -> (ObjectId, EntryKind) {
        (self.id(), self.entry_mode())
    }

    fn location(&self) -> BStr<'_> {
        BStr::new(self.path())
    }
}

impl<T: Clone, U: Clone> Item for ModificationOrDirwalkEntry<'_, T, U> {
    ghost use Rattle.std.proofs.Common.{rules};

    ghost is_removed = { λ i. is_removed (item_of i) };

    ghost is_walked = { λ i. is_walked (item_of i) };

    ghost is_copy = { λ x y. IsCopy T.is_clone U.is_clone (item_of x) (item_of y) };

    fn is_removed(&self) -> bool {
        match self {
            ModificationOrDirwalkEntry::Modification(record) => is_removal(&record.status),
            ModificationOrDirwalkEntry::DirwalkEntry { .. } => false,
        }
    }

    fn is_walked(&self) -> bool {
        matches!(self, ModificationOrDirwalkEntry::DirwalkEntry { .. })
    }

    fn another(&self) -> Result<Self, AllocError> {
        self.clone()
    }

    ghost apart = { Prim.search rules };
}

/// Computes the ids of nodes.
pub trait Identify {
    /// The specification of the ids.
    ghost identifying: { Self → Identifying };

    /// Returns the id of a node's content. `buffer` is overwritten.
    ///
    /// # Errors
    /// The node's fault, which may be that memory ran out.
    fn id_of(&self, entry: &DirEntry, buffer: &mut Vec<u8>) -> Result<ObjectId, IdError>
        ensures { (collapsed : _) → IsTrue (identifying self.now).modelled
            → IsId ((identifying self.now).ids (walked_of entry.now collapsed)) result };
}

/// Computes the ids of a worktree's nodes, from their content after a filter.
#[derive(Drop)]
pub struct Identifier<'w, W, F> {
    /// The kind of the ids.
    pub kind: HashKind,
    /// The worktree.
    pub worktree: &'w W,
    /// Converts a file to the bytes that git would store.
    pub filter: F,
}

impl<'w, W: Worktree, F: ToGit> Identify for Identifier<'w, W, F> {
    ghost identifying = { λ i. identifying W.modelled W.lstat_of W.open_of W.target_of F.conversion i.kind i.worktree.now i.filter };

    fn id_of(&self, entry: &DirEntry, buffer: &mut Vec<u8>) -> Result<ObjectId, IdError> {
        let path = entry.rela_path.as_bstr();
        worktree_id(
            self.kind,
            self.worktree,
            &self.filter,
            path,
            entry.disk_kind,
            buffer,
        )
    }
}

/// Makes the identifier of a worktree's nodes, with its own clone of the filter.
///
/// # Errors
/// If an allocation fails.
pub(crate) fn identifier_of<'w, W: Worktree, F: ToGit>(
    kind: HashKind,
    worktree: &'w W,
    filter: &F,
) -> Result<Identifier<'w, W, F>, AllocError>
    ensures { IfOk result (λ i. ⟦<Identifier<'w, W, F> as Identify>⟧.identifying i
        ≡ identifying W.modelled W.lstat_of W.open_of W.target_of F.conversion kind worktree.now filter.now) }
{
    Ok(Identifier {
        kind,
        worktree,
        filter: filter.clone()?,
    })
}
