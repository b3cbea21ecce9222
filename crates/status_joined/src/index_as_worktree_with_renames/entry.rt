//! The entries that a collector gets, and what happened to their paths.

ghost use Rattle.std.specs.Prelude.{◌≡◌};
ghost use Rattle.bstr.specs.BStr.{bstr_bytes};
ghost use Rattle.status_joined.specs.Items.{path_of};
ghost use Rattle.status_joined.specs.Summaries.{summary_of, status_summary, source_path, destination_path};
ghost use Rattle.status_joined.specs.Entries.{reported_entry, reported_source};

use bstr::BStr;
use status_call::index_as_worktree::{Change, EntryStatus};
use status_index::ObjectId;
use status_walk::{DirEntry, Status};

/// A difference between the index and the worktree, as a collector gets it.
#[derive(Clone, Debug, Drop)]
pub enum Entry<'index, T, U> {
    /// The status of a path of the index.
    Modification {
        /// The entries of the whole index.
        entries: &'index [status_index::Entry],
        /// The path's entry.
        entry: &'index status_index::Entry,
        /// The entry's position in `entries`.
        entry_index: usize,
        /// The path, from the worktree's root.
        rela_path: BStr<'index>,
        /// How the worktree differs from the entry.
        status: EntryStatus<T, U>,
    },
    /// A node that the walk found, and that isn't the destination of a rename or a copy.
    DirectoryContents {
        /// The node.
        entry: DirEntry,
        /// The status of the collapsed directory that contains the node, if there is one. Such a directory represents
        /// all nodes in it.
        collapsed_directory_status: Option<Status>,
    },
    /// A rename or a copy. Its destination is a node that the walk found.
    Rewrite {
        /// The item that was renamed or copied.
        source: RewriteSource<'index, T, U>,
        /// The destination.
        dirwalk_entry: DirEntry,
        /// The status of the collapsed directory that contains the destination, if there is one. Such a directory
        /// represents all nodes in it.
        dirwalk_entry_collapsed_directory_status: Option<Status>,
        /// The id of the destination's content.
        dirwalk_entry_id: ObjectId,
        /// Whether it is a copy: the source is still there.
        copy: bool,
    },
}

/// The source of a rename or a copy.
#[derive(Clone, Debug, Drop)]
pub enum RewriteSource<'index, T, U> {
    /// An entry of the index. If it was renamed, the worktree no longer has a file at its path.
    RewriteFromIndex {
        /// The entries of the whole index.
        index_entries: &'index [status_index::Entry],
        /// The entry. Its id is that of the content in the index.
        source_entry: &'index status_index::Entry,
        /// The entry's position in `index_entries`.
        source_entry_index: usize,
        /// The entry's path, from the worktree's root.
        source_rela_path: BStr<'index>,
        /// How the worktree differs from the entry.
        source_status: EntryStatus<T, U>,
    },
    /// A node that the walk found. It is the source of copies only, since it is still there.
    CopyFromDirectoryEntry {
        /// The node.
        source_dirwalk_entry: DirEntry,
        /// The status of the collapsed directory that contains the node, if there is one. Such a directory represents
        /// all nodes in it.
        source_dirwalk_entry_collapsed_directory_status: Option<Status>,
        /// The id of the node's content.
        source_dirwalk_entry_id: ObjectId,
    },
}

/// What happened to a path of the worktree since it was put into the index.
#[derive(Clone, Copy, Debug, PartialEq, Eq, PartialOrd, Ord, Hash)]
pub enum Summary {
    /// The index has it, and the worktree has no file there.
    Removed,
    /// The worktree has it, and the index doesn't: an untracked node.
    Added,
    /// Its content changed, or whether it is executable. For a submodule: anything that it reports as a change.
    Modified,
    /// A node of another type is there, for example a link in place of a file.
    TypeChange,
    /// A file or link that the index has under another path, where it no longer is. Reported if renames are tracked.
    Renamed,
    /// A file or link with the content of another path, where it still is. Reported if a tracker finds copies.
    Copied,
    /// The index has only its path, with the mark that it is intended to be added (`git add -N`), and the worktree has
    /// it. It wasn't compared.
    IntentToAdd,
    /// The index has it at a stage of a merge. It wasn't looked up in the worktree.
    Conflict,
}

impl<'index, T, U> RewriteSource<'index, T, U> {
    /// Returns the source's path, from the worktree's root.
    pub fn rela_path(&self) -> BStr<'_>
        ensures { bstr_bytes result ≡ path_of (reported_source self.now) }
    {
        match self {
            RewriteSource::RewriteFromIndex {
                source_rela_path,
                ..
            } => *source_rela_path,
            RewriteSource::CopyFromDirectoryEntry {
                source_dirwalk_entry,
                ..
            } => source_dirwalk_entry.rela_path.as_bstr(),
        }
    }
}

impl<'index, T, U> Entry<'index, T, U> {
    /// Returns what happened to the path, in a word. None for a node that isn't untracked, and for an entry that only
    /// needs a new stat.
    pub fn summary(&self) -> Option<Summary>
        ensures { result ≡ summary_of (reported_entry self.now) }
    {
        match self {
            Entry::Modification { status, .. } => status_summary(status),
            Entry::DirectoryContents { entry, .. } => match entry.status {
                Status::Untracked => Some(Summary::Added),
                Status::Ignored | Status::Tracked | Status::Pruned => None,
            },
            Entry::Rewrite { copy: true, .. } => Some(Summary::Copied),
            Entry::Rewrite { copy: false, .. } => Some(Summary::Renamed),
        }
    }

    /// Returns the path of a rename's or copy's source. For any other entry, its own path.
    pub fn source_rela_path(&self) -> BStr<'_>
        ensures { bstr_bytes result ≡ source_path (reported_entry self.now) }
    {
        match self {
            Entry::Modification { rela_path, .. } => *rela_path,
            Entry::DirectoryContents { entry, .. } => entry.rela_path.as_bstr(),
            Entry::Rewrite { source, .. } => source.rela_path(),
        }
    }

    /// Returns the path of a rename's or copy's destination. For any other entry, its own path.
    pub fn destination_rela_path(&self) -> BStr<'_>
        ensures { bstr_bytes result ≡ destination_path (reported_entry self.now) }
    {
        match self {
            Entry::Modification { rela_path, .. } => *rela_path,
            Entry::DirectoryContents { entry, .. } => entry.rela_path.as_bstr(),
            Entry::Rewrite { dirwalk_entry, .. } => dirwalk_entry.rela_path.as_bstr(),
        }
    }
}

/// Returns what happened to a path of the index. None if only the entry's stat needs an update.
fn status_summary<T, U>(status: &EntryStatus<T, U>) -> Option<Summary>
    ensures { result ≡ status_summary status.now }
{
    match status {
        EntryStatus::Conflict { .. } => Some(Summary::Conflict),
        EntryStatus::Change(Change::Removed) => Some(Summary::Removed),
        EntryStatus::Change(Change::TypeChange { .. }) => Some(Summary::TypeChange),
        EntryStatus::Change(Change::Modification { .. } | Change::SubmoduleModification(_)) => {
            Some(Summary::Modified)
        }
        EntryStatus::NeedsUpdate(_) => None,
        EntryStatus::IntentToAdd => Some(Summary::IntentToAdd),
    }
}
