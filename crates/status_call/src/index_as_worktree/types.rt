//! The types that a status takes and returns.

ghost use Rattle.std.specs.Prelude.{◌≡◌, ◌+◌, ◌<◌, ◌^◌, []};
ghost use Rattle.status_index.specs.Entries.{entry_at};
ghost use Rattle.status_call.specs.Conflicts.{kept_of};

use crate::index_as_worktree::counts::{Progress, Totals};
pub use crate::index_as_worktree::recorder::VisitEntry;
pub use status_compare::Error;
use status_index::{Entry, Flags, Mode, ObjectId, Stat, stat};
use std::ops::Range;
use std::sync::atomic::AtomicBool;

/// How an entry has to change to match the worktree.
#[derive(Clone, Debug, Drop, PartialEq, Eq, PartialOrd, Ord)]
pub enum Change<T, U> {
    /// There is no file: nothing is there, a directory is, or the path leads through a symbolic link.
    Removed,
    /// The node is of another type, such as a link in place of a file.
    TypeChange {
        /// The mode of the node.
        worktree_mode: Mode,
    },
    /// The file was modified: its executability, its content, or both.
    Modification {
        /// Whether the executability changed.
        executable_bit_changed: bool,
        /// The comparer's report of a content change. `None` if only the executability changed.
        content_change: Option<T>,
        /// Whether the caller has to set the size of the entry's stat to 0. Otherwise the entry's stat would hide the
        /// change once the index has a later timestamp.
        set_entry_stat_size_zero: bool,
    },
    /// A submodule changed, as it reported.
    SubmoduleModification(U),
}

/// The part of an entry that a conflict keeps.
#[derive(Clone, Copy, Debug, PartialEq, Eq, PartialOrd, Ord)]
pub struct ConflictIndexEntry {
    /// The id of the content.
    pub id: ObjectId,
    /// The flags, the stage among them.
    pub flags: Flags,
    /// The mode.
    pub mode: Mode,
}

/// The status that is reported of an entry.
#[derive(Clone, Debug, Drop, PartialEq, Eq, PartialOrd, Ord)]
pub enum EntryStatus<T, U> {
    /// The entry's path has a conflict, reported once for all its stages.
    Conflict {
        /// Which stages there are.
        summary: Conflict,
        /// The entries of stage 1 (base), 2 (ours) and 3 (theirs).
        entries: [Option<ConflictIndexEntry>; 3],
    },
    /// The entry differs from the worktree.
    Change(Change<T, U>),
    /// The entry doesn't differ, but that took a comparison. With this stat in the index the next status needs none.
    NeedsUpdate(Stat),
    /// The entry is marked as intended to be added (git's `add --intent-to-add`), and the file is there.
    IntentToAdd,
}

/// The status that is reported of the entry at a position of the whole index.
#[derive(Debug, Drop)]
pub struct Finding<T, U> {
    /// The entry's position in the whole index.
    pub entry_index: usize,
    /// The entry's status.
    pub status: EntryStatus<T, U>,
}

/// Which sides of a merge have a path: the stages that the index has for it.
#[derive(Clone, Copy, Debug, PartialEq, Eq, PartialOrd, Ord)]
pub enum Conflict {
    /// Stage 1 alone: both sides deleted it.
    BothDeleted,
    /// Stage 2 alone: we added it.
    AddedByUs,
    /// Stages 1 and 2: they deleted it.
    DeletedByThem,
    /// Stage 3 alone: they added it.
    AddedByThem,
    /// Stages 1 and 3: we deleted it.
    DeletedByUs,
    /// Stages 2 and 3: both added it.
    BothAdded,
    /// All stages: both modified it.
    BothModified,
}

/// The properties of files that a file system keeps.
#[derive(Clone, Copy, Debug, PartialEq, Eq, Hash)]
pub struct Capabilities {
    /// Whether it keeps symbolic links (git's `core.symlinks`).
    pub symlink: bool,
    /// Whether it keeps the executability of files (git's `core.fileMode`).
    pub executable_bit: bool,
}

impl Default for Capabilities {
    ghost use Rattle.std.specs.Prelude.{◌≡◌};
    ghost use Rattle.status_call.specs.DefaultCapabilities.{default_capabilities};

    ghost is_default = { λ c. c ≡ default_capabilities };

    fn default() -> Capabilities {
        Capabilities {
            symlink: true,
            executable_bit: true,
        }
    }
}

/// How a status is computed. By default links and executability count, and no listing is used. Stats are compared by
/// the default `stat::Options`, and the number of workers and the size of pieces are the usual ones.
#[derive(Clone, Debug, Drop, PartialEq, Eq, Hash)]
pub struct Options {
    /// The properties of files that the file system keeps.
    pub fs: Capabilities,
    /// The greatest number of workers. It is 4 for `None` and 0, and never more than 64. One of them is the caller's
    /// thread; each other one takes a thread.
    pub thread_limit: Option<usize>,
    /// Which parts of stats have to be equal.
    pub stat: stat::Options,
    /// Whether listings of directories replace `lstat` for paths that they know. The directories above a path are still
    /// checked by `lstat`. A listed file isn't executable, so if executability counts, each one that the index has as
    /// executable is reported. Each worker lists a directory at most once a round.
    pub fscache: bool,
    /// The number of entries of a piece of work. 0 is the usual 500.
    pub chunk_size: usize,
}

impl Default for Options {
    ghost use Rattle.std.specs.Prelude.{◌≡◌};
    ghost use Rattle.status_call.specs.DefaultOptions.{default_options};

    ghost is_default = { λ o. o ≡ default_options };

    fn default() -> Options {
        Options {
            fs: Capabilities::default(),
            thread_limit: None,
            stat: stat::Options::default(),
            fscache: false,
            chunk_size: 0,
        }
    }
}

/// The pathspec, filter, lister and interrupt flag that a status is computed with.
#[derive(Clone, Drop)]
pub struct Context<'a, P, T, L> {
    /// Which paths are included.
    pub pathspec: P,
    /// How files are converted to what git stores.
    pub filter: T,
    /// Lists directories, if the options have `fscache`.
    pub lister: L,
    /// The interrupt flag. Once it is seen set, the status ends early. `None` is never set.
    pub should_interrupt: Option<&'a AtomicBool>,
}

/// The counts of a status, and whether it ended early.
#[derive(Clone, Debug, Default, Drop, PartialEq, Eq, PartialOrd, Ord)]
pub struct Outcome {
    /// The considered entries: those whose path starts with the pathspec's common prefix, or all if no path does.
    pub entries_to_process: usize,
    /// The considered entries that were processed, including skipped ones. A conflict's later stages aren't counted.
    pub entries_processed: usize,
    /// The entries that aren't considered, since their path doesn't start with the common prefix.
    pub entries_skipped_by_common_prefix: usize,
    /// The considered entries that the pathspec excludes and no flag does. A conflict's later stages aren't counted.
    pub entries_skipped_by_pathspec: usize,
    /// The considered entries that are skipped by a flag. A conflict's later stages aren't counted.
    pub entries_skipped_by_entry_flags: usize,
    /// The calls of `lstat` on entries' own paths.
    pub symlink_metadata_calls: usize,
    /// The entries that need a new stat.
    pub entries_to_update: usize,
    /// The entries, without an executable change, whose stat is trusted but racy: it may hide a write.
    pub racy_clean: usize,
    /// The bytes read from the worktree.
    pub worktree_bytes: u64,
    /// The files read from the worktree.
    pub worktree_files_read: usize,
    /// The bytes read from the object database.
    pub odb_bytes: u64,
    /// The objects read from the object database.
    pub odb_objects_read: usize,
    /// Whether the status ended early.
    pub interrupted: bool,
}

impl Outcome {
    ghost use Rattle.status_call.specs.Counts.{outcome_of, skipped_of};
    ghost use Rattle.std.specs.Prelude.{◌≡◌, ◌≤◌, ◌<◌, ◌^◌};

    /// Returns the number of skipped entries: by common prefix, by pathspec and by flags.
    pub fn skipped(&self) -> usize
        requires { skipped_of self.now < 2 ^ 64 }
        ensures { result ≡ skipped_of self.now }
    {
        self.entries_skipped_by_common_prefix
            + self.entries_skipped_by_pathspec
            + self.entries_skipped_by_entry_flags
    }

    /// Returns the outcome of work on the range `considered` of an index with `entries` entries.
    pub(crate) fn of(progress: Progress, entries: usize, considered: Range<usize>) -> Outcome
        requires order { considered.start ≤ considered.end }
        requires inside { considered.end ≤ entries }
        ensures { result ≡ outcome_of progress entries considered }
    {
        let Totals { counts, reads } = progress.totals;
        let entries_to_process = considered.end - considered.start;
        Outcome {
            entries_to_process,
            entries_processed: counts.processed,
            entries_skipped_by_common_prefix: entries - entries_to_process,
            entries_skipped_by_pathspec: counts.skipped_by_pathspec,
            entries_skipped_by_entry_flags: counts.skipped_by_flags,
            symlink_metadata_calls: counts.lstat_calls,
            entries_to_update: counts.to_update,
            racy_clean: counts.racy_clean,
            worktree_bytes: reads.bytes,
            worktree_files_read: reads.files,
            odb_bytes: reads.object_bytes,
            odb_objects_read: reads.objects,
            interrupted: progress.interrupted,
        }
    }
}

impl From<&Entry> for ConflictIndexEntry {
    ghost from_gives = { λ e k. k ≡ kept_of (entry_at [] e.now) };

    fn from(entry: &Entry) -> ConflictIndexEntry {
        ConflictIndexEntry {
            id: entry.id,
            flags: entry.flags,
            mode: entry.mode,
        }
    }
}

impl<T: Drop, U: Drop> From<Change<T, U>> for EntryStatus<T, U> {
    ghost use Rattle.std.specs.Prelude.{◌≡◌};
    ghost use Rattle.status_call.specs.declared.index_as_worktree.types.EntryStatus.TheVariants as statuses;

    ghost from_gives = { λ c s. s ≡ statuses.Change c };

    fn from(change: Change<T, U>) -> EntryStatus<T, U> {
        EntryStatus::Change(change)
    }
}
