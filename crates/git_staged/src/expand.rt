//! A sparse index as an index of files. An entry of a sparse index may be a folder, of which no file is in the worktree.

ghost use Rattle.std.specs.Prelude.{◌≡◌, ◌++◌, List, IfOk, OnOk, map};
ghost use Rattle.std.specs.List.{list_any};
ghost use Rattle.status_index.specs.declared.entry.TheConstants.Flags.{SKIP_WORKTREE};
ghost use Rattle.status_index.specs.Entries.{IndexEntry, entry_at};
ghost use Rattle.status_index.specs.States.{index_of, timestamp_of};
ghost use Rattle.git_staged.specs.Expanded.{IsExpanded, IsExpandedEntry};
ghost use Rattle.git_staged.specs.Folders.{with_flags};
ghost use Rattle.git_staged.specs.TreeFiles.{is_folder};

use crate::error::TreeFault;
use crate::files::{is_folder, push_file, read_folder};
use git_objects::ReadObject;
use status_index::{Entry, Flags, State};
use std::alloc::Global;

/// Returns whether an index has an entry of a folder, as a sparse one may.
pub fn has_folders(index: &State) -> bool
    ensures { result ≡ list_any (λ e. is_folder e.mode) (index_of index.now) }
{
    any_folder(index.entries())
}

/// Returns whether one of these entries is a folder.
fn any_folder(entries: &[Entry]) -> bool
    ensures { result ≡ list_any (λ e. is_folder e.mode) entries.now }
{
    entries.iter().any(|entry| is_folder(entry.mode))
}

/// Returns the index of files that git makes of a sparse index: in place of each entry of a folder those of the files of its
/// tree, each with the flag skip-worktree and without a stat.
///
/// # Errors
/// Those of `read_tree`, and `NotAscending` also if the files of a folder and the other entries aren't in order.
pub fn expanded<O: ReadObject>(
    alloc: Global,
    objects: &O,
    index: &State,
) -> Result<State, TreeFault>
    ensures entries { IfOk result (λ s. IsExpanded (index_of index.now) (index_of s)) }
    ensures time { IfOk result (λ s. timestamp_of s ≡ timestamp_of index.now) }
{
    let mut files = State::new(alloc, index.timestamp());
    for entry in index.entries() {
        let path = entry.path_in(index.path_backing()).as_bytes();
        if let Err(fault) = push_expanded(alloc, objects, &mut files, entry, path) {
            return Err(fault);
        }
    }
    Ok(files)
}

/// Adds an entry of a sparse index to others, or the files of the folder that it is.
///
/// # Errors
/// Those of `expanded`.
fn push_expanded<O: ReadObject>(
    alloc: Global,
    objects: &O,
    files: &mut State,
    entry: &Entry,
    path: &[u8],
) -> Result<(), TreeFault>
    ensures entries { OnOk result ((own : List IndexEntry) × (index_of files.new ≡ index_of files.old ++ own) × IsExpandedEntry (entry_at path.now entry.now) own) }
    ensures time { timestamp_of files.new ≡ timestamp_of files.old }
{
    if !is_folder(entry.mode) {
        return push_file(files, entry.stat, entry.id, entry.flags, entry.mode, path);
    }
    match read_folder(alloc, objects, entry.id, path) {
        Ok(inner) => push_skipped(files, &inner),
        Err(fault) => Err(fault),
    }
}

/// Adds the files of a folder to others, each with the flag skip-worktree.
///
/// # Errors
/// Those of `push_file`.
fn push_skipped(files: &mut State, inner: &State) -> Result<(), TreeFault>
    ensures entries { OnOk result (index_of files.new ≡ index_of files.old ++ map (with_flags SKIP_WORKTREE) (index_of inner.now)) }
    ensures time { timestamp_of files.new ≡ timestamp_of files.old }
{
    let skipped = Flags::SKIP_WORKTREE;
    for entry in inner.entries() {
        let path = entry.path_in(inner.path_backing()).as_bytes();
        push_file(files, entry.stat, entry.id, skipped, entry.mode, path)?;
    }
    Ok(())
}
