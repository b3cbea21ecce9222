//! The index of a sparse checkout: which of the files that it leaves out are in the worktree all the same.

use crate::head::HeadCommit;
use crate::objects::LazyObjects;
use crate::refresh::has_extension;
use crate::refused::Refused;
use crate::selected::Selected;
use bitflags::Flags as _;
use bstr::{BStr, BString};
use git_index::{IndexFileError, ends_with_checksum, write_index};
use git_repository::Repository;
use git_staged::{TreeError, TreeFault, expanded, has_folders, tree_id};
use git_status::{Failure, ReadIndex};
use status_base::stack::{StackError, SymlinkCheck};
use status_base::worktree::{NodeKind, Worktree};
use status_index::{Flags, Mode, State};
use std::alloc::{AllocError, Global};
use std::os::unix::fs::FileExt;
use std::rt::{Env, Files};

/// The version of index files that has the flag of entries that a sparse checkout leaves out.
const VERSION: u32 = 3;

/// The name of the extension that a sparse index has.
const SPARSE: [u8; 4] = *b"sdir";

/// Returns the bytes of the index file that git makes of one that was read, if it makes another one.
///
/// A sparse index gets the files of its folders if one of the folders is in the worktree, if something is staged, or if a word
/// names a path within one of the folders. Then, if the settings say so, each entry that the sparse checkout leaves out counts as
/// any other if its file is there.
///
/// # Errors
/// A folder's tree can't be read, the index has too many entries, or out of memory.
pub(crate) fn whole_index<R: AllocGlobal + Env + Files, W: Worktree>(
    rt: &R,
    repository: &Repository,
    read: &ReadIndex<'_>,
    worktree: &W,
    head: &Option<HeadCommit<'_, R>>,
    selected: &[Selected<'_>],
) -> Result<Option<Vec<u8>>, Refused>
where
    R::File: FileExt,
{
    let alloc = rt.alloc();
    let index = &read.file.state;
    let mut made = None;
    if has_extension(read.file.extensions, SPARSE)
        && has_folders(index)
        && (has_one_there(index, worktree)
            || has_one_above(index, selected)
            || is_staged(alloc, index, head)?)
    {
        made = Some(full_index(rt, repository, index)?);
    }
    if repository.settings.counts_left_out {
        let there = match &made {
            Some(full) => with_those_there(alloc, full, worktree)?,
            None => with_those_there(alloc, index, worktree)?,
        };
        if there.is_some() {
            made = there;
        }
    }
    let Some(state) = made else {
        return Ok(None);
    };
    if !read.is_checked && !ends_with_checksum(repository.settings.kind, read.bytes) {
        return Err(Refused::Index(Failure::Index(IndexFileError::Checksum)));
    }
    Ok(Some(bytes_of(alloc, repository, &state)?))
}

/// Returns whether the worktree has one of the folders of a sparse index.
fn has_one_there<W: Worktree>(index: &State, worktree: &W) -> bool {
    let backing = index.path_backing();
    index.entries().iter().any(|entry| {
        entry.mode == Mode::Dir && is_folder_there(worktree, entry.path_in(backing).as_bytes())
    })
}

/// Returns whether a path that a word names is within one of the folders of a sparse index.
fn has_one_above(index: &State, selected: &[Selected<'_>]) -> bool {
    let backing = index.path_backing();
    !selected.is_empty()
        && index.entries().iter().any(|entry| {
            let path = entry.path_in(backing).as_bytes();
            entry.mode == Mode::Dir
                && selected.iter().any(|one| one.names_one()
                    && one.path().as_bytes().starts_with(path))
        })
}

/// Returns whether a folder is at a path that ends with a slash, or at the end of links there, as in git.
fn is_folder_there<W: Worktree>(worktree: &W, path: &[u8]) -> bool {
    matches!(worktree.lstat(BStr::new(path)), Ok(node) if node.kind == NodeKind::Directory)
}

/// Returns whether an index makes another tree than HEAD's, if it is compared with that.
///
/// # Errors
/// Out of memory.
fn is_staged<R: Files>(
    alloc: Global,
    index: &State,
    head: &Option<HeadCommit<'_, R>>,
) -> Result<bool, AllocError> {
    let Some(head) = head else {
        return Ok(false);
    };
    let Some(tree) = head.tree else {
        return Ok(true);
    };
    match tree_id(alloc, tree.kind(), index) {
        Ok(id) => Ok(id != tree),
        Err(TreeError::Conflict) => Ok(true),
        Err(TreeError::Memory) => Err(AllocError),
    }
}

/// Returns a sparse index with the files of its folders in place of the folders.
///
/// # Errors
/// A folder's tree can't be read, or out of memory.
fn full_index<R: AllocGlobal + Env + Files>(
    rt: &R,
    repository: &Repository,
    index: &State,
) -> Result<State, Refused>
where
    R::File: FileExt,
{
    let objects = LazyObjects { rt, repository };
    match expanded(rt.alloc(), &objects, index) {
        Ok(state) => Ok(state),
        Err(TreeFault::Memory) => Err(Refused::Memory),
        Err(fault) => Err(Refused::Sparse { fault }),
    }
}

/// Returns an index in which the entries that a sparse checkout leaves out count as any others if something is at their paths.
/// None if nothing is at any.
///
/// # Errors
/// Out of memory.
fn with_those_there<W: Worktree>(
    alloc: Global,
    index: &State,
    worktree: &W,
) -> Result<Option<State>, AllocError> {
    let numbers = numbers_there(alloc, index, worktree)?;
    if numbers.is_empty() {
        return Ok(None);
    }
    let mut state = State::new(alloc, index.timestamp());
    for (number, entry) in index.entries().iter().enumerate() {
        let flags = if numbers.binary_search(&number).is_ok() {
            entry.flags.difference(Flags::SKIP_WORKTREE)
        } else {
            entry.flags
        };
        let path = entry.path_in(index.path_backing());
        if state
            .push_entry(entry.stat, entry.id, flags, entry.mode, path)
            .is_err()
        {
            return Err(AllocError);
        }
    }
    Ok(Some(state))
}

/// Returns the numbers of the entries that a sparse checkout leaves out, and at whose paths something is.
///
/// # Errors
/// Out of memory.
fn numbers_there<W: Worktree>(
    alloc: Global,
    index: &State,
    worktree: &W,
) -> Result<Vec<usize>, AllocError> {
    let mut check = SymlinkCheck::new(alloc, BString::new(Vec::new(alloc)));
    let mut numbers = Vec::new(alloc);
    for (number, entry) in index.entries().iter().enumerate() {
        let path = entry.path_in(index.path_backing());
        if entry.flags.contains(Flags::SKIP_WORKTREE)
            && entry.mode != Mode::Dir
            && is_there(&mut check, worktree, path)
        {
            numbers.push(number)?;
        }
    }
    Ok(numbers)
}

/// Returns whether something is at a normal path, as in git also at the end of links to folders on the way to it: then the status
/// has the entry's file for removed.
fn is_there<W: Worktree>(check: &mut SymlinkCheck, worktree: &W, path: BStr<'_>) -> bool {
    match check.verified_path(worktree, path) {
        Ok(_) | Err(StackError::ThroughLink { .. }) => worktree.lstat(path).is_ok(),
        Err(_) => false,
    }
}

/// Returns the bytes of an index file with these entries alone. Zeros replace its checksum.
///
/// # Errors
/// Out of memory.
fn bytes_of(alloc: Global, repository: &Repository, state: &State) -> Result<Vec<u8>, AllocError> {
    if state.entries().len() > u32::MAX as usize {
        return Err(AllocError);
    }
    write_index(alloc, repository.settings.kind, VERSION, state, b"", false)
}
