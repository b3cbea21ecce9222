//! The walk that finds the untracked nodes of a worktree in memory.

ghost use Rattle.std.specs.Prelude.{◌≡◌, is_some, None, Some, IfOk, OnOk, false};
ghost use Rattle.std.specs.List.{list_any};
ghost use Rattle.std.specs.Option.{option_map};
ghost use Rattle.bstr.specs.BStr.{bstr_bytes};
ghost use Rattle.status_index.specs.Mode.{is_submodule};
ghost use Rattle.status_index.specs.States.{index_of};
ghost use Rattle.status_walk.specs.Untracked.{emitted_kind, is_below_submodule, is_submodule_at, is_tracked, is_untracked, untracked_at, untracked_walk};
ghost use Rattle.status_walk.specs.WalkedNodes.{walked_of, is_cancelling, kept_more};
ghost use Rattle.status_walk.specs.Walks.{IsWalk};

use crate::walk::{Action, Delegate, DirEntry, Kind, Outcome, Status, Walk, WalkError};
use bstr::{BStr, BString};
use status_base::worktree::{MemoryWorktree, NodeKind, Pathspec};
use status_index::{Entry, State};
use std::alloc::{AllocError, Global};

/// Finds the untracked nodes of a worktree in memory: the files, links and other nodes that a pathspec includes, whose
/// paths no entry has, and which are below no submodule's entry, in ascending order of their paths.
#[derive(Clone, Copy)]
pub struct UntrackedWalk {
    alloc: Global,
}

impl UntrackedWalk {
    /// Returns a walk that takes its memory from `alloc`.
    pub fn new(alloc: Global) -> UntrackedWalk {
        UntrackedWalk { alloc }
    }
}

impl Walk<MemoryWorktree> for UntrackedWalk {
    ghost walking = { λ _ tree es _ included. Some (untracked_walk tree es included) };

    fn walk<P: Pathspec, D: Delegate>(
        &mut self,
        worktree: &MemoryWorktree,
        index: &State,
        pathspec: &P,
        delegate: &mut D,
    ) -> Result<Outcome, WalkError>
        requires { (D.state delegate.old).cancelled ≡ false }
        ensures { IsWalk (untracked_walk worktree.now (index_of index.now) (P.included pathspec.now))
            (D.state delegate.old) result (D.state delegate.new) }
    {
        let mut emitted = 0;
        for (path, node) in worktree.nodes() {
            let path = BStr::new(path.as_slice());
            match emit_untracked(self.alloc, index, pathspec, path, node.kind, delegate)? {
                None => {}
                Some(Action::Continue) => emitted += 1,
                Some(Action::Cancel) => {
                    return Ok(Outcome {
                        emitted: emitted + 1,
                        cancelled: true,
                    });
                }
            }
        }
        Ok(Outcome {
            emitted,
            cancelled: false,
        })
    }
}

/// Passes a node to the delegate if it is untracked. Returns the delegate's action, or None if the node wasn't passed.
fn emit_untracked<P: Pathspec, D: Delegate>(
    alloc: Global,
    index: &State,
    pathspec: &P,
    path: BStr<'_>,
    kind: NodeKind,
    delegate: &mut D,
) -> Result<Option<Action>, AllocError>
    requires { (D.state delegate.old).cancelled ≡ false }
    ensures keeps { (D.state delegate.new).keeps ≡ (D.state delegate.old).keeps }
    ensures passed { IfOk result (λ action. is_some action
        ≡ is_some (untracked_at (index_of index.now) (P.included pathspec.now) (bstr_bytes path.entry) kind)) }
    ensures kept { OnOk result ((D.state delegate.new).kept ≡ kept_more (D.state delegate.old)
        (untracked_at (index_of index.now) (P.included pathspec.now) (bstr_bytes path.entry) kind)) }
    ensures cancelled { IfOk result (λ action. (D.state delegate.new).cancelled ≡ is_cancelling action) }
{
    match untracked_at(alloc, index, pathspec, path, kind)? {
        Some(entry) => Ok(Some(delegate.emit(entry, None)?)),
        None => Ok(None),
    }
}

/// Returns the entry of a node that is untracked. None for a directory and for any other node.
fn untracked_at<P: Pathspec>(
    alloc: Global,
    index: &State,
    pathspec: &P,
    path: BStr<'_>,
    kind: NodeKind,
) -> Result<Option<DirEntry>, AllocError>
    ensures { IfOk result (λ found. option_map (λ e. walked_of e None) found
        ≡ untracked_at (index_of index.now) (P.included pathspec.now) (bstr_bytes path.entry) kind) }
{
    let Some(kind) = emitted_kind(kind) else {
        return Ok(None);
    };
    if !is_untracked(index, pathspec, path) {
        return Ok(None);
    }
    Ok(Some(DirEntry {
        rela_path: BString::from_slice(alloc, path.as_bytes())?,
        status: Status::Untracked,
        disk_kind: Some(kind),
    }))
}

/// Returns the type of a node in a walk's entry. None for a directory, which isn't passed itself.
fn emitted_kind(kind: NodeKind) -> Option<Kind>
    ensures { result ≡ emitted_kind kind }
{
    match kind {
        NodeKind::File => Some(Kind::File),
        NodeKind::Link => Some(Kind::Symlink),
        NodeKind::Other => Some(Kind::Untrackable),
        NodeKind::Directory => None,
    }
}

/// Returns whether a pathspec includes the path, no entry has it, and it is below no submodule's entry.
fn is_untracked<P: Pathspec>(index: &State, pathspec: &P, path: BStr<'_>) -> bool
    ensures { result ≡ is_untracked (index_of index.now) (P.included pathspec.now) (bstr_bytes path.entry) }
{
    pathspec.includes(path, false) && !is_tracked(index, path) && !is_below_submodule(index, path)
}

/// Returns whether an entry has this path.
pub fn is_tracked(index: &State, path: BStr<'_>) -> bool
    ensures { result ≡ is_tracked (index_of index.now) (bstr_bytes path.entry) }
{
    !index.entries_at(path).is_empty()
}

/// Returns whether a submodule's entry is at a directory above a path.
fn is_below_submodule(index: &State, path: BStr<'_>) -> bool
    ensures { result ≡ is_below_submodule (index_of index.now) (bstr_bytes path.entry) }
{
    let path = path.as_bytes();
    for (end, byte) in path.iter().enumerate() {
        if *byte == b'/' && is_submodule(index, BStr::new(&path[..end])) {
            return true;
        }
    }
    false
}

/// Returns whether an entry of this path is a submodule's.
pub fn is_submodule(index: &State, path: BStr<'_>) -> bool
    ensures { result ≡ is_submodule_at (index_of index.now) (bstr_bytes path.entry) }
{
    has_submodule(index.entries_at(path))
}

/// Returns whether one of these entries is a submodule's.
fn has_submodule(entries: &[Entry]) -> bool
    ensures { result ≡ list_any (λ e. is_submodule e.mode) entries.now }
{
    entries.iter().any(|entry| entry.mode.is_submodule())
}
