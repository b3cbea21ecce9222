//! The calls of a worktree and a submodule for one entry, in the order of a status.

ghost use Rattle.std.specs.Prelude.{◌≡◌, false, IfOk, IfSome, None, ℕ, List, Option, Result};
ghost use Rattle.bstr.specs.BStr.{bstr_bytes};
ghost use Rattle.status_base.specs.LinkCheck.{barrier_of};
ghost use Rattle.status_base.specs.Looked.{IsLookedAt, IsMet};
ghost use Rattle.status_index.specs.Entries.{IndexEntry, entry_at};
ghost use Rattle.status_index.specs.declared.stat.NodeKind.TheVariants.{File, Link};
ghost use Rattle.git_explain.specs.Allowed.{AreCallsAllowed, IsFileAllowed, IsLinkAllowed, IsSubmoduleAllowed};

use crate::sight::{LstatCall, Reading, Sight};
use bstr::BStr;
use status_base::worktree::{
    ByteText, Fault, Guard, GuardedWorktree, Metadata, NodeKind, SubmoduleFault, SubmoduleStatus,
    Worktree, read_all,
};
use status_index::Entry;
use std::alloc::{AllocError, Global};

/// Calls `lstat` for each directory above a path, up to the first that is a link or has a fault. If there is none, calls it for
/// the path too, and returns the node there.
///
/// # Errors
/// Out of memory.
pub(crate) fn ask_along<W: Worktree>(
    alloc: Global,
    worktree: GuardedWorktree<'_, W>,
    path: &[u8],
    calls: &mut Vec<LstatCall>,
) -> Result<Option<Metadata>, AllocError>
    ensures met { IfOk result (λ node. IfSome node (IsMet (W.may_stat worktree.entry.worktree.now) worktree.entry.fscache path.now)) }
    ensures calls { AreCallsAllowed (W.may_stat worktree.entry.worktree.now) calls.old.items → AreCallsAllowed (W.may_stat worktree.entry.worktree.now) calls.new.items }
{
    for at in 0..path.len() {
        if path[at] != b'/' {
            continue;
        }
        if is_barrier(ask_lstat(alloc, worktree, &path[..at], calls)?) {
            return Ok(None);
        }
    }
    Ok(ask_lstat(alloc, worktree, path, calls)?.ok())
}

/// Returns whether no path may lead through a directory: it is a link, or has a fault.
fn is_barrier(found: Result<Metadata, Fault>) -> bool
    ensures { result ≡ false → barrier_of found ≡ None }
{
    match found {
        Ok(node) => node.kind == NodeKind::Link,
        Err(_) => true,
    }
}

/// Calls `lstat` for a path, and adds the call to the list.
///
/// # Errors
/// Out of memory.
fn ask_lstat<W: Worktree>(
    alloc: Global,
    worktree: GuardedWorktree<'_, W>,
    path: &[u8],
    calls: &mut Vec<LstatCall>,
) -> Result<Result<Metadata, Fault>, AllocError>
    ensures found { IfOk result (W.may_stat worktree.entry.worktree.now path.now) }
    ensures calls { AreCallsAllowed (W.may_stat worktree.entry.worktree.now) calls.old.items → AreCallsAllowed (W.may_stat worktree.entry.worktree.now) calls.new.items }
{
    let found = worktree.lstat(BStr::new(path));
    let path = Vec::from_slice(alloc, path)?;
    calls.push(LstatCall { path, found })?;
    Ok(found)
}

/// Opens a file that `lstat` found, and reads it to its end, or to a fault.
///
/// # Errors
/// Out of memory.
pub(crate) fn read_file<W: Worktree>(
    alloc: Global,
    worktree: GuardedWorktree<'_, W>,
    path: BStr<'_>,
    node: &Metadata,
) -> Result<Result<Reading, Fault>, AllocError>
    requires { IsLookedAt (W.may_stat worktree.worktree.now) worktree.fscache (bstr_bytes path) node.now File }
    ensures { IfOk result (IsFileAllowed (W.may_open worktree.entry.worktree.now (bstr_bytes path.entry))) }
{
    let mut file = match worktree.open(path, node) {
        Ok(file) => file,
        Err(Fault::Memory) => return Err(AllocError),
        Err(fault) => return Ok(Err(fault)),
    };
    let mut bytes = Vec::new(alloc);
    match read_all(&mut file, &mut bytes) {
        Ok(()) => Ok(Ok(Reading { bytes, fault: None })),
        Err(Fault::Memory) => Err(AllocError),
        Err(fault) => Ok(Ok(Reading {
            bytes,
            fault: Some(fault),
        })),
    }
}

/// Reads the target of a link that `lstat` found.
///
/// # Errors
/// Out of memory.
pub(crate) fn read_link<W: Worktree>(
    alloc: Global,
    worktree: GuardedWorktree<'_, W>,
    path: BStr<'_>,
    node: &Metadata,
) -> Result<Result<Vec<u8>, Fault>, AllocError>
    requires { IsLookedAt (W.may_stat worktree.worktree.now) worktree.fscache (bstr_bytes path) node.now Link }
    ensures { IfOk result (IsLinkAllowed (W.may_link worktree.entry.worktree.now (bstr_bytes path.entry))) }
{
    let mut target = Vec::new(alloc);
    match worktree.read_link(path, node, &mut target) {
        Ok(()) => Ok(Ok(target)),
        Err(Fault::Memory) => Err(AllocError),
        Err(fault) => Ok(Err(fault)),
    }
}

/// Asks an entry's submodule whether it changed.
///
/// # Errors
/// Out of memory.
pub(crate) fn ask_submodule<S: SubmoduleStatus>(
    submodules: &mut S,
    entry: &Entry,
    path: BStr<'_>,
) -> Result<Result<bool, ByteText>, AllocError>
    ensures allowed { IfOk result (IsSubmoduleAllowed (S.may_report submodules.old (entry_at (bstr_bytes path.entry) entry.now))) }
    ensures within { (e : IndexEntry) (report : Result (Option S.Output) (List ℕ)) → S.may_report submodules.new e report → S.may_report submodules.old e report }
{
    match submodules.status(entry, path) {
        Ok(change) => Ok(Ok(change.is_some())),
        Err(SubmoduleFault::Failed { text }) => Ok(Err(text)),
        Err(SubmoduleFault::Memory) => Err(AllocError),
    }
}
