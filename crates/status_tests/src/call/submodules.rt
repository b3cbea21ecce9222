//! Submodules in folders of the disk, each with a status of its own, and those of a caller's own interface.

use crate::call::reports::{by_pieces, found, is_at, is_taken};
use crate::support::prelude::*;
use gix_status::index_as_worktree::traits::HashEq;
use gix_status::index_as_worktree::{Change, EntryStatus, Error};
use status_callers::statuses::{StatusReport, StatusRequest, options, status_of};
use status_callers::submodules::{Alike, FolderSubmodules};
use std::fs;

/// The report of the submodules.
#[derive(Clone, Copy)]
enum Verdict {
    /// None changed.
    Nothing,
    /// The submodule at this index position changed: its own status has so many records.
    Changed(usize, usize),
    /// The first submodule has no status, because of a file's fault.
    Fails,
}

/// The nodes that are put into the folder first, the submodules, the entries of each submodule's own index, how many workers there
/// are at most, and what is reported.
type Row = (
    &'static [(&'static str, FolderNode<'static>)],
    &'static [&'static str],
    &'static [&'static str],
    usize,
    Verdict,
);

const UNCHANGED: &[(&str, FolderNode<'static>)] = &[
    ("sub", FolderNode::Folder),
    ("sub/a", FolderNode::Staged("foo")),
];

const CHANGED: &[(&str, FolderNode<'static>)] = &[("sub/a", FolderNode::Staged("bars"))];

// In the second submodule, `a` has other content and `b` is missing.
const TWO: &[(&str, FolderNode<'static>)] = &[
    ("one", FolderNode::Folder),
    ("one/a", FolderNode::Staged("foo")),
    ("one/b", FolderNode::Staged("foo")),
    ("two", FolderNode::Folder),
    ("two/a", FolderNode::Staged("bars")),
];

static ROWS: [Row; 5] = [
    (UNCHANGED, &["sub"], &["a"], 1, Verdict::Nothing),
    (CHANGED, &["sub"], &["a"], 1, Verdict::Changed(0, 1)),
    // This path isn't normal.
    (&[], &["sub"], &["a//b"], 1, Verdict::Fails),
    (TWO, &["one", "two"], &["a", "b"], 1, Verdict::Changed(1, 2)),
    (&[], &["one", "two"], &["a", "b"], 2, Verdict::Changed(1, 2)),
];

// Returns whether the only record is of the submodule at this index position, whose own status has so many records.
fn is_changed(report: &StatusReport<'_, ObjectId, usize>, at: usize, count: usize) -> bool {
    match report.records.as_slice() {
        [record] => match &record.status {
            EntryStatus::Change(Change::SubmoduleModification(found)) => {
                *found == count && record.entry_index == at
            }
            _ => false,
        },
        _ => false,
    }
}

// Returns whether a status failed because the first submodule has a file's fault, with the text of gix-status for it.
fn is_failed(report: &StatusReport<'_, ObjectId, usize>, path: &str) -> bool {
    let wanted = "IO error while writing blob or reading file metadata or changing filetype";
    match &report.answer {
        Err(Error::SubmoduleStatus { rela_path, text }) => {
            rela_path.as_bytes() == path.as_bytes() && text.as_bytes() == wanted.as_bytes()
        }
        _ => false,
    }
}

fn is_judged(report: &StatusReport<'_, ObjectId, usize>, entries: usize, verdict: Verdict) -> bool {
    let is_whole = is_taken(&report.answer, &found(entries));
    match verdict {
        Verdict::Nothing => is_whole && report.records.is_empty(),
        Verdict::Changed(at, count) => is_whole && is_changed(report, at, count),
        Verdict::Fails => report.records.is_empty() && is_failed(report, "sub"),
    }
}

// Returns whether the status of a folder with submodules, in pieces of one entry, has the report of its row.
fn is_right<R: AllocGlobal + Threads + Wait>(
    rt: &R,
    system: &HostRuntime,
    root: &str,
    row: &Row,
) -> Result<bool, Fail> {
    let (adds, paths, entries, workers, verdict) = *row;
    fill(system, root, adds)?;
    let mut submodules = Vec::new(rt.alloc());
    for path in paths {
        submodules.push((*path, 0, Mode::Commit, b"foo".as_slice()))?;
    }
    let superproject = index(rt.alloc(), &submodules)?;
    let own_index = foos(rt.alloc(), entries)?;
    let worktree = DiskWorktree::new(system, Path::new(root))?;
    let submodules = FolderSubmodules {
        rt: system,
        root,
        index: &own_index,
    };
    let options = by_pieces(1, Some(workers));
    let objects = MemoryObjects::new(rt.alloc());
    let request = StatusRequest::new(submodules, objects, AllPaths, NoFilter, options);
    let report = status_of(rt, &superproject, &worktree, HashEq, request);
    Ok(is_judged(&report, paths.len(), verdict))
}

#[test]
fn submodules_may_have_statuses_of_their_own(rt: HostRuntime) -> Result<(), Fail> {
    let folder = own_folder(&rt, "submodules_may_have_statuses")?;
    for (at, row) in ROWS.iter().enumerate() {
        assert!(rt; is_right(&rt, &rt, folder.as_str(), row)?, "row {at}");
    }
    fs::remove_dir_all(&rt, folder.as_str())?;
    Ok(())
}

// Returns whether a status reports the result of an interface for `sub`: no change, a number, or a fault with a text.
fn is_reported(
    report: &StatusReport<'_, ObjectId, u32>,
    answer: Result<Option<u32>, &[u8]>,
) -> bool {
    let change = match report.records.as_slice() {
        [] => None,
        [record] if is_at(record, 0, "sub") => match &record.status {
            EntryStatus::Change(Change::SubmoduleModification(found)) => Some(*found),
            _ => return false,
        },
        _ => return false,
    };
    match (answer, &report.answer) {
        (Ok(wanted), _) => is_taken(&report.answer, &found(1)) && change == wanted,
        (Err(wanted), Err(Error::SubmoduleStatus { rela_path, text })) => {
            let is_at_sub = rela_path.as_bytes() == b"sub".as_slice();
            change.is_none() && is_at_sub && text.as_bytes() == wanted
        }
        _ => false,
    }
}

/// Returns whether a status by ids of the submodule `sub` reports the result of this interface.
fn is_submodule_reported<R: AllocGlobal + Threads + Wait>(
    rt: &R,
    submodule: Alike<'_>,
) -> Result<bool, Fail> {
    let (alloc, answer) = (rt.alloc(), submodule.answer);
    let index = index(alloc, &[("sub", 0, Mode::Commit, b"foo")])?;
    let directory = ("sub", NodeKind::Directory, b"".as_slice(), 0, Some(STAGED));
    let worktree = worktree(alloc, &[directory])?;
    let objects = MemoryObjects::new(alloc);
    let request = StatusRequest::new(submodule, objects, AllPaths, NoFilter, options());
    let report = status_of(rt, &index, &worktree, HashEq, request);
    Ok(is_reported(&report, answer))
}

#[test]
fn a_submodule_has_the_status_that_the_interface_returns(rt: HostRuntime) -> Result<(), Fail> {
    let alloc = rt.alloc();
    for answer in [Ok(None), Ok(Some(7)), Err(b"x".as_slice())] {
        assert!(rt;
            is_submodule_reported(&rt, Alike { alloc, answer })?,
            "{answer:?}"
        );
    }
    Ok(())
}
