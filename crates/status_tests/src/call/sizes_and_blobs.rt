//! Statuses by sizes, and by a comparer that reads blobs, from memory or from a folder of the disk.

use crate::call::reports::{found, is_changed, is_report};
use crate::support::prelude::*;
use gix_status::index::{HashKind, compute_hash};
use gix_status::index_as_worktree::traits::FastEq;
use gix_status::index_as_worktree::{Error, Outcome, Record};
use gix_status::worktree::{Find, FindError};
use status_callers::comparers::BlobLength;
use status_callers::objects::FolderObjects;
use status_callers::statuses::{StatusRequest, options, plain_request, status_of};
use std::fs;

// The entry's size is the low half of the file's length. So the lengths alone don't show a change, and the file is
// read.
#[test]
fn sizes_are_compared_by_their_low_32_bits(rt: HostRuntime) -> Result<(), Fail> {
    let index = foos(rt.alloc(), &["a"])?;
    let len = (1 << 32) + 3;
    let file = ("a", NodeKind::File, b"foo".as_slice(), len, Some(LATER));
    let worktree = worktree(rt.alloc(), &[file])?;
    let request = plain_request(rt.alloc());
    let report = status_of(&rt, &index, &worktree, FastEq, request);
    assert!(rt; report.records.is_empty());
    assert!(rt; matches!(&report.answer, Err(Error::Io(Fault::UnexpectedEnd))));
    Ok(())
}

/// The entries `a` and `b`, of other contents.
const ENTRIES: [EntryRow<'static>; 2] = [
    ("a", 0, Mode::File, b"foo"),
    ("b", 0, Mode::File, b"bar"),
];

// Returns whether these are so many records, each of a file of four bytes.
fn are_lengths(records: &[Record<'_, u64, ()>], count: usize) -> bool {
    for (at, record) in records.iter().enumerate() {
        if record.entry_index != at || !is_changed(&record.status, &4) {
            return false;
        }
    }
    records.len() == count
}

// Returns whether a status read the blob of each entry, of three bytes, or failed because a blob is missing.
fn is_ended(answer: &Result<Outcome, Error>, entries: usize, is_missing: bool) -> bool {
    let wanted = Outcome {
        odb_objects_read: entries,
        odb_bytes: (entries as u64).saturating_mul(3),
        ..found(entries)
    };
    match answer {
        Ok(outcome) => !is_missing && *outcome == wanted,
        Err(Error::Find(FindError::Missing)) => is_missing,
        Err(_) => false,
    }
}

/// Returns whether a status by the lengths of blobs has so many records, each of a file of four bytes. It reads the
/// blob of each entry, of three bytes, or fails because a blob is missing.
fn has_lengths<R: AllocGlobal + Threads + Wait, O: Find + Send>(
    rt: &R,
    entries: &[EntryRow<'_>],
    objects: O,
    records: usize,
    is_missing: bool,
) -> Result<bool, Fail> {
    let index = index(rt.alloc(), entries)?;
    let nodes = [later_file("a", b"bars"), later_file("b", b"bars")];
    let worktree = worktree(rt.alloc(), &nodes)?;
    let request = StatusRequest::new(NoSubmodules, objects, AllPaths, NoFilter, options());
    let report = status_of(rt, &index, &worktree, BlobLength, request);
    let is_ended = is_ended(&report.answer, entries.len(), is_missing);
    Ok(is_ended && are_lengths(&report.records, records))
}

#[test]
fn a_comparer_may_read_the_blob(rt: HostRuntime) -> Result<(), Fail> {
    let mut objects = MemoryObjects::new(rt.alloc());
    objects.put(compute_hash(HashKind::Sha1, b"foo"), b"foo")?;
    assert!(rt; has_lengths(&rt, &ENTRIES[..1], objects, 1, false)?);
    let objects = MemoryObjects::new(rt.alloc());
    assert!(rt; has_lengths(&rt, &ENTRIES[..1], objects, 0, true)?);
    Ok(())
}

#[test]
fn blobs_may_lie_in_a_folder(rt: HostRuntime) -> Result<(), Fail> {
    let folder = own_folder(&rt, "blobs_may_lie_in_a_folder")?;
    let root = folder.as_str();
    let foo = "19102815663d23f8b75a47e7a01965dcdc96468c";
    fill(&rt, root, &[(foo, FolderNode::File("foo"))])?;
    let objects = FolderObjects {
        rt: &rt,
        folder: root,
    };
    assert!(rt; has_lengths(&rt, &ENTRIES[..1], objects, 1, false)?);
    // A directory can't be read as a blob. The interface has no other error for that, or for a file that isn't there.
    let bar = "ba0e162e1c47469e3fe4b393a8bf8c569f302116";
    for nodes in [[].as_slice(), &[(bar, FolderNode::Folder)]] {
        fill(&rt, root, nodes)?;
        assert!(rt; has_lengths(&rt, &ENTRIES, objects, 1, true)?);
    }
    fs::remove_dir_all(&rt, root)?;
    Ok(())
}
