//! A status with listings of a folder of the disk.

use crate::call::reports::{Says, Wanted, is_report, read};
use crate::support::prelude::*;
use gix_status::index_as_worktree::{Options, Outcome};
use status_callers::listers::FolderLister;
use status_callers::statuses::{options, status_without_threads};
use std::fs;

/// Two files, one of them in a directory.
const NODES: [(&str, FolderNode<'static>); 3] = [
    ("test.txt", FolderNode::Staged("foo")),
    ("subdir", FolderNode::Folder),
    ("subdir/nested.txt", FolderNode::Staged("bars")),
];

/// The entries. The last one, `test.txt`, is unchanged.
const PATHS: [&str; 5] = [
    "Test.txt",
    "gone",
    "subdir",
    "subdir/nested.txt",
    "test.txt",
];

const RECORDS: [Wanted<'static>; 4] = [
    (0, "Test.txt", Says::Removed),
    (1, "gone", Says::Removed),
    (2, "subdir", Says::Removed),
    (3, "subdir/nested.txt", Says::Changed(b"bars")),
];

// Returns whether a folder has the expected status, with listings or without, and `lstat` is called on entries' paths
// so often.
fn is_right(rt: &HostRuntime, root: &str, fscache: bool, lstats: usize) -> Result<bool, Fail> {
    let index = foos(rt.alloc(), &PATHS)?;
    let worktree = DiskWorktree::new(rt, Path::new(root))?;
    let lister = FolderLister { rt, root };
    let options = Options {
        fscache,
        ..options()
    };
    let report = status_without_threads(rt.alloc(), &index, &worktree, lister, options);
    let wanted = Outcome {
        symlink_metadata_calls: lstats,
        ..read(5, 1, 4)
    };
    Ok(is_report(&report, &RECORDS, &Ok(wanted)))
}

#[test]
fn a_listed_folder_has_the_same_status(rt: HostRuntime) -> Result<(), Fail> {
    let folder = own_folder(&rt, "a_listed_folder")?;
    fill(&rt, folder.as_str(), &NODES)?;
    assert!(rt; is_right(&rt, folder.as_str(), false, 5)?);
    // With listings, `lstat` is called only on paths that are in no listing.
    assert!(rt; is_right(&rt, folder.as_str(), true, 2)?);
    fs::remove_dir_all(&rt, folder.as_str())?;
    Ok(())
}
