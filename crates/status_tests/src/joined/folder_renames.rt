//! The joined call over a folder of the disk.

use crate::joined::record_lines::{end_of, lines_of};
use crate::support::prelude::*;
use status_callers::joined::statuses::{JoinedRequest, joined};
use status_rewrites::{IdentityTracker, Rewrites};
use status_walk::DiskWalk;
use std::fs;

/// An empty file, and a directory with a file and a link.
const NODES: [(&str, FolderNode<'static>); 4] = [
    ("c", FolderNode::File("")),
    ("d", FolderNode::Folder),
    ("d/b", FolderNode::File("foo")),
    ("d/l", FolderNode::Link("c")),
];

/// The content of the entry `a`, whether empty files are renamed, the lines of the report, and how the call ends.
type Row = (&'static [u8], bool, &'static str, &'static str);

const ONE_RENAME: &str = "cut None, walk Some((3, false)), pairs Some((1, 0))";

static ROWS: [Row; 3] = [
    (
        b"foo",
        false,
        "- Added Untracked c\n- Renamed a d/b\n- Added Untracked d/l\n",
        ONE_RENAME,
    ),
    (
        b"",
        false,
        "0 Removed a\n- Added Untracked c\n- Added Untracked d/b\n- Added Untracked d/l\n",
        "cut None, walk Some((3, false)), pairs Some((0, 0))",
    ),
    (
        b"",
        true,
        "- Renamed a c\n- Added Untracked d/b\n- Added Untracked d/l\n",
        ONE_RENAME,
    ),
];

// Asserts the report of a folder, with an index that has a file `a`.
fn assert_reported<R: AllocGlobal + Abort + Files + Sync + Threads + Wait>(
    rt: &R,
    root: &str,
    row: &Row,
) -> Result<(), Fail>
where
    R::File: Send,
    R::Dir: Send,
{
    let (content, track_empty, lines, end) = *row;
    let alloc = rt.alloc();
    let index = index(alloc, &[("a", 0, Mode::File, content)])?;
    let worktree = DiskWorktree::new(rt, Path::new(root))?;
    let walk = DiskWalk::new(rt, Path::new(root))?;
    let rewrites = Some(Rewrites { track_empty });
    let request = JoinedRequest::new(walk, IdentityTracker::new(alloc), rewrites);
    let report = joined(rt, &index, &worktree, NoSubmodules, request);
    let text = lines_of(alloc, &report.records)?;
    assert_eq!(rt; text.as_str(), lines);
    assert_eq!(rt; end_of(alloc, &report.answer)?.as_str(), end);
    Ok(())
}

#[test]
fn a_folder_has_untracked_files_and_renames(rt: HostRuntime) -> Result<(), Fail> {
    let folder = own_folder(&rt, "a_folder_has_untracked_files")?;
    fill(&rt, folder.as_str(), &NODES)?;
    for row in &ROWS {
        assert_reported(&rt, folder.as_str(), row)?;
    }
    fs::remove_dir_all(&rt, folder.as_str())?;
    Ok(())
}
