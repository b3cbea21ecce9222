//! The walk over a folder of the disk.

ghost use Rattle.std.specs.Prelude.{◌≡◌, [], false};

use crate::support::folders::within;
use crate::support::prelude::*;
use FolderNode::{File, Folder, Link};
use gix_status::worktree::Point;
use status_base::worktree::Prefix;
use status_walk::{Action, Delegate, DirEntry, DiskWalk, Outcome, Status, Walk, WalkError};
use std::{fs, io};

// Writes a line for each node, and ends the walk with the last that it has room for.
#[derive(Drop)]
struct Lines {
    alloc: Global,
    text: String,
    room: usize,
    cancelled: bool,
}

impl Lines {
    fn new(alloc: Global, room: usize) -> Lines
        ensures { result.cancelled ≡ false }
    {
        Lines {
            alloc,
            text: String::new(alloc),
            room,
            cancelled: false,
        }
    }
}

impl Delegate for Lines {
    ghost state = { λ lines. record { keeps = λ _. false; kept = []; cancelled = lines.cancelled } };

    fn emit(&mut self, entry: DirEntry, collapsed: Option<Status>) -> Result<Action, AllocError> {
        let path = &entry.rela_path;
        let line = match (entry.status, entry.disk_kind, collapsed) {
            (Status::Untracked, Some(kind), None) => format!(in self.alloc; "{path} {kind:?}\n")?,
            _ => format!(in self.alloc; "{path} isn't untracked\n")?,
        };
        self.text.push_str(line.as_str())?;
        self.room = self.room.saturating_sub(1);
        self.cancelled = self.room == 0;
        Ok(if self.cancelled {
            Action::Cancel
        } else {
            Action::Continue
        })
    }
}

// The beginning of the paths of a walk, for how many nodes it has room, and its lines: one for each node that it
// passes, and one for how it ends.
type Case<'a> = (&'a str, usize, &'a str);

// Returns the line for how a walk ends.
fn end_of(alloc: Global, end: &Result<Outcome, WalkError>) -> Result<String, AllocError> {
    match end {
        Ok(outcome) if outcome.cancelled => {
            format!(in alloc; "cancelled at {}\n", outcome.emitted)
        }
        Ok(outcome) => format!(in alloc; "all {}\n", outcome.emitted),
        Err(WalkError::Fault { rela_path, fault }) => format!(in alloc; "{rela_path}: {fault}\n"),
        Err(WalkError::Memory) => Err(AllocError),
    }
}

// Asserts the lines of a walk over a folder, which uses a worktree's `lstat`, with an index of these entries.
fn assert_walk<R: Files + AllocGlobal + Abort, W: Worktree>(
    rt: &R,
    root: &str,
    worktree: &W,
    entries: &[EntryRow<'_>],
    case: Case<'_>,
) -> Result<(), Fail> {
    let ((below, room, found), alloc) = (case, rt.alloc());
    let index = index(alloc, entries)?;
    let mut lines = Lines::new(alloc, room);
    let mut walk = DiskWalk::new(rt, Path::new(root))?;
    let pathspec = Prefix::new(alloc, BStr::from(below))?;
    let end = walk.walk(worktree, &index, &pathspec, &mut lines);
    lines.text.push_str(end_of(alloc, &end)?.as_str())?;
    assert_eq!(rt; lines.text.as_str(), found);
    Ok(())
}

static NODES: [(&str, FolderNode); 22] = [
    ("a", Folder),
    ("a/c", Folder),
    (".git", Folder),
    ("n", Folder),
    ("n/.git", Folder),
    ("sub", Folder),
    ("empty", Folder),
    ("a-", File("")),
    ("a/b", File("")),
    ("a/c/d", File("")),
    ("a0", File("")),
    ("t", File("")),
    ("t.x", File("")),
    ("a/t", File("")),
    (".git/config", File("")),
    (".gitignore", File("")),
    ("n/f", File("")),
    ("sub/x", File("")),
    ("sub.x", File("")),
    ("é\n\x01", File("")),
    ("l", Link("a")),
    ("sub-", Link("gone")),
];

static ENTRIES: [EntryRow; 4] = [
    ("a", 0, Mode::File, b"foo"),
    ("a/t", 0, Mode::File, b"foo"),
    ("sub", 0, Mode::Commit, b"foo"),
    ("t", 0, Mode::File, b"foo"),
];

const ALL: &str =
    ".gitignore File\na- File\na/b File\na/c/d File\na0 File\nl Symlink\nn/f File\nsub- Symlink\nsub.x File\nt.x File\né\n\x01 File\nall 11\n";

const IN_A: &str = "a/b File\na/c/d File\nall 2\n";

const THREE: &str = ".gitignore File\na- File\na/b File\ncancelled at 3\n";

#[test]
fn files_and_links_without_an_entry_are_found(rt: HostRuntime) -> Result<(), Fail> {
    let folder = own_folder(&rt, "disk_walk_finds")?;
    let root = folder.as_str();
    fill(&rt, root, &NODES)?;
    let worktree = DiskWorktree::new(&rt, Path::new(root))?;
    for (below, room, found) in [("", 100, ALL), ("a/", 100, IN_A), ("", 3, THREE)] {
        assert_walk(&rt, root, &worktree, &ENTRIES, (below, room, found))?;
    }
    fs::remove_dir_all(&rt, root)?;
    Ok(())
}

// Asserts the lines of a walk over all of a folder, with an empty index.
fn assert_all<R: Files + AllocGlobal + Abort>(rt: &R, root: &str, found: &str) -> Result<(), Fail> {
    let worktree = DiskWorktree::new(rt, Path::new(root))?;
    assert_walk(rt, root, &worktree, &[], ("", 100, found))
}

#[test]
fn a_folder_that_is_not_there_has_nothing(rt: HostRuntime) -> Result<(), Fail> {
    let folder = own_folder(&rt, "disk_walk_nowhere")?;
    let missing = within(&rt, folder.as_str(), "x")?;
    let file = within(&rt, folder.as_str(), "f")?;
    fill(&rt, folder.as_str(), &[("f", File(""))])?;
    assert_all(&rt, missing.as_str(), "all 0\n")?;
    assert_all(&rt, file.as_str(), ": not a directory\n")?;
    fs::remove_dir_all(&rt, folder.as_str())?;
    Ok(())
}

// Returns whether the system lets this process read what no one may. It lets root, unless that right was taken away.
// The directory `d` of the folder is left without permissions.
fn reads_all<R: Files + AllocGlobal>(rt: &R, root: &str) -> io::Result<bool>
where
    R::File: Drop,
{
    fill(rt, root, &[("d", FolderNode::Mode(0))])?;
    let path = within(rt, root, "d/b")?;
    Ok(fs::symlink_metadata(rt, path.as_str()).is_ok())
}

// Asserts the lines of a walk if the directory `d` of a folder has this mode. A process that may read everything gets
// no fault.
fn assert_locked<R: Files + AllocGlobal + Abort>(
    rt: &R,
    root: &str,
    mode: u32,
    refused: &str,
) -> Result<(), Fail>
where
    R::File: Drop,
{
    let found = if reads_all(rt, root)? {
        "d/b File\nall 1\n"
    } else {
        refused
    };
    fill(rt, root, &[("d", FolderNode::Mode(mode))])?;
    assert_all(rt, root, found)
}

#[test]
fn directories_that_may_not_be_read_are_faults(rt: HostRuntime) -> Result<(), Fail> {
    let folder = own_folder(&rt, "disk_walk_locked")?;
    let root = folder.as_str();
    fill(&rt, root, &[("d", Folder), ("d/b", File(""))])?;
    // Without the permission to list, and then with only that permission.
    assert_locked(&rt, root, 0o300, "d: permission denied\n")?;
    assert_locked(&rt, root, 0o400, "d/b: permission denied\n")?;
    fill(&rt, root, &[("d", FolderNode::Mode(0o700))])?;
    fs::remove_dir_all(&rt, root)?;
    Ok(())
}

static FOLDER: [(&str, FolderNode); 5] = [
    ("d", Folder),
    ("g", Folder),
    ("d/f", File("")),
    ("d/p", File("")),
    ("g/f", File("")),
];

/// What `lstat` reports of that folder.
const REPORTED: [NodeRow<'static>; 3] = [
    ("c", NodeKind::File, b"", 0, None),
    ("d/f", NodeKind::File, b"", 0, None),
    ("d/p", NodeKind::Other, b"", 0, None),
];

// A node that is gone before its `lstat` is skipped.
#[test]
fn nodes_are_what_lstat_returns(rt: HostRuntime) -> Result<(), Fail> {
    let folder = own_folder(&rt, "disk_walk_lstat")?;
    let root = folder.as_str();
    fill(&rt, root, &FOLDER)?;
    let mut reported = worktree(rt.alloc(), &REPORTED)?;
    reported.plant(BStr::from("d/r"), Point::Lstat, Fault::PermissionDenied)?;
    let found = "d/f File\nd/p Untrackable\nall 2\n";
    assert_walk(&rt, root, &reported, &[], ("", 100, found))?;
    fill(&rt, root, &[("d/r", File(""))])?;
    assert_walk(
        &rt,
        root,
        &reported,
        &[],
        ("", 100, "d/r: permission denied\n"),
    )?;
    // A walk that ends before the fault doesn't return it.
    fill(&rt, root, &[("c", File(""))])?;
    assert_walk(
        &rt,
        root,
        &reported,
        &[],
        ("", 1, "c File\ncancelled at 1\n"),
    )?;
    fs::remove_dir_all(&rt, root)?;
    Ok(())
}
