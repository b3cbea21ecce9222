//! Listings of directories, which replace calls of `lstat`, and how often a directory is listed and `lstat` called on it.

use crate::call::reports::{Says, is_report, read};
use crate::support::inputs::LISTED_FILE;
use crate::support::prelude::*;
use crate::support::side_effects::CountingLister;
use gix_status::fscache::Stat;
use gix_status::index_as_worktree::{Capabilities, Options, Outcome};
use status_callers::listers::{Directories, Directory};
use status_callers::statuses::{options, status_without_threads};

const LISTED_DIRECTORY: Stat = Stat {
    is_dir: true,
    ..LISTED_FILE
};

/// The root lists two files and a directory; `d` can't be listed; `l` lists a file.
const DIRECTORIES: [Directory<'static>; 3] = [
    (
        "",
        Some(&[
            ("clean", LISTED_FILE),
            ("directory", LISTED_DIRECTORY),
            ("executable", LISTED_FILE),
        ]),
    ),
    ("d", None),
    ("l", Some(&[("x", LISTED_FILE)])),
];

/// Each file is unchanged. A link is at `l`, which has a listing like a directory.
const NODES: [NodeRow<'static>; 6] = [
    ("clean", NodeKind::File, b"foo", 3, Some(STAGED)),
    ("directory", NodeKind::File, b"foo", 3, Some(STAGED)),
    ("executable", NodeKind::File, b"foo", 3, Some(STAGED)),
    ("d/x", NodeKind::File, b"foo", 3, Some(STAGED)),
    ("d/y", NodeKind::File, b"foo", 3, Some(STAGED)),
    ("l", NodeKind::Link, b"d", 1, Some(LATER)),
];

/// The status of each entry, if it has one, how often `lstat` is called on entries' paths, and how many files of three
/// bytes are read.
type Answer = (Option<Says<'static>>, usize, usize);

/// Entries, their mode, and the results of the status with listings and without. The entries are alike: `lstat` is called
/// on the paths of all, or of none.
type Row = (&'static [&'static str], Mode, Answer, Answer);

const REMOVED: Option<Says<'static>> = Some(Says::Removed);

static ROWS: [Row; 5] = [
    (&["clean"], Mode::File, (None, 0, 0), (None, 1, 0)),
    // A listed directory is no file.
    (&["directory"], Mode::File, (REMOVED, 0, 0), (None, 1, 0)),
    // A listed file is never executable. It is read, because its executability seems to have changed.
    (
        &["executable"],
        Mode::FileExecutable,
        (Some(Says::Executable), 0, 1),
        (None, 1, 0),
    ),
    // The directory can't be listed.
    (&["d/x", "d/y"], Mode::File, (None, 2, 0), (None, 2, 0)),
    // No path leads through a link, whatever is listed below it.
    (&["l/x"], Mode::File, (REMOVED, 0, 0), (REMOVED, 0, 0)),
];

// Returns the worktree of the nodes, one of which is executable.
fn files(alloc: Global) -> Result<MemoryWorktree, Fail> {
    let mut files = worktree(alloc, &NODES)?;
    let path = BStr::from("executable");
    if let Some(mut node) = files.remove(path) {
        node.executable = true;
        files.put(path, node)?;
    }
    Ok(files)
}

// Returns options by which executability counts, or not, and listings are used, or not.
fn options_by(executable_bit: bool, fscache: bool) -> Options {
    Options {
        fs: Capabilities {
            symlink: true,
            executable_bit,
        },
        fscache,
        ..options()
    }
}

// Returns whether a status has the result of its row, with listings or without, and calls `lstat` and `open` on the
// first path as often.
fn is_right(alloc: Global, row: &Row, fscache: bool) -> Result<bool, Fail> {
    let (paths, mode, listed, unlisted) = *row;
    let (says, lstats, opens) = if fscache { listed } else { unlisted };
    let (mut entries, mut wanted) = (Vec::new(alloc), Vec::new(alloc));
    for (at, path) in paths.iter().enumerate() {
        entries.push((*path, 0, mode, b"foo".as_slice()))?;
        if let Some(says) = says {
            wanted.push((at, *path, says))?;
        }
    }
    let (index, calls) = (index(alloc, &entries)?, Calls::new());
    let first = paths.first().map_or("", |path| *path);
    let worktree = counted(files(alloc)?, first, &calls);
    let lister = Directories {
        alloc,
        directories: &DIRECTORIES,
    };
    let options = options_by(mode == Mode::FileExecutable, fscache);
    let report = status_without_threads(alloc, &index, &worktree, lister, options);
    let outcome = Outcome {
        symlink_metadata_calls: lstats,
        ..read(paths.len(), opens, (opens as u64).saturating_mul(3))
    };
    let is_counted = calls.made() == (lstats.min(1), opens);
    Ok(is_counted && is_report(&report, &wanted, &Ok(outcome)))
}

#[test]
fn listings_replace_lstat(rt: HostRuntime) -> Result<(), Fail> {
    for row in &ROWS {
        for fscache in [true, false] {
            assert!(rt;
                is_right(rt.alloc(), row, fscache)?,
                "{:?}, {fscache}",
                row.0
            );
        }
    }
    Ok(())
}

/// The directory `d` lists two files.
const TWO_FILES: [Directory<'static>; 1] = [("d", Some(&[("x", LISTED_FILE), ("y", LISTED_FILE)]))];

/// Returns how often a status calls the lister, with three entries in `d`, one of which is gone. None if it doesn't
/// report that one, or doesn't call `lstat` on `d` once.
fn lists(alloc: Global, fscache: bool) -> Result<Option<usize>, Fail> {
    let index = foos(alloc, &["d/gone", "d/x", "d/y"])?;
    let (calls, lists) = (Calls::new(), AtomicUsize::new(0));
    let worktree = counted(worktree(alloc, &NODES)?, "d", &calls);
    let directories = &TWO_FILES;
    let lister = CountingLister {
        lister: Directories { alloc, directories },
        calls: &lists,
        refuses: None,
    };
    let options = Options {
        chunk_size: 1,
        ..options_by(false, fscache)
    };
    let report = status_without_threads(alloc, &index, &worktree, lister, options);
    let is_right = report.answer.is_ok() && report.records.len() == 1 && calls.made() == (1, 0);
    Ok(is_right.then_some(lists.load(Ordering::SeqCst)))
}

#[test]
fn one_lstat_and_one_listing_of_a_directory_serve_its_entries(rt: HostRuntime) -> Result<(), Fail> {
    assert_eq!(rt; lists(rt.alloc(), true)?, Some(1));
    // Without the option the lister isn't called.
    assert_eq!(rt; lists(rt.alloc(), false)?, Some(0));
    Ok(())
}
