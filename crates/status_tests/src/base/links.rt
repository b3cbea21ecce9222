//! The check of paths that lead through links: each form of result, and that the counted calls of `lstat` are made.

use crate::support::prelude::*;
use NodeKind::{Directory, File, Link};
use status_base::stack::SymlinkCheck;
use status_callers::worktrees::Counted;

const NODES: [NodeRow<'static>; 5] = [
    ("a", Directory, b"", 0, Some(STAGED)),
    ("a/b", Directory, b"", 0, Some(STAGED)),
    ("a/e", Directory, b"", 0, Some(STAGED)),
    ("f", File, b"", 0, Some(STAGED)),
    ("l", Link, b"a", 1, Some(STAGED)),
];

/// A directory whose name begins with that of a link.
const ALIKE: [NodeRow<'static>; 2] = [
    ("a", Link, b"f", 1, Some(STAGED)),
    ("ab", Directory, b"", 0, Some(STAGED)),
];

/// A path, whether a directory above it may be absent, the result of a check below the root `r`, and how often it has
/// called `lstat` by then.
type Row = (&'static str, bool, &'static str, u64);

/// The paths that one check is called with, in order.
const ROWS: [Row; 18] = [
    ("a", false, "Ok(\"r/a\")", 0),
    // It calls `lstat` for `a` and `a/b`; for nothing new; for `a/e`.
    ("a/b/c", false, "Ok(\"r/a/b/c\")", 2),
    ("a/b/d", false, "Ok(\"r/a/b/d\")", 2),
    ("a/e/f", false, "Ok(\"r/a/e/f\")", 3),
    // A path that isn't normal is refused before any call of `lstat`.
    ("", false, "Err(EmptyPath)", 3),
    ("a/b/../c", false, "Err(NotNormal { component: \"..\" })", 3),
    ("./a", false, "Err(NotNormal { component: \".\" })", 3),
    ("a//b", false, "Err(NotNormal { component: \"\" })", 3),
    // It calls `lstat` for directories, and not for the path itself.
    ("l", false, "Ok(\"r/l\")", 3),
    ("l/x", false, "Err(ThroughLink { prefix: \"l\" })", 4),
    ("l", false, "Ok(\"r/l\")", 4),
    ("f/x/y", false, "Err(Fault(NotADirectory))", 6),
    ("f/x", false, "Ok(\"r/f/x\")", 6),
    ("a/x", false, "Ok(\"r/a/x\")", 7),
    ("q/x", false, "Err(Fault(NotFound))", 8),
    ("a/y", false, "Ok(\"r/a/y\")", 9),
    ("p/x", true, "Ok(\"r/p/x\")", 10),
    ("l/x", true, "Err(ThroughLink { prefix: \"l\" })", 11),
];

const ALIKE_ROWS: [Row; 2] = [
    ("ab/x", false, "Ok(\"r/ab/x\")", 1),
    ("a/x", false, "Err(ThroughLink { prefix: \"a\" })", 2),
];

/// Returns the result of a check for a path, as a text. If `may_be_absent`, the path may lead to nothing.
fn answer(
    alloc: Global,
    check: &mut SymlinkCheck,
    worktree: &Counted<'_, MemoryWorktree>,
    path: &str,
    may_be_absent: bool,
) -> Result<String, AllocError> {
    let path = BStr::from(path);
    let answer = if may_be_absent {
        check.verified_path_allow_nonexisting(worktree, path)
    } else {
        check.verified_path(worktree, path)
    };
    format!(in alloc; "{answer:?}")
}

/// Returns whether a check has the result of a row, counts as many calls of `lstat` as were made, and keeps its root.
fn is_row(
    alloc: Global,
    check: &mut SymlinkCheck,
    worktree: &Counted<'_, MemoryWorktree>,
    row: &Row,
) -> Result<bool, AllocError> {
    let (path, may_be_absent, want, looks) = *row;
    let found = answer(alloc, check, worktree, path, may_be_absent)?;
    let (made, _) = worktree.calls.made();
    let is_counted = check.looks() == looks && made as u64 == looks;
    Ok(found.as_str() == want && is_counted && check.root() == BStr::from("r"))
}

// Asserts the results of one check below the root `r`, for paths in order.
fn assert_rows<R: AllocGlobal + Abort>(
    rt: &R,
    nodes: &[NodeRow<'_>],
    rows: &[Row],
) -> Result<(), Fail> {
    let calls = Calls::new();
    let worktree = Counted {
        worktree: worktree(rt.alloc(), nodes)?,
        path: None,
        calls: &calls,
    };
    let root = BString::from_slice(rt.alloc(), "r")?;
    let mut check = SymlinkCheck::new(rt.alloc(), root);
    for row in rows {
        assert!(rt;
            is_row(rt.alloc(), &mut check, &worktree, row)?,
            "at {}",
            row.0
        );
    }
    Ok(())
}

#[test]
fn lstat_is_called_once_for_each_directory(rt: HostRuntime) -> Result<(), Fail> {
    assert_rows(&rt, &NODES, &ROWS)?;
    assert_rows(&rt, &ALIKE, &ALIKE_ROWS)
}
