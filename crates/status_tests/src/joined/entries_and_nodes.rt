//! The records of an index and the nodes of a walk, in one report: which are in it, in which order, and how far it gets
//! with an interrupt flag or a fault.

use crate::joined::rows::{A, FILE_B, FILE_C, PLAIN, RENAMES, Row, is_right, is_right_untracked};
use crate::support::prelude::*;
use NodeKind::{File, Link, Other};
use status_callers::joined::broken::Point;
use status_callers::joined::trackers::PlannedPair::Renamed;
use status_callers::joined::walks::{B, C, Found, UNTRACKED};
use status_walk::Status;

const FOUND_A: Found<'static> = Found {
    path: "a",
    ..UNTRACKED
};

const IGNORED: Found<'static> = Found {
    status: Status::Ignored,
    ..B
};

const TRACKED: Found<'static> = Found {
    status: Status::Tracked,
    ..B
};

/// A flag is passed, and `a` is clean.
const UNSET: Row<'static> = Row {
    entries: &[A],
    nodes: &[("a", File, b"foo", 3, Some(STAGED)), FILE_B, FILE_C],
    flag: Some(false),
    lines: "- Added Untracked b\n- Added Untracked c\n",
    end: "cut None, walk Some((2, false)), pairs None",
    ..PLAIN
};

static WALKED: [Row; 4] = [
    // A node that can't be tracked is passed by the walk, and not reported.
    Row {
        entries: &[A],
        nodes: &[
            FILE_B,
            ("c/d", Link, b"b", 1, Some(STAGED)),
            ("p", Other, b"", 0, Some(STAGED)),
        ],
        lines: "0 Removed a\n- Added Untracked b\n- Added Untracked c/d\n",
        end: "cut None, walk Some((3, false)), pairs None",
        ..PLAIN
    },
    // Nothing in a submodule is walked. It reports a change of the caller's type.
    Row {
        entries: &[("sub", 0, Mode::Commit, b"foo")],
        nodes: &[("sub/x", File, b"foo", 3, Some(STAGED))],
        submodules: Some(7),
        lines: "0 7 sub\n",
        end: "cut None, walk Some((0, false)), pairs None",
        ..PLAIN
    },
    UNSET,
    // The walk sees the flag when it passes its first node.
    Row {
        flag: Some(true),
        lines: "- Added Untracked b\n",
        end: "cut Some((0, 0)), walk Some((1, true)), pairs None",
        ..UNSET
    },
];

/// A walk passes its nodes in its own order.
const BACKWARDS: Row<'static> = Row {
    entries: &[A, ("c", 0, Mode::File, b"foo")],
    found: &[B, FOUND_A],
    lines: "0 Removed a\n- Added Untracked a\n- Added Untracked b\n1 Removed c\n",
    end: "cut None, walk Some((2, false)), pairs None",
    ..PLAIN
};

/// The worktree isn't walked. A walk, an open file and a tracker that are called would each be an error.
const UNWALKED: Row<'static> = Row {
    entries: &[A],
    nodes: &[FILE_B],
    faults: &[(Point::Open, "b", Fault::Other(7))],
    walk_fault: Some(("d", Fault::Other(6))),
    pairs: &[Renamed(0, 0)],
    dirwalk: false,
    lines: "0 Removed a\n",
    ..PLAIN
};

static ROWS: [Row; 7] = [
    BACKWARDS,
    Row {
        sorted: false,
        lines: "0 Removed a\n1 Removed c\n- Added Untracked b\n- Added Untracked a\n",
        ..BACKWARDS
    },
    // What needs an update or is ignored has no summary.
    Row {
        entries: &[A],
        nodes: &[("a", File, b"foo", 3, Some(LATER))],
        found: &[IGNORED],
        lines: "0 none a\n- none Ignored b\n",
        end: "cut None, walk Some((1, false)), pairs None",
        ..PLAIN
    },
    // The walk sees the flag when it passes its first node, even if that one is dropped.
    Row {
        entries: &[A],
        found: &[TRACKED, C],
        flag: Some(true),
        end: "cut Some((0, 0)), walk Some((1, true)), pairs None",
        ..PLAIN
    },
    // No walk, id or tracker is called if it isn't wanted.
    UNWALKED,
    Row {
        found: &[B],
        walk_fault: None,
        dirwalk: true,
        lines: "0 Removed a\n- Added Untracked b\n",
        end: "cut None, walk Some((1, false)), pairs None",
        ..UNWALKED
    },
    Row {
        pairs: &[],
        rewrites: RENAMES,
        end: "cut None, walk None, pairs Some((0, 0))",
        ..UNWALKED
    },
];

#[test]
fn entries_and_nodes_are_reported_side_by_side(rt: HostRuntime) -> Result<(), Fail> {
    for (at, row) in WALKED.iter().enumerate() {
        assert!(rt; is_right_untracked(&rt, row)?, "walked row {at}");
    }
    for (at, row) in ROWS.iter().enumerate() {
        assert!(rt; is_right(&rt, row)?, "row {at}");
    }
    Ok(())
}
