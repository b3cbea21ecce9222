//! Renames and copies that a tracker of the caller's finds, pairs that break a rule, and faults.

use crate::joined::rows::{A, FILE_B, FILE_C, PLAIN, RENAMES, Row, is_right};
use crate::support::prelude::*;
use NodeKind::File;
use status_callers::joined::broken::Point;
use status_callers::joined::trackers::PlannedPair::{Copied, Renamed};
use status_callers::joined::walks::{B, C};

/// The entry `a` has other content, and `b` is untracked.
const MODIFIED: Row<'static> = Row {
    entries: &[A],
    nodes: &[("a", File, b"bar", 3, Some(LATER)), FILE_B],
    found: &[B],
    rewrites: RENAMES,
    ..PLAIN
};

/// The copied file is reported by itself too.
const COPIED: Row<'static> = Row {
    pairs: &[Copied(0, 1)],
    lines: "0 Modified a\n- Copied a b\n",
    end: "cut None, walk Some((1, false)), pairs Some((0, 1))",
    ..MODIFIED
};

/// The entries `a` and `b` are gone, and `c` is untracked.
const GONE: Row<'static> = Row {
    entries: &[A, ("b", 0, Mode::File, b"foo")],
    nodes: &[FILE_C],
    found: &[C],
    rewrites: RENAMES,
    ..PLAIN
};

/// The untracked file may not be read.
const LOCKED: &[(Point, &str, Fault)] = &[(Point::Open, "b", Fault::PermissionDenied)];

static ROWS: [Row; 8] = [
    // The rename is reported by the path of its destination.
    Row {
        pairs: &[Renamed(0, 2)],
        lines: "1 Removed b\n- Renamed a c\n",
        end: "cut None, walk Some((1, false)), pairs Some((1, 0))",
        ..GONE
    },
    COPIED,
    // A file that may not be read has the null id.
    Row {
        faults: LOCKED,
        lines: "0 Modified a\n- Copied a b null\n",
        ..COPIED
    },
    Row {
        faults: LOCKED,
        lines: "0 Modified a\n- Added Untracked b\n",
        end: "cut None, walk Some((1, false)), pairs Some((0, 0))",
        ..MODIFIED
    },
    // Another fault is an error, and nothing is reported.
    Row {
        faults: &[(Point::Open, "b", Fault::Other(7))],
        end: "OpenWorktreeFile(Other(7))",
        ..MODIFIED
    },
    // The walk's fault is returned before that of an entry.
    Row {
        faults: &[(Point::Open, "a", Fault::Other(1))],
        walk_fault: Some(("d", Fault::Other(6))),
        end: "DirWalk(Fault { rela_path: \"d\", fault: Other(6) })",
        ..MODIFIED
    },
    // A modified file is not renamed.
    Row {
        pairs: &[Renamed(0, 1)],
        end: "RewriteTracker(BadPair { at: 0 })",
        ..MODIFIED
    },
    // Two files are not renamed to one.
    Row {
        pairs: &[Renamed(0, 2), Renamed(1, 2)],
        end: "RewriteTracker(BadPair { at: 1 })",
        ..GONE
    },
];

#[test]
fn renames_copies_and_faults_are_reported(rt: HostRuntime) -> Result<(), Fail> {
    for row in &ROWS {
        assert!(rt; is_right(&rt, row)?, "{}, {}", row.lines, row.end);
    }
    Ok(())
}
