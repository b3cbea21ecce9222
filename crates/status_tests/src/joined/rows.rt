//! Rows: a small index, a worktree, the arguments of the call, and its report.

use crate::joined::record_lines::{end_of, lines_of};
use crate::support::prelude::*;
use status_callers::joined::broken::{Broken, Point};
use status_callers::joined::statuses::{JoinedRequest, joined, options};
use status_callers::joined::trackers::{Answers, PlannedPair};
use status_callers::joined::walks::{Found, Passes};
use status_callers::submodules::Alike;
use status_joined::index_as_worktree_with_renames::Options;
use status_rewrites::Rewrites;
use status_walk::{UntrackedWalk, Walk};

/// The plain entry `a`.
pub const A: EntryRow<'static> = ("a", 0, Mode::File, b"foo");

/// The files `b` and `c`, of the content `foo`.
pub const FILE_B: NodeRow<'static> = ("b", NodeKind::File, b"foo", 3, Some(STAGED));

pub const FILE_C: NodeRow<'static> = ("c", NodeKind::File, b"foo", 3, Some(STAGED));

/// An index, a worktree, the arguments of the call, and its report.
#[derive(Clone, Copy)]
pub struct Row<'a> {
    pub entries: &'a [EntryRow<'a>],
    pub nodes: &'a [NodeRow<'a>],
    pub faults: &'a [(Point, &'a str, Fault)],
    /// The nodes that the walk passes, and the path and the fault with which it ends, if it fails.
    pub found: &'a [Found<'a>],
    pub walk_fault: Option<(&'a str, Fault)>,
    /// The pairs that the tracker returns.
    pub pairs: &'a [PlannedPair],
    /// The change that each submodule reports.
    pub submodules: Option<u32>,
    pub sorted: bool,
    pub dirwalk: bool,
    pub rewrites: Option<Rewrites>,
    /// Whether the interrupt flag is set, if one is passed.
    pub flag: Option<bool>,
    pub lines: &'a str,
    /// How it ends.
    pub end: &'a str,
}

/// An empty index and an empty worktree. It is walked, the list is sorted, and no renames are looked for.
pub const PLAIN: Row<'static> = Row {
    entries: &[],
    nodes: &[],
    faults: &[],
    found: &[],
    walk_fault: None,
    pairs: &[],
    submodules: None,
    sorted: true,
    dirwalk: true,
    rewrites: None,
    flag: None,
    lines: "",
    end: "cut None, walk None, pairs None",
};

/// Renames and copies, except those of empty files.
pub const RENAMES: Option<Rewrites> = Some(Rewrites { track_empty: false });

fn options_of(row: &Row<'_>) -> Options {
    let mut options = options(row.rewrites);
    if !row.sorted {
        options.sorting = None;
    }
    options.dirwalk = row.dirwalk;
    options
}

// Returns whether the call has the report of a row, over any worktree with any walk.
fn is_reported<R: AllocGlobal + Threads + Wait, W: Worktree + Sync, K: Walk<W> + Send + Drop>(
    rt: &R,
    worktree: &W,
    walk: K,
    row: &Row<'_>,
) -> Result<bool, Fail>
where
    W::File: Send,
{
    let (alloc, flag) = (rt.alloc(), AtomicBool::new(row.flag == Some(true)));
    let index = index(alloc, row.entries)?;
    let request = JoinedRequest {
        walk,
        tracker: Answers {
            alloc,
            pairs: row.pairs,
        },
        options: options_of(row),
        interrupt: row.flag.is_some().then_some(&flag),
    };
    let submodules = Alike {
        alloc,
        answer: Ok(row.submodules),
    };
    let report = joined(rt, &index, worktree, submodules, request);
    let (lines, end) = (
        lines_of(alloc, &report.records)?,
        end_of(alloc, &report.answer)?,
    );
    Ok(lines.as_str() == row.lines && end.as_str() == row.end)
}

/// Returns whether the call has the report of a row.
pub fn is_right<R: AllocGlobal + Threads + Wait>(rt: &R, row: &Row<'_>) -> Result<bool, Fail> {
    let alloc = rt.alloc();
    let worktree = Broken {
        worktree: worktree(alloc, row.nodes)?,
        faults: row.faults,
    };
    let walk = Passes {
        alloc,
        nodes: row.found,
        fault: row.walk_fault,
    };
    is_reported(rt, &worktree, walk, row)
}

/// Returns the same, if the worktree has no fault and is walked by `UntrackedWalk`.
pub fn is_right_untracked<R: AllocGlobal + Threads + Wait>(
    rt: &R,
    row: &Row<'_>,
) -> Result<bool, Fail> {
    let worktree = worktree(rt.alloc(), row.nodes)?;
    is_reported(rt, &worktree, UntrackedWalk::new(rt.alloc()), row)
}
