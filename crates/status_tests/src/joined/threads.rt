//! Threads of the joined call: both halves at once, a flag that is set during the call, and one worker or two.

ghost use Rattle.std.specs.Prelude.{None};

use crate::joined::record_lines::{end_of, lines_of};
use crate::joined::rows::{A, FILE_B, FILE_C, RENAMES};
use crate::support::prelude::*;
use crate::support::side_effects::{MANY_TURNS, OnLstat, WatchedWorktree, comes};
use OnLstat::{AwaitsFlag, Meets};
use status_base::worktree::Pathspec;
use status_callers::joined::statuses::{JoinedRequest, joined, options};
use status_callers::joined::walks::{B, C, Found, UNTRACKED, emit_nodes};
use status_joined::index_as_worktree_with_renames::Options;
use status_rewrites::{IdentityTracker, Rewrites};
use status_walk::{Delegate, Outcome, Walk, WalkError};

/// Passes `b`, sets the flag after a call of `lstat` noted that it began, if that is awaited, and then passes `c` and `d`.
#[derive(Clone, Copy)]
struct SetsFlag<'a> {
    alloc: Global,
    is_awaited: bool,
    called: &'a AtomicBool,
    flag: &'a AtomicBool,
}

const D: Found<'static> = Found {
    path: "d",
    ..UNTRACKED
};

impl<'a, W: Worktree> Walk<W> for SetsFlag<'a> {
    ghost walking = { λ _ _ _ _ _. None };

    fn walk<P: Pathspec, E: Delegate>(
        &mut self,
        _worktree: &W,
        _index: &State,
        _pathspec: &P,
        delegate: &mut E,
    ) -> Result<Outcome, WalkError> {
        let first = emit_nodes(self.alloc, &[B], delegate)?;
        if first.cancelled {
            return Ok(first);
        }
        if self.is_awaited && !comes(self.called, MANY_TURNS) {
            return Err(WalkError::Fault {
                rela_path: BString::from_slice(self.alloc, "")?,
                fault: Fault::Other(1),
            });
        }
        self.flag.store(true, Ordering::SeqCst);
        let rest = emit_nodes(self.alloc, &[C, D], delegate)?;
        Ok(Outcome {
            emitted: first.emitted.saturating_add(rest.emitted),
            cancelled: rest.cancelled,
        })
    }
}

/// What `lstat` waits for, whether the walk's flag is passed to the call, whether renames are searched for, how many
/// workers there are at most, the lines of the report, and the end.
type Row = (
    OnLstat,
    bool,
    Option<Rewrites>,
    Option<usize>,
    &'static str,
    &'static str,
);

// `lstat` of `a` ends only after the walk sets the flag, and the walk waits for that call to begin.
const HALVES: OnLstat = AwaitsFlag("a", MANY_TURNS);

// `lstat` of `a` ends only after another worker calls that of `e`.
const WORKERS: OnLstat = Meets("a", "e", MANY_TURNS);

const ALL: &str =
    "0 Removed a\n- Added Untracked b\n- Added Untracked c\n- Added Untracked d\n1 Removed e\n";

const CUT: &str = "0 Removed a\n- Added Untracked b\n- Added Untracked c\n";

const CUT_END: &str = "cut Some((1, 1)), walk Some((2, true)), pairs None";

static ROWS: [Row; 5] = [
    (
        HALVES,
        false,
        None,
        None,
        ALL,
        "cut None, walk Some((3, false)), pairs None",
    ),
    // The nodes that were found before the flag was seen are reported, also with renames.
    (HALVES, true, None, None, CUT, CUT_END),
    (
        HALVES,
        true,
        RENAMES,
        None,
        "- Renamed a b\n- Added Untracked c\n",
        "cut Some((1, 1)), walk Some((2, true)), pairs Some((1, 0))",
    ),
    (
        WORKERS,
        false,
        None,
        Some(2),
        ALL,
        "cut None, walk Some((3, false)), pairs None",
    ),
    // One worker is at one path at a time.
    (
        Meets("a", "e", 1000),
        false,
        None,
        Some(1),
        "",
        "TrackedFileModifications(Io(Other(1)))",
    ),
];

fn options_of(rewrites: Option<Rewrites>, workers: Option<usize>) -> Options {
    let mut options = options(rewrites);
    options.tracked_file_modifications.chunk_size = if workers.is_some() { 1 } else { 100 };
    options.tracked_file_modifications.thread_limit = workers;
    options
}

// Returns whether a status has the report of a row.
fn is_right<R: AllocGlobal + Threads + Wait>(rt: &R, row: &Row) -> Result<bool, Fail> {
    let (on_lstat, is_passed, rewrites, workers, lines, end) = *row;
    let alloc = rt.alloc();
    let (called, flag) = (AtomicBool::new(false), AtomicBool::new(false));
    let index = index(alloc, &[A, foo_entry("e")])?;
    let worktree = WatchedWorktree {
        worktree: worktree(alloc, &[FILE_B, FILE_C])?,
        on_lstat,
        flag: &flag,
        called: &called,
    };
    let request = JoinedRequest {
        walk: SetsFlag {
            alloc,
            is_awaited: matches!(on_lstat, AwaitsFlag(..)),
            called: &called,
            flag: &flag,
        },
        tracker: IdentityTracker::new(alloc),
        options: options_of(rewrites, workers),
        interrupt: is_passed.then_some(&flag),
    };
    let report = joined(rt, &index, &worktree, NoSubmodules, request);
    let found = lines_of(alloc, &report.records)?;
    let ended = end_of(alloc, &report.answer)?;
    Ok(found.as_str() == lines && ended.as_str() == end)
}

#[test]
fn halves_and_workers_run_at_the_same_time(rt: HostRuntime) -> Result<(), Fail> {
    for (at, row) in ROWS.iter().enumerate() {
        assert!(rt; is_right(&rt, row)?, "row {at}");
    }
    Ok(())
}
