//! Copies of the arguments of both calls, of their records and of an outcome.

use crate::call::reports::status_by_pieces;
use crate::joined::record_lines::lines_of;
use crate::joined::rows::{A, FILE_B, FILE_C, RENAMES};
use crate::support::prelude::*;
use gix_status::index_as_worktree::Context;
use status_callers::joined::broken::Broken;
use status_callers::joined::statuses::{JoinedRequest, joined};
use status_callers::joined::trackers::Answers;
use status_callers::joined::trackers::PlannedPair::{Copied, Renamed};
use status_callers::joined::walks::{B, C, Found, Passes, UNTRACKED};
use status_callers::statuses::{StatusReport, options};
use status_joined::index_as_worktree_with_renames::{Options, Sorting};

/// Returns whether copies of options and of a context equal them.
fn are_inputs_copied() -> Result<bool, AllocError> {
    let flag = AtomicBool::new(false);
    let context = Context {
        pathspec: AllPaths,
        filter: NoFilter,
        lister: NoLister,
        should_interrupt: Some(&flag),
    };
    let copy = context.clone()?;
    flag.store(true, Ordering::SeqCst);
    let is_same_flag = match copy.should_interrupt {
        Some(copied) => copied.load(Ordering::SeqCst),
        None => false,
    };
    Ok(options().clone()? == options() && is_same_flag)
}

/// Returns whether a status succeeded with one record, and copies of the record and the outcome equal them.
fn is_report_copied(report: &StatusReport<'_, ObjectId, ()>) -> Result<bool, AllocError> {
    let (Some(record), Ok(outcome)) = (report.records.first(), &report.answer) else {
        return Ok(false);
    };
    let copy = record.clone()?;
    let is_place = copy.entry_index == 0 && copy.relative_path == record.relative_path;
    Ok(is_place && copy.status == record.status && outcome.clone()? == *outcome)
}

#[test]
fn a_status_can_be_copied(rt: HostRuntime) -> Result<(), Fail> {
    assert!(rt; are_inputs_copied()?);
    let (index, worktree) = (foos(rt.alloc(), &["f"])?, worktree(rt.alloc(), &[])?);
    let report = status_by_pieces(&rt, &index, &worktree, 0, 1);
    assert!(rt; is_report_copied(&report)?);
    Ok(())
}

/// The untracked file `d`.
const D: Found<'static> = Found {
    path: "d",
    ..UNTRACKED
};

/// A record of each form.
const LINES: &str = "- Renamed a b\n- Added Untracked c\n- Copied c d\n1 Removed e\n";

// Returns whether copies of records of each form have their lines.
fn are_copied<R: AllocGlobal + Threads + Wait>(rt: &R) -> Result<bool, Fail> {
    let alloc = rt.alloc();
    let index = index(alloc, &[A, foo_entry("e")])?;
    let d = ("d", NodeKind::File, b"foo".as_slice(), 3, Some(STAGED));
    let worktree = Broken {
        worktree: worktree(alloc, &[FILE_B, FILE_C, d])?,
        faults: &[],
    };
    let walk = Passes {
        alloc,
        nodes: &[B, C, D],
        fault: None,
    };
    let pairs = &[Renamed(0, 1), Copied(2, 3)];
    let request = JoinedRequest::new(walk, Answers { alloc, pairs }, RENAMES);
    let report = joined(rt, &index, &worktree, NoSubmodules, request);
    let text = lines_of(alloc, &report.records.clone()?)?;
    Ok(text.as_str() == LINES)
}

#[test]
fn a_joined_status_can_be_copied(rt: HostRuntime) -> Result<(), Fail> {
    assert!(rt; are_copied(&rt)?);
    let options = Options {
        sorting: Some(Sorting::ByPathCaseSensitive),
        fscache: true,
        dirwalk: true,
        ..Options::default()
    };
    let copy = options.clone()?;
    assert_eq!(rt; copy.sorting, options.sorting);
    assert!(rt; copy.fscache && copy.dirwalk);
    Ok(())
}
