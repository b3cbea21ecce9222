//! Files that a filter converts.

use crate::call::reports::{Says, Wanted, is_report, read, updated};
use crate::support::prelude::*;
use gix_status::index_as_worktree::Outcome;
use gix_status::index_as_worktree::traits::HashEq;
use status_callers::WithoutReturns;
use status_callers::statuses::{StatusRequest, options, status_of};

/// Returns whether a status by ids without carriage returns has these records and this outcome.
fn is_converted<R: AllocGlobal + Threads + Wait>(
    rt: &R,
    entries: &[EntryRow<'_>],
    nodes: &[NodeRow<'_>],
    wanted: &[Wanted<'_>],
    outcome: Outcome,
) -> Result<bool, Fail> {
    let index = index(rt.alloc(), entries)?;
    let worktree = worktree(rt.alloc(), nodes)?;
    let objects = MemoryObjects::new(rt.alloc());
    let request = StatusRequest::new(NoSubmodules, objects, AllPaths, WithoutReturns, options());
    let report = status_of(rt, &index, &worktree, HashEq, request);
    Ok(is_report(&report, wanted, &Ok(outcome)))
}

#[test]
fn what_a_filter_stores_is_compared_and_counted(rt: HostRuntime) -> Result<(), Fail> {
    let line = ("a", 0, Mode::File, b"a\n".as_slice());
    let file = later_file("a", b"a\r\n");
    let (says, took) = ((0, "a", Says::Updated), updated(1, read(1, 1, 2)));
    assert!(rt; is_converted(&rt, &[line], &[file], &[says], took)?);
    let entries = [line, foo_entry("b"), foo_entry("c")];
    let nodes = [file, later_file("b", b"bars"), later_file("c", b"foo")];
    let bars = (1, "b", Says::Changed(b"bars"));
    let wanted = [says, bars, (2, "c", Says::Updated)];
    let took = updated(2, read(3, 3, 9));
    assert!(rt; is_converted(&rt, &entries, &nodes, &wanted, took)?);
    Ok(())
}
