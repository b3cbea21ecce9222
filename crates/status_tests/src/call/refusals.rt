//! Threads that are refused, rounds that start none, and a collector that runs out of memory.

use crate::call::reports::{Says, Wanted, are_records, is_said};
use crate::support::prelude::*;
use gix_status::index::stat;
use gix_status::index_as_worktree::traits::HashEq;
use gix_status::index_as_worktree::{Capabilities, Error, Record, Recorder};
use status_base::worktree::GuardedWorktree;
use status_call::index_as_worktree::considered::Considered;
use status_call::index_as_worktree::counts::Progress;
use status_call::index_as_worktree::decider::Decider;
use status_call::index_as_worktree::inputs::{Inputs, Settings};
use status_call::index_as_worktree::run_rounds::run_rounds;
use status_call::index_as_worktree::workers::Workers;
use status_callers::collectors::Full;
use status_callers::statuses::{StatusReport, plain_request, report_to};

/// How rounds end.
#[derive(Clone, Copy, PartialEq)]
enum End {
    /// A thread was refused, and nothing is reported.
    Refused,
    /// Each entry is reported as removed.
    Removed,
    /// They were interrupted, and nothing is reported.
    Interrupted,
}

/// The entries of files, none of which is there, how many workers there are at most, whether their stacks are too large
/// for any thread, whether the flag is set, and the end.
type Row = (&'static [&'static str], usize, bool, bool, End);

const THREE: &[&str] = &["a", "b", "c"];

static ROWS: [Row; 5] = [
    (THREE, 2, true, false, End::Refused),
    // The caller alone starts no thread. Nor does it for one piece, for which it is the only worker.
    (THREE, 1, true, false, End::Removed),
    (&["a"], 2, true, false, End::Removed),
    (THREE, 2, false, false, End::Removed),
    // A flag that is set before a round starts none.
    (THREE, 2, true, true, End::Interrupted),
];

// Compares an index with an empty worktree, in pieces of one entry.
fn report_rounds<'index, R: Threads + Wait>(
    index: &'index State,
    workers: &Workers<'_, R>,
    recorder: &mut Recorder<'index, ObjectId, ()>,
) -> Result<Progress, Error> {
    let alloc = workers.alloc;
    let worktree = MemoryWorktree::new(alloc);
    let inputs = Inputs {
        worktree: GuardedWorktree::new(&worktree, false),
        compare: HashEq,
        submodule: NoSubmodules,
        objects: MemoryObjects::new(alloc),
        pathspec: AllPaths,
        filter: NoFilter,
        lister: NoLister,
    };
    let settings = Settings {
        timestamp: index.timestamp(),
        stat: stat::Options::default(),
        fs: Capabilities::default(),
        fscache: false,
    };
    let decider = Decider::new(alloc, inputs, settings);
    let considered = Considered::of(index, BStr::new(b""));
    run_rounds(&considered, 1, workers, &decider, recorder)
}

// Returns how rounds ended with this result and these records, of so many entries. None if no row has it.
fn end_of(
    answer: &Result<Progress, Error>,
    records: &[Record<'_, ObjectId, ()>],
    entries: usize,
) -> Option<End> {
    for (at, record) in records.iter().enumerate() {
        if record.entry_index != at || !is_said(&record.status, Says::Removed) {
            return None;
        }
    }
    match answer {
        Err(Error::SpawnThread) if records.is_empty() => Some(End::Refused),
        Ok(progress) if progress.interrupted && records.is_empty() => Some(End::Interrupted),
        Ok(progress) if !progress.interrupted && records.len() == entries => Some(End::Removed),
        _ => None,
    }
}

// Returns the workers of a row, or None if there can't be as many.
fn workers<'a, R>(
    rt: &'a R,
    alloc: Global,
    row: &Row,
    interrupt: Option<&'a AtomicBool>,
) -> Option<Workers<'a, R>> {
    let (_, count, too_large, _, _) = *row;
    if count < 1 || count > 64 {
        return None;
    }
    Some(Workers {
        rt,
        alloc,
        count,
        stack_size: too_large.then_some(usize::MAX),
        interrupt,
    })
}

// Returns whether rounds end as their row says.
fn is_right<R: AllocGlobal + Threads + Wait>(rt: &R, row: &Row) -> Result<bool, Fail> {
    let (paths, _, _, is_set, end) = *row;
    let alloc = rt.alloc();
    let index = foos(alloc, paths)?;
    let flag = AtomicBool::new(is_set);
    let Some(workers) = workers(rt, alloc, row, Some(&flag)) else {
        return Ok(false);
    };
    let mut recorder = Recorder::new(alloc);
    let answer = report_rounds(&index, &workers, &mut recorder);
    Ok(end_of(&answer, &recorder.records, paths.len()) == Some(end))
}

#[test]
fn a_refused_thread_ends_the_status_and_nothing_is_reported(rt: HostRuntime) -> Result<(), Fail> {
    for (at, row) in ROWS.iter().enumerate() {
        assert!(rt; is_right(&rt, row)?, "row {at}");
    }
    Ok(())
}

/// Calls the status with a collector that has memory for `room` records.
fn status_with_room<'index, R: AllocGlobal + Threads + Wait, W: Worktree + Sync>(
    rt: &R,
    index: &'index State,
    worktree: &W,
    room: usize,
) -> StatusReport<'index, ObjectId, ()>
where
    W::File: Send,
{
    let alloc = rt.alloc();
    let collector = Recorder::new(alloc);
    let mut full = Full {
        collector,
        room,
        flag: None,
    };
    let request = plain_request(alloc);
    let answer = report_to(rt, index, worktree, &mut full, HashEq, request, None);
    StatusReport {
        records: full.collector.records,
        answer,
    }
}

#[test]
fn a_collector_that_is_refused_memory_ends_the_status(rt: HostRuntime) -> Result<(), Fail> {
    let gone: [Wanted<'_>; 3] = [
        (0, "a", Says::Removed),
        (1, "b", Says::Removed),
        (2, "c", Says::Removed),
    ];
    let (index, worktree) = (foos(rt.alloc(), THREE)?, MemoryWorktree::new(rt.alloc()));
    for room in [2, 3] {
        let report = status_with_room(&rt, &index, &worktree, room);
        let is_cut = matches!(&report.answer, Err(Error::Memory));
        assert!(rt; are_records(&report.records, &gone[..room]), "{room}");
        assert_eq!(rt; (is_cut, report.answer.is_ok()), (room < 3, room == 3));
    }
    Ok(())
}
