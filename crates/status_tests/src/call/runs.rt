//! How far a status gets, with any number of workers: to the end, until it sees its flag set, or up to a fault.

use crate::call::reports::{Says, by_pieces, is_said, read};
use crate::support::inputs::new_node;
use crate::support::prelude::*;
use crate::support::side_effects::{MANY_TURNS, OnLstat, WatchedWorktree};
use End::{Cut, Denied, Ended, Whole};
use Event::{Caller, Collector, Lstat, Never};
use Files::{Below, Changed, Gone};
use OnLstat::{FindsLink, Meets, Nothing, SetsFlag};
use gix_status::index_as_worktree::traits::HashEq;
use gix_status::index_as_worktree::{Error, Options, Outcome, Record, Recorder};
use gix_status::worktree::Point;
use status_callers::collectors::Full;
use status_callers::statuses::{StatusReport, report_to, report_without_threads, request_with};

/// The files at the entries' paths, whose names are numbers of four digits.
#[derive(Clone, Copy)]
enum Files {
    /// A file with the content `bar`, which was written after the entry was staged. If no record is expected of the
    /// entry, the file can't be opened.
    Changed,
    /// Nothing.
    Gone,
    /// Nothing. The paths are in a directory `d`, which has another file.
    Below,
}

/// What happens: the flag is set by the caller, before the call, or by the collector, at the first record; or `lstat`
/// has a side effect.
#[derive(Clone, Copy)]
enum Event {
    Never,
    Caller,
    Collector,
    Lstat(OnLstat),
}

#[derive(Clone, Copy)]
enum End {
    Whole,
    /// It is interrupted.
    Cut,
    /// It succeeds. How often it calls `lstat` depends on the workers.
    Ended,
    /// A file can't be opened.
    Denied,
}

/// How many entries there are, their files, the size of a piece, the limit of threads, what happens, how many entries
/// are processed, each of which has a record, the end, and how often `lstat` and `open` are called on the path of this
/// number.
type Row = (
    usize,
    Files,
    usize,
    Option<usize>,
    Event,
    usize,
    End,
    (usize, usize, usize),
);

const ONE: Option<usize> = Some(1);

const TWO: Option<usize> = Some(2);

const THREE: Option<usize> = Some(3);

const AT_0: Event = Lstat(SetsFlag("0000"));

const AT_2: Event = Lstat(SetsFlag("0002"));

const MEETING: Event = Lstat(Meets("0000", "0001", MANY_TURNS));

const LINK: Event = Lstat(FindsLink("d"));

static ROWS: [Row; 17] = [
    // A flag that is set from the start ends it at once.
    (2, Changed, 0, None, Caller, 0, Cut, (0, 0, 0)),
    // A piece ends after the entry at which the flag is seen.
    (5, Changed, 5, ONE, AT_2, 3, Cut, (2, 1, 1)),
    // No later piece is begun.
    (4, Changed, 1, ONE, AT_0, 1, Cut, (2, 0, 0)),
    // A flag that the collector sets ends it after the round, which has eight pieces of each worker.
    (10, Changed, 1, ONE, Collector, 8, Cut, (8, 0, 0)),
    (20, Gone, 2, ONE, Collector, 16, Cut, (16, 0, 0)),
    (40, Gone, 2, TWO, Collector, 32, Cut, (32, 0, 0)),
    // A chunk size of 0 is one of 500. Without a limit, or with 0, there are four workers.
    (4001, Gone, 0, ONE, Collector, 4000, Cut, (4000, 0, 0)),
    (40, Gone, 1, None, Collector, 32, Cut, (32, 0, 0)),
    (40, Gone, 1, Some(0), Collector, 32, Cut, (32, 0, 0)),
    // A flag that stays unset interrupts nothing.
    (20, Gone, 1, ONE, Never, 20, Whole, (19, 1, 0)),
    (20, Gone, 1, THREE, Never, 20, Whole, (19, 1, 0)),
    // The first fault ends it, whichever workers meet another one.
    (5, Changed, 1, ONE, Never, 3, Denied, (3, 1, 1)),
    (5, Changed, 1, Some(8), Never, 3, Denied, (3, 1, 1)),
    (5, Changed, 2, THREE, Never, 3, Denied, (3, 1, 1)),
    // Two workers run at the same time.
    (2, Changed, 1, TWO, MEETING, 2, Whole, (0, 1, 1)),
    // A directory becomes a link meanwhile.
    (40, Below, 1, ONE, LINK, 40, Ended, (0, 1, 0)),
    (40, Below, 1, THREE, LINK, 40, Ended, (40, 0, 0)),
];

/// Without threads there are no rounds: the flag is checked before each entry and after each piece, whose records are
/// reported before the next piece.
static SERIAL: [Row; 4] = [
    (5, Changed, 5, None, AT_2, 3, Cut, (2, 1, 1)),
    (4, Changed, 1, None, AT_0, 1, Cut, (2, 0, 0)),
    (5, Gone, 4, None, Collector, 4, Cut, (4, 0, 0)),
    (5, Changed, 2, Some(0), Never, 3, Denied, (4, 0, 0)),
];

// Returns the path of an entry.
fn path_of(alloc: Global, files: Files, number: usize) -> Result<String, AllocError> {
    let front = if matches!(files, Below) { "d/" } else { "" };
    format!(in alloc; "{front}{number:04}")
}

fn index_of(alloc: Global, paths: &[String]) -> Result<State, Fail> {
    let mut entries = Vec::new(alloc);
    for path in paths {
        entries.push(foo_entry(path.as_str()))?;
    }
    Ok(index(alloc, &entries)?)
}

fn files_of(alloc: Global, row: &Row, paths: &[String]) -> Result<MemoryWorktree, Fail> {
    match row.1 {
        Gone => return Ok(MemoryWorktree::new(alloc)),
        Below => return Ok(worktree(alloc, &[later_file("d/other", b"bar")])?),
        Changed => {}
    }
    let mut files = MemoryWorktree::new(alloc);
    let mut fault = Fault::PermissionDenied;
    for (at, path) in paths.iter().enumerate() {
        let (_path, kind, bytes, len, mtime) = later_file(path.as_str(), b"bar");
        files.put(
            BStr::from(path.as_str()),
            new_node(alloc, kind, bytes, len, mtime)?,
        )?;
        if at >= row.5 {
            files.plant(BStr::from(path.as_str()), Point::Open, fault)?;
            fault = Fault::Interrupted;
        }
    }
    Ok(files)
}

fn is_ended(answer: &Result<Outcome, Error>, row: &Row) -> bool {
    let records = row.5;
    let files = if matches!(row.1, Changed) { records } else { 0 };
    let outcome = Outcome {
        entries_to_process: row.0,
        interrupted: matches!(row.6, Cut),
        ..read(records, files, (files as u64).saturating_mul(3))
    };
    match (row.6, answer) {
        (Denied, Err(Error::Io(found))) => *found == Fault::PermissionDenied,
        (Whole | Cut, Ok(found)) => *found == outcome,
        (Ended, Ok(_)) => true,
        _ => false,
    }
}

// Returns whether there is a record of each entry that is processed.
fn are_records(records: &[Record<'_, ObjectId, ()>], row: &Row) -> bool {
    let says = match row.1 {
        Changed => Says::Changed(b"bar"),
        Gone | Below => Says::Removed,
    };
    for (at, record) in records.iter().enumerate() {
        if record.entry_index != at || !is_said(&record.status, says) {
            return false;
        }
    }
    records.len() == row.5
}

// Calls the status by ids with an interrupt flag, with or without threads. The collector sets `of_collector` at each
// record.
fn interruptible_status<'index, R: AllocGlobal + Threads + Wait, W: Worktree + Sync>(
    rt: &R,
    index: &'index State,
    worktree: &W,
    options: Options,
    is_serial: bool,
    of_collector: Option<&AtomicBool>,
    interrupt: &AtomicBool,
) -> StatusReport<'index, ObjectId, ()>
where
    W::File: Send,
{
    let alloc = rt.alloc();
    let mut collector = Full {
        collector: Recorder::new(alloc),
        room: usize::MAX,
        flag: of_collector,
    };
    let (found, flag) = (&mut collector, Some(interrupt));
    let answer = if is_serial {
        report_without_threads(alloc, index, worktree, found, NoLister, options, flag)
    } else {
        let request = request_with(alloc, options);
        report_to(rt, index, worktree, found, HashEq, request, flag)
    };
    StatusReport {
        records: collector.collector.records,
        answer,
    }
}

// Returns whether a status with threads or without gets as far as its row says.
fn is_right<R: AllocGlobal + Threads + Wait>(
    rt: &R,
    row: &Row,
    is_serial: bool,
) -> Result<bool, Fail> {
    let (count, kind, chunk_size, limit, event, _, _, (number, looks, opens)) = *row;
    let alloc = rt.alloc();
    let mut paths = Vec::new(alloc);
    for number in 0..count {
        paths.push(path_of(alloc, kind, number)?)?;
    }
    let index = index_of(alloc, &paths)?;
    let (flag, called) = (
        AtomicBool::new(matches!(event, Caller)),
        AtomicBool::new(false),
    );
    let watched = WatchedWorktree {
        worktree: files_of(alloc, row, &paths)?,
        on_lstat: if let Lstat(effect) = event {
            effect
        } else {
            Nothing
        },
        flag: &flag,
        called: &called,
    };
    let (path, calls) = (path_of(alloc, kind, number)?, Calls::new());
    let worktree = counted(watched, path.as_str(), &calls);
    let of_collector = matches!(event, Collector).then_some(&flag);
    let options = by_pieces(chunk_size, limit);
    let report = interruptible_status(
        rt,
        &index,
        &worktree,
        options,
        is_serial,
        of_collector,
        &flag,
    );
    let is_counted = calls.made() == (looks, opens);
    Ok(is_counted && are_records(&report.records, row) && is_ended(&report.answer, row))
}

#[test]
fn a_flag_or_a_fault_ends_a_status_with_any_workers(rt: HostRuntime) -> Result<(), Fail> {
    for (at, row) in ROWS.iter().enumerate() {
        assert!(rt; is_right(&rt, row, false)?, "row {at}");
    }
    Ok(())
}

#[test]
fn a_flag_or_a_fault_ends_a_status_without_threads(rt: HostRuntime) -> Result<(), Fail> {
    for (at, row) in SERIAL.iter().enumerate() {
        assert!(rt; is_right(&rt, row, true)?, "row {at}");
    }
    Ok(())
}
