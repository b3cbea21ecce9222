//! Calls on a file between two changed ones: which are made, and that none is made again after it failed. The sweep in
//! `planted` has each fault at each call.

use crate::call::reports::{Says, are_records, is_report, read, status_by_pieces};
use crate::support::prelude::*;
use End::{Fails, LacksTime, Reports};
use NodeKind::{File, Link};
use gix_status::index_as_worktree::Error;
use gix_status::worktree::Point;
use status_callers::statuses::StatusReport;

/// How the status ends after the record of the first file.
#[derive(Clone, Copy)]
enum End {
    /// It reports the third file too, and this status of the second. So many files and bytes are read.
    Reports(Option<Says<'static>>, usize, u64),
    Fails(Fault),
    /// It fails because a time isn't known.
    LacksTime,
}

/// A fault of a call on the second path, if there is one.
type Planted = Option<(Point, Fault)>;

const LSTAT: Planted = Some((Point::Lstat, Fault::Interrupted));

const GONE: Planted = Some((Point::Open, Fault::NotFound));

const LOCKED: Planted = Some((Point::Open, Fault::PermissionDenied));

const READ: Planted = Some((Point::Read(2), Fault::Interrupted));

const CHANGED: NodeRow<'static> = ("b", File, b"bar", 3, Some(LATER));

const LONGER: NodeRow<'static> = ("b", File, b"bar", 4, Some(LATER));

const SHORTER: NodeRow<'static> = ("b", File, b"bar", 2, Some(LATER));

const LINK: NodeRow<'static> = ("b", Link, b"bars", 4, Some(LATER));

const UNTIMED: NodeRow<'static> = ("b", File, b"bar", 3, None);

const CLEAN: NodeRow<'static> = ("b", File, b"foo", 3, Some(STAGED));

const TO_BAR: Option<Says<'static>> = Some(Says::Changed(b"bar"));

const TO_BA: Option<Says<'static>> = Some(Says::Changed(b"ba"));

const TO_BARS: Option<Says<'static>> = Some(Says::Changed(b"bars"));

/// The node at the second path, a fault there, how the status ends, and how often the second file is opened. `lstat` is
/// called on it once. On the third `lstat` and `open` are called once, but not after a failure.
type Row = (NodeRow<'static>, Planted, End, usize);

const ROWS: [Row; 9] = [
    (CHANGED, None, Reports(TO_BAR, 3, 9), 1),
    (CHANGED, LSTAT, Fails(Fault::Interrupted), 0),
    // It is gone before it is opened.
    (CHANGED, GONE, Fails(Fault::NotFound), 1),
    (CHANGED, READ, Fails(Fault::Interrupted), 1),
    // It has fewer bytes than its length, or more, which aren't read.
    (LONGER, None, Fails(Fault::UnexpectedEnd), 1),
    (SHORTER, None, Reports(TO_BA, 3, 8), 1),
    // A link's target is read once, and the link isn't opened.
    (LINK, None, Reports(TO_BARS, 3, 10), 0),
    (UNTIMED, None, LacksTime, 0),
    // A clean file is never opened.
    (CLEAN, LOCKED, Reports(None, 2, 6), 0),
];

fn is_ended(report: &StatusReport<'_, ObjectId, ()>, end: End) -> bool {
    let changed = Says::Changed(b"bar");
    let (first, third) = ((0, "a", changed), (2, "c", changed));
    match end {
        Reports(Some(second), files, bytes) => {
            let all = [first, (1, "b", second), third];
            is_report(report, &all, &Ok(read(3, files, bytes)))
        }
        Reports(None, files, bytes) => {
            is_report(report, &[first, third], &Ok(read(3, files, bytes)))
        }
        Fails(fault) => is_report(report, &[first], &Err(fault)),
        LacksTime => {
            are_records(&report.records, &[first]) && matches!(&report.answer, Err(Error::Time))
        }
    }
}

/// Returns whether a status with one worker and pieces of one entry ends as a row says, and calls `lstat` and `open` as
/// often.
fn is_right<R: AllocGlobal + Threads + Wait>(rt: &R, row: &Row) -> Result<bool, Fail> {
    let (node, planted, end, opens) = *row;
    let mode = if node.1 == Link {
        Mode::Symlink
    } else {
        Mode::File
    };
    let entries = [foo_entry("a"), ("b", 0, mode, b"foo"), foo_entry("c")];
    let index = index(rt.alloc(), &entries)?;
    let nodes = [later_file("a", b"bar"), node, later_file("c", b"bar")];
    let mut files = worktree(rt.alloc(), &nodes)?;
    if let Some((point, fault)) = planted {
        files.plant(BStr::from("b"), point, fault)?;
    }
    let (of_second, of_third) = (Calls::new(), Calls::new());
    let worktree = counted(counted(files, "b", &of_second), "c", &of_third);
    let report = status_by_pieces(rt, &index, &worktree, 1, 1);
    let later = usize::from(report.answer.is_ok());
    let is_counted = of_second.made() == (1, opens) && of_third.made() == (later, later);
    Ok(is_ended(&report, end) && is_counted)
}

#[test]
fn each_call_is_made_once_and_none_after_a_fault(rt: HostRuntime) -> Result<(), Fail> {
    for (at, row) in ROWS.iter().enumerate() {
        assert!(rt; is_right(&rt, row)?, "row {at}");
    }
    Ok(())
}
