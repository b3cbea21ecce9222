//! Each fault at each call on each path: three entries, two sizes of pieces, two numbers of workers.

use crate::call::reports::{Says, Wanted, is_report, read, status_by_pieces};
use crate::support::prelude::*;
use gix_status::index_as_worktree::Outcome;
use gix_status::worktree::{Point, TreeError};

/// Sizes of pieces and numbers of workers.
const WAYS: [(usize, usize); 4] = [(1, 1), (1, 3), (2, 1), (2, 3)];

/// Every fault.
const FAULTS: [Fault; 9] = [
    Fault::NotFound,
    Fault::NotADirectory,
    Fault::PermissionDenied,
    Fault::Interrupted,
    Fault::IllformedUtf8,
    Fault::UnexpectedEnd,
    Fault::NotNormal,
    Fault::Memory,
    Fault::Other(5),
];

/// The folder above the second entry.
const FOLDER: &str = "d";

/// The calls at which faults are planted. A read may fail after up to two bytes more than the files have.
const POINTS: [Point; 9] = [
    Point::Lstat,
    Point::Open,
    Point::ReadLink,
    Point::Read(0),
    Point::Read(1),
    Point::Read(2),
    Point::Read(3),
    Point::Read(4),
    Point::Read(5),
];

/// The path of an entry, the content of its file or link, which was changed after the entry was staged, and whether it is
/// a link.
type Site = (&'static str, &'static [u8], bool);

const SITES: [Site; 3] = [
    ("a", b"bar", false),
    ("d/l", b"bars", true),
    ("z", b"bars", false),
];

fn entries(alloc: Global) -> Result<State, IndexError> {
    let link = ("d/l", 0, Mode::Symlink, b"foo".as_slice());
    index(alloc, &[foo_entry("a"), link, foo_entry("z")])
}

fn nodes(alloc: Global) -> Result<MemoryWorktree, TreeError> {
    let link = ("d/l", NodeKind::Link, b"bars".as_slice(), 4, Some(LATER));
    worktree(
        alloc,
        &[later_file("a", b"bar"), link, later_file("z", b"bars")],
    )
}

/// The path and the call at which a fault is planted, and the fault.
type Planted = (&'static str, Point, Fault);

// Returns whether a fault is planted at the folder above an entry.
fn is_above(planted: Planted, site: &Site) -> bool {
    planted.0 == FOLDER && site.0.as_bytes().starts_with(b"d/")
}

// Returns whether the status of an entry makes the call.
fn is_met(planted: Planted, site: &Site) -> bool {
    let (path, content, is_link) = *site;
    let is_here = planted.0 == path;
    match planted.1 {
        Point::Lstat => is_here || is_above(planted, site),
        Point::Open => is_here && !is_link,
        Point::ReadLink => is_here && is_link,
        // The length of a file is known, and no more is read than that.
        Point::Read(count) => is_here && !is_link && count < content.len() as u64,
    }
}

// Returns whether nothing seems to be at the path for which the call is made.
fn is_absence(planted: Planted) -> bool {
    let (_path, point, fault) = planted;
    point == Point::Lstat && (fault == Fault::NotFound || fault == Fault::NotADirectory)
}

/// The records of a status, and its outcome or the fault by which it fails.
type Expected = (Vec<Wanted<'static>>, Result<Outcome, Fault>);

/// Returns the records before the first entry that fails, and its fault. An entry is removed if `lstat` finds nothing at
/// its path or at the folder above, whose `lstat` isn't counted.
fn expected_for(alloc: Global, planted: Option<Planted>) -> Result<Expected, AllocError> {
    let (mut records, mut lstats, mut files, mut bytes) = (Vec::new(alloc), 0usize, 0usize, 0u64);
    for (at, site) in SITES.iter().enumerate() {
        let (path, content, _is_link) = *site;
        match planted {
            Some(planted) if is_met(planted, site) => {
                if !is_absence(planted) {
                    return Ok((records, Err(planted.2)));
                }
                lstats = lstats.saturating_add(usize::from(!is_above(planted, site)));
                records.push((at, path, Says::Removed))?;
            }
            _ => {
                lstats = lstats.saturating_add(1);
                files = files.saturating_add(1);
                bytes = bytes.saturating_add(content.len() as u64);
                records.push((at, path, Says::Changed(content)))?;
            }
        }
    }
    let outcome = Outcome {
        symlink_metadata_calls: lstats,
        ..read(SITES.len(), files, bytes)
    };
    Ok((records, Ok(outcome)))
}

/// Returns whether a status is as expected, each way.
fn is_expected<R: AllocGlobal + Threads + Wait>(
    rt: &R,
    index: &State,
    worktree: &MemoryWorktree,
    planted: Option<Planted>,
) -> Result<bool, Fail> {
    let (records, end) = expected_for(rt.alloc(), planted)?;
    for (chunk_size, workers) in WAYS {
        let report = status_by_pieces(rt, index, worktree, chunk_size, workers);
        if !is_report(&report, &records, &end) {
            return Ok(false);
        }
    }
    Ok(true)
}

/// Returns whether a status is as expected while each fault is planted at a call on a path. After the last one is
/// removed, the status is that without a fault.
fn is_right_at<R: AllocGlobal + Threads + Wait>(
    rt: &R,
    index: &State,
    worktree: &mut MemoryWorktree,
    path: &'static str,
    point: Point,
) -> Result<bool, Fail> {
    for fault in FAULTS {
        worktree.plant(BStr::from(path), point, fault)?;
        if !is_expected(rt, index, worktree, Some((path, point, fault)))? {
            return Ok(false);
        }
    }
    worktree.clear(BStr::from(path));
    is_expected(rt, index, worktree, None)
}

#[test]
fn each_fault_at_each_call_ends_the_status_or_removes_an_entry(
    rt: HostRuntime,
) -> Result<(), Fail> {
    let (index, mut worktree) = (entries(rt.alloc())?, nodes(rt.alloc())?);
    for path in ["a", FOLDER, "d/l", "z"] {
        for point in POINTS {
            let is_right = is_right_at(&rt, &index, &mut worktree, path, point)?;
            assert!(rt; is_right, "{point:?} of {path}");
        }
    }
    Ok(())
}
