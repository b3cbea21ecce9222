//! Listings of directories, and attributes and times of files by Windows.

use crate::support::inputs::LISTED_FILE;
use crate::support::prelude::*;
use crate::support::side_effects::CountingLister;
use status_base::fscache::{FsCache, Stat, filetime_to_unix, type_flags_from_attributes};
use status_base::worktree::Lister;
use status_callers::listers::{Directories, Directory};
use status_index::Time;

/// A listed file of no bytes.
const NOTHING: Stat = Stat {
    size: 0,
    ..LISTED_FILE
};

const NAMES: [(&str, Stat); 4] = [
    ("twice", NOTHING),
    ("test.txt", LISTED_FILE),
    ("subdir", NOTHING),
    ("twice", LISTED_FILE),
];

const DIRECTORIES: [Directory<'static>; 3] = [
    ("", Some(&NAMES)),
    ("subdir", Some(&[("nested.txt", NOTHING)])),
    ("d", None),
];

// Returns the size of a path that the cache knows, if any.
fn size_at<L: Lister>(cache: &mut FsCache<'_, L>, path: &str) -> Result<Option<u64>, AllocError> {
    match cache.get(BStr::from(path))? {
        Some(stat) => Ok(Some(stat.size)),
        None => Ok(None),
    }
}

/// A path, and the size that the cache knows of it, or None if memory is refused.
type Look = (&'static str, Option<Option<u64>>);

/// The calls in order, how often the lister was called by then, and the count of listings.
type Row = (&'static [Look], usize, u64);

const NESTED: Look = ("subdir/nested.txt", Some(Some(0)));

const TEST: Look = ("test.txt", Some(Some(3)));

const REFUSED: Look = ("test.txt", None);

const OTHER_CASE: Look = ("Test.txt", Some(None));

const ROWS: [Row; 7] = [
    (
        &[TEST, NESTED, OTHER_CASE, ("does-not-exist", Some(None))],
        2,
        2,
    ),
    // The directory can't be listed.
    (&[("d/x", Some(None)), ("d/y", Some(None))], 1, 1),
    // The name is there twice, and the last counts.
    (&[("twice", Some(Some(3)))], 1, 1),
    // It is a name as another, and not the directory above.
    (&[("..", Some(None))], 1, 1),
    // There is no file name, so nothing to be listed.
    (&[("d/", Some(None)), ("", Some(None))], 0, 0),
    // Listings stay known after a refusal. The refused listing is asked for again.
    (&[NESTED, REFUSED, NESTED], 2, 1),
    (&[NESTED, REFUSED, TEST], 3, 2),
];

// Returns whether the results and the counts are those of a row.
fn is_row(alloc: Global, row: &Row) -> bool {
    let (looks, wanted, listings) = *row;
    let (calls, refuses) = (AtomicUsize::new(0), AtomicBool::new(false));
    let lister = CountingLister {
        lister: Directories {
            alloc,
            directories: &DIRECTORIES,
        },
        calls: &calls,
        refuses: Some(&refuses),
    };
    let mut cache = FsCache::new(alloc, &lister);
    for (path, size) in looks {
        refuses.store(size.is_none(), Ordering::SeqCst);
        if size_at(&mut cache, *path).ok() != *size {
            return false;
        }
    }
    calls.load(Ordering::SeqCst) == wanted && cache.listings() == listings
}

#[test]
fn each_directory_is_listed_once(rt: HostRuntime) {
    for (at, row) in ROWS.iter().enumerate() {
        assert!(rt; is_row(rt.alloc(), row), "row {at}");
    }
    assert!(rt; matches!(NoLister.list(BStr::from("d")), Ok(None)));
}

#[test]
fn filetimes_are_unix_times(rt: HostRuntime) {
    for (filetime, want) in [
        (116_444_736_000_000_000, (0, 0)),
        (116_444_736_010_000_001, (1, 100)),
        (0, (0, 0)),
        (18_446_744_073_709_551_615, (3_373_865_674, 955_161_500)),
    ] {
        assert_eq!(rt; filetime_to_unix(filetime), want, "{filetime}");
    }
}

#[test]
fn attributes_are_flags(rt: HostRuntime) {
    for (attributes, tag, want) in [
        (0x80, 0, (false, false)),
        (0x10, 0, (true, false)),
        (0x400, 0xA000_000C, (false, true)),
        (0x410, 0xA000_000C, (false, true)),
        (0x410, 0xA000_0003, (false, true)),
        (0x400, 0x9000_001A, (false, false)),
        (0x410, 0x9000_001A, (true, false)),
        (0x400, 0x8000_0017, (false, false)),
    ] {
        let flags = type_flags_from_attributes(attributes, tag);
        assert_eq!(rt; flags, want, "{attributes:#x}, {tag:#x}");
    }
}

#[test]
fn a_listed_stat_is_the_stat_of_an_entry(rt: HostRuntime) {
    let listed = Stat {
        size: 1234,
        mtime_secs: 1_700_000_000,
        mtime_nsecs: 500_000_000,
        ctime_secs: 1_699_999_999,
        ctime_nsecs: 100_000_000,
        ..Stat::default()
    };
    let wanted = status_index::Stat {
        mtime: Time {
            secs: 1_700_000_000,
            nsecs: 500_000_000,
        },
        ctime: Time {
            secs: 1_699_999_999,
            nsecs: 100_000_000,
        },
        size: 1234,
        ..status_index::Stat::default()
    };
    assert_eq!(rt; listed.to_stat(), wanted);
}
