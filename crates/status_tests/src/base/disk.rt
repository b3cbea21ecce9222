//! Nodes and faults of folders of the disk.

use crate::support::folders::within;
use crate::support::prelude::*;
use FolderNode::{Changed, File, Folder, Link, Mode};
use status_base::worktree::StatFields;
use status_base::worktree::disk::fault_of;
use status_index::{Stat, Time, TimeError};
use std::time::Duration;
use std::{fs, io};

// Returns whether these are a file of three bytes that isn't executable, and was last changed at this time, and nothing
// else is known of it.
fn is_file(found: &Metadata, stamp: Option<Time>) -> bool {
    let stat = match stamp {
        Some(time) => Ok(Stat {
            mtime: time,
            ctime: time,
            size: 3,
            ..Stat::default()
        }),
        None => Err(TimeError),
    };
    let is_plain = found.kind == NodeKind::File && found.len == 3 && !found.executable;
    is_plain && found.mtime == found.ctime && found.to_stat() == stat
}

// Returns whether an executable file that was last changed then is reported with this time.
fn is_stamped<R: Files + AllocGlobal>(
    rt: &R,
    folder: &str,
    changed: Duration,
    stamp: Option<Time>,
) -> Result<bool, Fail>
where
    R::File: Drop,
{
    let nodes = [
        ("a", File("foo")),
        ("a", Changed(changed)),
        ("a", Mode(0o755)),
    ];
    fill(rt, folder, &nodes)?;
    let worktree = DiskWorktree::new(rt, Path::new(folder))?;
    Ok(is_file(&worktree.lstat(BStr::from("a"))?, stamp))
}

#[test]
fn all_of_a_file_is_reported(rt: HostRuntime) -> Result<(), Fail> {
    let folder = own_folder(&rt, "all_of_a_file")?;
    let (early, last) = (
        Time { secs: 5, nsecs: 7 },
        Time {
            secs: u32::MAX,
            nsecs: 0,
        },
    );
    for (nanoseconds, stamp) in [
        (5_000_000_007, Some(early)),
        (4_294_967_295_000_000_000, Some(last)),
        (4_294_967_296_000_000_000, None),
    ] {
        let changed = Duration::from_nanos(nanoseconds);
        assert!(rt;
            is_stamped(&rt, folder.as_str(), changed, stamp)?,
            "{nanoseconds}"
        );
    }
    fs::remove_dir_all(&rt, folder.as_str())?;
    let untimed = StatFields::Portable.metadata_of(&fs::Metadata::of_file(3));
    assert!(rt; is_file(&untimed, None));
    Ok(())
}

/// A name so long that the path of its file takes memory.
const LONG: &str = concat!(
    "nnnnnnnnnnnnnnnnnnnnnnnnnnnnnnnnnnnnnnnnnnnnnnnnnnnnnnnnnnnnnn",
    "nnnnnnnnnnnnnnnnnnnnnnnnnnnnnnnnnnnnnnnnnnnnnnnnnnnnnnnnnnnnnn",
    "nnnnnnnnnnnnnnnnnnnnnnnnnnnnnnnnnnnnnnnnnnnnnnnnnnnnnnnnnnnnnn",
    "nnnnnnnnnnnnnnnnnnnnnnnnnnnnnnnnnnnnnnnnnnnnnnnnnnnnnnnnnnnnnn",
);

// Returns the results at a path where each call fails by a fault with this text.
fn nothing<'a>(path: &'a [u8], fault: &'a str) -> Look<'a> {
    (path, fault, fault, fault)
}

#[test]
fn nodes_and_faults_are_named(rt: HostRuntime) -> Result<(), Fail> {
    let name = "control\n\x01 é";
    let nodes = [
        ("a", File("foo")),
        ("l", Link("a")),
        ("d", Folder),
        (name, File("x")),
        (LONG, File("foo")),
        ("loop", Link("loop")),
        ("dangling", Link("gone")),
    ];
    let looks = [
        (b"a".as_slice(), "File of 3", "3 bytes", "other 0"),
        (name.as_bytes(), "File of 1", "1 bytes", "other 0"),
        (LONG.as_bytes(), "File of 3", "3 bytes", "other 0"),
        (b"l", "Link of 1", "3 bytes", "to a"),
        // The system opens a directory, and then refuses to read it.
        (b"d", "Directory", "unread, other 0", "other 0"),
        (b"loop", "Link of 4", "other 0", "to loop"),
        (b"dangling", "Link of 4", "not found", "to gone"),
        nothing(b"x", "not found"),
        nothing(b"x/y", "not found"),
        nothing(b"dangling/x", "not found"),
        nothing(b"a/b", "not a directory"),
        nothing(b"\xff", "ill-formed UTF-8"),
        nothing(b"d/\xc3", "ill-formed UTF-8"),
        nothing(b"a\0", "other 0"),
        nothing(b"loop/x", "other 0"),
        nothing(&[b'x'; 300], "other 0"),
        nothing(&[b'x'; 5000], "other 0"),
    ];
    let folder = own_folder(&rt, "nodes_and_faults")?;
    fill(&rt, folder.as_str(), &nodes)?;
    assert_looks(&rt, folder.as_str(), &looks)?;
    fs::remove_dir_all(&rt, folder.as_str())?;
    assert_looks(&rt, folder.as_str(), &[nothing(b"a", "not found")])?;
    assert_looks(
        &rt,
        "/dev",
        &[(b"null", "Other of 0", "0 bytes", "other 0")],
    )
}

static LOCKED: [(&str, FolderNode); 5] = [
    ("a", File("foo")),
    ("d", Folder),
    ("d/b", File("bar")),
    ("a", Mode(0)),
    ("d", Mode(0)),
];

// Asserts the results for a file and a folder that may not be read. The system lets root read everything, so root gets
// no fault, unless that right was taken away.
fn assert_locked<R: Files + AllocGlobal + Abort>(rt: &R, folder: &str) -> Result<(), Fail>
where
    R::File: Drop,
{
    fill(rt, folder, &LOCKED)?;
    let (path, denied) = (within(rt, folder, "d/b")?, "permission denied");
    let looks: [Look<'_>; 2] = match fs::symlink_metadata(rt, path.as_str()) {
        Ok(_) => [
            (b"a", "File of 3", "3 bytes", "other 0"),
            (b"d/b", "File of 3", "3 bytes", "other 0"),
        ],
        Err(_) => [
            (b"a", "File of 3", denied, "other 0"),
            (b"d/b", denied, denied, denied),
        ],
    };
    assert_looks(rt, folder, &looks)
}

#[test]
fn unreadable_nodes_are_refused(rt: HostRuntime) -> Result<(), Fail> {
    let folder = own_folder(&rt, "unreadable")?;
    assert_locked(&rt, folder.as_str())?;
    // A folder that may not be read can't be removed.
    fill(&rt, folder.as_str(), &[("d", Mode(0o700))])?;
    fs::remove_dir_all(&rt, folder.as_str())?;
    Ok(())
}

#[test]
fn errors_of_the_system_have_faults(rt: HostRuntime) {
    for (error, fault) in [
        (io::ErrorKind::NotFound, Fault::NotFound),
        (io::ErrorKind::NotADirectory, Fault::NotADirectory),
        (io::ErrorKind::PermissionDenied, Fault::PermissionDenied),
        (io::ErrorKind::Interrupted, Fault::Interrupted),
        (io::ErrorKind::UnexpectedEof, Fault::UnexpectedEnd),
        (io::ErrorKind::OutOfMemory, Fault::Memory),
        (io::ErrorKind::InvalidData, Fault::Other(0)),
    ] {
        assert_eq!(rt; fault_of(error), fault);
    }
}

// A path, and the results of `lstat`, of a read and of reading the link there.
type Look<'a> = (&'a [u8], &'a str, &'a str, &'a str);

// A path of a worktree.
#[derive(Drop)]
struct Site<'a, W> {
    alloc: Global,
    worktree: &'a W,
    path: BStr<'a>,
}

impl<'a, W: Worktree> Site<'a, W> {
    // Returns the kind of the node and its length, if it isn't a directory, or the fault.
    fn node(&self) -> Result<String, AllocError> {
        match self.worktree.lstat(self.path) {
            Ok(found) if found.kind == NodeKind::Directory => {
                format!(in self.alloc; "{:?}", found.kind)
            }
            Ok(found) => format!(in self.alloc; "{:?} of {}", found.kind, found.len),
            Err(fault) => format!(in self.alloc; "{fault}"),
        }
    }

    // Returns how many bytes the first read of the file returns, of at most eight, or the fault of the read or of opening.
    fn first_read(&self) -> Result<String, AllocError> {
        let mut file = match self.worktree.open(self.path) {
            Ok(file) => file,
            Err(fault) => return format!(in self.alloc; "{fault}"),
        };
        match file.read_bytes(&mut [0; 8]) {
            Ok(count) => format!(in self.alloc; "{count} bytes"),
            Err(fault) => format!(in self.alloc; "unread, {fault}"),
        }
    }

    // Returns the target of the link, or the fault. The bytes in the buffer are replaced, by nothing if there is a fault.
    fn target(&self) -> Result<String, AllocError> {
        let mut buffer = Vec::from_slice(self.alloc, b"before")?;
        let read = self.worktree.read_link(self.path, &mut buffer);
        let target = BStr::new(buffer.as_slice());
        match read {
            Ok(()) => format!(in self.alloc; "to {target}"),
            Err(fault) => format!(in self.alloc; "{fault}{target}"),
        }
    }
}

// Returns whether the calls on a path have these results.
fn is_met<W: Worktree>(alloc: Global, worktree: &W, look: &Look<'_>) -> Result<bool, AllocError> {
    let (path, node, read, target) = *look;
    let site = Site {
        alloc,
        worktree,
        path: BStr::new(path),
    };
    let is_node = site.node()?.as_str() == node;
    let is_read = site.first_read()?.as_str() == read;
    Ok(is_node && is_read && site.target()?.as_str() == target)
}

// Asserts the results at these paths of a folder.
fn assert_looks<R: Files + AllocGlobal + Abort>(
    rt: &R,
    folder: &str,
    looks: &[Look<'_>],
) -> Result<(), Fail> {
    let worktree = DiskWorktree::new(rt, Path::new(folder))?;
    for look in looks {
        assert!(rt;
            is_met(rt.alloc(), &worktree, look)?,
            "at {}",
            BStr::new(look.0)
        );
    }
    Ok(())
}
