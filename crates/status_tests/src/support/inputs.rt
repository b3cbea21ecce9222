//! Short forms for indexes and worktrees, and the seconds in which entries and files change.

use bstr::BStr;
use gix_status::fscache;
use gix_status::index::{
    Flags, HashKind, IndexError, Mode, Moment, Stat, State, Time, compute_hash,
};
use gix_status::worktree::{MemoryWorktree, Node, NodeKind, TreeError, Worktree};
use status_callers::worktrees::{Calls, Counted};
use std::alloc::{AllocError, Global};

/// The second in which every entry was staged.
pub const STAGED: u32 = 5;

/// A later second.
pub const LATER: u32 = 7;

/// When the index was written, after all others: no entry is racy.
pub const WRITTEN: Moment = Moment { secs: 9, nsecs: 0 };

/// Returns a time of whole seconds.
pub fn time(secs: u32) -> Time {
    Time { secs, nsecs: 0 }
}

/// Returns the stat of a file of three bytes that was last changed in this second.
pub fn stat(mtime: u32) -> Stat {
    Stat {
        mtime: time(mtime),
        ctime: time(STAGED),
        size: 3,
        ..Stat::default()
    }
}

/// A listed file of three bytes that is as old as the entries.
pub const LISTED_FILE: fscache::Stat = fscache::Stat {
    is_dir: false,
    is_symlink: false,
    size: 3,
    mtime_secs: STAGED,
    mtime_nsecs: 0,
    ctime_secs: STAGED,
    ctime_nsecs: 0,
};

/// Returns a node of this kind with these bytes, the length that `lstat` reports, and the second of its last change, if
/// that is known.
pub fn new_node(
    alloc: Global,
    kind: NodeKind,
    bytes: &[u8],
    len: u64,
    mtime: Option<u32>,
) -> Result<Node, AllocError> {
    let mut node = Node::file(Vec::from_slice(alloc, bytes)?, time(STAGED));
    node.kind = kind;
    node.len = len;
    node.mtime = match mtime {
        Some(secs) => Some(time(secs)),
        None => None,
    };
    Ok(node)
}

/// The path of an entry, its stage, its mode, and its content.
pub type EntryRow<'a> = (&'a str, u32, Mode, &'a [u8]);

/// Returns a plain entry of the content `foo`.
pub fn foo_entry(path: &str) -> EntryRow<'_> {
    (path, 0, Mode::File, b"foo")
}

/// Returns the index of these entries, each of which has a size of three bytes unless its content is empty.
pub fn index(alloc: Global, entries: &[EntryRow<'_>]) -> Result<State, IndexError> {
    let mut index = State::new(alloc, WRITTEN);
    for (path, stage, mode, content) in entries {
        let mut stat = stat(STAGED);
        if content.is_empty() {
            stat.size = 0;
        }
        let (id, flags) = (
            compute_hash(HashKind::Sha1, content),
            Flags::from_stage(*stage),
        );
        index.push_entry(stat, id, flags, *mode, BStr::from(*path))?;
    }
    Ok(index)
}

/// Returns the index of plain entries of the content `foo` at these paths.
pub fn foos(alloc: Global, paths: &[&str]) -> Result<State, IndexError> {
    let mut entries = Vec::new(alloc);
    for path in paths {
        entries.push(foo_entry(*path))?;
    }
    index(alloc, &entries)
}

/// The path of a node, its kind, its bytes, the length that `lstat` reports, and the second of its last change, if that
/// is known.
pub type NodeRow<'a> = (&'a str, NodeKind, &'a [u8], u64, Option<u32>);

/// Returns a file that was written after the entries were staged.
pub fn later_file<'a>(path: &'a str, bytes: &'a [u8]) -> NodeRow<'a> {
    (path, NodeKind::File, bytes, bytes.len() as u64, Some(LATER))
}

/// Returns the worktree of these nodes.
pub fn worktree(alloc: Global, nodes: &[NodeRow<'_>]) -> Result<MemoryWorktree, TreeError> {
    let mut worktree = MemoryWorktree::new(alloc);
    for (path, kind, bytes, len, mtime) in nodes {
        let node = new_node(alloc, *kind, *bytes, *len, *mtime)?;
        worktree.put(BStr::from(*path), node)?;
    }
    Ok(worktree)
}

/// Returns a worktree whose calls on a path are counted.
pub fn counted<'a, W: Worktree>(worktree: W, path: &'a str, calls: &'a Calls) -> Counted<'a, W> {
    Counted {
        worktree,
        path: Some(path),
        calls,
    }
}
