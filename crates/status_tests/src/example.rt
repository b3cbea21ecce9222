//! The example of docs/GUIDE.md, which quotes the part between the marks.

// The example begins.
use bstr::BStr;
use gix_status::index::{Flags, HashKind, Mode, Moment, Stat, State, Time, compute_hash};
use gix_status::index_as_worktree::traits::HashEq;
use gix_status::index_as_worktree::{
    Change, EntryStatus, Options, Recorder, index_as_worktree_with_defaults,
};
use gix_status::worktree::{AllPaths, MemoryWorktree, Node};
use std::test::Fail;

#[test]
fn a_change_and_a_removal(rt: HostRuntime) -> Result<(), Fail> {
    let alloc = rt.alloc();
    // The index: `a` and `b` were staged with the content `foo`.
    let mut index = State::new(alloc, Moment { secs: 9, nsecs: 0 });
    for path in ["a", "b"] {
        let (stat, id) = (Stat::default(), compute_hash(HashKind::Sha1, b"foo"));
        index.push_entry(stat, id, Flags::from_stage(0), Mode::File, BStr::from(path))?;
    }
    // The worktree: `a` was written since, and `b` is gone.
    let time = Time { secs: 7, nsecs: 0 };
    let file = Node::file(Vec::from_slice(alloc, b"bar")?, time);
    let mut worktree = MemoryWorktree::new(alloc);
    worktree.put(BStr::from("a"), file)?;
    // The results: a record for each entry that differs, in content or stat, in the order of the index, and counts.
    let mut collector = Recorder::new(alloc);
    let outcome = index_as_worktree_with_defaults(
        &rt,
        alloc,
        &index,
        &worktree,
        &mut collector,
        HashEq,
        AllPaths,
        Options::default(),
    )?;
    let changed = EntryStatus::Change(Change::Modification {
        executable_bit_changed: false,
        content_change: Some(compute_hash(HashKind::Sha1, b"bar")),
        set_entry_stat_size_zero: false,
    });
    let removed = EntryStatus::Change(Change::Removed);
    assert_eq!(rt; collector.records.len(), 2);
    for (record, status) in collector.records.iter().zip([changed, removed]) {
        assert!(rt; record.status == status);
    }
    assert_eq!(rt; outcome.worktree_files_read, 1);
    Ok(())
}
// The example ends.
