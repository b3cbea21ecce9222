//! Which entries make a conflict, also in lists that aren't a valid index.

use crate::support::prelude::*;
use Mode::{File, FileExecutable, Symlink};
use gix_status::index::{Entry, PathStorage};
use gix_status::index_as_worktree::Conflict;

/// A conflict, how many entries follow its first, and the modes of stage 1, 2 and 3.
type Found = (Conflict, usize, Option<Mode>, Option<Mode>, Option<Mode>);

/// The paths, stages and modes of the entries of an index, and the conflict of `f` at the first.
type Row = (&'static [(&'static str, u32, Mode)], Found);

const ALL: Found = (
    Conflict::BothModified,
    2,
    Some(File),
    Some(FileExecutable),
    Some(Symlink),
);

const ROWS: [Row; 3] = [
    (
        &[("f", 1, File), ("f", 2, FileExecutable), ("f", 3, Symlink)],
        ALL,
    ),
    (
        &[("f", 1, File), ("f", 3, Symlink)],
        (Conflict::DeletedByUs, 1, Some(File), None, Some(Symlink)),
    ),
    (
        &[("f", 2, File), ("g", 3, Symlink)],
        (Conflict::AddedByUs, 0, None, Some(File), None),
    ),
];

// Returns the index of these entries, each of the content `foo`.
fn index_of(alloc: Global, stages: &[(&str, u32, Mode)]) -> Result<State, Fail> {
    let mut entries = Vec::new(alloc);
    for (path, stage, mode) in stages {
        entries.push((*path, *stage, *mode, b"foo".as_slice()))?;
    }
    Ok(index(alloc, &entries)?)
}

fn conflict_at(entries: &[Entry], backing: &PathStorage, start: usize) -> Option<Found> {
    let path = BStr::new(b"f");
    let (summary, more, sides) = Conflict::try_from_entry(entries, backing, start, path)?;
    let [base, ours, theirs] = sides;
    Some((summary, more, mode_of(base), mode_of(ours), mode_of(theirs)))
}

fn mode_of(entry: Option<&Entry>) -> Option<Mode> {
    Some(entry?.mode)
}

// No entry is at the last four positions of the type.
#[test]
fn stages_name_the_conflict(rt: HostRuntime) -> Result<(), Fail> {
    for (at, (stages, found)) in ROWS.iter().enumerate() {
        let index = index_of(rt.alloc(), *stages)?;
        let (entries, backing) = (index.entries(), index.path_backing());
        assert!(rt;
            conflict_at(entries, backing, 0) == Some(*found),
            "row {at}"
        );
        for back in 0..4 {
            assert!(rt; conflict_at(entries, backing, usize::MAX - back) == None);
        }
    }
    Ok(())
}

/// Returns each entry of an index twice, the second time as an executable file.
fn doubled(alloc: Global, index: &State) -> Result<Vec<Entry>, AllocError> {
    let mut entries = Vec::new(alloc);
    for entry in index.entries() {
        entries.push(entry.clone()?)?;
        let mut copy = entry.clone()?;
        copy.mode = FileExecutable;
        entries.push(copy)?;
    }
    Ok(entries)
}

// If a stage has two entries, the last counts.
#[test]
fn the_last_of_a_stage_is_kept_among_three_entries(rt: HostRuntime) -> Result<(), Fail> {
    let index = index_of(rt.alloc(), &[("f", 2, File), ("f", 3, File)])?;
    let entries = doubled(rt.alloc(), &index)?;
    let found = conflict_at(&entries, index.path_backing(), 0);
    let (ours, theirs) = (Some(FileExecutable), Some(File));
    assert!(rt; found == Some((Conflict::BothAdded, 2, None, ours, theirs)));
    Ok(())
}
