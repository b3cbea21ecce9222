//! Indexes: entries that are accepted or refused, and a search that counts.

use crate::support::prelude::*;
use HashKind::{Sha1, Sha256};
use IndexError::{EmptyPath, MixedHash, NotAscending};
use status_index::{Flags, HashKind, NewEntry, Stat};

// A path and a kind of id.
type EntryRow = (&'static str, HashKind);

// Returns the index of these entries, or why it isn't valid.
fn made(alloc: Global, rows: &[EntryRow]) -> Result<Result<State, IndexError>, AllocError> {
    let mut entries = Vec::new(alloc);
    for (path, kind) in rows {
        entries.push(NewEntry {
            path: BString::from_slice(alloc, *path)?,
            stat: Stat::default(),
            id: ObjectId::null(*kind),
            flags: Flags::default(),
            mode: Mode::File,
        })?;
    }
    Ok(State::from_entries(alloc, entries, Moment::default()))
}

// Entries, and why they are refused. The lowest position counts, and there the first of the reasons.
const REFUSED: [(&[EntryRow], IndexError); 4] = [
    (&[("a", Sha1), ("a", Sha1)], NotAscending { at: 1 }),
    (&[("a", Sha1), ("", Sha256)], EmptyPath { at: 1 }),
    (&[("b", Sha1), ("a", Sha256)], NotAscending { at: 1 }),
    (&[("a", Sha1), ("b", Sha256)], MixedHash { at: 1 }),
];

#[test]
fn entries_may_be_refused(rt: HostRuntime) -> Result<(), Fail> {
    for (entries, want) in REFUSED {
        let refused = made(rt.alloc(), entries)?.err();
        assert_eq!(rt; refused, Some(want));
    }
    Ok(())
}

// A prefix, the ends of the range of its entries, and between how many comparisons are made.
type Search = (&'static str, Option<(usize, usize)>, u32, u32);

static SEARCHES: [Search; 4] = [
    // The entries on both sides of each end have to be compared: four of them.
    ("a/", Some((2, 4)), 4, 6),
    ("a", Some((0, 5)), 1, 6),
    ("b", None, 1, 6),
    ("", Some((0, 5)), 0, 0),
];

fn is_found(state: &State, search: &Search) -> bool {
    let (prefix, want, least, most) = *search;
    let (range, compared) = state.prefixed_entries_range_counted(BStr::from(prefix));
    let ends = match range {
        Some(range) => Some((range.start, range.end)),
        None => None,
    };
    ends == want && least <= compared && compared <= most
}

#[test]
fn a_search_for_a_prefix_counts(rt: HostRuntime) -> Result<(), Fail> {
    let state = foos(rt.alloc(), &["a", "a-", "a/b", "a/c", "a0"])?;
    for search in &SEARCHES {
        assert!(rt; is_found(&state, search), "at {}", search.0);
    }
    Ok(())
}
