//! Finds entries by binary search: those of a path, and those whose paths start with a prefix.

use super::State;
use crate::entry::Entry;
use crate::probe::{Question, front_len};
use bstr::BStr;
use std::ops::Range;

impl State {
    ghost use Rattle.std.specs.Prelude.{◌≡◌, ℕ, ◌*◌, ◌<◌, ◌≤◌, ◌^◌, [], filter, length};
    ghost use Rattle.std.specs.List.{prefix_len};
    ghost use Rattle.bstr.specs.BStr.{bstr_bytes};
    ghost use Rattle.status_index.specs.Entries.{index_entries};
    ghost use Rattle.status_index.specs.States.{entries_of, backing_of, index_of};
    ghost use Rattle.status_index.specs.Stretch.{IsPrefixed, is_at, is_below, is_up_to};

    /// Returns the entries of a path, by their stages: none, one, or those of a conflict.
    pub fn entries_at(&self, path: BStr<'_>) -> &[Entry]
        ensures { index_entries (backing_of self.now) result.now ≡ filter (is_at (bstr_bytes path.entry)) (index_of self.now) }
    {
        let (start, end) = self.places_of(path.as_bytes());
        &self.entries[start..end]
    }

    /// Returns the start and end of the range of a path's entries. If the path has none, both are the position at which
    /// one would be inserted.
    pub(super) fn places_of(&self, path: &[u8]) -> (usize, usize)
        ensures start { result.0 ≡ prefix_len (is_below path.now) (index_of self.now) }
        ensures end { result.1 ≡ prefix_len (is_up_to path.now) (index_of self.now) }
        ensures order { result.0 ≤ result.1 }
        ensures inside { result.1 ≤ length (entries_of self.now) }
    {
        let (start, _) = front_len(&self.entries, &self.backing, path, Question::Below);
        let (end, _) = front_len(&self.entries, &self.backing, path, Question::UpTo);
        (start, end)
    }

    /// Returns the range of entries whose paths start with `prefix`. It is the whole list for an empty prefix, and None
    /// if the prefix isn't empty and no path starts with it.
    pub fn prefixed_entries_range(&self, prefix: BStr<'_>) -> Option<Range<usize>>
        ensures { IsPrefixed (index_of self.now) (bstr_bytes prefix.entry) result }
    {
        self.prefixed_entries_range_counted(prefix).0
    }

    /// Returns the same range, and how many paths were compared with the prefix. These are none for an empty prefix,
    /// and otherwise at most twice as many as the number of entries has binary digits.
    ///
    /// The clauses bound only the returned number. They don't say that each comparison is counted.
    pub fn prefixed_entries_range_counted(&self, prefix: BStr<'_>) -> (Option<Range<usize>>, u32)
        ensures range { IsPrefixed (index_of self.now) (bstr_bytes prefix.entry) result.0 }
        ensures few { (digits : ℕ) → length (entries_of self.now) < 2 ^ digits → result.1 ≤ 2 * digits }
        ensures empty { bstr_bytes prefix.entry ≡ [] → result.1 ≡ 0 }
    {
        let prefix = prefix.as_bytes();
        if prefix.is_empty() {
            return (Some(0..self.entries.len()), 0);
        }
        let (start, below) = front_len(&self.entries, &self.backing, prefix, Question::Below);
        let rest = &self.entries[start..];
        let (count, under) = front_len(rest, &self.backing, prefix, Question::Under);
        let compared = below.saturating_add(under);
        if count == 0 {
            return (None, compared);
        }
        (Some(start..start + count), compared)
    }
}
