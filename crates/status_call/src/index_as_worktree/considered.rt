//! The considered entries of a call.

ghost use Rattle.std.specs.Prelude.{◌≤◌, length};
ghost use Rattle.status_index.specs.Entries.{IsIndex, index_entries};

use bstr::BStr;
use status_index::{Entry, PathStorage, State};
use std::ops::Range;

/// The considered entries: those from position `start` up to `end`, exclusive, of the whole index.
///
/// Its methods take positions among the considered entries.
#[derive(Drop)]
pub struct Considered<'index> {
    pub entries: &'index [Entry],
    pub backing: &'index PathStorage,
    pub start: usize,
    pub end: usize,
    ghost index: { IsIndex (index_entries backing.now entries.now) },
    ghost order: { start ≤ end },
    ghost inside: { end ≤ length entries.now },
}

impl<'index> Considered<'index> {
    ghost use Rattle.std.specs.Prelude.{◌≡◌, ◌+◌, ◌<◌, ◌≤◌, length};
    ghost use Rattle.std.specs.List.{slice_index_or};
    ghost use Rattle.bstr.specs.BStr.{bstr_bytes};
    ghost use Rattle.status_index.specs.Entries.{IndexEntry, index_entry};
    ghost use Rattle.status_index.specs.States.{backing_of, entries_of, index_of};
    ghost use Rattle.status_index.specs.Stretch.{part_of};
    ghost use Rattle.status_call.specs.Considered.{considered, considered_start, part_entries};

    /// Returns the considered entries of an index: those whose paths start with the prefix, or all if no path does.
    pub fn of(index: &'index State, prefix: BStr<'_>) -> Considered<'index>
        ensures entries { result.entries.now ≡ entries_of index.entry.now }
        ensures backing { result.backing.now ≡ backing_of index.entry.now }
        ensures order { result.start ≤ result.end }
        ensures inside { result.end ≤ length (entries_of index.entry.now) }
        ensures part { part_of (index_of index.entry.now) result.start result.end
            ≡ considered (bstr_bytes prefix.entry) (index_of index.entry.now) }
        ensures start { result.start
            ≡ considered_start (bstr_bytes prefix.entry) (index_of index.entry.now) }
    {
        let range = Considered::range_of(index, prefix);
        Considered {
            entries: index.entries(),
            backing: index.path_backing(),
            start: range.start,
            end: range.end,
        }
    }

    /// Returns the positions of the considered entries: those whose paths start with the prefix, or all if no path does.
    fn range_of(index: &State, prefix: BStr<'_>) -> Range<usize>
        ensures order { result.start ≤ result.end }
        ensures inside { result.end ≤ length (entries_of index.now) }
        ensures part { part_of (index_of index.now) result.start result.end
            ≡ considered (bstr_bytes prefix.entry) (index_of index.now) }
        ensures start { result.start ≡ considered_start (bstr_bytes prefix.entry) (index_of index.now) }
    {
        match index.prefixed_entries_range(prefix) {
            Some(range) => range,
            None => 0..index.entries().len(),
        }
    }

    /// Returns the considered entries as a slice.
    pub(crate) fn part(&self) -> &'index [Entry]
        ensures { result.now ≡ part_of self.entry.now.entries.now self.entry.now.start self.entry.now.end }
    {
        &self.entries[self.start..self.end]
    }

    /// Returns how many entries are considered.
    pub(crate) fn len(&self) -> usize
        ensures { result ≡ length (part_entries self.now) }
    {
        self.end - self.start
    }

    /// Returns the entry at a position.
    pub(crate) fn entry(&self, at: usize) -> &'index Entry
        requires { at < length (part_entries self.now) }
        ensures { (d : IndexEntry) → index_entry self.entry.now.backing.now result.now
            ≡ slice_index_or (part_entries self.entry.now) at d }
    {
        &self.part()[at]
    }

    /// Returns the path of the entry at a position.
    pub(crate) fn path(&self, at: usize) -> BStr<'index>
        requires { at < length (part_entries self.now) }
        ensures { (d : IndexEntry) → bstr_bytes result
            ≡ (slice_index_or (part_entries self.entry.now) at d).path }
    {
        self.entry(at).path_in(self.backing)
    }

    /// Returns the position in the whole index of the entry at a position.
    pub(crate) fn index_position(&self, at: usize) -> usize
        requires { at < length (part_entries self.now) }
        ensures { result ≡ self.now.start + at }
    {
        self.start + at
    }
}
