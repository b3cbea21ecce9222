//! Changes an index: puts entries and removes them, path by path, as `git add` does, and replaces stats.

use super::{IndexError, State};
use crate::entry::{Entry, Flags};
use crate::id::ObjectId;
use crate::mode::Mode;
use crate::stat::{Moment, Stat};
use bstr::BStr;

impl State {
    ghost use Rattle.std.specs.Prelude.{◌≡◌, ◌≢◌, ◌<◌, length, IsOk, IfErr, OnOk, OnErr};
    ghost use Rattle.std.specs.List.{Any, prefix_len};
    ghost use Rattle.bstr.specs.BStr.{bstr_bytes};
    ghost use Rattle.status_index.specs.Entries.{IsIndex, entry_of_fields};
    ghost use Rattle.status_index.specs.States.{ChangesAt, backing_of, entries_of, index_of, smudged, timestamp_of, with_stat};
    ghost use Rattle.status_index.specs.Stretch.{is_below, is_up_to};
    ghost use Rattle.status_index.specs.Staging.{IsPutRefusal, with_entry, with_put};

    /// Puts an entry at its path. It replaces all entries of the path. If the number of entries changes, the later
    /// entries move. The path is copied only if it had no entry. Entries of other paths stay, even those that a
    /// worktree can't have together with this one, such as `a` and `a/b`.
    ///
    /// # Errors
    /// Returns an error if the path is empty; otherwise if an entry of another path has an id of another kind. The
    /// error's `at` is the position that the entry would have. Returns `Memory` if an allocation fails, never for a
    /// path that has an entry. An error leaves the index unchanged.
    pub fn put_entry(
        &mut self,
        stat: Stat,
        id: ObjectId,
        flags: Flags,
        mode: Mode,
        path: BStr<'_>,
    ) -> Result<(), IndexError>
        ensures valid { IsIndex (with_put (index_of self.old) (entry_of_fields (bstr_bytes path.entry) stat id flags mode)) → IfErr result (λ e. e ≡ IndexError.Memory) }
        ensures ok { OnOk result ((index_of self.new) ≡ with_put (index_of self.old) (entry_of_fields (bstr_bytes path.entry) stat id flags mode)) }
        ensures refused { IfErr result (IsPutRefusal (index_of self.old) (entry_of_fields (bstr_bytes path.entry) stat id flags mode)) }
        ensures replaces { IsIndex (with_put (index_of self.old) (entry_of_fields (bstr_bytes path.entry) stat id flags mode)) → Any (λ e. e.path ≡ bstr_bytes path.entry) (index_of self.old) → IsOk result }
        ensures storage { Any (λ e. e.path ≡ bstr_bytes path.entry) (index_of self.old) → backing_of self.new ≡ backing_of self.old }
        ensures unchanged { OnErr result ((index_of self.new) ≡ index_of self.old) }
        ensures timestamp { timestamp_of self.new ≡ timestamp_of self.old }
    {
        let path = path.as_bytes();
        let (start, end) = self.places_of(path);
        self.check_put(start, end, id, path)?;
        if start == end {
            self.entries.reserve(1)?;
            let path = self.backing.push(path)?;
            let entry = Entry {
                stat,
                id,
                flags,
                mode,
                path,
            };
            self.entries.insert(start, entry)?;
            return Ok(());
        }
        // The path's first entry stays, and so do its bytes in the storage. Otherwise a path that is put again and
        // again would fill the storage.
        let entry = &mut self.entries[start];
        entry.stat = stat;
        entry.id = id;
        entry.flags = flags;
        entry.mode = mode;
        self.entries.drain(start + 1..end);
        Ok(())
    }

    /// Removes all entries of a path. The later entries move. The path's bytes stay in the storage, and no later entry
    /// uses them.
    pub fn remove_path(&mut self, path: BStr<'_>)
        ensures index { (index_of self.new) ≡ with_entry (index_of self.old) (bstr_bytes path.entry) None }
        ensures timestamp { timestamp_of self.new ≡ timestamp_of self.old }
    {
        let (start, end) = self.places_of(path.as_bytes());
        self.entries.drain(start..end);
    }

    /// Replaces the stat of the entry at `i`.
    pub fn set_stat(&mut self, i: usize, stat: Stat)
        requires { i < length (entries_of self.old) }
        ensures len { length (entries_of self.new) ≡ length (entries_of self.old) }
        ensures index { ChangesAt (with_stat stat) i (index_of self.old) (index_of self.new) }
        ensures backing { backing_of self.new ≡ backing_of self.old }
        ensures timestamp { timestamp_of self.new ≡ timestamp_of self.old }
    {
        self.entries[i].stat = stat;
    }

    /// Sets the size in the stat of the entry at `i` to 0, so that the next status compares its content.
    pub fn smudge(&mut self, i: usize)
        requires { i < length (entries_of self.old) }
        ensures len { length (entries_of self.new) ≡ length (entries_of self.old) }
        ensures index { ChangesAt smudged i (index_of self.old) (index_of self.new) }
        ensures backing { backing_of self.new ≡ backing_of self.old }
        ensures timestamp { timestamp_of self.new ≡ timestamp_of self.old }
    {
        self.entries[i].stat.size = 0;
    }

    /// Sets the moment at which the index was written.
    pub fn set_timestamp(&mut self, timestamp: Moment)
        ensures timestamp { timestamp_of self.new ≡ timestamp }
        ensures entries { entries_of self.new ≡ entries_of self.old }
        ensures backing { backing_of self.new ≡ backing_of self.old }
    {
        self.timestamp = timestamp;
    }

    /// Checks whether an entry may be put at a path, whose entries are at `start..end`. The id is compared with only
    /// one entry of another path, since all of these are of one kind.
    fn check_put(
        &self,
        start: usize,
        end: usize,
        id: ObjectId,
        path: &[u8],
    ) -> Result<(), IndexError>
        requires start { start ≡ prefix_len (is_below path.now) (index_of self.now) }
        requires end { end ≡ prefix_len (is_up_to path.now) (index_of self.now) }
        ensures ok { (stat : Stat) (flags : Flags) (mode : Mode) → OnOk result (IsIndex (with_put (index_of self.now) (entry_of_fields path.now stat id flags mode))) }
        ensures certain { IfErr result (λ e. e ≢ IndexError.Memory) }
        ensures refused { (stat : Stat) (flags : Flags) (mode : Mode) → IfErr result (IsPutRefusal (index_of self.now) (entry_of_fields path.now stat id flags mode)) }
    {
        if path.is_empty() {
            return Err(IndexError::EmptyPath { at: start });
        }
        let place = if start > 0 { 0 } else { end };
        let Some(other) = self.entries.get(place) else {
            return Ok(());
        };
        if other.id.kind() != id.kind() {
            return Err(IndexError::MixedHash { at: start });
        }
        Ok(())
    }
}
