//! The index: its entries in order, and the moment at which it was written.

ghost use Rattle.std.specs.Prelude.{map};
ghost use Rattle.status_index.specs.Entries.{IsIndex, index_entries};

mod lookup;
mod staging;

use crate::entry::{Entry, Flags, NewEntry, PathStorage};
use crate::id::ObjectId;
use crate::mode::Mode;
use crate::stat::{Moment, Stat};
use bstr::BStr;
use std::alloc::{AllocError, AllocFailed, Global};
use std::cmp::Ordering;
use thiserror::Error;

/// Why a list of entries is not a valid index. `at` is the lowest invalid position.
#[derive(Clone, Copy, Debug, PartialEq, Eq, Error)]
pub enum IndexError {
    /// The entry's path is empty.
    #[error("empty path at {at}")]
    EmptyPath {
        /// The entry's position.
        at: usize,
    },
    /// The entry isn't greater than its predecessor, by path and then by stage.
    #[error("not ascending at {at}")]
    NotAscending {
        /// The entry's position.
        at: usize,
    },
    /// The entry's id is of another kind than the first entry's.
    #[error("mixed hash at {at}")]
    MixedHash {
        /// The entry's position.
        at: usize,
    },
    /// An allocation failed.
    #[error("Out of memory")]
    Memory,
}

impl From<AllocError> for IndexError {
    ghost use Rattle.std.specs.Prelude.{◌≡◌};
    ghost use Rattle.status_index.specs.declared.state.IndexError.TheVariants.{Memory};

    ghost from_gives = { λ _ e. e ≡ Memory };

    fn from(_error: AllocError) -> IndexError {
        IndexError::Memory
    }
}

impl<T: Drop> From<AllocFailed<T>> for IndexError {
    ghost use Rattle.std.specs.Prelude.{◌≡◌};
    ghost use Rattle.status_index.specs.declared.state.IndexError.TheVariants.{Memory};

    ghost from_gives = { λ _ e. e ≡ Memory };

    fn from(_refused: AllocFailed<T>) -> IndexError {
        IndexError::Memory
    }
}

/// An index: entries that ascend strictly by path and stage, and the moment at which the index was written.
#[derive(Drop)]
pub struct State {
    entries: Vec<Entry>,
    backing: PathStorage,
    timestamp: Moment,
    pub ghost valid: { IsIndex (index_entries backing entries.items) },
}

impl State {
    ghost use Rattle.std.specs.Prelude.{◌≡◌, map, [], ◌∷◌, ◌++◌, IfOk, IfErr, OnOk, OnErr};
    ghost use Rattle.bstr.specs.BStr.{bstr_bytes};
    ghost use Rattle.std.specs.Ordering.{nat_cmp, ordering_then};
    ghost use Rattle.std.specs.Cmp.Lexicographic.{slice_cmp};
    ghost use Rattle.status_index.specs.FlagBits.{stage_of_bits};
    ghost use Rattle.status_index.specs.Entries.{IsIndex, IsRefusal, new_entry, entry_of_fields, path_in};
    ghost use Rattle.status_index.specs.States.{entries_of, backing_of, timestamp_of, index_of};

    /// Returns the index of these entries. The paths are copied into one buffer. On an error the list is dropped.
    ///
    /// # Errors
    /// Returns the error of the lowest invalid position. The entry there has an empty path; otherwise it isn't greater
    /// than its predecessor; otherwise its id is of another kind than the first entry's. Returns `Memory` if an
    /// allocation fails.
    pub fn from_entries(
        alloc: Global,
        entries: Vec<NewEntry>,
        timestamp: Moment,
    ) -> Result<State, IndexError>
        ensures valid { IsIndex (map new_entry entries.items) → IfErr result (λ e. e ≡ IndexError.Memory) }
        ensures ok { IfOk result (λ s. IsIndex (map new_entry entries.items) × ((index_of s) ≡ map new_entry entries.items) × (timestamp_of s ≡ timestamp)) }
        ensures refused { IfErr result (IsRefusal (map new_entry entries.items)) }
    {
        let path_bytes = path_bytes(&entries);
        let mut state = State::with_capacity(alloc, entries.len(), path_bytes, timestamp)?;
        for entry in entries {
            state.append(entry)?;
        }
        Ok(state)
    }

    /// Returns an index without entries. Allocates no memory.
    pub fn new(alloc: Global, timestamp: Moment) -> State
        ensures index { (index_of result) ≡ [] }
        ensures timestamp { timestamp_of result ≡ timestamp }
    {
        State {
            entries: Vec::new(alloc),
            backing: PathStorage {
                bytes: Vec::new(alloc),
            },
            timestamp,
        }
    }

    /// Returns an index without entries, with room for this many entries whose paths have this many bytes together.
    ///
    /// # Errors
    /// Returns an error if an allocation fails.
    pub fn with_capacity(
        alloc: Global,
        entries: usize,
        path_bytes: usize,
        timestamp: Moment,
    ) -> Result<State, AllocError>
        ensures index { IfOk result (λ s. (index_of s) ≡ []) }
        ensures timestamp { IfOk result (λ s. timestamp_of s ≡ timestamp) }
    {
        let bytes = Vec::with_capacity(alloc, path_bytes)?;
        let entries = Vec::with_capacity(alloc, entries)?;
        Ok(State {
            entries,
            backing: PathStorage { bytes },
            timestamp,
        })
    }

    /// Appends an entry, or returns why it can't be appended.
    fn append(&mut self, entry: NewEntry) -> Result<(), IndexError>
        ensures ok { OnOk result ((index_of self.new) ≡ (index_of self.old) ++ new_entry entry ∷ []) }
        ensures refused { IfErr result (IsRefusal ((index_of self.old) ++ new_entry entry ∷ [])) }
        ensures timestamp { timestamp_of self.new ≡ timestamp_of self.old }
    {
        let NewEntry {
            path,
            stat,
            id,
            flags,
            mode,
        } = entry;
        self.push_entry(stat, id, flags, mode, path.as_bstr())
    }

    /// Appends an entry. Its path is copied.
    ///
    /// # Errors
    /// Returns an error if the path is empty; otherwise if the entry isn't greater than the last one; otherwise if its
    /// id is of another kind. The error's `at` is the number of entries. Returns `Memory` if an allocation fails. An
    /// error leaves the index unchanged.
    pub fn push_entry(
        &mut self,
        stat: Stat,
        id: ObjectId,
        flags: Flags,
        mode: Mode,
        path: BStr<'_>,
    ) -> Result<(), IndexError>
        ensures valid { IsIndex ((index_of self.old) ++ entry_of_fields (bstr_bytes path.entry) stat id flags mode ∷ []) → IfErr result (λ e. e ≡ IndexError.Memory) }
        ensures ok { OnOk result ((index_of self.new) ≡ (index_of self.old) ++ entry_of_fields (bstr_bytes path.entry) stat id flags mode ∷ []) }
        ensures refused { IfErr result (IsRefusal ((index_of self.old) ++ entry_of_fields (bstr_bytes path.entry) stat id flags mode ∷ [])) }
        ensures unchanged { OnErr result ((index_of self.new) ≡ index_of self.old) }
        ensures timestamp { timestamp_of self.new ≡ timestamp_of self.old }
    {
        let path = path.as_bytes();
        self.check_next(id, flags, path)?;
        self.entries.reserve(1)?;
        let path = self.backing.push(path)?;
        self.entries.push_reserved(Entry {
            stat,
            id,
            flags,
            mode,
            path,
        });
        Ok(())
    }

    /// Checks whether an entry of this path may be appended. It is compared only with the last entry, since the entries
    /// are a valid index.
    fn check_next(&self, id: ObjectId, flags: Flags, path: &[u8]) -> Result<(), IndexError>
        ensures ok { (stat : Stat) (mode : Mode) → OnOk result (IsIndex ((index_of self.now) ++ entry_of_fields path.now stat id flags mode ∷ [])) }
        ensures refused { (stat : Stat) (mode : Mode) → IfErr result (IsRefusal ((index_of self.now) ++ entry_of_fields path.now stat id flags mode ∷ [])) }
    {
        let at = self.entries.len();
        if path.is_empty() {
            return Err(IndexError::EmptyPath { at });
        }
        let Some(last) = self.entries.last() else {
            return Ok(());
        };
        if self.order(last, flags, path).is_ge() {
            return Err(IndexError::NotAscending { at });
        }
        if last.id.kind() != id.kind() {
            return Err(IndexError::MixedHash { at });
        }
        Ok(())
    }

    /// Compares `last`, an entry of this index, with an entry of this path: by path, and then by stage.
    fn order(&self, last: &Entry, flags: Flags, path: &[u8]) -> Ordering
        ensures { result ≡ ordering_then (slice_cmp nat_cmp (path_in (backing_of self.now) last.now) path.now) (nat_cmp (stage_of_bits last.now.flags.0) (stage_of_bits flags.0)) }
    {
        let by_path = last.path_in(&self.backing).as_bytes().cmp(path);
        by_path.then(last.stage_raw().cmp(&flags.stage()))
    }

    /// Returns the entries, in ascending order of path and stage.
    pub fn entries(&self) -> &[Entry]
        ensures value { result.now ≡ entries_of self.now }
        ensures valid { IsIndex (index_of self.now) }
    {
        self.entries.as_slice()
    }

    /// Returns the storage of the entries' paths.
    pub fn path_backing(&self) -> &PathStorage
        ensures { result.now ≡ backing_of self.now }
    {
        &self.backing
    }

    /// Returns the moment at which the index was written. A change at that moment or later may leave the stat equal.
    pub fn timestamp(&self) -> Moment
        ensures { result ≡ timestamp_of self.now }
    {
        self.timestamp
    }
}

/// Returns how many bytes all paths have together, up to the greatest `usize`.
fn path_bytes(entries: &[NewEntry]) -> usize {
    let mut count: usize = 0;
    for entry in entries {
        count = count.saturating_add(entry.path.as_bytes().len());
    }
    count
}
