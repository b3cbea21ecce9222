//! Puts the entries of a file into an index.

ghost use Rattle.std.specs.Prelude.{◌≡◌, ◌∷◌, ◌++◌, [], List, length, OnOk, IfErr};
ghost use Rattle.status_index.specs.States.{index_of, timestamp_of};
ghost use Rattle.git_index.specs.EntryViews.{raw_entry};
ghost use Rattle.git_index.specs.RawEntry.{RawEntry as FileEntry, short_len};
ghost use Rattle.git_index.specs.Counting.{IsIndexSoFar};
ghost use Rattle.git_index.specs.Refusals.{IsEntriesRefusal};
ghost use Rattle.git_index.specs.Views.{IsNextRefusal, IsViewOf, named_entry};

use crate::entry::{PREFIXED, RawEntry};
use crate::fault::IndexFileError;
use bstr::BStr;
use status_index::State;

/// The greatest length that flags state. All greater ones are stated as this one.
const MAX_STATED: usize = 0xFFF;

/// Appends the entry at position `at`, unless an earlier one was refused. Returns why this one or the earlier one is
/// refused, if one is.
pub(crate) fn push_unless_refused(
    state: &mut State,
    last: &mut Vec<u8>,
    version: u32,
    at: u32,
    entry: &RawEntry<'_>,
    refused: Option<IndexFileError>,
) -> Option<IndexFileError>
    ensures index { (rs : List FileEntry) → length rs ≡ at → IsIndexSoFar version rs (index_of state.old) last.old.items refused
        → IsIndexSoFar version (rs ++ raw_entry entry.now ∷ []) (index_of state.new) last.new.items result }
    ensures timestamp { timestamp_of state.new ≡ timestamp_of state.old }
{
    if let Some(error) = refused {
        return Some(error);
    }
    match push_raw(state, last, version, at, entry) {
        Ok(()) => None,
        Err(error) => Some(error),
    }
}

/// Appends the entry at position `at`. `last` is the path of the entry before it, and becomes the entry's own; it counts
/// only in version 4.
fn push_raw(
    state: &mut State,
    last: &mut Vec<u8>,
    version: u32,
    at: u32,
    entry: &RawEntry<'_>,
) -> Result<(), IndexFileError>
    ensures ok { (rs : List FileEntry) → IsViewOf version rs (index_of state.old) last.old.items
        → OnOk result (IsViewOf version (rs ++ raw_entry entry.now ∷ []) (index_of state.new) last.new.items) }
    ensures refused { (rs : List FileEntry) → IsViewOf version rs (index_of state.old) last.old.items → length rs ≡ at
        → IfErr result (IsEntriesRefusal version (rs ++ raw_entry entry.now ∷ [])) }
    ensures timestamp { timestamp_of state.new ≡ timestamp_of state.old }
{
    if version != PREFIXED {
        return push_named(state, at, entry, entry.name);
    }
    if entry.strip > last.len() {
        return Err(IndexFileError::Strip { at });
    }
    last.truncate(last.len() - entry.strip);
    last.extend_from_slice(entry.name)?;
    push_named(state, at, entry, last.as_slice())
}

/// Appends the entry at position `at`, whose path is this one.
fn push_named(
    state: &mut State,
    at: u32,
    entry: &RawEntry<'_>,
    path: &[u8],
) -> Result<(), IndexFileError>
    ensures ok { OnOk result (((index_of state.new) ≡ index_of state.old ++ named_entry (raw_entry entry.now) path.now ∷ []) × (entry.now.stated ≡ short_len (length path.now))) }
    ensures refused { IfErr result (IsNextRefusal (index_of state.old) (raw_entry entry.now) path.now at) }
    ensures timestamp { timestamp_of state.new ≡ timestamp_of state.old }
{
    if path.len().min(MAX_STATED) != entry.stated {
        return Err(IndexFileError::NameLength { at });
    }
    let path = BStr::new(path);
    state
        .push_entry(entry.stat, entry.id, entry.flags, entry.mode, path)
        .map_err(IndexFileError::of_index)
}
