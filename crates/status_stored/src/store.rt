//! Stores an index as a JSON value, and loads it from one.

ghost use Rattle.std.specs.Prelude.{◌≡◌, ◌<◌, codes, length, IfOk, IsUtf8, map};
ghost use Rattle.std.specs.List.{HoldsAt};
ghost use Rattle.serde_json.specs.Data.{array, put};
ghost use Rattle.serde_json.specs.View.{view, items_view, members_view};
ghost use Rattle.status_index.specs.Entries.{index_entry, index_entries, new_entry};
ghost use Rattle.status_index.specs.States.{index_of, timestamp_of};
ghost use Rattle.status_format.specs.Storable.{IsEntryStored, Fits32};
ghost use Rattle.status_stored.specs.Steps.{AreStored};
ghost use Rattle.status_stored.specs.Storable.{AreUtf8, IsStored, IsStoredWith};
ghost use Rattle.status_format.specs.StoredEntry.{stored_stamp};
ghost use Rattle.status_stored.specs.Loading.{IsLoaded};
ghost use Rattle.status_format.specs.Reading.{entries_in, entry_in};
ghost use Rattle.status_format.specs.Reads.{Reads};
ghost use Rattle.status_stored.specs.Reading.{index_in};

use crate::error::{LoadError, StoreError};
use bstr::BString;
use serde_json::{Map, Value};
use status_format::entry::{stamp_value, store_entry};
use status_format::read::{list_of, stamp_of};
use status_format::{FieldError, read_entry};
use status_index::{Entry, Moment, NewEntry, PathStorage, State};
use std::alloc::{AllocError, Global};

/// Returns the JSON value of an index. Bits that name no stage or flag aren't stored.
///
/// # Errors
/// Returns `NotUtf8` for the first entry whose path isn't UTF-8, and `Memory` if an allocation fails.
pub fn store_index(alloc: Global, state: &State) -> Result<Value, StoreError>
    ensures { IsStored (index_of state.now) (timestamp_of state.now) result }
{
    match with_index(alloc, Map::new(alloc), state) {
        Ok(members) => Ok(Value::Object(members)),
        Err(refused) => Err(refused),
    }
}

/// Returns an object's members with those of an index, which replace members with their keys.
///
/// # Errors
/// Those of [`store_index`].
pub fn with_index(
    alloc: Global,
    members: Map<String, Value>,
    state: &State,
) -> Result<Map<String, Value>, StoreError>
    ensures { IsStoredWith (members_view members.entries) (index_of state.now) (timestamp_of state.now) result }
{
    let entries = match store_entries(alloc, state.entries(), state.path_backing()) {
        Ok(entries) => entries,
        Err(refused) => return Err(refused),
    };
    match with_index_members(alloc, members, entries, state.timestamp()) {
        Ok(members) => Ok(members),
        Err(_) => Err(StoreError::Memory),
    }
}

/// Returns members with those of an index that has these entry objects.
fn with_index_members(
    alloc: Global,
    members: Map<String, Value>,
    entries: Vec<Value>,
    t: Moment,
) -> Result<Map<String, Value>, AllocError>
    ensures members { IfOk result (λ m. members_view m.entries ≡ put (codes "timestamp") (stored_stamp t.secs t.nsecs)
        (put (codes "index") (array (items_view entries.items)) (members_view members.entries))) }
    ensures secs { Fits32 t.secs }
    ensures nsecs { Fits32 t.nsecs }
{
    let members = with_member(alloc, members, "index", Value::Array(entries))?;
    let timestamp = stamp_value(alloc, t.secs, t.nsecs)?;
    with_member(alloc, members, "timestamp", timestamp)
}

/// Returns members with this value at a key.
fn with_member(
    alloc: Global,
    mut members: Map<String, Value>,
    key: &str,
    value: Value,
) -> Result<Map<String, Value>, AllocError>
    ensures { IfOk result (λ m. members_view m.entries ≡ put key.now (view value) (members_view members.entries)) }
{
    drop(members.insert(String::from_str(alloc, key)?, value)?);
    Ok(members)
}

/// Returns the objects of the entries, in order.
fn store_entries(
    alloc: Global,
    entries: &[Entry],
    backing: &PathStorage,
) -> Result<Vec<Value>, StoreError>
    ensures { AreStored (index_entries backing.now entries.now) result }
{
    let mut values = Vec::with_capacity(alloc, entries.len())?;
    for at in 0..entries.len() {
        match store_at(alloc, entries, backing, at) {
            Ok(value) => values.push(value)?,
            Err(FieldError::Form) => return Err(StoreError::NotUtf8 { at }),
            Err(FieldError::Memory) => return Err(StoreError::Memory),
        }
    }
    Ok(values)
}

/// Returns the object of the entry at the position `at`.
fn store_at(
    alloc: Global,
    entries: &[Entry],
    backing: &PathStorage,
    at: usize,
) -> Result<Value, FieldError>
    requires { at < length entries.now }
    ensures { HoldsAt (λ e. IsEntryStored (index_entry backing.now e) result) entries.now at }
{
    store_entry(alloc, &entries[at], backing)
}

/// Returns the index that a value states. Keys with a default may be missing, and unknown keys are ignored.
///
/// # Errors
/// Returns `Form` if a key is missing or has a wrong form, and otherwise `Index` if the entries aren't a valid index.
/// Returns `Memory` if an allocation fails.
#[tactic(auto, unfolding(crate::specs::Reading::index_in))]
pub fn load_index(alloc: Global, value: &Value) -> Result<State, LoadError>
    ensures { IsLoaded (index_in (view value.now)) result }
{
    let timestamp = match value.get("timestamp") {
        Some(timestamp) => stamp_of(timestamp)?,
        None => return Err(LoadError::Form),
    };
    let entries = match value.get("index") {
        Some(entries) => read_entries(alloc, entries)?,
        None => return Err(LoadError::Form),
    };
    Ok(State::from_entries(alloc, entries, timestamp)?)
}

/// Returns the entries of a list, in order.
///
/// # Errors
/// Returns `Form` if the value isn't a list of entries, and `Memory` if an allocation fails.
pub fn read_entries(alloc: Global, list: &Value) -> Result<Vec<NewEntry>, FieldError>
    ensures read { Reads (λ es. map new_entry es.items) result (entries_in (view list.now)) }
    ensures utf8 { IfOk result (λ es. AreUtf8 (map new_entry es.items)) }
{
    let items = list_of(list)?;
    let mut entries = Vec::with_capacity(alloc, items.len())?;
    for item in items {
        entries.push(entry_of(alloc, item)?)?;
    }
    Ok(entries)
}

/// Returns an entry, with defaults for missing fields.
fn entry_of(alloc: Global, value: &Value) -> Result<NewEntry, FieldError>
    ensures read { Reads new_entry result (entry_in (view value.now)) }
    ensures utf8 { IfOk result (λ e. IsUtf8 (new_entry e).path) }
{
    let entry = read_entry(value)?;
    Ok(NewEntry {
        path: BString::from_slice(alloc, entry.path.as_bytes())?,
        stat: entry.stat,
        id: entry.id,
        flags: entry.flags,
        mode: entry.mode,
    })
}
