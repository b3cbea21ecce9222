//! Stored indexes as JSON texts.

use gix_status::index::State;
use serde_json::Value;
use status_stored::{LoadError, load_index, store_index};
use std::alloc::Global;
use std::test::Fail;

/// Loads the index that a JSON text states.
pub fn loaded(alloc: Global, text: &str) -> Result<Result<State, LoadError>, Fail> {
    let value = Value::from_str(alloc, text)?;
    Ok(load_index(alloc, &value))
}

/// Returns the JSON text that an index is stored as.
pub fn stored(alloc: Global, state: &State) -> Result<String, Fail> {
    Ok(store_index(alloc, state)?.to_string(alloc)?)
}
