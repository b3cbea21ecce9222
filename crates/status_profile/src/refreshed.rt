//! A profile that is written again with another index.

ghost use Rattle.std.specs.Prelude.{◌≡◌, ◌≤◌, IfErr, IfOk};
ghost use Rattle.serde_json.specs.Data.{depth};
ghost use Rattle.serde_json.specs.Read.{max_depth};
ghost use Rattle.serde_json.specs.View.{view};
ghost use Rattle.status_index.specs.States.{index_of, timestamp_of};
ghost use Rattle.status_stored.specs.Storable.{IsStoreRefusal};
ghost use Rattle.status_profile.specs.Refreshed.{IsLineOf, IsUnwritten, refreshed};

use crate::error::ProfileError;
use serde_json::Value;
use status_base::index::State;
use status_stored::{StoreError, with_index};
use std::alloc::Global;

/// Returns the text of a profile with another index, and with all other keys unchanged: compact, each object's keys
/// ascending, and with a line feed. The profile nests as deep as one that was read.
///
/// # Errors
/// An entry's path isn't UTF-8, or memory ran out.
pub fn refreshed_text(alloc: Global, profile: Value, index: State) -> Result<Vec<u8>, ProfileError>
    ensures text { IfOk result (λ line. depth (view profile) ≤ max_depth
        → IsLineOf (refreshed (view profile) (index_of index) (timestamp_of index)) line.items) }
    ensures err { IfErr result (IsUnwritten (index_of index)) }
{
    let refreshed = match profile_with(alloc, profile, &index) {
        Ok(refreshed) => refreshed,
        Err(error) => return Err(ProfileError::of_store(error)),
    };
    // The text takes much memory too.
    drop(index);
    let mut text = refreshed.to_vec(alloc)?;
    text.extend_from_slice(b"\n")?;
    Ok(text)
}

/// Returns a profile with another index.
fn profile_with(alloc: Global, profile: Value, index: &State) -> Result<Value, StoreError>
    ensures value { IfOk result (λ v. view v ≡ refreshed (view profile) (index_of index.now) (timestamp_of index.now)) }
    ensures err { IfErr result (IsStoreRefusal (index_of index.now)) }
{
    match profile {
        Value::Object(members) => Ok(Value::Object(with_index(alloc, members, index)?)),
        other => Ok(other),
    }
}
