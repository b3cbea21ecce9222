//! The JSON value of a text, and what its keys say.

ghost use Rattle.std.specs.Prelude.{◌≡◌, codes};
ghost use Rattle.serde_json.specs.Find.{get};
ghost use Rattle.serde_json.specs.View.{view};
ghost use Rattle.status_index.specs.declared.id.HashKind.TheVariants.{Sha1};
ghost use Rattle.status_format.specs.Reads.{Reads, or_default};
ghost use Rattle.status_profile.specs.Failures.{result_under};
ghost use Rattle.status_profile.specs.Forms.{value_at};
ghost use Rattle.status_profile.specs.Readings.{IsJsonRead, ReadsKeys, under};
ghost use Rattle.status_profile.specs.Words.{hash_in};

use crate::error::{Key, ProfileError};
use crate::form::hash_of;
use serde_json::Value;
use status_base::index::HashKind;
use status_format::FieldError;
use std::alloc::Global;

/// Reads JSON text (RFC 8259, in UTF-8). Of equal keys the last counts.
///
/// # Errors
/// The text isn't JSON, has a number past the range of a float, or nests more than 127 deep. Or memory ran out.
pub fn read_json(alloc: Global, text: &[u8]) -> Result<Value, ProfileError>
    ensures { IsJsonRead text.now result }
{
    match Value::from_slice(alloc, text) {
        Ok(value) => Ok(value),
        Err(error) if error.is_memory() => Err(ProfileError::Memory),
        Err(_) => Err(ProfileError::NotJson),
    }
}

/// Returns what a key says, or the error of the profile.
pub fn under<T: Drop>(key: Key, read: Result<T, FieldError>) -> Result<T, ProfileError>
    ensures { result ≡ result_under key read }
{
    match read {
        Ok(value) => Ok(value),
        Err(FieldError::Form) => Err(ProfileError::Bad(key)),
        Err(FieldError::Memory) => Err(ProfileError::Memory),
    }
}

/// Reads how ids are made.
pub fn read_hash(value: &Value) -> Result<HashKind, ProfileError>
    ensures { ReadsKeys (λ h. h) result (under Key.Hash (or_default hash_in Sha1 (get (codes "hash") (view value.now)))) }
{
    under(Key::Hash, hash_or_sha1(value.get("hash")))
}

/// Reads how ids are made. The default is SHA-1.
fn hash_or_sha1(value: Option<&Value>) -> Result<HashKind, FieldError>
    ensures { Reads (λ h. h) result (or_default hash_in Sha1 (value_at value.entry)) }
{
    match value {
        Some(hash) => hash_of(hash),
        None => Ok(HashKind::Sha1),
    }
}
