//! The forms of values in a profile.

ghost use Rattle.std.specs.Prelude.{◌≡◌, []};
ghost use Rattle.serde_json.specs.Find.{as_bool, as_str, get};
ghost use Rattle.serde_json.specs.View.{view};
ghost use Rattle.status_format.specs.Reading.{number_in};
ghost use Rattle.status_format.specs.Reads.{Reads, or_default};
ghost use Rattle.status_profile.specs.Forms.{value_at, object_at, object_or_empty, limit_in, moment_in};
ghost use Rattle.status_profile.specs.Words.{comparer_in, hash_in, kind_in, comparer_named, hash_named, kind_named};

use serde_json::Value;
use status_base::index::HashKind;
use status_base::worktree::NodeKind;
use status_compare::Comparer;
use status_format::FieldError;
use status_format::read::{number_of, stamp_of, text_of};
use status_index::Moment;

/// Reads a truth value.
pub fn truth_of(value: &Value) -> Result<bool, FieldError>
    ensures { Reads (λ b. b) result (as_bool (view value.now)) }
{
    value.as_bool().ok_or(FieldError::Form)
}

/// Reads a moment: a number of seconds, or a list of seconds and nanoseconds.
pub fn moment_of(value: &Value) -> Result<Moment, FieldError>
    ensures { Reads (λ m. m) result (moment_in (view value.now)) }
{
    if !value.is_number() {
        return stamp_of(value);
    }
    Ok(Moment {
        secs: number_of(value)?,
        nsecs: 0,
    })
}

/// Reads the greatest number of workers. Null sets none.
pub fn limit_of(value: &Value) -> Result<Option<usize>, FieldError>
    ensures { Reads (λ limit. limit) result (limit_in (view value.now)) }
{
    if value.is_null() {
        return Ok(None);
    }
    Ok(Some(number_of(value)? as usize))
}

/// Returns the value of a key that must be there.
pub fn required(value: Option<&Value>) -> Result<&Value, FieldError>
    ensures { Reads (λ v. view v.now) result (value_at value.entry) }
{
    value.ok_or(FieldError::Form)
}

/// Reads a number, which is 0 if it is missing.
pub fn number_or_zero(value: Option<&Value>) -> Result<u32, FieldError>
    ensures { Reads (λ n. n) result (or_default number_in 0 (value_at value.entry)) }
{
    match value {
        Some(number) => number_of(number),
        None => Ok(0),
    }
}

/// Reads a truth value, or returns `default` if it is missing.
pub fn truth_or(value: Option<&Value>, default: bool) -> Result<bool, FieldError>
    ensures { Reads (λ b. b) result (or_default as_bool default (value_at value.entry)) }
{
    match value {
        Some(truth) => truth_of(truth),
        None => Ok(default),
    }
}

/// Reads a text, which is empty if it is missing.
pub fn text_or_empty(value: Option<&Value>) -> Result<&str, FieldError>
    ensures { Reads (λ text. text.now) result (or_default as_str [] (value_at value.entry)) }
{
    match value {
        Some(text) => text_of(text),
        None => Ok(""),
    }
}

/// Returns an object that may be missing.
///
/// # Errors
/// It isn't an object.
pub fn object_of(value: Option<&Value>) -> Result<Option<&Value>, FieldError>
    ensures { Reads object_at result (object_or_empty (value_at value.entry)) }
{
    match value {
        Some(Value::Object(_)) | None => Ok(value),
        Some(_) => Err(FieldError::Form),
    }
}

/// Returns the value of a key of an object that may be missing.
pub fn field<'v>(object: Option<&'v Value>, key: &str) -> Option<&'v Value>
    ensures { value_at result ≡ get key.now (object_at object.entry) }
{
    object?.get(key)
}

/// Returns the kind of ids that a word names.
fn hash_of_word(word: &str) -> Option<HashKind>
    ensures { result ≡ hash_named word.now }
{
    match word {
        "sha1" => Some(HashKind::Sha1),
        "sha256" => Some(HashKind::Sha256),
        _ => None,
    }
}

/// Returns the comparer that a word names.
fn comparer_of_word(word: &str) -> Option<Comparer>
    ensures { result ≡ comparer_named word.now }
{
    match word {
        "hash" => Some(Comparer::Hash),
        "fast" => Some(Comparer::Fast),
        _ => None,
    }
}

/// Returns the kind of nodes that a word names.
fn kind_of_word(word: &str) -> Option<NodeKind>
    ensures { result ≡ kind_named word.now }
{
    match word {
        "file" => Some(NodeKind::File),
        "link" => Some(NodeKind::Link),
        "directory" => Some(NodeKind::Directory),
        "other" => Some(NodeKind::Other),
        _ => None,
    }
}

/// Reads how ids are made.
pub fn hash_of(value: &Value) -> Result<HashKind, FieldError>
    ensures { Reads (λ h. h) result (hash_in (view value.now)) }
{
    hash_of_word(text_of(value)?).ok_or(FieldError::Form)
}

/// Reads how files are compared.
pub fn comparer_of(value: &Value) -> Result<Comparer, FieldError>
    ensures { Reads (λ c. c) result (comparer_in (view value.now)) }
{
    comparer_of_word(text_of(value)?).ok_or(FieldError::Form)
}

/// Reads the kind of a node.
pub fn kind_of(value: &Value) -> Result<NodeKind, FieldError>
    ensures { Reads (λ k. k) result (kind_in (view value.now)) }
{
    kind_of_word(text_of(value)?).ok_or(FieldError::Form)
}
