//! Reads a field, and the words that name modes, flags and ids, or says why it can't. A field with a default may be
//! missing, but may not have a wrong form.

ghost use Rattle.status_index.specs.declared.mode.Mode.TheVariants.{File};
ghost use Rattle.serde_json.specs.Find.{as_array, as_str, get};
ghost use Rattle.serde_json.specs.View.{items_view, view};
ghost use Rattle.status_format.specs.Reading.{flags_in, id_in, mode_in, number_in, stage_in, stamp_in, time_in};
ghost use Rattle.status_format.specs.Reads.{Reads, needed, or_default, error_of_digits};
ghost use Rattle.std.specs.Prelude.{◌≡◌, option_map};
ghost use Rattle.status_format.specs.Words.{flag_named, id_named, mode_named};
ghost use Rattle.status_format.specs.declared.read.FieldError.TheVariants.{Memory};

use bitflags::Flags as _;
use hex::{FromHex, FromHexError};
use serde_json::Value;
use status_index::{Flags, Mode, Moment, ObjectId, Time};
use std::alloc::{AllocError, AllocFailed};

/// Why a field isn't read, or an entry isn't written.
#[derive(Clone, Copy, Debug, PartialEq, Eq)]
pub enum FieldError {
    /// The field is missing, has a wrong form, or asks for something that isn't supported. Of an entry to write: its path
    /// isn't UTF-8.
    Form,
    /// Memory ran out.
    Memory,
}

impl From<AllocError> for FieldError {
    ghost from_gives = { λ _ e. e ≡ Memory };

    fn from(_error: AllocError) -> FieldError {
        FieldError::Memory
    }
}

impl<T: Drop> From<AllocFailed<T>> for FieldError {
    ghost from_gives = { λ _ e. e ≡ Memory };

    fn from(_refused: AllocFailed<T>) -> FieldError {
        FieldError::Memory
    }
}

impl From<FromHexError> for FieldError {
    ghost from_gives = { λ error e. e ≡ error_of_digits error };

    fn from(error: FromHexError) -> FieldError {
        match error {
            FromHexError::OutOfMemory => FieldError::Memory,
            _ => FieldError::Form,
        }
    }
}

/// Reads a text.
pub fn text_of(value: &Value) -> Result<&str, FieldError>
    ensures { Reads (λ text. text.now) result (as_str (view value.now)) }
{
    value.as_str().ok_or(FieldError::Form)
}

/// Reads the text at a key, which may not be missing.
pub fn text_at<'v>(object: &'v Value, key: &str) -> Result<&'v str, FieldError>
    ensures { Reads (λ text. text.now) result (needed as_str (get key.now (view object.now))) }
{
    match object.get(key) {
        Some(value) => text_of(value),
        None => Err(FieldError::Form),
    }
}

/// Reads a whole number below 2^32, written without a point, an exponent and a sign.
pub fn number_of(value: &Value) -> Result<u32, FieldError>
    ensures { Reads (λ n. n) result (number_in (view value.now)) }
{
    let Some(number) = value.as_u64() else {
        return Err(FieldError::Form);
    };
    match u32::try_from(number) {
        Ok(number) => Ok(number),
        Err(_) => Err(FieldError::Form),
    }
}

/// Reads the number at a key. It is 0 if the key is missing.
pub fn number_at(object: &Value, key: &str) -> Result<u32, FieldError>
    ensures { Reads (λ n. n) result (or_default number_in 0 (get key.now (view object.now))) }
{
    match object.get(key) {
        Some(number) => number_of(number),
        None => Ok(0),
    }
}

/// Reads a list.
pub fn list_of(value: &Value) -> Result<&[Value], FieldError>
    ensures { Reads (λ items. items_view items.now) result (as_array (view value.now)) }
{
    match value.as_array() {
        Some(items) => Ok(items.as_slice()),
        None => Err(FieldError::Form),
    }
}

/// Reads a list of seconds and nanoseconds.
#[tactic(auto, using(crate::proofs::Stamps::two_in_short, crate::proofs::Stamps::two_in_long))]
pub fn time_of(value: &Value) -> Result<Time, FieldError>
    ensures { Reads (λ t. t) result (time_in (view value.now)) }
{
    let [secs, nsecs] = list_of(value)? else {
        return Err(FieldError::Form);
    };
    Ok(Time {
        secs: number_of(secs)?,
        nsecs: number_of(nsecs)?,
    })
}

/// Reads the time at a key. It is `default` if the key is missing.
pub fn time_at(object: &Value, key: &str, default: Time) -> Result<Time, FieldError>
    ensures { Reads (λ t. t) result (or_default time_in default (get key.now (view object.now))) }
{
    match object.get(key) {
        Some(time) => time_of(time),
        None => Ok(default),
    }
}

/// Reads the moment that a list of seconds and nanoseconds is.
pub fn stamp_of(value: &Value) -> Result<Moment, FieldError>
    ensures { Reads (λ m. m) result (stamp_in (view value.now)) }
{
    let Time { secs, nsecs } = time_of(value)?;
    Ok(Moment { secs, nsecs })
}

/// Reads the stage of an entry, 0 to 3. It is 0 if the key is missing.
pub fn stage_at(object: &Value, key: &str) -> Result<u32, FieldError>
    ensures { Reads (λ n. n) result (or_default stage_in 0 (get key.now (view object.now))) }
{
    match object.get(key) {
        Some(stage) => match number_of(stage)? {
            number @ 0..=3 => Ok(number),
            _ => Err(FieldError::Form),
        },
        None => Ok(0),
    }
}

/// Returns the flags `start` together with those that a list names.
fn flags_of(value: &Value, start: Flags) -> Result<Flags, FieldError>
    ensures { Reads (λ f. f.0) result (flags_in start.0 (view value.now)) }
{
    let mut flags = start;
    for word in list_of(value)? {
        match flag_of_word(text_of(word)?) {
            Some(flag) => flags.insert(flag),
            None => return Err(FieldError::Form),
        }
    }
    Ok(flags)
}

/// Reads the flags of an entry at this stage. They are those of the stage alone if the key is missing.
pub fn flags_at(object: &Value, key: &str, stage: Flags) -> Result<Flags, FieldError>
    ensures { Reads (λ f. f.0) result (or_default (flags_in stage.0) stage.0 (get key.now (view object.now))) }
{
    match object.get(key) {
        Some(words) => flags_of(words, stage),
        None => Ok(stage),
    }
}

/// Reads the mode of an entry. It is a file's if the key is missing.
pub fn mode_at(object: &Value, key: &str) -> Result<Mode, FieldError>
    ensures { Reads (λ m. m) result (or_default mode_in File (get key.now (view object.now))) }
{
    let Some(value) = object.get(key) else {
        return Ok(Mode::File);
    };
    mode_of_word(text_of(value)?).ok_or(FieldError::Form)
}

/// Reads an id, whose kind follows from the number of its hexadecimal digits.
pub fn id_of(value: &Value) -> Result<ObjectId, FieldError>
    ensures { Reads (λ id. id) result (id_in (view value.now)) }
{
    id_of_word(text_of(value)?).ok_or(FieldError::Form)
}

/// Reads the id at a key, which may not be missing.
pub fn id_at(object: &Value, key: &str) -> Result<ObjectId, FieldError>
    ensures { Reads (λ id. id) result (needed id_in (get key.now (view object.now))) }
{
    match object.get(key) {
        Some(id) => id_of(id),
        None => Err(FieldError::Form),
    }
}

/// Returns the mode that this word names, if any.
pub fn mode_of_word(word: &str) -> Option<Mode>
    ensures { result ≡ mode_named word.now }
{
    match word {
        "040000" => Some(Mode::Dir),
        "100644" => Some(Mode::File),
        "100755" => Some(Mode::FileExecutable),
        "120000" => Some(Mode::Symlink),
        "160000" => Some(Mode::Commit),
        _ => None,
    }
}

/// Returns the flag that this word names, if any.
pub fn flag_of_word(word: &str) -> Option<Flags>
    ensures { option_map (λ flag. flag.0) result ≡ flag_named word.now }
{
    match word {
        "uptodate" => Some(Flags::UPTODATE),
        "skip-worktree" => Some(Flags::SKIP_WORKTREE),
        "assume-valid" => Some(Flags::ASSUME_VALID),
        "fsmonitor-valid" => Some(Flags::FSMONITOR_VALID),
        "intent-to-add" => Some(Flags::INTENT_TO_ADD),
        _ => None,
    }
}

/// Returns the id of these hexadecimal digits: a SHA-1 id for 40 digits, a SHA-256 id for 64.
pub fn id_of_word(digits: &str) -> Option<ObjectId>
    ensures { result ≡ id_named digits.now }
{
    match digits.len() {
        40 => <[u8; 20]>::from_hex(digits).ok().map(ObjectId::Sha1),
        64 => <[u8; 32]>::from_hex(digits).ok().map(ObjectId::Sha256),
        _ => None,
    }
}
